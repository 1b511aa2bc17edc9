//! What a literal adds to a draft.
ghost use Rattle.std.specs.Prelude.{◌≡◌, map, IfOk};
ghost use Rattle.sv_terms.specs.declared.op.Op.TheVariants as any_op;
ghost use Rattle.literal_forms.specs.Past.{IsFitting};
ghost use Rattle.literal_forms.specs.Shapes.{apply, end, seen, shapes, text, ◌⨾◌};
ghost use Rattle.cube_draft.specs.Comparing.{AtomFits, IsGathered, ComparisonFits};
ghost use Rattle.cube_draft.specs.Gathered.{IsLiteralAdded};
ghost use Rattle.cube_draft.specs.Kinds.{affix_said, head_of, own_by};
ghost use Rattle.flat_cubes.specs.Said.{atom_said, constant_said, one_said, pair_said, part_said, row_said, said, string_said};
ghost use Rattle.flat_cubes.specs.declared.variable.Own.TheVariants as any_own;

use crate::meeting::DraftBuilder;
use crate::number_terms::is_linear;
use crate::string_terms::is_string;
use flat_cubes::{By, Own};
use literal_forms::{Literal, Role, Test, head_sort, role_of};
use std::alloc::{AllocError, Global};
use sv_list::Copied;
use sv_terms::{Name, Op, Regex, Sort, Term, Transducer};
use sv_word::Word;

/// Whether a literal is of a written kind.
pub enum LiteralReading {
    /// It is, and what it says was added.
    Written,
    /// It isn't, and nothing was added.
    Outside,
}

/// A function as it stands at the head of an atom of a written kind.
#[derive(Clone, Copy)]
enum AtomHead {
    Equality,
    Order,
    Prefix,
    Suffix,
    Contains,
    Digit,
    Other,
}

fn head_of(op: Op) -> AtomHead
    ensures { result ≡ head_of op }
{
    match role_of(op) {
        Role::Equality => AtomHead::Equality,
        Role::Order(_) => AtomHead::Order,
        Role::Test(Test::Prefix) => AtomHead::Prefix,
        Role::Test(Test::Suffix) => AtomHead::Suffix,
        Role::Test(Test::Contains) => AtomHead::Contains,
        Role::Test(Test::Digit) => AtomHead::Digit,
        Role::Connective | Role::Distinct | Role::Joined(_) | Role::Length | Role::Built(_) =>
            AtomHead::Other,
    }
}

/// How a word stands in another.
#[derive(Clone, Copy)]
enum Affix {
    Prefix,
    Suffix,
    Infix,
}

fn own_by(affix: Affix, word: Word) -> Own
    ensures { result ≡ own_by affix word }
{
    match affix {
        Affix::Prefix => Own::Prefix(word),
        Affix::Suffix => Own::Suffix(word),
        Affix::Infix => Own::Contains(word),
    }
}

impl DraftBuilder {
    /// Adds what a literal says.
    #[tactic(auto, using(crate::proofs::Stated::said_constant, crate::proofs::Stated::said_member, crate::proofs::Stated::said_pair, crate::proofs::Stated::said_applied, crate::proofs::Stated::said_nothing))]
    pub fn add(&mut self, alloc: Global, literal: &Literal) -> Result<LiteralReading, AllocError>
        requires gathered { IsGathered self.old }
        requires fitting { IsFitting literal.now }
        ensures { IfOk result (λ k. IsLiteralAdded self.old self.new (said literal.now) k) }
    {
        let positive = literal.positive;
        match &literal.atom {
            Term::Constant(name, sort) => self.add_constant(alloc, name, *sort, positive),
            Term::InRe(tested, regex) => self.add_member(alloc, tested.get(), regex, positive),
            Term::Related(transducer, read, written) => {
                self.add_pair(alloc, transducer.get(), read.get(), written.get(), positive)
            }
            Term::Apply(op, terms) => self.add_applied(alloc, *op, terms.as_slice(), positive),
            _ => Ok(LiteralReading::Outside),
        }
    }

    fn add_constant(
        &mut self,
        alloc: Global,
        name: &Name,
        sort: Sort,
        value: bool,
    ) -> Result<LiteralReading, AllocError>
        ensures { IfOk result (λ k. IsLiteralAdded self.old self.new (constant_said name.now sort value) k) }
    {
        if sort != Sort::Bool {
            return Ok(LiteralReading::Outside);
        }
        self.value(alloc, name, value)?;
        Ok(LiteralReading::Written)
    }

    #[tactic(auto, using(crate::proofs::Stated::member_added))]
    fn add_member(
        &mut self,
        alloc: Global,
        tested: &Term,
        regex: &Regex,
        positive: bool,
    ) -> Result<LiteralReading, AllocError>
        ensures { IfOk result (λ k. IsLiteralAdded self.old self.new (part_said (seen tested.now) (any_own.InRe regex.now) positive) k) }
    {
        self.add_part(alloc, tested, Own::InRe(regex.copy(alloc)?), positive)
    }

    // The transducer reads the first term and may write the second.
    #[tactic(auto, using(crate::proofs::Stated::pair_not, crate::proofs::Stated::pair_left_not, crate::proofs::Stated::pair_right_not))]
    fn add_pair(
        &mut self,
        alloc: Global,
        transducer: &Transducer,
        read: &Term,
        written: &Term,
        positive: bool,
    ) -> Result<LiteralReading, AllocError>
        ensures { IfOk result (λ k. IsLiteralAdded self.old self.new (pair_said transducer.now (seen read.now) (seen written.now) positive) k) }
    {
        if !positive {
            return Ok(LiteralReading::Outside);
        }
        if !is_string(read) {
            return Ok(LiteralReading::Outside);
        }
        if !is_string(written) {
            return Ok(LiteralReading::Outside);
        }
        let read = self.place(alloc, read)?;
        let written = self.place(alloc, written)?;
        self.define(written, By::Through(transducer.copy(alloc)?, read))?;
        Ok(LiteralReading::Written)
    }

    fn add_applied(
        &mut self,
        alloc: Global,
        op: Op,
        terms: &[Term],
        positive: bool,
    ) -> Result<LiteralReading, AllocError>
        requires gathered { IsGathered self.old }
        requires fitting { AtomFits (apply op (shapes (map seen terms.now))) }
        ensures { IfOk result (λ k. IsLiteralAdded self.old self.new (atom_said (apply op (shapes (map seen terms.now))) positive) k) }
    {
        if terms.len() == 1 {
            return self.add_single(alloc, op, &terms[0], positive);
        }
        if terms.len() == 2 {
            return self.add_double(alloc, op, &terms[0], &terms[1], positive);
        }
        Ok(LiteralReading::Outside)
    }

    #[tactic(auto, using(crate::proofs::Stated::digit_added, crate::proofs::Stated::single_not))]
    fn add_single(
        &mut self,
        alloc: Global,
        op: Op,
        term: &Term,
        positive: bool,
    ) -> Result<LiteralReading, AllocError>
        ensures { IfOk result (λ k. IsLiteralAdded self.old self.new (atom_said (apply op (seen term.now ⨾ end)) positive) k) }
    {
        match head_of(op) {
            AtomHead::Digit => self.add_part(alloc, term, Own::Digit, positive),
            _ => Ok(LiteralReading::Outside),
        }
    }

    #[tactic(auto, using(crate::proofs::Stated::double_equality, crate::proofs::Stated::double_order, crate::proofs::Stated::equality_fits, crate::proofs::Stated::double_prefix, crate::proofs::Stated::double_suffix, crate::proofs::Stated::double_infix, crate::proofs::Stated::double_digit, crate::proofs::Stated::double_not))]
    fn add_double(
        &mut self,
        alloc: Global,
        op: Op,
        left: &Term,
        right: &Term,
        positive: bool,
    ) -> Result<LiteralReading, AllocError>
        requires gathered { IsGathered self.old }
        requires fitting { AtomFits (apply op (seen left.now ⨾ seen right.now ⨾ end)) }
        ensures { IfOk result (λ k. IsLiteralAdded self.old self.new (atom_said (apply op (seen left.now ⨾ seen right.now ⨾ end)) positive) k) }
    {
        match head_of(op) {
            AtomHead::Equality => self.add_equality(alloc, left, right, positive),
            AtomHead::Order => self.add_comparison(alloc, op, left, right, positive),
            AtomHead::Prefix => self.add_affix(alloc, Affix::Prefix, left, right, positive),
            AtomHead::Suffix => self.add_affix(alloc, Affix::Suffix, left, right, positive),
            AtomHead::Contains => self.add_affix(alloc, Affix::Infix, right, left, positive),
            AtomHead::Digit => Ok(LiteralReading::Outside),
            AtomHead::Other => Ok(LiteralReading::Outside),
        }
    }

    // Where a literal stands in a string term; there is no written kind for another term's place.
    #[tactic(auto, using(crate::proofs::Stated::affix_not, crate::proofs::Stated::affix_added))]
    fn add_affix(
        &mut self,
        alloc: Global,
        affix: Affix,
        pattern: &Term,
        term: &Term,
        positive: bool,
    ) -> Result<LiteralReading, AllocError>
        ensures { IfOk result (λ k. IsLiteralAdded self.old self.new (affix_said affix (seen pattern.now) (seen term.now) positive) k) }
    {
        let Term::Text(word) = pattern else {
            return Ok(LiteralReading::Outside);
        };
        let own = own_by(affix, word.copy(alloc)?);
        self.add_part(alloc, term, own, positive)
    }

    // What is said of a string term.
    #[tactic(auto, using(crate::proofs::Stated::part_not, crate::proofs::Stated::part_added))]
    fn add_part(
        &mut self,
        alloc: Global,
        term: &Term,
        own: Own,
        positive: bool,
    ) -> Result<LiteralReading, AllocError>
        ensures { IfOk result (λ k. IsLiteralAdded self.old self.new (part_said (seen term.now) own positive) k) }
    {
        if !is_string(term) {
            return Ok(LiteralReading::Outside);
        }
        let place = self.place(alloc, term)?;
        self.say(place, own, positive)?;
        Ok(LiteralReading::Written)
    }

    #[tactic(auto, using(crate::proofs::Stated::equal_strings, crate::proofs::Stated::equal_numbers, crate::proofs::Stated::unequal_numbers, crate::proofs::Stated::equal_truths, crate::proofs::Stated::equal_languages))]
    fn add_equality(
        &mut self,
        alloc: Global,
        left: &Term,
        right: &Term,
        positive: bool,
    ) -> Result<LiteralReading, AllocError>
        requires gathered { IsGathered self.old }
        requires fitting { AtomFits (apply any_op.Equal (seen left.now ⨾ seen right.now ⨾ end)) }
        ensures { IfOk result (λ k. IsLiteralAdded self.old self.new (atom_said (apply any_op.Equal (seen left.now ⨾ seen right.now ⨾ end)) positive) k) }
    {
        match head_sort(left) {
            Sort::String => self.add_strings(alloc, left, right, positive),
            Sort::Int => {
                if positive {
                    self.add_comparison(alloc, Op::Equal, left, right, true)
                } else {
                    Ok(LiteralReading::Outside)
                }
            }
            Sort::Bool => Ok(LiteralReading::Outside),
            Sort::RegLan => Ok(LiteralReading::Outside),
        }
    }

    // The equality of two string terms.
    fn add_strings(
        &mut self,
        alloc: Global,
        left: &Term,
        right: &Term,
        positive: bool,
    ) -> Result<LiteralReading, AllocError>
        ensures { IfOk result (λ k. IsLiteralAdded self.old self.new (string_said (seen left.now) (seen right.now) positive) k) }
    {
        if let Term::Text(word) = left {
            return self.add_literal(alloc, word, right, positive);
        }
        if let Term::Text(word) = right {
            return self.add_part(alloc, left, Own::Word(word.copy(alloc)?), positive);
        }
        self.add_identity(alloc, left, right, positive)
    }

    // A term is a literal.
    #[tactic(auto, using(crate::proofs::Stated::literal_added))]
    fn add_literal(
        &mut self,
        alloc: Global,
        word: &Word,
        term: &Term,
        positive: bool,
    ) -> Result<LiteralReading, AllocError>
        ensures { IfOk result (λ k. IsLiteralAdded self.old self.new (string_said (text word.now) (seen term.now) positive) k) }
    {
        if let Term::Text(other) = term {
            let same = word.same(other);
            if positive {
                self.hold(same);
                return Ok(LiteralReading::Written);
            }
            self.hold(!same);
            return Ok(LiteralReading::Written);
        }
        self.add_part(alloc, term, Own::Word(word.copy(alloc)?), positive)
    }

    // Two terms that aren't literals are equal; there is no written kind for two that differ.
    #[tactic(auto, using(crate::proofs::Stated::one_not, crate::proofs::Stated::one_left_not, crate::proofs::Stated::one_right_not))]
    fn add_identity(
        &mut self,
        alloc: Global,
        left: &Term,
        right: &Term,
        positive: bool,
    ) -> Result<LiteralReading, AllocError>
        ensures { IfOk result (λ k. IsLiteralAdded self.old self.new (one_said (seen left.now) (seen right.now) positive) k) }
    {
        if !positive {
            return Ok(LiteralReading::Outside);
        }
        if !is_string(left) {
            return Ok(LiteralReading::Outside);
        }
        if !is_string(right) {
            return Ok(LiteralReading::Outside);
        }
        let left = self.place(alloc, left)?;
        let right = self.place(alloc, right)?;
        self.equate(left, right)?;
        Ok(LiteralReading::Written)
    }

    // The comparison of two terms of sort Int.
    #[tactic(auto, using(crate::proofs::Stated::row_left_not, crate::proofs::Stated::row_right_not, crate::proofs::Stated::row_added))]
    fn add_comparison(
        &mut self,
        alloc: Global,
        op: Op,
        left: &Term,
        right: &Term,
        positive: bool,
    ) -> Result<LiteralReading, AllocError>
        requires gathered { IsGathered self.old }
        requires fitting { ComparisonFits op (seen left.now) (seen right.now) positive }
        ensures { IfOk result (λ k. IsLiteralAdded self.old self.new (row_said op (seen left.now) (seen right.now) positive) k) }
    {
        if !is_linear(left) {
            return Ok(LiteralReading::Outside);
        }
        if !is_linear(right) {
            return Ok(LiteralReading::Outside);
        }
        self.count(alloc, left)?;
        self.count(alloc, right)?;
        self.compare(alloc, op, left, right, positive)?;
        Ok(LiteralReading::Written)
    }
}
