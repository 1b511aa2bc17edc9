//! The places of string terms.
ghost use Rattle.std.specs.Prelude.{◌≡◌, map, IfOk, OnOk};
ghost use Rattle.std.specs.Option.{option_map};
ghost use Rattle.sv_terms.specs.declared.op.Op.TheVariants as any_op;
ghost use Rattle.sv_terms.specs.declared.sort.Sort.{Sort};
ghost use Rattle.sv_terms.specs.declared.term.Term.TheVariants as any_term;
ghost use Rattle.literal_forms.specs.Linear.{before, pieces, written};
ghost use Rattle.literal_forms.specs.Shapes.{end, seen, shapes};
ghost use Rattle.cube_draft.specs.Gathered.{ArePieced, IsTermMet};
ghost use Rattle.cube_draft.specs.Kinds.{literals_of, replaced_by};
ghost use Rattle.cube_draft.specs.Strings.{replacer};

use crate::meeting::{DraftBuilder, TermPlace};
use crate::string_terms::{Occurrences, PlaceBuild, build_of};
use flat_cubes::By;
use std::alloc::{AllocError, Global};
use sv_list::Items;
use sv_terms::{Name, Term};
use sv_word::Word;

impl DraftBuilder {
    /// The place of a string term; nested concatenations are read as one. A term that came before, literals aside,
    /// keeps its place; a new one is put before its arguments. A term of no written form has a place that isn't there.
    #[cycle(terms)]
    #[tactic(auto, using(crate::proofs::Placing::replaces_as))]
    pub fn place(&mut self, alloc: Global, term: &Term) -> Result<u32, AllocError>
        ensures met { IfOk result (λ i. IsTermMet self.old self.new (written (seen term.now)) i) }
        ensures numbers { OnOk result (self.new.numbers ≡ self.old.numbers) }
    {
        match term {
            Term::Text(word) => self.literal(word.copy(alloc)?),
            Term::Constant(name, _) => self.constant(alloc, term, name),
            Term::Apply(op, terms) => match build_of(*op) {
                PlaceBuild::Concat => self.concat(alloc, term, terms.as_slice()),
                PlaceBuild::Replace(occurrences) => {
                    self.replace(alloc, occurrences, term, terms.as_slice())
                }
                PlaceBuild::Nothing => self.next_place(),
            },
            _ => self.next_place(),
        }
    }

    #[tactic(auto, using(crate::proofs::Placing::constant_no_text, crate::proofs::Placing::constant_name, crate::proofs::Placing::constant_is_known, crate::proofs::Placing::constant_is_new))]
    fn constant(&mut self, alloc: Global, term: &Term, name: &Name) -> Result<u32, AllocError>
        requires { (sort : Sort) × (term.now ≡ any_term.Constant name.now sort) }
        ensures met { IfOk result (λ i. IsTermMet self.old self.new (written (seen term.now)) i) }
        ensures numbers { OnOk result (self.new.numbers ≡ self.old.numbers) }
    {
        let name = name.copy(alloc)?;
        match self.seek(alloc, term, Some(name))? {
            TermPlace::Known(place) | TermPlace::New(place) => Ok(place),
        }
    }

    #[cycle(terms)]
    fn concat(&mut self, alloc: Global, term: &Term, terms: &[Term]) -> Result<u32, AllocError>
        requires { term.now ≡ any_term.Apply any_op.Concat terms.now }
        ensures met { IfOk result (λ i. IsTermMet self.old self.new (written (seen term.now)) i) }
        ensures numbers { OnOk result (self.new.numbers ≡ self.old.numbers) }
    {
        match self.seek(alloc, term, None)? {
            TermPlace::Known(place) => Ok(place),
            TermPlace::New(place) => {
                let mut places = Items::new(alloc);
                self.pieces(alloc, terms, &mut places)?;
                self.define(place, By::Concat(places))?;
                Ok(place)
            }
        }
    }

    // The places of the pieces, behind those of earlier ones.
    #[cycle(terms)]
    #[tactic(auto, using(crate::proofs::Placing::pieced_none))]
    fn pieces(
        &mut self,
        alloc: Global,
        terms: &[Term],
        places: &mut Items<u32>,
    ) -> Result<(), AllocError>
        ensures met { OnOk result (ArePieced self.old self.new (pieces (shapes (map seen terms.now))) places.old places.new) }
        ensures numbers { OnOk result (self.new.numbers ≡ self.old.numbers) }
    {
        for i in 0..terms.len() {
            self.piece(alloc, &terms[i], places)?;
        }
        Ok(())
    }

    #[cycle(terms)]
    fn piece(
        &mut self,
        alloc: Global,
        term: &Term,
        places: &mut Items<u32>,
    ) -> Result<(), AllocError>
        ensures met { OnOk result (ArePieced self.old self.new (before (written (seen term.now)) end) places.old places.new) }
        ensures numbers { OnOk result (self.new.numbers ≡ self.old.numbers) }
    {
        match term {
            Term::Apply(op, terms) => match build_of(*op) {
                PlaceBuild::Concat => self.pieces(alloc, terms.as_slice(), places),
                _ => places.push(self.place(alloc, term)?),
            },
            _ => places.push(self.place(alloc, term)?),
        }
    }

    // A replacement of a literal by a literal.
    #[cycle(terms)]
    #[tactic(auto, using(crate::proofs::Placing::literals_three))]
    fn replace(
        &mut self,
        alloc: Global,
        occurrences: Occurrences,
        term: &Term,
        terms: &[Term],
    ) -> Result<u32, AllocError>
        requires { term.now ≡ any_term.Apply (replacer occurrences) terms.now }
        ensures met { IfOk result (λ i. IsTermMet self.old self.new (written (seen term.now)) i) }
        ensures numbers { OnOk result (self.new.numbers ≡ self.old.numbers) }
    {
        let Some((pattern, replacement)) = literals(terms) else {
            return self.next_place();
        };
        match self.seek(alloc, term, None)? {
            TermPlace::Known(place) => Ok(place),
            TermPlace::New(place) => {
                let inner = self.place(alloc, &terms[0])?;
                let by = replace_by(alloc, occurrences, pattern, replacement, inner)?;
                self.define(place, by)?;
                Ok(place)
            }
        }
    }
}

/// How the word of a replacement comes from that of the variable in which it replaces.
fn replace_by(
    alloc: Global,
    occurrences: Occurrences,
    pattern: &Word,
    replacement: &Word,
    read: u32,
) -> Result<By, AllocError>
    ensures { IfOk result (λ by. by ≡ replaced_by occurrences pattern.now replacement.now read) }
{
    let pattern = pattern.copy(alloc)?;
    let replacement = replacement.copy(alloc)?;
    match occurrences {
        Occurrences::First => Ok(By::First(pattern, replacement, read)),
        Occurrences::All => Ok(By::All(pattern, replacement, read)),
    }
}

/// The literals behind the first of three arguments.
#[tactic(auto, using(crate::proofs::Placing::literals_not, crate::proofs::Placing::literals_first_not, crate::proofs::Placing::literals_second_not, crate::proofs::Placing::literals_some))]
fn literals(terms: &[Term]) -> Option<(&Word, &Word)>
    ensures { option_map (λ p. (p.0.now, p.1.now)) result ≡ literals_of (shapes (map seen terms.now)) }
{
    if terms.len() != 3 {
        return None;
    }
    let Term::Text(pattern) = &terms[1] else {
        return None;
    };
    let Term::Text(replacement) = &terms[2] else {
        return None;
    };
    Some((pattern, replacement))
}
