//! The nodes of terms.
ghost use Rattle.std.specs.Prelude.{◌≡◌, ℕ, ◌<◌, IfOk, List, ◌+◌, ◌++◌, drop, false, length, slice_index_or};
ghost use Rattle.sv_terms.specs.declared.op.Op.TheVariants as op;
ghost use Rattle.sv_terms.specs.declared.sort.Sort.TheVariants as sort;
ghost use Rattle.sv_terms.specs.declared.term.Term.{Term as AnyTerm};
ghost use Rattle.bool_cubes.specs.Arguments.{first_pairs, formulas_of, part_of, parts_of};
ghost use Rattle.bool_cubes.specs.Nodes.{AreOf, IsLonger, IsPlan, IsPlanned, HasBothTrees};
ghost use Rattle.bool_cubes.specs.Planned.{AreBooleanSides, HasSide};
ghost use Rattle.literal_forms.specs.Shapes.{head_sort, seen};
ghost use Rattle.bool_cubes.specs.Trees.{Formula, applied, chain, conjunction, disjunction, equal, exclusive, formula, implied, negated, neighbours, pairs};

use crate::node::NodePair;
use crate::plan::Plan;
use literal_forms::head_sort;
use std::alloc::{AllocError, Global};
use sv_list::Items;
use sv_terms::{Op, Sort, Term};

/// The nodes of a term and of its negation.
#[cycle(planning)]
pub fn term_sides(plan: &mut Plan, alloc: Global, term: &Term) -> Result<NodePair, AllocError>
    requires { IsPlan plan.old.nodes }
    ensures { IfOk result (λ s. IsPlanned plan.old.nodes plan.new.nodes s (formula (seen term.now))) }
{
    match term {
        Term::Truth(b) => plan.settle(*b),
        Term::Apply(op, terms) => applied_sides(plan, alloc, *op, terms.as_slice(), term),
        _ => plan.atom(alloc, term),
    }
}

/// The nodes of a function at these arguments, which are those of `term`.
#[cycle(planning)]
fn applied_sides(
    plan: &mut Plan,
    alloc: Global,
    op: Op,
    terms: &[Term],
    term: &Term,
) -> Result<NodePair, AllocError>
    requires { IsPlan plan.old.nodes }
    ensures { IfOk result (λ s. IsPlanned plan.old.nodes plan.new.nodes s (applied op (parts_of terms.now) term.now)) }
{
    match op {
        Op::Not => opposite_sides(plan, alloc, terms, term),
        Op::And => all_sides(plan, alloc, terms),
        Op::Or => any_sides(plan, alloc, terms),
        Op::Xor => exclusive_sides(plan, alloc, terms),
        Op::Implies => implied_sides(plan, alloc, terms),
        Op::Equal => equal_sides(plan, alloc, terms),
        Op::Distinct => distinct_sides(plan, alloc, terms),
        Op::IfThenElse => choice_sides(plan, alloc, terms, term),
        Op::LessEqual | Op::Less | Op::GreaterEqual | Op::Greater => {
            chain_sides(plan, alloc, op, terms)
        }
        Op::Add
        | Op::Subtract
        | Op::Multiply
        | Op::Length
        | Op::Concat
        | Op::Replace
        | Op::ReplaceAll
        | Op::PrefixOf
        | Op::SuffixOf
        | Op::Contains
        | Op::IsDigit => plan.atom(alloc, term),
    }
}

#[cycle(planning)]
fn opposite_sides(
    plan: &mut Plan,
    alloc: Global,
    terms: &[Term],
    term: &Term,
) -> Result<NodePair, AllocError>
    requires { IsPlan plan.old.nodes }
    ensures { IfOk result (λ s. IsPlanned plan.old.nodes plan.new.nodes s (applied op.Not (parts_of terms.now) term.now)) }
{
    if terms.len() == 1 {
        Ok(term_sides(plan, alloc, &terms[0])?.negation())
    } else {
        plan.atom(alloc, term)
    }
}

#[cycle(planning)]
fn choice_sides(
    plan: &mut Plan,
    alloc: Global,
    terms: &[Term],
    term: &Term,
) -> Result<NodePair, AllocError>
    requires { IsPlan plan.old.nodes }
    ensures { IfOk result (λ s. IsPlanned plan.old.nodes plan.new.nodes s (applied op.IfThenElse (parts_of terms.now) term.now)) }
{
    if terms.len() == 3 {
        let test = term_sides(plan, alloc, &terms[0])?;
        let first = term_sides(plan, alloc, &terms[1])?;
        let second = term_sides(plan, alloc, &terms[2])?;
        plan.choice(test, first, second)
    } else {
        plan.atom(alloc, term)
    }
}

/// The nodes of the and of terms.
#[cycle(planning)]
#[tactic(auto, using(crate::proofs::Plans::stands_of, crate::proofs::Plans::stands_longer, crate::proofs::Plans::plan_of))]
pub fn all_sides(plan: &mut Plan, alloc: Global, terms: &[Term]) -> Result<NodePair, AllocError>
    requires { IsPlan plan.old.nodes }
    ensures { IfOk result (λ s. IsPlanned plan.old.nodes plan.new.nodes s (conjunction (formulas_of terms.now))) }
{
    let mut all = plan.settle(true)?;
    for i in (0..terms.len()).rev() {
        let next = term_sides(plan, alloc, &terms[i])?;
        all = plan.and(next, all)?;
    }
    Ok(all)
}

#[cycle(planning)]
#[tactic(auto, using(crate::proofs::Plans::stands_of, crate::proofs::Plans::stands_longer, crate::proofs::Plans::plan_of))]
fn any_sides(plan: &mut Plan, alloc: Global, terms: &[Term]) -> Result<NodePair, AllocError>
    requires { IsPlan plan.old.nodes }
    ensures { IfOk result (λ s. IsPlanned plan.old.nodes plan.new.nodes s (disjunction (formulas_of terms.now))) }
{
    let mut any = plan.settle(false)?;
    for i in (0..terms.len()).rev() {
        let next = term_sides(plan, alloc, &terms[i])?;
        any = plan.or(next, any)?;
    }
    Ok(any)
}

// From the left: `xor` is the negation of an agreement.
#[cycle(planning)]
#[tactic(auto, using(crate::proofs::Steps::exclusive_first, crate::proofs::Plans::stands_of, crate::proofs::Plans::stands_longer, crate::proofs::Plans::plan_of))]
fn exclusive_sides(plan: &mut Plan, alloc: Global, terms: &[Term]) -> Result<NodePair, AllocError>
    requires { IsPlan plan.old.nodes }
    ensures { IfOk result (λ s. IsPlanned plan.old.nodes plan.new.nodes s (exclusive (formulas_of terms.now))) }
{
    if terms.is_empty() {
        return plan.settle(false);
    }
    let mut odd = term_sides(plan, alloc, &terms[0])?;
    for i in 1..terms.len() {
        let next = term_sides(plan, alloc, &terms[i])?;
        odd = plan.agreement(odd, next)?.negation();
    }
    Ok(odd)
}

// From the right: the negation of one, or what the terms behind it give.
#[cycle(planning)]
#[tactic(auto, using(crate::proofs::Steps::implied_last_one, crate::proofs::Plans::stands_of, crate::proofs::Plans::stands_longer, crate::proofs::Plans::plan_of))]
fn implied_sides(plan: &mut Plan, alloc: Global, terms: &[Term]) -> Result<NodePair, AllocError>
    requires { IsPlan plan.old.nodes }
    ensures { IfOk result (λ s. IsPlanned plan.old.nodes plan.new.nodes s (implied (formulas_of terms.now))) }
{
    if terms.is_empty() {
        return plan.settle(true);
    }
    let last = terms.len() - 1;
    let mut any = term_sides(plan, alloc, &terms[last])?;
    for i in (0..last).rev() {
        let next = term_sides(plan, alloc, &terms[i])?;
        any = plan.implication(next, any)?;
    }
    Ok(any)
}

/// Whether a term of sort Bool is among these.
fn have_boolean(terms: &[Term]) -> bool
    ensures { result ≡ false → (k : ℕ) (t : AnyTerm) → k < length terms.now → t ≡ slice_index_or terms.now k t → head_sort (seen t) ≡ sort.Bool → ⊥ }
{
    for i in 0..terms.len() {
        if head_sort(&terms[i]) == Sort::Bool {
            return true;
        }
    }
    false
}

/// The nodes of all these terms where one has sort Bool, else none.
#[cycle(planning)]
#[tactic(auto, using(crate::proofs::Steps::sides_step, crate::proofs::Plans::longer_trans, crate::proofs::Plans::plan_of))]
fn boolean_sides(
    plan: &mut Plan,
    alloc: Global,
    terms: &[Term],
) -> Result<Items<NodePair>, AllocError>
    requires { IsPlan plan.old.nodes }
    ensures longer { IfOk result (λ all. IsLonger plan.old.nodes plan.new.nodes) }
    ensures sides { IfOk result (λ all. AreBooleanSides plan.new.nodes terms.now all) }
{
    let mut all = Items::new(alloc);
    if !have_boolean(terms) {
        return Ok(all);
    }
    for term in terms {
        all.push(term_sides(plan, alloc, term)?)?;
    }
    Ok(all)
}

/// The nodes of the equality of two terms, whose own sides are at these places where the first has sort Bool.
#[tactic(auto, using(crate::proofs::Plans::stands_of))]
fn pair_sides(
    plan: &mut Plan,
    alloc: Global,
    left: &Term,
    right: &Term,
    sides: &[NodePair],
    i: usize,
    j: usize,
) -> Result<NodePair, AllocError>
    requires plan { IsPlan plan.old.nodes }
    requires left { head_sort (seen left.now) ≡ sort.Bool → HasSide plan.old.nodes sides.now i left.now }
    requires right { head_sort (seen left.now) ≡ sort.Bool → HasSide plan.old.nodes sides.now j right.now }
    ensures { IfOk result (λ s. IsPlanned plan.old.nodes plan.new.nodes s (equal (part_of left.now) (part_of right.now))) }
{
    match head_sort(left) {
        Sort::Bool => plan.agreement(sides[i], sides[j]),
        Sort::Int => plan.equal_numbers(alloc, left, right),
        Sort::String | Sort::RegLan => plan.comparison(alloc, Op::Equal, left, right),
    }
}

#[cycle(planning)]
#[tactic(auto, using(crate::proofs::Steps::equal_none, crate::proofs::Steps::boolean_longer, crate::proofs::Plans::stands_of, crate::proofs::Plans::stands_longer, crate::proofs::Plans::plan_of))]
fn equal_sides(plan: &mut Plan, alloc: Global, terms: &[Term]) -> Result<NodePair, AllocError>
    requires { IsPlan plan.old.nodes }
    ensures { IfOk result (λ s. IsPlanned plan.old.nodes plan.new.nodes s (conjunction (neighbours equal (parts_of terms.now)))) }
{
    let known = boolean_sides(plan, alloc, terms)?;
    let sides = known.as_slice();
    let mut all = plan.settle(true)?;
    for i in (1..terms.len()).rev() {
        let (left, right) = (&terms[i - 1], &terms[i]);
        let next = pair_sides(plan, alloc, left, right, sides, i - 1, i)?;
        all = plan.and(next, all)?;
    }
    Ok(all)
}

#[cycle(planning)]
#[tactic(auto, using(crate::proofs::Steps::pairs_none, crate::proofs::Steps::boolean_longer, crate::proofs::Plans::stands_of, crate::proofs::Plans::stands_longer, crate::proofs::Plans::plan_of))]
fn distinct_sides(plan: &mut Plan, alloc: Global, terms: &[Term]) -> Result<NodePair, AllocError>
    requires { IsPlan plan.old.nodes }
    ensures { IfOk result (λ s. IsPlanned plan.old.nodes plan.new.nodes s (conjunction (pairs (λ p q. negated (equal p q)) (parts_of terms.now)))) }
{
    let known = boolean_sides(plan, alloc, terms)?;
    let sides = known.as_slice();
    let mut all = plan.settle(true)?;
    for i in (0..terms.len()).rev() {
        all = first_sides(plan, alloc, terms, sides, i, all)?;
    }
    Ok(all)
}

/// The nodes of the and of what is given and of this: the term at `i` differs from each behind it.
#[tactic(auto, using(crate::proofs::Plans::stands_of, crate::proofs::Plans::stands_longer, crate::proofs::Plans::plan_of))]
fn first_sides(
    plan: &mut Plan,
    alloc: Global,
    terms: &[Term],
    sides: &[NodePair],
    i: usize,
    rest: NodePair,
) -> Result<NodePair, AllocError>
    requires plan { IsPlan plan.old.nodes }
    requires sides { AreBooleanSides plan.old.nodes terms.now sides.now }
    requires i { i < length terms.now }
    requires rest { AreOf plan.old.nodes rest }
    ensures longer { IfOk result (λ s. IsLonger plan.old.nodes plan.new.nodes) }
    ensures formula { (t : AnyTerm) (fs : List Formula) → t ≡ slice_index_or terms.now i t → HasBothTrees plan.old.nodes rest (conjunction fs) → IfOk result (λ s. IsPlanned plan.old.nodes plan.new.nodes s (conjunction (first_pairs t (drop (i + 1) terms.now) ++ fs))) }
{
    let first = &terms[i];
    let mut all = rest;
    for j in (i + 1..terms.len()).rev() {
        let next = pair_sides(plan, alloc, first, &terms[j], sides, i, j)?.negation();
        all = plan.and(next, all)?;
    }
    Ok(all)
}

/// The nodes of the comparisons of neighbouring terms.
#[tactic(auto, using(crate::proofs::Plans::stands_of, crate::proofs::Plans::stands_longer, crate::proofs::Plans::plan_of))]
fn chain_sides(
    plan: &mut Plan,
    alloc: Global,
    op: Op,
    terms: &[Term],
) -> Result<NodePair, AllocError>
    requires { IsPlan plan.old.nodes }
    ensures { IfOk result (λ s. IsPlanned plan.old.nodes plan.new.nodes s (chain op (parts_of terms.now))) }
{
    let mut all = plan.settle(true)?;
    for i in (1..terms.len()).rev() {
        let next = plan.comparison(alloc, op, &terms[i - 1], &terms[i])?;
        all = plan.and(next, all)?;
    }
    Ok(all)
}
