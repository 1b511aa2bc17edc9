//! The verdict on assertions.
ghost use Rattle.std.specs.Prelude.{◌≡◌, ◌≤◌, ◌+◌, ◌<◌, ◌^◌, drop, length, IsTrue, IfOk, OnOk, Some};
ghost use Rattle.std.specs.List.{AllByRecursion};
ghost use Rattle.sv_terms.specs.Sorting.{sort_of};
ghost use Rattle.sv_terms.specs.declared.sort.Sort.TheVariants as sort;
ghost use Rattle.assertion_parts.specs.Constants.{ConstantsHaveOneSort};
ghost use Rattle.sv_terms.specs.TransducerSizes.{has_formed};
ghost use Rattle.bool_cubes.specs.Cubes.{cubes_of};
ghost use Rattle.bool_cubes.specs.Laws.{IsClearBool};
ghost use Rattle.bool_cubes.specs.Refusing.{most_numbered};
ghost use Rattle.decide.specs.Passing.{AreKnown, PassesCubes};
ghost use Rattle.decide.specs.Completeness.{MustDecide, IsComplete};
ghost use Rattle.decide.specs.Jobs.{IsAskedCube, IsFolded, IsFoldOf};
ghost use Rattle.decide.specs.Verdicts.{HasOnly, RightVerdict, refused_as};

use crate::batch::{answers, next_batch};
use crate::blocks::Pace;
use crate::cube_job::Shared;
use crate::machines::machines_for;
use crate::passing::{count_contradictory_ahead, count_refuted_ahead};
use crate::tally::{CubeTally, tally_all};
use crate::verdict::{Open, Verdict};
use assertion_parts::{clear_terms, first_opaque, string_literals_are_words};
use bool_cubes::{
    CubeFault, Cubes, cubes_are_counted, cubes_are_exact, literals_fit, literals_have_values,
    literals_pass,
};
use par_phase::Gate;
use std::alloc::{AllocError, Global};
use std::thread::Threads;
use sv_terms::{Term, transducers_are_bounded};

/// The verdict on assertions: terms of sort Bool whose transducers are formed, and in which each name has
/// one sort, as `sort_check` answers them.
///
/// `workers` is how many shares the cubes of a batch are cut into at the most, each done by one thread.
/// Each cube is announced at `gate` before it is done, by its place in its batch.
///
/// More than 1,048,576 cubes are answered where at most so many are left without those that are known to hold an atom
/// and its negation; else the answer is that there are too many.
///
/// Time is linear in the assertions, plus what each cube costs: as many as there are, up to the end of the
/// first batch that ends the search. Memory is that of the assertions' cubes as a tree, of a batch of 64
/// cubes with their answers, of the reasons of all open cubes, and of a machine for each regular expression
/// in the assertions. The only error is want of memory.
pub fn check<R: Threads + Sync, G: Gate + Sync>(
    rt: &R,
    alloc: Global,
    terms: &[Term],
    workers: u32,
    gate: &G,
) -> Result<Verdict, AllocError>
    requires workers { 1 ≤ workers }
    requires sorted { AllByRecursion (λ t. sort_of t ≡ Some sort.Bool) terms.now }
    requires formed { AllByRecursion (λ t. IsTrue (has_formed t)) terms.now }
    requires sorts { ConstantsHaveOneSort terms.now }
    ensures right { IfOk result (RightVerdict terms.now) }
    ensures complete { MustDecide terms.now → IfOk result (IsComplete terms.now) }
    ensures only { IfOk result (HasOnly terms.now) }
    ensures folded { IfOk result (IsFolded terms.now) }
{
    cubes_are_counted();
    cubes_are_exact();
    literals_fit();
    literals_pass();
    literals_have_values();
    transducers_are_bounded();
    let clear = clear_terms(alloc, terms)?;
    string_literals_are_words(clear.as_slice());
    match Cubes::with_few_left(alloc, clear.as_slice()) {
        Ok(cubes) => {
            let kept = machines_for(alloc, clear.as_slice())?;
            let shared = Shared {
                alloc,
                terms,
                kept: &kept,
            };
            answer_all(rt, &shared, clear.as_slice(), cubes, workers, gate)
        }
        Err(fault) => refusal_of(fault),
    }
}

/// The verdict where there is no list of cubes.
fn refusal_of(fault: CubeFault) -> Result<Verdict, AllocError>
    ensures { result ≡ refused_as fault }
{
    match fault {
        CubeFault::Past { left, right } => Ok(Verdict::Unknown(Open::PastForm { left, right })),
        CubeFault::TooMany(count) => Ok(Verdict::Unknown(Open::TooManyCubes(count))),
        CubeFault::Memory(error) => Err(error),
    }
}

/// The answers for all cubes, a batch after another, up to the first batch that ends the search. Those that need
/// no work are passed over.
fn answer_all<R: Threads + Sync, G: Gate + Sync>(
    rt: &R,
    shared: &Shared<'_>,
    clear: &[Term],
    mut cubes: Cubes,
    workers: u32,
    gate: &G,
) -> Result<Verdict, AllocError>
    requires workers { 1 ≤ workers }
    requires few { length cubes ≤ most_numbered }
    requires sorted { AllByRecursion IsClearBool clear.now }
    requires cubes { cubes ≡ cubes_of clear.now }
    requires asked { AllByRecursion (IsAskedCube shared.now.terms.now) cubes }
    ensures { IfOk result (IsFoldOf shared.now.terms.now cubes) }
{
    let alloc = shared.alloc;
    let mut tally = CubeTally::new(alloc, first_opaque(alloc, shared.terms)?);
    let mut pace = Pace::new();
    loop {
        let jobs = next_batch(alloc, shared, &mut cubes)?;
        let outcomes = answers(rt, alloc, jobs.as_slice(), workers, gate)?;
        tally_all(alloc, &mut tally, outcomes)?;
        if tally.ends(jobs.len()) {
            return Ok(tally.into_verdict());
        }
        pass_over(shared, clear, &mut pace, &mut cubes, &mut tally)?;
    }
}

/// How many of the next cubes need no work: they hold an atom and its negation, or, where it is time to ask for it, they
/// share literals that have no values.
fn count_known(
    shared: &Shared<'_>,
    clear: &[Term],
    pace: &mut Pace,
    cubes: &Cubes,
    given: u64,
) -> Result<u64, AllocError>
    requires sorted { AllByRecursion IsClearBool clear.now }
    requires asked { AllByRecursion (IsAskedCube shared.now.terms.now) (cubes_of clear.now) }
    requires left { cubes.now ≡ drop given (cubes_of clear.now) }
    ensures { IfOk result (AreKnown clear.now given) }
{
    let contradictory = count_contradictory_ahead(shared.alloc, cubes)?;
    if contradictory > 0 {
        return Ok(contradictory);
    }
    if !pace.is_due() {
        return Ok(0);
    }
    let refuted = count_refuted_ahead(shared, clear, given)?;
    pace.record(refuted);
    Ok(refuted)
}

/// Passes over the next cubes that need no work.
fn pass_over(
    shared: &Shared<'_>,
    clear: &[Term],
    pace: &mut Pace,
    cubes: &mut Cubes,
    tally: &mut CubeTally,
) -> Result<(), AllocError>
    requires sorted { AllByRecursion IsClearBool clear.now }
    requires asked { AllByRecursion (IsAskedCube shared.now.terms.now) (cubes_of clear.now) }
    requires left { cubes.old ≡ drop tally.old.count (cubes_of clear.now) }
    requires room { tally.old.count + length (drop tally.old.count (cubes_of clear.now)) < 2 ^ 64 }
    ensures { OnOk result (PassesCubes clear.now cubes.old cubes.new tally.old tally.new) }
{
    let known = count_known(shared, clear, pace, cubes, tally.count)?;
    cubes.skip(known);
    tally.pass(known);
    Ok(())
}
