//! Cubes that need no work: those that hold an atom and its negation, and those that share literals which have no values.
ghost use Rattle.std.specs.Prelude.{◌≡◌, ℕ, ◌≤◌, IfOk, IsTrue, List, drop, length};
ghost use Rattle.std.specs.List.{AllByRecursion};
ghost use Rattle.bool_cubes.specs.Cubes.{cubes_of};
ghost use Rattle.bool_cubes.specs.Laws.{IsClearBool};
ghost use Rattle.decide.specs.CubeValues.{CubeHasNoValues};
ghost use Rattle.decide.specs.Passing.{AreKnown};
ghost use Rattle.decide.specs.Jobs.{IsAskedCube};
ghost use Rattle.sv_terms.specs.declared.term.Term.{Term as AnyTerm};

use crate::blocks::{block_of, count_ahead, longest_choice, shared_literals};
use crate::cube_job::{Shared, answer_for};
use crate::tally::BATCH;
use bool_cubes::{Cubes, contradictions_are_false, cubes_are_counted, cubes_are_picked};
use cube_search::CubeAnswer;
use literal_forms::Cube;
use std::alloc::{AllocError, Global};
use sv_terms::Term;

/// Whether no values make the literals true, as far as is found.
fn has_no_values(shared: &Shared<'_>, cube: &Cube) -> Result<bool, AllocError>
    requires { IsAskedCube shared.now.terms.now cube.now }
    ensures { IfOk result (λ refuted. IsTrue refuted → CubeHasNoValues cube.now) }
{
    match answer_for(shared, cube)? {
        CubeAnswer::Unsat(_) => Ok(true),
        CubeAnswer::Sat(_) => Ok(false),
        CubeAnswer::Open(_) => Ok(false),
    }
}

/// How many of the cubes behind so many have no values, by what they share with the first of them: its choice for
/// the first terms, and what leaves no choice.
fn count_refuted_by(
    shared: &Shared<'_>,
    terms: &[Term],
    given: u64,
    first: usize,
) -> Result<u64, AllocError>
    requires sorted { AllByRecursion IsClearBool terms.now }
    requires asked { AllByRecursion (IsAskedCube shared.now.terms.now) (cubes_of terms.now) }
    requires first { first ≤ length terms.now }
    ensures { IfOk result (AreKnown terms.now given) }
{
    cubes_are_counted();
    cubes_are_picked();
    let block = block_of(shared.alloc, terms, first)?;
    let cubes = count_ahead(block, given);
    if cubes == 0 {
        return Ok(0);
    }
    match shared_literals(shared.alloc, terms, first, given / block)? {
        None => Ok(0),
        Some(cube) => {
            if has_no_values(shared, &cube)? {
                Ok(cubes)
            } else {
                Ok(0)
            }
        }
    }
}

/// How many of the cubes behind so many need no work, in whole batches: they share literals that have no values.
///
/// The least number of first terms whose literals tell it is sought by halving, from the greatest whose block goes
/// on for a batch. So it costs one answer where nothing comes of it, else one for each halving besides.
pub fn count_refuted_ahead(
    shared: &Shared<'_>,
    terms: &[Term],
    given: u64,
) -> Result<u64, AllocError>
    requires sorted { AllByRecursion IsClearBool terms.now }
    requires asked { AllByRecursion (IsAskedCube shared.now.terms.now) (cubes_of terms.now) }
    ensures { IfOk result (AreKnown terms.now given) }
{
    let mut least = 0;
    let mut most = longest_choice(shared.alloc, terms, given)?;
    let mut cubes = count_refuted_by(shared, terms, given, most)?;
    if cubes == 0 {
        return Ok(0);
    }
    while least < most {
        let middle = least + (most - least) / 2;
        let more = count_refuted_by(shared, terms, given, middle)?;
        if more > 0 {
            cubes = more;
            most = middle;
        } else {
            least = middle + 1;
        }
    }
    Ok(cubes)
}

/// How many of the next cubes need no work, in whole batches: each holds an atom and its negation.
pub fn count_contradictory_ahead(alloc: Global, cubes: &Cubes) -> Result<u64, AllocError>
    ensures { IfOk result (λ known. (terms : List AnyTerm) (given : ℕ) → cubes.now ≡ drop given (cubes_of terms) → AreKnown terms given known) }
{
    contradictions_are_false();
    let found = cubes.count_contradictory(alloc)?;
    Ok(found / (BATCH as u64) * (BATCH as u64))
}
