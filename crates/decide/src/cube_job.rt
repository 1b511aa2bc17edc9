//! One cube of some assertions, as a job.
ghost use Rattle.std.specs.Prelude.{◌≡◌, ◌<◌, ◌^◌, length, Err, IfOk, IfSome};
ghost use Rattle.flat_cubes.specs.Flattening.{IsFlattened, IsFlattening};
ghost use Rattle.flat_cubes.specs.Straight.{AreNamesApart};
ghost use Rattle.cube_search.specs.declared.answer.CubeAnswer.TheVariants.{Open, Unsat};
ghost use Rattle.cube_search.specs.declared.reason.OpenReason.TheVariants.{Fragment};
ghost use Rattle.decide.specs.Folds.{refutation};
ghost use Rattle.decide.specs.Jobs.{IsAskedCube, IsOutcome, refused_answer};

use crate::crooked::is_refuted_by_part;
use assertion_parts::complete;
use bool_cubes::{contradictions_are_false, is_contradictory};
use cube_bounds::numbers;
use cube_search::{CubeAnswer, OpenReason, Refutation, Shown, cube_answer, rows_count};
use flat_cubes::{Flat, FlatFault};
use length_parts::{has_length_rows, with_length_parts};
use length_rows::contradict;
use literal_forms::Cube;
use par_phase::Job;
use part_machines::Machines;
use std::alloc::{AllocError, Global};
use std::marker::Model;
use straight_line::{
    flat_cubes_are_exact, flat_cubes_are_unique, flatten, names_are_sorted,
    refusals_have_no_flat_cube, transducers_are_formed,
};
use sv_terms::Term;

/// What all jobs of some assertions have.
#[derive(Drop)]
pub struct Shared<'a> {
    pub alloc: Global,
    pub terms: &'a [Term],
    /// The machines that all jobs share.
    pub kept: &'a Machines,
}

/// A cube of some assertions, to be answered.
///
/// Contracts see the assertions and the cube.
#[derive(Drop)]
pub struct CubeJob<'a> {
    pub shared: &'a Shared<'a>,
    pub cube: Cube,
}

impl<'a> Model for CubeJob<'a> {
    ghost use Rattle.std.specs.Prelude.{List};
    ghost use Rattle.std.specs.Coded.{codes};
    ghost use Rattle.sv_terms.specs.contracts.regex.Regex as regex;
    ghost use Rattle.sv_terms.specs.contracts.term.Term as term;
    ghost use Rattle.sv_terms.specs.declared.term.Term.{Term as AnyTerm};
    ghost use Rattle.literal_forms.specs.declared.literal.Cube.{Cube as AnyCube};
    ghost use Rattle.decide.specs.Jobs.{IsAskedCube};

    ghost Value = { List AnyTerm × AnyCube };

    ghost coded = { Prim.hlevel (codes, regex.the_row.coded, term.the_row.coded) };

    ghost view = { λ job. (job.shared.now.terms.now, job.cube) };

    ghost invariant = { λ job. IsAskedCube job.shared.now.terms.now job.cube };
}

impl Job for CubeJob<'_> {
    type Out = Result<CubeAnswer, AllocError>;

    ghost use Rattle.std.specs.Prelude.{IfOk};
    ghost use Rattle.decide.specs.Jobs.{IsOutcome};

    ghost Yields = { λ job outcome. IfOk outcome (IsOutcome job.0 job.1) };

    fn work(&self) -> Result<CubeAnswer, AllocError> {
        answer_for(self.shared, &self.cube)
    }
}

/// The answer for a cube that has no values, for which no leaf was closed.
fn without_leaf() -> CubeAnswer
    ensures { result ≡ Unsat (refutation 0 0 0) }
{
    CubeAnswer::Unsat(Refutation {
        empty: 0,
        trees: 0,
        boxes: 0,
    })
}

/// The answer for a cube of the terms: none where it holds an atom and its negation, else of its flat cube, or why it
/// has none.
pub fn answer_for(shared: &Shared<'_>, cube: &Cube) -> Result<CubeAnswer, AllocError>
    requires asked { IsAskedCube shared.now.terms.now cube.now }
    ensures { IfOk result (IsOutcome shared.now.terms.now cube.now) }
{
    refusals_have_no_flat_cube();
    contradictions_are_false();
    let found = is_contradictory(shared.alloc, cube.literals.as_slice())?;
    if found {
        return Ok(without_leaf());
    }
    match flatten(shared.alloc, cube) {
        Ok(flat) => straight_answer(shared, cube, flat),
        Err(FlatFault::Memory(error)) => Err(error),
        Err(fault) => crooked_answer(shared, cube, fault),
    }
}

/// The answer for a cube that isn't straight: none where some of its literals have no values together, else why it isn't.
fn crooked_answer(
    shared: &Shared<'_>,
    cube: &Cube,
    fault: FlatFault,
) -> Result<CubeAnswer, AllocError>
    requires asked { IsAskedCube shared.now.terms.now cube.now }
    requires refused { IsFlattened cube.now.literals (Err fault) }
    ensures { IfOk result (IsOutcome shared.now.terms.now cube.now) }
{
    refusals_have_no_flat_cube();
    let refuted = is_refuted_by_part(shared, cube)?;
    if refuted {
        return Ok(without_leaf());
    }
    refuse(fault)
}

/// The answer for a cube that has no flat cube.
fn refuse(fault: FlatFault) -> Result<CubeAnswer, AllocError>
    ensures { result ≡ refused_answer fault }
{
    match fault {
        FlatFault::Outside(literal) => Ok(fragment(Shown::Outside(literal))),
        FlatFault::Twice(variable) => Ok(fragment(Shown::Twice(variable))),
        FlatFault::Cycle(variables) => Ok(fragment(Shown::Cycle(variables))),
        FlatFault::Wide(number) => Ok(CubeAnswer::Open(OpenReason::Wide(number))),
        FlatFault::Memory(error) => Err(error),
    }
}

fn fragment(shown: Shown) -> CubeAnswer
    ensures { result ≡ Open (Fragment shown) }
{
    CubeAnswer::Open(OpenReason::Fragment(shown))
}

/// The answer for a straight cube: none where its rows and lengths contradict one another, else what the search finds
/// with bounds on lengths as parts, or else as they stand.
pub fn straight_answer(
    shared: &Shared<'_>,
    cube: &Cube,
    flat: Flat,
) -> Result<CubeAnswer, AllocError>
    requires asked { IsAskedCube shared.now.terms.now cube.now }
    requires flattening { IsFlattening cube.now.literals flat }
    requires apart { AreNamesApart flat }
    requires few { length flat.variables < 2 ^ 32 }
    ensures { IfOk result (IsOutcome shared.now.terms.now cube.now) }
{
    flat_cubes_are_exact();
    let refuted = contradict(shared.alloc, &flat)?;
    if refuted {
        return Ok(without_leaf());
    }
    if !has_length_rows(&flat) {
        let answer = flat_answer(shared, cube, &flat)?;
        return Ok(answer);
    }
    match bounded_answer(shared, cube, flat)? {
        Some(answer) => Ok(answer),
        None => answer_as_it_stands(shared, cube),
    }
}

/// The answer for a cube by its flat cube with bounds on lengths as parts. `None` where that is left open.
fn bounded_answer(
    shared: &Shared<'_>,
    cube: &Cube,
    flat: Flat,
) -> Result<Option<CubeAnswer>, AllocError>
    requires asked { IsAskedCube shared.now.terms.now cube.now }
    requires flattening { IsFlattening cube.now.literals flat }
    requires apart { AreNamesApart flat }
    requires few { length flat.variables < 2 ^ 32 }
    ensures { IfOk result (λ o. IfSome o (IsOutcome shared.now.terms.now cube.now)) }
{
    flat_cubes_are_exact();
    names_are_sorted();
    transducers_are_formed();
    let new = with_length_parts(shared.alloc, flat)?;
    let numbers = numbers(shared.alloc, &new)?;
    match cube_answer(shared.alloc, &new, &numbers, shared.kept)? {
        CubeAnswer::Sat(model) => {
            let full = complete(shared.alloc, &model, shared.terms)?;
            Ok(Some(CubeAnswer::Sat(full)))
        }
        CubeAnswer::Unsat(refutation) => Ok(Some(CubeAnswer::Unsat(refutation))),
        CubeAnswer::Open(_) => Ok(None),
    }
}

/// The answer for a cube by its flat cube, which is made once more.
fn answer_as_it_stands(shared: &Shared<'_>, cube: &Cube) -> Result<CubeAnswer, AllocError>
    requires asked { IsAskedCube shared.now.terms.now cube.now }
    ensures { IfOk result (IsOutcome shared.now.terms.now cube.now) }
{
    refusals_have_no_flat_cube();
    match flatten(shared.alloc, cube) {
        Ok(flat) => flat_answer(shared, cube, &flat),
        Err(fault) => refuse(fault),
    }
}

/// The answer for a cube by its flat cube as it stands.
fn flat_answer(shared: &Shared<'_>, cube: &Cube, flat: &Flat) -> Result<CubeAnswer, AllocError>
    requires asked { IsAskedCube shared.now.terms.now cube.now }
    requires flattening { IsFlattening cube.now.literals flat.now }
    requires apart { AreNamesApart flat.now }
    requires few { length flat.now.variables < 2 ^ 32 }
    ensures { IfOk result (IsOutcome shared.now.terms.now cube.now) }
{
    flat_cubes_are_exact();
    flat_cubes_are_unique();
    names_are_sorted();
    transducers_are_formed();
    rows_count();
    let numbers = numbers(shared.alloc, flat)?;
    match cube_answer(shared.alloc, flat, &numbers, shared.kept)? {
        CubeAnswer::Sat(model) => {
            let full = complete(shared.alloc, &model, shared.terms)?;
            Ok(CubeAnswer::Sat(full))
        }
        CubeAnswer::Unsat(refutation) => Ok(CubeAnswer::Unsat(refutation)),
        CubeAnswer::Open(reason) => Ok(CubeAnswer::Open(reason)),
    }
}
