//! Cubes that aren't straight: where some of their literals have no values together, they have none.
ghost use Rattle.std.specs.Prelude.{◌≡◌, IfOk, IfSome, IsTrue};
ghost use Rattle.std.specs.List.{AllByRecursion, Contains};
ghost use Rattle.literal_forms.specs.Past.{IsFitting};
ghost use Rattle.decide.specs.CubeValues.{CubeHasNoValues};
ghost use Rattle.decide.specs.Jobs.{IsAskedCube};

use crate::cube_job::{Shared, straight_answer};
use cube_search::CubeAnswer;
use flat_cubes::FlatFault;
use literal_forms::{Cube, Literal};
use std::alloc::{AllocError, Global};
use straight_line::flatten;
use sv_list::{Copied, Items};

/// The most literals that are left out of a cube.
const MOST_LEFT_OUT: usize = 16;

/// Whether the literal at this place is left out.
fn is_out(out: &[bool], place: usize) -> bool {
    out.get(place).copied().unwrap_or(false)
}

/// Of the first so many literals those that aren't left out.
fn kept_literals(
    alloc: Global,
    literals: &[Literal],
    out: &[bool],
    count: usize,
) -> Result<Items<Literal>, AllocError>
    ensures { IfOk result (AllByRecursion (Contains literals.now)) }
{
    let mut kept = Items::new(alloc);
    for i in 0..literals.len() {
        if i >= count || is_out(out, i) {
            continue;
        }
        kept.push(literals[i].copy(alloc)?)?;
    }
    Ok(kept)
}

/// Whether of the first so many literals those that aren't left out are straight.
fn is_straight(
    alloc: Global,
    literals: &[Literal],
    out: &[bool],
    count: usize,
) -> Result<bool, AllocError>
    requires { AllByRecursion IsFitting literals.now }
{
    let literals = kept_literals(alloc, literals, out, count)?;
    match flatten(alloc, &Cube { literals }) {
        Ok(_) => Ok(true),
        Err(FlatFault::Memory(error)) => Err(error),
        Err(_) => Ok(false),
    }
}

/// The place of a literal by which those that aren't left out aren't straight, though those before it are. Found by
/// halving.
fn first_crooked(alloc: Global, literals: &[Literal], out: &[bool]) -> Result<usize, AllocError>
    requires { AllByRecursion IsFitting literals.now }
{
    let mut low = 0;
    let mut high = literals.len();
    while high - low > 1 {
        let middle = low + (high - low) / 2;
        if is_straight(alloc, literals, out, middle)? {
            low = middle;
        } else {
            high = middle;
        }
    }
    Ok(low)
}

/// Whether a cube has no values, as far as is found; `None` where it isn't straight.
fn refutes(shared: &Shared<'_>, part: &Cube) -> Result<Option<bool>, AllocError>
    requires { IsAskedCube shared.now.terms.now part.now }
    ensures { IfOk result (λ o. IfSome o (λ refuted. IsTrue refuted → CubeHasNoValues part.now)) }
{
    match flatten(shared.alloc, part) {
        Ok(flat) => match straight_answer(shared, part, flat)? {
            CubeAnswer::Unsat(_) => Ok(Some(true)),
            CubeAnswer::Sat(_) => Ok(Some(false)),
            CubeAnswer::Open(_) => Ok(Some(false)),
        },
        Err(FlatFault::Memory(error)) => Err(error),
        Err(FlatFault::Wide(_)) => Ok(Some(false)),
        Err(_) => Ok(None),
    }
}

/// Whether a cube that isn't straight is known to have no values: without the literals by which it isn't straight, each
/// the first one that isn't straight with those before it, 16 at the most. Each of these costs a flat cube for each
/// halving; the rest is the answer for what is left.
pub fn is_refuted_by_part(shared: &Shared<'_>, cube: &Cube) -> Result<bool, AllocError>
    requires { IsAskedCube shared.now.terms.now cube.now }
    ensures { IfOk result (λ refuted. IsTrue refuted → CubeHasNoValues cube.now) }
{
    let all = cube.literals.as_slice();
    let mut out = vec![in shared.alloc; false; all.len()]?;
    for _ in 0..MOST_LEFT_OUT {
        let literals = kept_literals(shared.alloc, all, &out, all.len())?;
        let part = Cube { literals };
        if let Some(refuted) = refutes(shared, &part)? {
            return Ok(refuted);
        }
        let place = first_crooked(shared.alloc, all, &out)?;
        if let Some(mark) = out.get_mut(place) {
            *mark = true;
        }
    }
    Ok(false)
}
