//! Definitions in order, or why they have none.
ghost use Rattle.std.specs.Prelude.{ℕ, ◌<◌, ◌^◌, length, MatchOption};
ghost use Rattle.flat_cubes.specs.Straight.{HaveVariablesBelow};
ghost use Rattle.straight_line.specs.Tracing.{IsStraightened};
ghost use Rattle.straight_line.specs.Waiting.{IsAhead};

use crate::arranging::arrange;
use crate::cycling::{cycle, places};
use crate::ordering::sort;
use flat_cubes::{Definition, FlatFault};
use std::alloc::Global;
use sv_list::Items;

/// The definitions of so many variables in their order; or the first variable that has two, or else a cycle.
/// What the definitions use is looked at a fixed number of times, and n definitions take time n log n.
pub fn straighten(
    alloc: Global,
    variables: u32,
    definitions: Items<Definition>,
) -> Result<Items<Definition>, FlatFault>
    requires { HaveVariablesBelow variables definitions }
    ensures { IsStraightened definitions result }
{
    let places = places(alloc, variables, definitions.as_slice())?;
    let sorted = sort(alloc, variables, definitions.as_slice())?;
    if let Some(start) = first_ahead(sorted.ahead.as_slice()) {
        let cycle = cycle(
            alloc,
            definitions.as_slice(),
            places.as_slice(),
            sorted.ahead.as_slice(),
            start,
        )?;
        return Err(FlatFault::Cycle(cycle));
    }
    Ok(arrange(alloc, definitions, sorted.places.as_slice())?)
}

/// The first variable that is ahead.
#[tactic(auto, using(crate::proofs::Traced::none_ahead))]
fn first_ahead(ahead: &[bool]) -> Option<u32>
    requires { length ahead.now < 2 ^ 32 }
    ensures { MatchOption result ((v : ℕ) → IsAhead ahead.now v → ⊥) (IsAhead ahead.now) }
{
    for i in 0..ahead.len() {
        if ahead[i] {
            return Some(i as u32);
        }
    }
    None
}
