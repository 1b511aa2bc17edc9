//! Steps of parts, put into the move lists of larger machines.
ghost use Rattle.std.specs.Prelude.{◌≡◌, ◌<◌, ◌↔◌, [], ◌++◌, map, IsTrue, OnOk, IfOk};
ghost use Rattle.machine_core.specs.Edges.{EndsAt};
ghost use Rattle.machine_meet.specs.Joins.{AreInhabited};
ghost use Rattle.regex_machine.specs.Stepped.{led, AddsSteps, AreLed, AreEndsIf};

use machine_core::{Cost, Explicit, Machine, Move};
use std::alloc::{AllocError, Global};
use sv_list::Items;

/// A state of a machine that is put together: the number of a part, and a state of it.
pub type Place = (u32, u32);

// The moves, to states of this part.
fn lead(all: &mut Items<Move<Place>>, moves: Items<Move<u32>>, part: u32) -> Result<(), AllocError>
    ensures { OnOk result (all.new ≡ all.old ++ map (led part) moves) }
{
    all.reserve(moves.len())?;
    for step in moves.into_vec() {
        all.push(Move {
            on: step.on,
            cost: step.cost,
            to: (part, step.to),
        })?;
    }
    Ok(())
}

/// Adds the steps of a part from its state `at`, which lead to states of the part, whose number this is.
/// Linear in the steps.
pub fn add_steps(
    alloc: Global,
    all: &mut Items<Move<Place>>,
    part: &Explicit,
    at: u32,
    number: u32,
) -> Result<(), AllocError>
    requires plain { part.now.registers ≡ 0 }
    requires at { at < part.now.states }
    requires inhabited { AreInhabited all.old }
    ensures exact { OnOk result (AddsSteps part.now at number all.old all.new) }
    ensures inhabited { OnOk result (AreInhabited all.new) }
{
    let moves = part.moves(alloc, &at)?;
    lead(all, moves, number)?;
    Ok(())
}

/// The steps of a part from its state `at`, which lead to states of the part, whose number this is.
/// Linear in the steps.
pub fn steps_of(
    alloc: Global,
    part: &Explicit,
    at: u32,
    number: u32,
) -> Result<Items<Move<Place>>, AllocError>
    requires plain { part.now.registers ≡ 0 }
    requires at { at < part.now.states }
    ensures exact { IfOk result (AreLed part.now at number) }
    ensures inhabited { IfOk result AreInhabited }
{
    let mut all = Items::new(alloc);
    add_steps(alloc, &mut all, part, at, number)?;
    Ok(all)
}

/// Nothing as the one cost where a word may end, and no cost where it may not.
pub fn ends_if(alloc: Global, may_end: bool) -> Result<Items<Cost>, AllocError>
    ensures { IfOk result (AreEndsIf may_end) }
{
    let mut costs = Items::new(alloc);
    if may_end {
        costs.push(Cost::new(alloc))?;
    }
    Ok(costs)
}

/// Whether a word may end in this state of a part. Constant time.
pub fn may_end(part: &Explicit, at: u32) -> bool
    requires plain { part.now.registers ≡ 0 }
    requires at { at < part.now.states }
    ensures { IsTrue result ↔ EndsAt part.now.ends at [] }
{
    !part.ends_at(at).is_empty()
}
