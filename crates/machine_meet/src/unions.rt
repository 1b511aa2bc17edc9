ghost use Rattle.std.specs.Prelude.{◌≡◌, ℕ, ◌+◌, ◌<◌, ◌≤◌, ◌^◌, ◌⊎◌, ◌↔◌, max, List, IfOk, OnOk};
ghost use Rattle.machine_core.specs.Graphs.{Accepts, graph_top};
ghost use Rattle.machine_meet.specs.Builds.{IsBranch};

use crate::place::{count, leave, place_edges, place_ends};
use machine_core::{Explicit, Machine};
use std::alloc::{AllocError, Global};
use sv_list::Copied;

/// The machine of the pairs of `a` and of those of `b`.
///
/// It has a start of its own, which nothing leads to, with the ends and the moves of both starts.
/// Linear in both machines. Where the states are more than a `u32` counts it is want of memory.
pub fn union(alloc: Global, a: &Explicit, b: &Explicit) -> Result<Explicit, AllocError>
    requires { b.now.registers ≡ a.now.registers }
    ensures language { IfOk result (λ m. (word cost : List ℕ) → Accepts m word cost ↔ (Accepts a.now word cost ⊎ Accepts b.now word cost)) }
    ensures states { IfOk result (λ m. m.states ≡ a.now.states + b.now.states + 1) }
    ensures registers { IfOk result (λ m. m.registers ≡ a.now.registers) }
    ensures top { IfOk result (λ m. graph_top m ≤ max (graph_top a.now) (graph_top b.now)) }
{
    let first = a.states();
    let last = b.states();
    let second = count(1, first)?;
    let states = count(second, last)?;
    let mut whole = Explicit::new(alloc, states, a.registers())?;
    add_branch(alloc, &mut whole, a, 1)?;
    add_branch(alloc, &mut whole, b, second)?;
    Ok(whole)
}

// The part, its states counted from `offset`, and what its start does at the start of the whole.
fn add_branch(
    alloc: Global,
    whole: &mut Explicit,
    part: &Explicit,
    offset: u32,
) -> Result<(), AllocError>
    requires fits { whole.old.states < 2 ^ 32 }
    requires room { offset + part.now.states ≤ whole.old.states }
    requires registers { part.now.registers ≡ whole.old.registers }
    ensures { OnOk result (IsBranch whole.old whole.new part.now offset) }
{
    place_edges(alloc, whole, part, offset)?;
    place_ends(alloc, whole, part, offset)?;
    let moves = part.moves(alloc, &0)?;
    leave(alloc, whole, 0, moves.as_slice(), offset)?;
    let ends = part.ends(alloc, &0)?;
    for cost in ends.as_slice() {
        whole.add_end(0, cost.copy(alloc)?)?;
    }
    Ok(())
}
