//! Parts of a machine with listed edges, put into a larger one.
ghost use Rattle.std.specs.Prelude.{◌≡◌, ℕ, ◌+◌, ◌<◌, ◌≤◌, ◌^◌, ◌++◌, map, Contains, IfOk, OnOk};
ghost use Rattle.machine_core.specs.declared.machine.Move.{Move};
ghost use Rattle.machine_core.specs.Moves.{IsMove};
ghost use Rattle.machine_meet.specs.Builds.{placed_edge, placed_end, leaving_edge};

use machine_core::{Explicit, Move};
use std::alloc::{AllocError, Global};
use sv_list::Copied;

/// The sum of two numbers of states, or want of memory where it isn't a number of states.
pub fn count(a: u32, b: u32) -> Result<u32, AllocError>
    ensures sum { IfOk result (λ n. n ≡ a + b) }
    ensures fits { IfOk result (λ n. n < 2 ^ 32) }
{
    match a.checked_add(b) {
        Some(n) => Ok(n),
        None => Err(AllocError),
    }
}

/// Adds the edges of `part` to `whole`, their states counted from `offset`. Linear in the edges.
pub fn place_edges(
    alloc: Global,
    whole: &mut Explicit,
    part: &Explicit,
    offset: u32,
) -> Result<(), AllocError>
    requires fits { whole.old.states < 2 ^ 32 }
    requires room { offset + part.now.states ≤ whole.old.states }
    requires registers { part.now.registers ≡ whole.old.registers }
    ensures states { OnOk result (whole.new.states ≡ whole.old.states) }
    ensures registers { OnOk result (whole.new.registers ≡ whole.old.registers) }
    ensures ends { OnOk result (whole.new.ends ≡ whole.old.ends) }
    ensures edges { OnOk result (whole.new.edges ≡ whole.old.edges ++ map (placed_edge offset) part.now.edges) }
{
    for edge in part.edges() {
        let on = edge.on.copy(alloc)?;
        let cost = edge.cost.copy(alloc)?;
        whole.add_edge(offset + edge.from, on, cost, offset + edge.to)?;
    }
    Ok(())
}

/// Adds the ends of `part` to `whole`, their states counted from `offset`. Linear in the ends.
pub fn place_ends(
    alloc: Global,
    whole: &mut Explicit,
    part: &Explicit,
    offset: u32,
) -> Result<(), AllocError>
    requires fits { whole.old.states < 2 ^ 32 }
    requires room { offset + part.now.states ≤ whole.old.states }
    requires registers { part.now.registers ≡ whole.old.registers }
    ensures states { OnOk result (whole.new.states ≡ whole.old.states) }
    ensures registers { OnOk result (whole.new.registers ≡ whole.old.registers) }
    ensures edges { OnOk result (whole.new.edges ≡ whole.old.edges) }
    ensures ends { OnOk result (whole.new.ends ≡ whole.old.ends ++ map (placed_end offset) part.now.ends) }
{
    for end in part.finals() {
        let cost = end.cost.copy(alloc)?;
        whole.add_end(offset + end.at, cost)?;
    }
    Ok(())
}

/// Adds the moves to `whole` as edges that leave state `from`, their targets counted from `offset`.
/// Linear in the moves.
pub fn leave(
    alloc: Global,
    whole: &mut Explicit,
    from: u32,
    moves: &[Move<u32>],
    offset: u32,
) -> Result<(), AllocError>
    requires fits { whole.old.states < 2 ^ 32 }
    requires from { from < whole.old.states }
    requires room { (m : Move ℕ) → Contains moves.now m → offset + m.to < whole.old.states }
    requires moves { (m : Move ℕ) → Contains moves.now m → IsMove whole.old.states whole.old.registers m }
    ensures states { OnOk result (whole.new.states ≡ whole.old.states) }
    ensures registers { OnOk result (whole.new.registers ≡ whole.old.registers) }
    ensures ends { OnOk result (whole.new.ends ≡ whole.old.ends) }
    ensures edges { OnOk result (whole.new.edges ≡ whole.old.edges ++ map (leaving_edge from offset) moves.now) }
{
    for step in moves {
        let on = step.on.copy(alloc)?;
        let cost = step.cost.copy(alloc)?;
        whole.add_edge(from, on, cost, offset + step.to)?;
    }
    Ok(())
}
