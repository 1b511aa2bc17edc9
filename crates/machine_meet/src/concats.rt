ghost use Rattle.std.specs.Prelude.{◌≡◌, ℕ, ◌+◌, ◌<◌, ◌≤◌, ◌^◌, ◌++◌, ◌∷◌, [], ◌↔◌, List, length, slice_index, map, Contains, IfOk, OnOk};
ghost use Rattle.machine_core.specs.declared.machine.Move.{Move};
ghost use Rattle.machine_core.specs.Costs.{CanAdd};
ghost use Rattle.machine_core.specs.Graphs.{Accepts, graph_top};
ghost use Rattle.machine_core.specs.Moves.{IsMove};
ghost use Rattle.machine_meet.specs.Builds.{after_edge, after_end, placed_edge, placed_end, AddsPart, InTurn};

use crate::place::{count, place_edges, place_ends};
use machine_core::{Cost, End, Explicit, Machine, Move};
use std::alloc::{AllocError, Global};
use sv_list::Copied;

/// The machine of a pair of `a` and then one of `b`: the words one after the other, the costs added.
///
/// Each end of `a` gets the moves and the ends of the start of `b`, so time and memory are linear in
/// both machines and in the number of ends of `a` times that of the moves and ends of the start of
/// `b`. Where the states are more than a `u32` counts it is want of memory.
pub fn concat(alloc: Global, a: &Explicit, b: &Explicit) -> Result<Explicit, AllocError>
    requires registers { b.now.registers ≡ a.now.registers }
    requires fits { graph_top a.now + graph_top b.now < 2 ^ 64 }
    ensures language { IfOk result (λ m. (word cost : List ℕ) → Accepts m word cost ↔ InTurn (Accepts a.now) (Accepts b.now) word cost) }
    ensures states { IfOk result (λ m. m.states ≡ a.now.states + b.now.states) }
    ensures registers { IfOk result (λ m. m.registers ≡ a.now.registers) }
    ensures top { IfOk result (λ m. graph_top m ≤ graph_top a.now + graph_top b.now) }
{
    let first = a.states();
    let mut whole = side_by_side(alloc, a, b)?;
    for end in a.finals() {
        go_on(alloc, &mut whole, end, b, first)?;
    }
    Ok(whole)
}

// The states and edges of both, those of `b` behind those of `a`, and the ends of `b` alone.
fn side_by_side(alloc: Global, a: &Explicit, b: &Explicit) -> Result<Explicit, AllocError>
    requires { b.now.registers ≡ a.now.registers }
    ensures states { IfOk result (λ m. m.states ≡ a.now.states + b.now.states) }
    ensures limit { IfOk result (λ m. m.states < 2 ^ 32) }
    ensures registers { IfOk result (λ m. m.registers ≡ a.now.registers) }
    ensures edges { IfOk result (λ m. m.edges ≡ map (placed_edge 0) a.now.edges ++ map (placed_edge a.now.states) b.now.edges) }
    ensures ends { IfOk result (λ m. m.ends ≡ map (placed_end a.now.states) b.now.ends) }
{
    let first = a.states();
    let last = b.states();
    let states = count(first, last)?;
    let mut whole = Explicit::new(alloc, states, a.registers())?;
    place_edges(alloc, &mut whole, a, 0)?;
    place_edges(alloc, &mut whole, b, first)?;
    place_ends(alloc, &mut whole, b, first)?;
    Ok(whole)
}

// After this end, the moves and the ends of the start of `part`.
fn go_on(
    alloc: Global,
    whole: &mut Explicit,
    end: &End,
    part: &Explicit,
    offset: u32,
) -> Result<(), AllocError>
    requires limit { whole.old.states < 2 ^ 32 }
    requires room { offset + part.now.states ≤ whole.old.states }
    requires registers { part.now.registers ≡ whole.old.registers }
    requires at { end.now.at < whole.old.states }
    requires cost { length end.now.cost ≡ whole.old.registers }
    requires fits { (k : List ℕ) → length k ≡ whole.old.registers → ((r : ℕ) → slice_index k r ≤ graph_top part.now) → CanAdd end.now.cost k }
    ensures { OnOk result (AddsPart whole.old whole.new part.now (end.now ∷ []) offset) }
{
    let moves = part.moves(alloc, &0)?;
    edges_after(alloc, whole, end, moves.as_slice(), offset)?;
    let ends = part.ends(alloc, &0)?;
    ends_after(alloc, whole, end, ends.as_slice())?;
    Ok(())
}

// The moves, after this end.
fn edges_after(
    alloc: Global,
    whole: &mut Explicit,
    end: &End,
    moves: &[Move<u32>],
    offset: u32,
) -> Result<(), AllocError>
    requires limit { whole.old.states < 2 ^ 32 }
    requires at { end.now.at < whole.old.states }
    requires room { (m : Move ℕ) → Contains moves.now m → offset + m.to < whole.old.states }
    requires moves { (m : Move ℕ) → Contains moves.now m → IsMove whole.old.states whole.old.registers m }
    requires cost { length end.now.cost ≡ whole.old.registers }
    requires fits { (m : Move ℕ) → Contains moves.now m → CanAdd end.now.cost m.cost }
    ensures states { OnOk result (whole.new.states ≡ whole.old.states) }
    ensures registers { OnOk result (whole.new.registers ≡ whole.old.registers) }
    ensures ends { OnOk result (whole.new.ends ≡ whole.old.ends) }
    ensures edges { OnOk result (whole.new.edges ≡ whole.old.edges ++ map (after_edge end.now offset) moves.now) }
{
    for step in moves {
        let on = step.on.copy(alloc)?;
        let cost = end.cost.add(alloc, &step.cost)?;
        whole.add_edge(end.at, on, cost, offset + step.to)?;
    }
    Ok(())
}

// The ends, after this one.
fn ends_after(
    alloc: Global,
    whole: &mut Explicit,
    end: &End,
    costs: &[Cost],
) -> Result<(), AllocError>
    requires at { end.now.at < whole.old.states }
    requires cost { length end.now.cost ≡ whole.old.registers }
    requires fits { (k : List ℕ) → Contains costs.now k → CanAdd end.now.cost k }
    ensures states { OnOk result (whole.new.states ≡ whole.old.states) }
    ensures registers { OnOk result (whole.new.registers ≡ whole.old.registers) }
    ensures edges { OnOk result (whole.new.edges ≡ whole.old.edges) }
    ensures ends { OnOk result (whole.new.ends ≡ whole.old.ends ++ map (after_end end.now) costs.now) }
{
    for last in costs {
        let cost = end.cost.add(alloc, last)?;
        whole.add_end(end.at, cost)?;
    }
    Ok(())
}
