ghost use Rattle.std.specs.Prelude.{◌≡◌, ℕ, ◌+◌, ◌<◌, ◌≤◌, ◌^◌, ◌++◌, ◌∷◌, [], ◌↔◌, List, Any, Contains, map, IfOk, OnOk};
ghost use Rattle.machine_core.specs.declared.machine.Move.{Move};
ghost use Rattle.machine_core.specs.Edges.{StepsBy, ending};
ghost use Rattle.machine_core.specs.Graphs.{Accepts, graph_top};
ghost use Rattle.machine_core.specs.Moves.{Moves};
ghost use Rattle.machine_meet.specs.Builds.{leaving_edge, Returns, Repeated};

use crate::place::{count, leave, place_edges};
use machine_core::{Cost, Edge, Explicit, Machine};
use std::alloc::{AllocError, Global};
use sv_list::Copied;

/// The machine of the words of `a`, any number of them, one after another; `a` has no registers.
///
/// It has a start of its own with an end, and each edge to an end also leads back to it. Linear in
/// the machine. Where the states are more than a `u32` counts it is want of memory.
pub fn star(alloc: Global, a: &Explicit) -> Result<Explicit, AllocError>
    requires { a.now.registers ≡ 0 }
    ensures language { IfOk result (λ m. (word cost : List ℕ) → Accepts m word cost ↔ (Repeated (λ w. Accepts a.now w []) word × (cost ≡ []))) }
    ensures states { IfOk result (λ m. m.states ≡ a.now.states + 1) }
    ensures registers { IfOk result (λ m. m.registers ≡ 0) }
    ensures top { IfOk result (λ m. graph_top m ≡ 0) }
{
    let last = a.states();
    let states = count(1, last)?;
    let mut whole = Explicit::new(alloc, states, 0)?;
    place_edges(alloc, &mut whole, a, 1)?;
    for edge in a.edges() {
        lead_back(alloc, &mut whole, a, edge)?;
    }
    begin_and_end(alloc, &mut whole)?;
    Ok(whole)
}

// What leads on from state 1 leads on from the start too, where a word may also end.
fn begin_and_end(alloc: Global, whole: &mut Explicit) -> Result<(), AllocError>
    requires limit { whole.old.states < 2 ^ 32 }
    requires one { 1 < whole.old.states }
    requires free { whole.old.registers ≡ 0 }
    ensures states { OnOk result (whole.new.states ≡ whole.old.states) }
    ensures registers { OnOk result (whole.new.registers ≡ whole.old.registers) }
    ensures ends { OnOk result (whole.new.ends ≡ whole.old.ends ++ ending 0 [] ∷ []) }
    ensures edges { OnOk result ((moves : List (Move ℕ)) × ((c : ℕ) (k : List ℕ) (t : ℕ) → StepsBy whole.old.edges 1 c k t ↔ Any (Moves c k t) moves) × (whole.new.edges ≡ whole.old.edges ++ map (leaving_edge 0 0) moves)) }
{
    let moves = whole.moves(alloc, &1)?;
    leave(alloc, whole, 0, moves.as_slice(), 0)?;
    whole.add_end(0, Cost::new(alloc))?;
    Ok(())
}

// Where a word may end after the edge, the edge also leads back to the start.
fn lead_back(
    alloc: Global,
    whole: &mut Explicit,
    part: &Explicit,
    edge: &Edge,
) -> Result<(), AllocError>
    requires limit { whole.old.states < 2 ^ 32 }
    requires room { part.now.states + 1 ≤ whole.old.states }
    requires registers { whole.old.registers ≡ 0 }
    requires free { part.now.registers ≡ 0 }
    requires edge { Contains part.now.edges edge.now }
    ensures { OnOk result (Returns whole.old whole.new (edge.now ∷ []) part.now.ends) }
{
    let ends = part.ends(alloc, &edge.to)?;
    if ends.is_empty() {
        return Ok(());
    }
    let on = edge.on.copy(alloc)?;
    whole.add_edge(1 + edge.from, on, Cost::new(alloc), 0)?;
    Ok(())
}
