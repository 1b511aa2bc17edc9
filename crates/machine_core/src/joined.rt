//! The moves of one state, those to one target at one cost as one.
ghost use Rattle.std.specs.Prelude.{◌≡◌, ℕ, ◌↔◌, ◌⊎◌, Any, Contains, List, IfOk, OnOk, IfSome};
ghost use Rattle.std.specs.Ordering.{nat_cmp, ordering_then};
ghost use Rattle.std.specs.Cmp.Lexicographic.{slice_cmp};
ghost use Rattle.sv_word.specs.Ranges.{IsInhabited};
ghost use Rattle.machine_core.specs.Moves.{Moves};
ghost use Rattle.machine_core.specs.declared.machine.Move.{Move};
ghost use Rattle.machine_core.specs.Joined.{IsLike, AreJoinedMoves};

use crate::machine::Move;
use std::alloc::{AllocError, Global};
use std::cmp::Ordering;
use sv_list::Items;

/// The same moves, with the characters of those to one state at one cost in one set, in the order of
/// the states, and of the costs for one state. One sort of the moves, and one merge of two sets for each
/// move that goes.
pub fn join_moves(alloc: Global, moves: Items<Move<u32>>) -> Result<Items<Move<u32>>, AllocError>
    requires { (m : Move ℕ) → Contains moves m → IsInhabited m.on }
    ensures { IfOk result (AreJoinedMoves moves) }
{
    if moves.len() < 2 {
        return Ok(moves);
    }
    let mut sorted = moves.into_vec();
    sorted.sort_unstable_by(compare);
    join_sorted(alloc, Items::from_vec(sorted))
}

// The order of the states, and of the costs for one state.
fn compare(a: &Move<u32>, b: &Move<u32>) -> Ordering
    ensures { result ≡ ordering_then (nat_cmp a.now.to b.now.to) (slice_cmp nat_cmp a.now.cost b.now.cost) }
{
    a.to.cmp(&b.to)
        .then_with(|| a.cost.as_slice().cmp(b.cost.as_slice()))
}

// The same where the moves to one state at one cost stand together.
fn join_sorted(alloc: Global, moves: Items<Move<u32>>) -> Result<Items<Move<u32>>, AllocError>
    requires { (m : Move ℕ) → Contains moves m → IsInhabited m.on }
    ensures { IfOk result (AreJoinedMoves moves) }
{
    let mut joined = Items::new(alloc);
    for step in moves.into_vec() {
        add_move(alloc, &mut joined, step)?;
    }
    Ok(joined)
}

// Adds a move; the last one becomes one with it, for the characters of both, where it leads to the same
// state at the same cost.
fn add_move(
    alloc: Global,
    moves: &mut Items<Move<u32>>,
    further: Move<u32>,
) -> Result<(), AllocError>
    requires old { (m : Move ℕ) → Contains moves.old m → IsInhabited m.on }
    requires inhabited { IsInhabited further.on }
    ensures exact { OnOk result ((c : ℕ) (cost : List ℕ) (to : ℕ) →
        Any (Moves c cost to) moves.new ↔ (Any (Moves c cost to) moves.old ⊎ Moves c cost to further)) }
    ensures inhabited { OnOk result ((m : Move ℕ) → Contains moves.new m → IsInhabited m.on) }
{
    if let Some(at) = place_of(moves.as_slice(), &further) {
        return join_move(alloc, moves, at, further);
    }
    moves.push(further)?;
    Ok(())
}

// The last place, where the move there leads to the same state at the same cost.
fn place_of(moves: &[Move<u32>], further: &Move<u32>) -> Option<usize>
    ensures { IfSome result (λ at. IsLike moves.now further.now at) }
{
    if moves.is_empty() {
        return None;
    }
    let at = moves.len() - 1;
    let last = &moves[at];
    if last.to != further.to {
        return None;
    }
    if last.cost.as_slice() == further.cost.as_slice() {
        return Some(at);
    }
    None
}

// Joins the characters of the move at this place with those of a move like it.
fn join_move(
    alloc: Global,
    moves: &mut Items<Move<u32>>,
    at: usize,
    further: Move<u32>,
) -> Result<(), AllocError>
    requires like { IsLike moves.old further at }
    requires old { (m : Move ℕ) → Contains moves.old m → IsInhabited m.on }
    ensures exact { OnOk result ((c : ℕ) (cost : List ℕ) (to : ℕ) →
        Any (Moves c cost to) moves.new ↔ (Any (Moves c cost to) moves.old ⊎ Moves c cost to further)) }
    ensures inhabited { OnOk result ((m : Move ℕ) → Contains moves.new m → IsInhabited m.on) }
{
    let on = moves.as_slice()[at].on.join(alloc, &further.on)?;
    let _ = on.as_slice();
    let Move { on: _, cost, to } = further;
    moves.set(at, Move { on, cost, to });
    Ok(())
}
