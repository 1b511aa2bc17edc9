//! The moves of two machines, joined.
ghost use Rattle.std.specs.Prelude.{◌≡◌, ℕ, ◌<◌, ◌∷◌, List, IfOk, Contains, IsTrue};
ghost use Rattle.sv_word.specs.Ranges.{in_ranges};
ghost use Rattle.machine_core.specs.declared.machine.Move.{Move};
ghost use Rattle.machine_core.specs.Costs.{CanAdd};
ghost use Rattle.machine_meet.specs.Joins.{IsJoin, AreInhabited, AreJoins};

use crate::overlaps::meeting_pairs;
use machine_core::{Move, State};
use std::alloc::{AllocError, Global};
use sv_list::{Copied, Items};

// One state in front of a list of states.
fn cons<S: State>(alloc: Global, head: &S, tail: &Items<S>) -> Result<Items<S>, AllocError>
    ensures { IfOk result (λ all. all ≡ head.now ∷ tail.now) }
{
    let room = Vec::with_capacity(alloc, tail.len().saturating_add(1))?;
    let mut all = Items::from_vec(room);
    all.push(head.copy(alloc)?)?;
    for s in tail.as_slice() {
        all.push(s.copy(alloc)?)?;
    }
    Ok(all)
}

// The move that both make, which have some character in common.
fn join<S: State>(
    alloc: Global,
    head: &Move<S>,
    tail: &Move<Items<S>>,
) -> Result<Move<Items<S>>, AllocError>
    requires add { CanAdd head.now.cost tail.now.cost }
    requires meet { (c : ℕ) × IsTrue (in_ranges head.now.on c) × IsTrue (in_ranges tail.now.on c) }
    ensures { IfOk result (IsJoin head.now tail.now) }
{
    let on = head.on.meet(alloc, &tail.on)?;
    let _characters = on.as_slice();
    Ok(Move {
        on,
        cost: head.cost.add(alloc, &tail.cost)?,
        to: cons(alloc, &head.to, &tail.to)?,
    })
}

/// The moves that one of `heads` and one of `tails` make together, in their order: first that of the
/// heads, then that of the tails. Each two moves that meet are joined once, and no others are tried.
pub fn join_all<S: State>(
    alloc: Global,
    heads: &[Move<S>],
    tails: &[Move<Items<S>>],
) -> Result<Items<Move<Items<S>>>, AllocError>
    requires add { (h : Move S) (t : Move (List S)) → Contains heads.now h → Contains tails.now t → CanAdd h.cost t.cost }
    ensures exact { IfOk result (AreJoins heads.now tails.now) }
    ensures inhabited { IfOk result AreInhabited }
{
    let pairs = meeting_pairs(alloc, heads, tails)?;
    let room = Vec::with_capacity(alloc, pairs.len())?;
    let mut all = Items::from_vec(room);
    for (head, tail) in pairs.as_slice() {
        all.push(join(alloc, &heads[*head], &tails[*tail])?)?;
    }
    Ok(all)
}
