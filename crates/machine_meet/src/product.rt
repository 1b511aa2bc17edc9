//! The meeting of machines: what each of them reads, at the sum of their costs.
ghost use Rattle.std.specs.Prelude.{◌≡◌, ◌<◌, ◌^◌, [], ◌∷◌, map, IfOk, Contains};
ghost use Rattle.machine_meet.specs.Joins.{AreInhabited, listed};
ghost use Rattle.machine_meet.specs.Products.{AreStates, summed, IsNothing, AreProduct};

use crate::join::join_all;
use machine_core::{Cost, Machine, Move, State};
use std::alloc::{AllocError, Global};
use sv_list::Items;
use sv_word::Ranges;

// The move of no machine at all: any character, at no cost.
fn nothing<S: State>(alloc: Global, width: usize) -> Result<Items<Move<Items<S>>>, AllocError>
    ensures exact { IfOk result (IsNothing width) }
    ensures inhabited { IfOk result AreInhabited }
{
    let mut all = Items::new(alloc);
    all.push(Move {
        on: Ranges::all(alloc)?,
        cost: Cost::zeros(alloc, width)?,
        to: Items::new(alloc),
    })?;
    Ok(all)
}

/// The moves, to lists of one state. Linear in the moves.
pub fn to_lists<S: State>(
    alloc: Global,
    moves: Items<Move<S>>,
) -> Result<Items<Move<Items<S>>>, AllocError>
    ensures { IfOk result (λ all. all ≡ map listed moves) }
{
    let room = Vec::with_capacity(alloc, moves.len())?;
    let mut all = Items::from_vec(room);
    for step in moves.into_vec() {
        let to = list_of(alloc, step.to)?;
        all.push(Move {
            on: step.on,
            cost: step.cost,
            to,
        })?;
    }
    Ok(all)
}

// This state alone.
fn list_of<S: State>(alloc: Global, state: S) -> Result<Items<S>, AllocError>
    ensures { IfOk result (λ l. l ≡ state ∷ []) }
{
    let room = Vec::with_capacity(alloc, 1)?;
    let mut list = Items::from_vec(room);
    list.push(state)?;
    Ok(list)
}

// The moves of the product: those of the last part, joined with those of the parts before it one after
// another, until no move is left.
pub fn product<P: Machine>(
    alloc: Global,
    width: usize,
    parts: &[P],
    at: &[P::St],
) -> Result<Items<Move<Items<P::St>>>, AllocError>
    requires states { AreStates P.is_state parts.now at.now }
    requires width { (p : P) → Contains parts.now p → P.width p ≡ width }
    requires fits { summed P.top parts.now < 2 ^ 64 }
    ensures exact { IfOk result (AreProduct P.steps_to width parts.now at.now) }
    ensures inhabited { IfOk result AreInhabited }
{
    if parts.is_empty() {
        return nothing(alloc, width);
    }
    let last = parts.len() - 1;
    let own = parts[last].moves(alloc, &at[last])?;
    let mut all = to_lists(alloc, own)?;
    let mut i = last;
    while i > 0 {
        if all.is_empty() {
            return Ok(all);
        }
        i -= 1;
        let heads = parts[i].moves(alloc, &at[i])?;
        all = join_all(alloc, heads.as_slice(), all.as_slice())?;
    }
    Ok(all)
}
