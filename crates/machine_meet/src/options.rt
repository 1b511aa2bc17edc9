//! At which costs each part of a product can take its share in a step or an end.
ghost use Rattle.std.specs.Prelude.{◌≡◌, ℕ, ◌↔◌, List, length, IfOk, IsTrue, Any};
ghost use Rattle.sv_word.specs.Ranges.{in_ranges};
ghost use Rattle.machine_core.specs.Moves.{Moves};
ghost use Rattle.machine_meet.specs.Products.{AreStates};
ghost use Rattle.machine_meet.specs.Splits.{AreOptions, as_step};

use machine_core::{Cost, Machine, Move, State};
use std::alloc::{AllocError, Global};
use sv_list::{Copied, Items};

// Whether the move reads `c` and leads to `to`.
fn leads<S: State>(step: &Move<S>, c: u32, to: &S) -> bool
    ensures { IsTrue result ↔ (IsTrue (in_ranges step.now.on c) × (step.now.to ≡ to.now)) }
{
    step.on.holds(c) && step.to.cmp(to).is_eq()
}

// The costs of the moves that read `c` and lead to `to`.
fn costs_to<S: State>(
    alloc: Global,
    moves: &[Move<S>],
    c: u32,
    to: &S,
) -> Result<Items<Cost>, AllocError>
    ensures { IfOk result (λ costs. (k : List ℕ) → Any (λ e. e ≡ k) costs ↔ Any (Moves c k to.now) moves.now) }
{
    let mut costs = Items::new(alloc);
    for step in moves {
        if leads(step, c, to) {
            costs.push(step.cost.copy(alloc)?)?;
        }
    }
    Ok(costs)
}

pub fn step_options<P: Machine>(
    alloc: Global,
    parts: &[P],
    from: &[P::St],
    c: u32,
    to: &[P::St],
) -> Result<Items<Items<Cost>>, AllocError>
    requires states { AreStates P.is_state parts.now from.now }
    requires to { length to.now ≡ length parts.now }
    ensures { IfOk result (AreOptions P.steps_to parts.now from.now c to.now) }
{
    let mut options = Items::new(alloc);
    for (i, part) in parts.iter().enumerate() {
        let moves = part.moves(alloc, &from[i])?;
        options.push(costs_to(alloc, moves.as_slice(), c, &to[i])?)?;
    }
    Ok(options)
}

pub fn end_options<P: Machine>(
    alloc: Global,
    parts: &[P],
    at: &[P::St],
) -> Result<Items<Items<Cost>>, AllocError>
    requires { AreStates P.is_state parts.now at.now }
    ensures { IfOk result (AreOptions (as_step P.ends_with) parts.now at.now 0 at.now) }
{
    let mut options = Items::new(alloc);
    for (i, part) in parts.iter().enumerate() {
        options.push(part.ends(alloc, &at[i])?)?;
    }
    Ok(options)
}
