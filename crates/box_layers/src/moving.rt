//! What leaves a layer.
ghost use Rattle.std.specs.Prelude.{◌≡◌, ℕ, List, [], ◌∷◌, ◌++◌, ◌<◌, ◌+◌, ◌^◌, length, map, IfOk, OnOk, Contains};
ghost use Rattle.machine_core.specs.declared.machine.Move.{Move};
ghost use Rattle.box_layers.specs.Moving.{step_moves, end_moves, AreLayerSteps, AreLayerEnds};

use crate::layer::Layer;
use crate::paying::pay;
use machine_core::{Cost, Explicit, Machine, Move};
use std::alloc::{AllocError, Global};
use sv_list::{Copied, Items};
use sv_word::Ranges;

// The move of the machine at work, as long as what is spent stays within the sides.
fn push_step(
    alloc: Global,
    all: &mut Items<Move<Layer>>,
    step: &Move<u32>,
    at: &Layer,
    sides: &[(u64, u64)],
) -> Result<(), AllocError>
    requires cost { length step.now.cost ≡ length at.now.spent }
    requires sides { length sides.now ≡ length at.now.spent }
    ensures { OnOk result (all.new ≡ all.old ++ step_moves (map (λ s. s.1) sides.now) at.now (step.now ∷ [])) }
{
    let Some(spent) = pay(alloc, at.spent.as_slice(), step.cost.as_slice(), sides)? else {
        return Ok(());
    };
    let on = step.on.copy(alloc)?;
    let paid = step.cost.copy(alloc)?;
    all.push(Move {
        on,
        cost: paid,
        to: Layer {
            machine: at.machine,
            state: step.to,
            spent,
        },
    })?;
    Ok(())
}

// The move on these characters from an end at this cost to the start of the next machine, as long as what
// is spent stays within the sides.
fn push_end(
    alloc: Global,
    all: &mut Items<Move<Layer>>,
    on: &Ranges,
    cost: &Cost,
    at: &Layer,
    sides: &[(u64, u64)],
) -> Result<(), AllocError>
    requires cost { length cost.now ≡ length at.now.spent }
    requires sides { length sides.now ≡ length at.now.spent }
    requires next { at.now.machine + 1 < 2 ^ 64 }
    ensures { OnOk result (all.new ≡ all.old ++ end_moves (map (λ s. s.1) sides.now) on.now at.now (cost.now ∷ [])) }
{
    let Some(spent) = pay(alloc, at.spent.as_slice(), cost.as_slice(), sides)? else {
        return Ok(());
    };
    let on = on.copy(alloc)?;
    let paid = cost.copy(alloc)?;
    all.push(Move {
        on,
        cost: paid,
        to: Layer {
            machine: at.machine + 1,
            state: 0,
            spent,
        },
    })?;
    Ok(())
}

// The moves of the machine at work, as long as what is spent stays within the sides.
fn steps(
    alloc: Global,
    moves: &[Move<u32>],
    at: &Layer,
    sides: &[(u64, u64)],
) -> Result<Items<Move<Layer>>, AllocError>
    requires costs { (m : Move ℕ) → Contains moves.now m → length m.cost ≡ length at.now.spent }
    requires sides { length sides.now ≡ length at.now.spent }
    ensures { IfOk result (λ all. all ≡ step_moves (map (λ s. s.1) sides.now) at.now moves.now) }
{
    let mut all = Items::new(alloc);
    for step in moves {
        push_step(alloc, &mut all, step, at, sides)?;
    }
    Ok(all)
}

// The moves on these characters from ends at these costs to the start of the next machine, as long as what
// is spent stays within the sides.
fn ends(
    alloc: Global,
    on: &Ranges,
    costs: &[Cost],
    at: &Layer,
    sides: &[(u64, u64)],
) -> Result<Items<Move<Layer>>, AllocError>
    requires costs { (k : List ℕ) → Contains costs.now k → length k ≡ length at.now.spent }
    requires sides { length sides.now ≡ length at.now.spent }
    requires next { at.now.machine + 1 < 2 ^ 64 }
    ensures { IfOk result (λ all. all ≡ end_moves (map (λ s. s.1) sides.now) on.now at.now costs.now) }
{
    let mut all = Items::new(alloc);
    for cost in costs {
        push_end(alloc, &mut all, on, cost, at, sides)?;
    }
    Ok(all)
}

/// The moves to layers of the machine at work, as long as what is spent stays within the sides.
pub fn moves_within(
    alloc: Global,
    machine: &Explicit,
    at: &Layer,
    sides: &[(u64, u64)],
) -> Result<Items<Move<Layer>>, AllocError>
    requires state { at.now.state < machine.now.states }
    requires spent { length at.now.spent ≡ machine.now.registers }
    requires sides { length sides.now ≡ length at.now.spent }
    ensures { IfOk result (AreLayerSteps machine.now (map (λ s. s.1) sides.now) at.now) }
{
    let inner = machine.moves(alloc, &at.state)?;
    steps(alloc, inner.as_slice(), at, sides)
}

/// The moves from ends of the machine at work to the start of the next one, as long as what is spent stays
/// within the sides.
pub fn moves_onward(
    alloc: Global,
    machine: &Explicit,
    at: &Layer,
    sides: &[(u64, u64)],
) -> Result<Items<Move<Layer>>, AllocError>
    requires state { at.now.state < machine.now.states }
    requires spent { length at.now.spent ≡ machine.now.registers }
    requires sides { length sides.now ≡ length at.now.spent }
    requires next { at.now.machine + 1 < 2 ^ 64 }
    ensures { IfOk result (AreLayerEnds machine.now (map (λ s. s.1) sides.now) at.now) }
{
    let last = machine.ends(alloc, &at.state)?;
    let on = Ranges::of(alloc, 0, 0)?;
    ends(alloc, &on, last.as_slice(), at, sides)
}
