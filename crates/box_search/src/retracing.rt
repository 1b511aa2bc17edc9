//! A run of all machines in turn, through given layers.
ghost use Rattle.std.specs.Prelude.{◌≡◌, ◌≤◌, ◌++◌, ◌∷◌, [], true, IfOk, OnOk, IfSome};
ghost use Rattle.sv_word.specs.Words.{greatest_character};
ghost use Rattle.machine_core.specs.Moves.{Moves};
ghost use Rattle.box_layers.specs.Cuts.{IsRunOfAll};
ghost use Rattle.box_search.specs.Ways.{IsLayerWay};
ghost use Rattle.box_layers.specs.Layers.{uppers_of, AreGoodTotals, LayerStep, IsLayerOf};

use box_layers::{Layer, Layers, layer_at};
use machine_core::{Cost, Machine, Move, Run};
use std::alloc::{AllocError, Global};
use sv_list::Items;
use sv_word::Word;
use total_marks::Pair;

// A step to a layer.
#[derive(Drop)]
struct Step {
    character: u32,
    cost: Cost,
    to: Layer,
}

// Whether the layer is that of the pair, where each machine has so many rows.
fn is_of(layer: &Layer, pair: Pair, states: usize) -> bool {
    let row = u64::from(layer.state).checked_add(layer.machine.saturating_mul(states as u64));
    row == Some(pair.row as u64) && layer.spent.as_slice().first() == Some(&pair.total)
}

// A step from the layer to the pair; `None` where none is found.
fn step_to(
    alloc: Global,
    layers: &Layers,
    at: &Layer,
    pair: Pair,
    states: usize,
) -> Result<Option<Step>, AllocError>
    requires { IsLayerOf layers.now.machines.now (uppers_of layers.now.region.now) (AreGoodTotals layers.now.rows.now layers.now.region.now) at.now }
    ensures { IfOk result (λ o. IfSome o (λ s. LayerStep layers.now.machines.now (uppers_of layers.now.region.now) (AreGoodTotals layers.now.rows.now layers.now.region.now) at.now s.character s.cost s.to)) }
{
    let moves = layers.moves(alloc, at)?;
    for next in moves.into_vec() {
        if is_of(&next.to, pair, states) {
            return Ok(step_of(next));
        }
    }
    Ok(None)
}

// The step on the least character of a move.
fn step_of(next: Move<Layer>) -> Option<Step>
    ensures { IfSome result (λ s. Moves s.character s.cost s.to next) }
{
    let character = next.on.least()?;
    Some(Step {
        character,
        cost: next.cost,
        to: next.to,
    })
}

// The run of no characters, in the first layer.
fn begin(alloc: Global, layers: &Layers) -> Result<Run<Layer>, AllocError>
    ensures { IfOk result (IsLayerWay layers.now.machines.now layers.now.rows.now layers.now.region.now) }
{
    let mut states = Items::new(alloc);
    states.push(layers.start(alloc)?)?;
    Ok(Run {
        word: Word::new(alloc),
        states,
        costs: Items::new(alloc),
        last: Cost::new(alloc),
    })
}

// Takes one step more, to the layer of the pair. Whether one was found.
fn go_on(
    alloc: Global,
    layers: &Layers,
    run: &mut Run<Layer>,
    pair: Pair,
    states: usize,
) -> Result<bool, AllocError>
    requires { IsLayerWay layers.now.machines.now layers.now.rows.now layers.now.region.now run.old }
    ensures { IfOk result (λ found. found ≡ true → IsLayerWay layers.now.machines.now layers.now.rows.now layers.now.region.now run.new) }
{
    let at = layer_at(run.states.as_slice(), run.word.len());
    let Some(step) = step_to(alloc, layers, at, pair, states)? else {
        return Ok(false);
    };
    add_step(run, step)?;
    Ok(true)
}

// One step more.
fn add_step(run: &mut Run<Layer>, step: Step) -> Result<(), AllocError>
    requires { step.character ≤ greatest_character }
    ensures word { OnOk result (run.new.word ≡ run.old.word ++ step.character ∷ []) }
    ensures costs { OnOk result (run.new.costs ≡ run.old.costs ++ step.cost ∷ []) }
    ensures states { OnOk result (run.new.states ≡ run.old.states ++ step.to ∷ []) }
{
    run.word.push(step.character)?;
    run.costs.push(step.cost)?;
    run.states.push(step.to)
}

// Ends the run where it has come to. Whether it may end there.
fn end(alloc: Global, layers: &Layers, run: &mut Run<Layer>) -> Result<bool, AllocError>
    requires { IsLayerWay layers.now.machines.now layers.now.rows.now layers.now.region.now run.old }
    ensures { IfOk result (λ ends. ends ≡ true → IsRunOfAll layers.now.machines.now layers.now.rows.now layers.now.region.now run.new) }
{
    let at = layer_at(run.states.as_slice(), run.word.len());
    let mut ends = layers.ends(alloc, at)?;
    let Some(last) = ends.pop() else {
        return Ok(false);
    };
    run.last = last;
    Ok(true)
}

// Goes on through the layers of these pairs but the first, and ends. Whether it came to an end.
fn follow(
    alloc: Global,
    layers: &Layers,
    run: &mut Run<Layer>,
    pairs: &[Pair],
    states: usize,
) -> Result<bool, AllocError>
    requires { IsLayerWay layers.now.machines.now layers.now.rows.now layers.now.region.now run.old }
    ensures { IfOk result (λ ends. ends ≡ true → IsRunOfAll layers.now.machines.now layers.now.rows.now layers.now.region.now run.new) }
{
    for place in 1..pairs.len() {
        if !go_on(alloc, layers, run, pairs[place], states)? {
            return Ok(false);
        }
    }
    end(alloc, layers, run)
}

/// A run through the layers of these pairs, which begin with that of the first layer; `None` where none is found.
pub fn retrace(
    alloc: Global,
    layers: &Layers,
    pairs: &[Pair],
    states: usize,
) -> Result<Option<Run<Layer>>, AllocError>
    ensures { IfOk result (λ o. IfSome o (IsRunOfAll layers.now.machines.now layers.now.rows.now layers.now.region.now)) }
{
    let mut run = begin(alloc, layers)?;
    let ends = follow(alloc, layers, &mut run, pairs, states)?;
    Ok(ends.then_some(run))
}
