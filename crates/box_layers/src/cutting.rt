//! A run of all machines in turn, cut into a run of each.
ghost use Rattle.std.specs.Prelude.{◌≡◌, ◌+◌, ◌<◌, ◌≤◌, length, slice_get, Some, IfOk, OnOk};
ghost use Rattle.sv_word.specs.Words.{greatest_character};
ghost use Rattle.box_layers.specs.Cuts.{IsRunOfAll, IsCutInto, BeginsNext, CutsBy};

use crate::layer::Layer;
use crate::layers::Layers;
use machine_core::{Cost, Run};
use std::alloc::{AllocError, Global};
use std::mem::replace;
use sv_list::{Copied, Items};
use sv_word::Word;

// The open run ends at this cost, and another one begins.
fn begin_next(
    alloc: Global,
    runs: &mut Items<Run<u32>>,
    current: &mut Run<u32>,
    cost: &Cost,
) -> Result<(), AllocError>
    ensures { OnOk result (BeginsNext cost.now runs.old runs.new current.old current.new) }
{
    current.last = cost.copy(alloc)?;
    let ended = replace(current, Run::open(alloc, 0, Cost::new(alloc))?);
    runs.push(ended)
}

// One step more, from one layer to the next: the open run goes on, or ends and another one begins.
fn cut_step(
    alloc: Global,
    runs: &mut Items<Run<u32>>,
    current: &mut Run<u32>,
    from: &Layer,
    to: &Layer,
    character: u32,
    cost: &Cost,
) -> Result<(), AllocError>
    requires { character ≤ greatest_character }
    ensures { OnOk result (CutsBy from.now to.now character cost.now runs.old runs.new current.old current.new) }
{
    if to.machine == from.machine {
        current.add_step(alloc, character, to.state, cost)
    } else {
        begin_next(alloc, runs, current, cost)
    }
}

/// The layer at this place of a run.
pub fn layer_at(layers: &[Layer], at: usize) -> &Layer
    requires { at < length layers.now }
    ensures { slice_get layers.now at ≡ Some result.now }
{
    &layers[at]
}

fn cost_at(costs: &[Cost], at: usize) -> &Cost
    requires { at < length costs.now }
    ensures { slice_get costs.now at ≡ Some result.now }
{
    &costs[at]
}

fn character_at(word: &Word, at: usize) -> u32
    requires { at < length word.now }
    ensures is { slice_get word.now at ≡ Some result }
    ensures bound { result ≤ greatest_character }
{
    word.get(at).unwrap()
}

/// The run of each machine, of a run of all of them in turn. Linear in the run.
pub fn cut(alloc: Global, layers: &Layers, run: &Run<Layer>) -> Result<Items<Run<u32>>, AllocError>
    requires { IsRunOfAll layers.now.machines.now layers.now.rows.now layers.now.region.now run.now }
    ensures { IfOk result (IsCutInto layers.now.machines.now (length layers.now.region.now.registers) run.now) }
{
    let _machines = layers.machines;
    let mut runs = Items::new(alloc);
    let mut current = Run::open(alloc, 0, Cost::new(alloc))?;
    for place in 0..run.word.len() {
        let from = layer_at(run.states.as_slice(), place);
        let to = layer_at(run.states.as_slice(), place + 1);
        let character = character_at(&run.word, place);
        let cost = cost_at(run.costs.as_slice(), place);
        cut_step(alloc, &mut runs, &mut current, from, to, character, cost)?;
    }
    Ok(runs)
}
