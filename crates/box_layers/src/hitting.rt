ghost use Rattle.std.specs.Prelude.{◌≡◌, ◌+◌, false, length, IfOk};
ghost use Rattle.search_hits.specs.Hits.{characters};
ghost use Rattle.search_hits.specs.Regions.{IsHitWithin};
ghost use Rattle.box_layers.specs.Cuts.{IsRunOfAll};

use crate::cutting::{cut, layer_at};
use crate::layer::Layer;
use crate::layers::Layers;
use machine_core::Run;
use search_hits::Hit;
use std::alloc::{AllocError, Global};

/// The run of each machine, and the numbers that meet the rows with what they cost.
pub fn hit_of(alloc: Global, layers: &Layers, run: &Run<Layer>) -> Result<Hit, AllocError>
    requires { IsRunOfAll layers.now.machines.now layers.now.rows.now layers.now.region.now run.now }
    ensures hit { IfOk result (λ hit. layers.now.region.now.empty ≡ false
        → IsHitWithin layers.now.machines.now layers.now.integers layers.now.rows.now layers.now.region.now hit.runs hit.integers) }
    ensures size { IfOk result (λ hit. characters hit.runs + length layers.now.machines.now ≡ length run.now.word) }
{
    let stop = layer_at(run.states.as_slice(), run.word.len());
    let integers = layers.numbers(alloc, stop.spent.as_slice())?.unwrap();
    let runs = cut(alloc, layers, run)?;
    Ok(Hit { runs, integers })
}
