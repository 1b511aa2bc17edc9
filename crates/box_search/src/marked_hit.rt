//! A hit with a marked total: a run is traced back through marked pairs, and taken where it is short.
ghost use Rattle.std.specs.Prelude.{◌≡◌, ◌≤◌, ◌+◌, ◌*◌, ◌∷◌, [], true, false, length, IfOk, IfSome};
ghost use Rattle.search_hits.specs.Regions.{greatest_states, IsShortHit};
ghost use Rattle.box_layers.specs.Cuts.{IsRunOfAll};

use crate::places::greatest_states;
use crate::reached::Size;
use crate::retracing::retrace;
use box_layers::{Layer, Layers, hit_of};
use machine_core::{Explicit, Run};
use search_hits::Hit;
use std::alloc::{AllocError, Global};
use total_marks::{Arcs, Marks, Pair, trace};

// Whether so many characters are as few as a hit may have.
fn are_few(machines: &[Explicit], most: u64, characters: usize) -> bool
    ensures { result ≡ true → characters ≤ greatest_states machines.now * (most + 1) * length machines.now }
{
    let Some(points) = most.checked_add(1) else {
        return false;
    };
    let Some(layers) = greatest_states(machines).checked_mul(points) else {
        return false;
    };
    match layers.checked_mul(machines.len() as u64) {
        Some(few) => characters as u64 <= few,
        None => false,
    }
}

// A run with this total; `None` where none is found.
fn trace_run(
    alloc: Global,
    layers: &Layers,
    marks: &Marks,
    arcs: &Arcs,
    size: Size,
    total: u64,
) -> Result<Option<Run<Layer>>, AllocError>
    ensures { IfOk result (λ o. IfSome o (IsRunOfAll layers.now.machines.now layers.now.rows.now layers.now.region.now)) }
{
    let last = Pair {
        row: size.rows.saturating_sub(1),
        total,
    };
    let Some(pairs) = trace(alloc, marks, arcs, size.rows, last)? else {
        return Ok(None);
    };
    retrace(alloc, layers, pairs.as_slice(), size.states)
}

// The hit of the run, if it has as few characters as a hit may have.
fn short_hit(
    alloc: Global,
    layers: &Layers,
    run: &Run<Layer>,
    side: (u64, u64),
) -> Result<Option<Hit>, AllocError>
    requires one { layers.now.region.now.registers ≡ side ∷ [] }
    requires some { layers.now.region.now.empty ≡ false }
    requires run { IsRunOfAll layers.now.machines.now layers.now.rows.now layers.now.region.now run.now }
    ensures { IfOk result (λ o. IfSome o (λ hit. IsShortHit layers.now.machines.now layers.now.integers layers.now.rows.now layers.now.region.now hit.runs hit.integers)) }
{
    if !are_few(layers.machines, side.1, run.word.len()) {
        return Ok(None);
    }
    Ok(Some(hit_of(alloc, layers, run)?))
}

/// A hit with this total; `None` where none is found.
pub fn trace_marks(
    alloc: Global,
    layers: &Layers,
    marks: &Marks,
    arcs: &Arcs,
    size: Size,
    side: (u64, u64),
    total: u64,
) -> Result<Option<Hit>, AllocError>
    requires one { layers.now.region.now.registers ≡ side ∷ [] }
    requires some { layers.now.region.now.empty ≡ false }
    ensures { IfOk result (λ o. IfSome o (λ hit. IsShortHit layers.now.machines.now layers.now.integers layers.now.rows.now layers.now.region.now hit.runs hit.integers)) }
{
    let Some(run) = trace_run(alloc, layers, marks, arcs, size, total)? else {
        return Ok(None);
    };
    short_hit(alloc, layers, &run, side)
}
