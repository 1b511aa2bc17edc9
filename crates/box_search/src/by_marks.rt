//! The search where there is one register: by a bit for each pair of a state and a total.
ghost use Rattle.std.specs.Prelude.{◌≡◌, ◌+◌, ◌*◌, ◌<◌, ◌^◌, ◌∷◌, [], false, length, IfOk};
ghost use Rattle.total_marks.specs.Marks.{MarksAreClosed};
ghost use Rattle.box_search.specs.Told.{IsTold};

use crate::marked_hit::trace_marks;
use crate::reached::{Size, reach_marks, size_of};
use crate::totals::first_good;
use box_layers::Layers;
use search_hits::{Hit, Region};
use std::alloc::{AllocError, Global};
use total_marks::{Arcs, Marks};

/// What marks tell.
#[derive(Drop)]
pub enum Told {
    /// There is no hit.
    Nothing,
    Found(Hit),
    /// The marks would take too much room, or no hit was found by them though there may be one.
    Unknown,
}

// What the marks tell.
fn tell_by(
    alloc: Global,
    layers: &Layers,
    marks: &Marks,
    arcs: &Arcs,
    size: Size,
    side: (u64, u64),
) -> Result<Told, AllocError>
    requires one { layers.now.region.now.registers ≡ side ∷ [] }
    requires some { layers.now.region.now.empty ≡ false }
    requires most { side.1 < 2 ^ 31 }
    requires rows { size.rows ≡ length layers.now.machines.now * size.states + 1 }
    requires closed { MarksAreClosed marks.now.words marks.now.width layers.now.machines.now size.states side.1 }
    ensures { IfOk result (IsTold layers.now.machines.now layers.now.integers layers.now.rows.now layers.now.region.now) }
{
    let Some(words) = marks.row(size.rows - 1) else {
        return Ok(Told::Unknown);
    };
    let Some(total) = first_good(alloc, layers, words, side.0, side.1)? else {
        return Ok(Told::Nothing);
    };
    match trace_marks(alloc, layers, marks, arcs, size, side, total)? {
        Some(hit) => Ok(Told::Found(hit)),
        None => Ok(Told::Unknown),
    }
}

// The side of the one register.
fn only_side(region: &Region) -> (u64, u64)
    requires { length region.now.registers ≡ 1 }
    ensures { region.now.registers ≡ result ∷ [] }
{
    region.registers.as_slice()[0]
}

/// What is told by marks on the pairs of a state and a total that are reached, 64 totals a word.
///
/// An edge moves all totals of a word at once, so that time is that of edges and words, up to 64 times where edges
/// lead back within a word, and memory that of a bit for each state of the largest machine, total and machine; marks
/// that take more than 128 MB aren't made. A run is found by going back from a total behind the last machine: by edges
/// to marked pairs with lesser totals, and by breadth along those that cost nothing.
pub fn by_marks(alloc: Global, layers: &Layers) -> Result<Told, AllocError>
    requires one { length layers.now.region.now.registers ≡ 1 }
    requires some { layers.now.region.now.empty ≡ false }
    ensures { IfOk result (IsTold layers.now.machines.now layers.now.integers layers.now.rows.now layers.now.region.now) }
{
    let side = only_side(layers.region);
    let Some(size) = size_of(layers.machines, side.1) else {
        return Ok(Told::Unknown);
    };
    let arcs = Arcs::of(alloc, layers.machines, size.states, size.rows)?;
    match reach_marks(alloc, layers.machines, &arcs, size, side.1)? {
        Some(marks) => tell_by(alloc, layers, &marks, &arcs, size, side),
        None => Ok(Told::Unknown),
    }
}
