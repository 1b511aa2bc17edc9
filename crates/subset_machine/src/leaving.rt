//! What leaves some states of a machine.
ghost use Rattle.std.specs.Prelude.{◌≡◌, ℕ, ◌<◌, ◌++◌, length, flat_map, slice_get, Some, Contains, IfOk, OnOk};
ghost use Rattle.machine_core.specs.Places.{pick};
ghost use Rattle.subset_machine.specs.declared.leaving.EdgeRange.{EdgeRange};
ghost use Rattle.subset_machine.specs.Legs.{IsRange, places_from_some, legs_of};

use machine_core::{Edge, Explicit};
use std::alloc::{AllocError, Global};

/// A range of characters on which an edge leads to state `to`.
#[derive(Clone, Copy)]
pub struct EdgeRange {
    pub low: u32,
    pub high: u32,
    pub to: u32,
}

/// The places of the edges that leave these states.
pub fn places_of(alloc: Global, machine: &Explicit, list: &[u32]) -> Result<Vec<usize>, AllocError>
    requires { (s : ℕ) → Contains list.now s → s < machine.now.states }
    ensures { IfOk result (λ v. v.items ≡ places_from_some machine.now.edges list.now) }
{
    let mut places = Vec::new(alloc);
    for s in list {
        places.extend_from_slice(machine.edges_from(*s))?;
    }
    Ok(places)
}

/// The ranges of the edges at these places, each with its target.
pub fn take_apart(
    alloc: Global,
    edges: &[Edge],
    places: &[usize],
) -> Result<Vec<EdgeRange>, AllocError>
    requires { (i p : ℕ) → slice_get places.now i ≡ Some p → p < length edges.now }
    ensures legs { IfOk result (λ v. v.items ≡ flat_map legs_of (pick edges.now places.now)) }
    ensures ranges { IfOk result (λ v. (s : EdgeRange) → Contains v.items s → IsRange s) }
{
    let mut legs = Vec::with_capacity(alloc, places.len())?;
    for place in places {
        let edge = &edges[*place];
        push_legs(&mut legs, edge)?;
    }
    Ok(legs)
}

// Adds the ranges of an edge.
fn push_legs(legs: &mut Vec<EdgeRange>, edge: &Edge) -> Result<(), AllocError>
    ensures legs { OnOk result (legs.new.items ≡ legs.old.items ++ legs_of edge.now) }
    ensures ranges { (s : EdgeRange) → Contains (legs_of edge.now) s → IsRange s }
{
    for pair in edge.on.as_slice() {
        legs.push(EdgeRange {
            low: pair.0,
            high: pair.1,
            to: edge.to,
        })?;
    }
    Ok(())
}
