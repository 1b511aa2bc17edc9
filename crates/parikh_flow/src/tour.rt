//! A walk over all edges that are to be used, each as often as it is counted.
ghost use Rattle.std.specs.Prelude.{◌≡◌, ℕ, ◌+◌, ◌<◌, ◌≤◌, true, false, List, length, replicate, slice_get, slice_index, Some, IfOk, OnOk, if◌then◌else◌};
ghost use Rattle.machine_core.specs.declared.edge.Edge.{Edge};
ghost use Rattle.machine_core.specs.Places.{places};
ghost use Rattle.parikh_flow.specs.declared.tour.Tour.{Tour};
ghost use Rattle.parikh_flow.specs.Counts.{total_count};
ghost use Rattle.parikh_flow.specs.Tours.{IsTour, IsToured, IsNextLeft, IsDrained, Balances};

use crate::items::item_at;
use machine_core::{Edge, Explicit};
use std::alloc::{AllocError, Global};
use sv_list::Items;

/// An unfinished tour of a machine's edges.
pub struct Tour {
    /// How often each edge is still to be used.
    pub left: Items<u64>,
    /// For each state, the number of the edges that leave it, in their order, of which none is left.
    pub next: Items<usize>,
    /// The places of the edges from the start to the present state.
    pub way: Items<usize>,
    /// The places of the settled edges, the last of the walk first.
    pub back: Items<usize>,
    pub at: u32,
}

// A drop by hand is one call where a derived one is a call for each vector inside.
impl Drop for Tour {
    fn drop(self) {
        let Self {
            left: _,
            next: _,
            way: _,
            back: _,
            at: _,
        } = self;
    }
}

// The first place of the row, from `from` on, whose edge is left.
fn next_left(row: &[usize], from: usize, left: &[u64]) -> Option<usize>
    requires { (i p : ℕ) → slice_get row.now i ≡ Some p → p < length left.now }
    ensures { IsNextLeft row.now from left.now result }
{
    let mut i = from;
    while i < row.len() {
        if left[row[i]] > 0 {
            return Some(i);
        }
        i += 1;
    }
    None
}

// Uses the edge at this place, which leaves the present state.
fn advance(edges: &[Edge], tour: &mut Tour, place: usize) -> Result<(), AllocError>
    requires place { place < length edges.now }
    requires size { length tour.old.left ≡ length edges.now }
    requires left { 0 < slice_index tour.old.left place }
    requires from { (e : Edge) → slice_get edges.now place ≡ Some e → e.from ≡ tour.old.at }
    requires states { (e : Edge) → slice_get edges.now place ≡ Some e → e.to < length tour.old.next }
    ensures tour { OnOk result ((states : ℕ) (f : List ℕ) (stop : ℕ)
        → IsTour edges.now states f stop tour.old.left tour.old.next tour.old.way tour.old.back tour.old.at
        → IsTour edges.now states f stop tour.new.left tour.new.next tour.new.way tour.new.back tour.new.at) }
    ensures fewer { OnOk result (total_count tour.old.left ≡ total_count tour.new.left + 1) }
    ensures longer { OnOk result (length tour.new.way ≡ length tour.old.way + 1) }
{
    let count = tour.left.as_slice()[place];
    tour.left.set(place, count - 1);
    tour.way.push(place)?;
    tour.at = item_at(edges, place).to;
    Ok(())
}

// Settles the last edge of the way, where no edge that leaves the present state is left; false where the
// way has none.
fn retreat(edges: &[Edge], tour: &mut Tour) -> Result<bool, AllocError>
    requires drained { IsDrained edges.now tour.old.left tour.old.at }
    requires places { (i p : ℕ) → slice_get tour.old.way i ≡ Some p → p < length edges.now }
    ensures tour { IfOk result (λ more. more ≡ true → (states : ℕ) (f : List ℕ) (stop : ℕ)
        → ((p : ℕ) (e : Edge) → slice_get edges.now p ≡ Some e → e.from < states)
        → IsTour edges.now states f stop tour.old.left tour.old.next tour.old.way tour.old.back tour.old.at
        → IsTour edges.now states f stop tour.new.left tour.new.next tour.new.way tour.new.back tour.new.at) }
    ensures left { tour.new.left ≡ tour.old.left }
    ensures shorter { IfOk result (λ more. length tour.new.way + (if more then 1 else 0) ≤ length tour.old.way) }
    ensures ready { IfOk result (λ more. more ≡ false → (states : ℕ) (f : List ℕ) (stop : ℕ)
        → IsTour edges.now states f stop tour.old.left tour.old.next tour.old.way tour.old.back tour.old.at
        → IsToured edges.now f stop tour.new.left tour.new.back) }
{
    let Some(place) = tour.way.pop() else {
        return Ok(false);
    };
    tour.back.push(place)?;
    tour.at = item_at(edges, place).from;
    Ok(true)
}

// One step of the tour; false where it is complete.
fn step(machine: &Explicit, tour: &mut Tour) -> Result<bool, AllocError>
    requires { (f : List ℕ) × (stop : ℕ) × IsTour machine.now.edges machine.now.states f stop tour.old.left tour.old.next tour.old.way tour.old.back tour.old.at }
    ensures tour { IfOk result (λ more. more ≡ true → (f : List ℕ) (stop : ℕ)
        → IsTour machine.now.edges machine.now.states f stop tour.old.left tour.old.next tour.old.way tour.old.back tour.old.at
        → IsTour machine.now.edges machine.now.states f stop tour.new.left tour.new.next tour.new.way tour.new.back tour.new.at) }
    ensures less { IfOk result (λ more. total_count tour.new.left + total_count tour.new.left + length tour.new.way + (if more then 1 else 0)
        ≤ total_count tour.old.left + total_count tour.old.left + length tour.old.way) }
    ensures ready { IfOk result (λ more. more ≡ false → (f : List ℕ) (stop : ℕ)
        → IsTour machine.now.edges machine.now.states f stop tour.old.left tour.old.next tour.old.way tour.old.back tour.old.at
        → IsToured machine.now.edges f stop tour.new.left tour.new.back) }
{
    let at = tour.at;
    let row = machine.edges_from(at);
    let from = tour.next.as_slice()[at as usize];
    match next_left(row, from, tour.left.as_slice()) {
        Some(i) => {
            tour.next.set(at as usize, i);
            advance(machine.edges(), tour, row[i])?;
            Ok(true)
        }
        None => {
            tour.next.set(at as usize, row.len());
            retreat(machine.edges(), tour)
        }
    }
}

// So many noughts.
fn noughts(alloc: Global, count: u32) -> Result<Items<usize>, AllocError>
    ensures { IfOk result (λ next. next ≡ replicate count 0) }
{
    Ok(Items::from_vec(vec![in alloc; 0; count as usize]?))
}

/// The tour of the edges, each as often as the counts say: it leads from the start to the state at which
/// the counts end. What it leaves over lies apart from the start. Linear in the sum of the counts and in
/// the machine.
pub fn tour_of(alloc: Global, machine: &Explicit, counts: &[u64]) -> Result<Tour, AllocError>
    requires size { length counts.now ≡ length machine.now.edges }
    requires balanced { (stop : ℕ) × Balances machine.now.edges counts.now 0 stop }
    ensures { IfOk result (λ t. (stop : ℕ) → Balances machine.now.edges counts.now 0 stop → IsToured machine.now.edges counts.now stop t.left t.back) }
{
    let left = Items::from_slice(alloc, counts)?;
    let next = noughts(alloc, machine.states())?;
    let mut tour = Tour {
        left,
        next,
        way: Items::new(alloc),
        back: Items::new(alloc),
        at: 0,
    };
    let mut more = true;
    while more {
        more = step(machine, &mut tour)?;
    }
    // The way is empty, and its room is free again.
    tour.way = Items::new(alloc);
    Ok(tour)
}
