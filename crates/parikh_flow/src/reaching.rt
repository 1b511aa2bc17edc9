//! The states of a net that are reached from its start over used edges.
ghost use Rattle.std.specs.Prelude.{◌≡◌, ℕ, suc, pos, ◌<◌, ◌≤ℤ◌, ◌<ℤ◌, ◌↔◌, [], length, true, false, slice_get, Some, All, OnOk, IfOk, MatchOption};
ghost use Rattle.machine_core.specs.Places.{IsIndex};
ghost use Rattle.farkas_check.specs.Systems.{Reached, Joined};
ghost use Rattle.farkas_check.specs.Cuts.{values_of, IsNetWithin, IsUnreached};
ghost use Rattle.farkas_check.specs.declared.net.NetEdge.{NetEdge};
ghost use Rattle.parikh_flow.specs.Reaching.{source_of, Marks, Traverses, Visits, IsReaching};

use crate::items::item_at;
use crate::running::unmarked_states;
use farkas_check::{Net, NetEdge};
use machine_core::Index;
use std::alloc::{AllocError, Global};
use sv_list::Items;

// For each state the places of the edges that leave it.
fn by_source(alloc: Global, edges: &[NetEdge], states: u32) -> Result<Index, AllocError>
    requires { (p : ℕ) (e : NetEdge) → slice_get edges.now p ≡ Some e → e.from < states }
    ensures rows { IfOk result (λ i. length i ≡ states) }
    ensures found { IfOk result (λ i. IsIndex source_of edges.now i) }
{
    let mut index = Index::new(alloc, states)?;
    for (place, edge) in edges.iter().enumerate() {
        index.add(edge.from, place)?;
    }
    Ok(index)
}

// Marks a state and lists it, where it isn't marked yet.
fn mark(found: &mut Items<u32>, seen: &mut Items<bool>, state: u32) -> Result<(), AllocError>
    requires { state < length seen.old }
    ensures { OnOk result (Marks state found.old found.new seen.old seen.new) }
{
    if seen.as_slice()[state as usize] {
        return Ok(());
    }
    found.push(state)?;
    seen.set(state as usize, true);
    Ok(())
}

// Marks the state that an edge leads to, where the edge is used.
fn traverse(
    point: &[i128],
    found: &mut Items<u32>,
    seen: &mut Items<bool>,
    edge: NetEdge,
) -> Result<(), AllocError>
    requires unknown { edge.unknown < length point.now }
    requires to { edge.to < length seen.old }
    ensures { OnOk result (Traverses (values_of point.now) edge found.old found.new seen.old seen.new) }
{
    if point[edge.unknown as usize] <= 0 {
        return Ok(());
    }
    mark(found, seen, edge.to)?;
    Ok(())
}

// Traverses the edges at these places, which leave a listed state.
fn visit(
    net: &Net,
    row: &[usize],
    point: &[i128],
    found: &mut Items<u32>,
    seen: &mut Items<bool>,
) -> Result<(), AllocError>
    requires within { IsNetWithin (length point.now) net.now }
    requires search { (at : ℕ) × Visits net.now found.old row.now at × IsReaching (values_of point.now) net.now found.old seen.old at [] }
    ensures { OnOk result ((at : ℕ) → Visits net.now found.old row.now at → IsReaching (values_of point.now) net.now found.old seen.old at [] → IsReaching (values_of point.now) net.now found.new seen.new (suc at) []) }
{
    for place in row {
        let edge = *item_at(net.edges.as_slice(), *place);
        traverse(point, found, seen, edge)?;
    }
    Ok(())
}

// A mark for each state, set where it is reached.
fn reached_states(alloc: Global, net: &Net, point: &[i128]) -> Result<Items<bool>, AllocError>
    requires { IsNetWithin (length point.now) net.now }
    ensures size { IfOk result (λ seen. length seen ≡ net.now.states) }
    ensures exact { IfOk result (λ seen. (s : ℕ) → s < net.now.states → (slice_get seen s ≡ Some true) ↔ Reached (values_of point.now) net.now s) }
{
    let index = by_source(alloc, net.edges.as_slice(), net.states)?;
    let mut seen = Items::from_vec(vec![in alloc; false; net.states as usize]?);
    seen.set(net.start as usize, true);
    let mut found = Items::new(alloc);
    found.push(net.start)?;
    let mut at = 0;
    while at < found.len() {
        let row = index.row(found.as_slice()[at]);
        visit(net, row, point, &mut found, &mut seen)?;
        at += 1;
    }
    Ok(seen)
}

// Whether each state with a used edge out is marked.
fn is_joined(edges: &[NetEdge], seen: &[bool], point: &[i128]) -> bool
    requires unknowns { (p : ℕ) (e : NetEdge) → slice_get edges.now p ≡ Some e → e.unknown < length point.now }
    requires states { (p : ℕ) (e : NetEdge) → slice_get edges.now p ≡ Some e → e.from < length seen.now }
    ensures joined { result ≡ true → (p : ℕ) (e : NetEdge) → slice_get edges.now p ≡ Some e → pos 0 <ℤ values_of point.now e.unknown → slice_get seen.now e.from ≡ Some true }
    ensures left { result ≡ false → (p : ℕ) × (e : NetEdge) × (slice_get edges.now p ≡ Some e) × (pos 0 <ℤ values_of point.now e.unknown) × (slice_get seen.now e.from ≡ Some false) }
{
    let mut at = 0;
    while at < edges.len() {
        let edge = *item_at(edges, at);
        if point[edge.unknown as usize] > 0 && !seen[edge.from as usize] {
            return false;
        }
        at += 1;
    }
    true
}

/// The states, ascending, that aren't reached from the net's start over used edges; `None` exactly where
/// the net is joined. Linear in the net.
pub fn unreached_states(
    alloc: Global,
    net: &Net,
    point: &[i128],
) -> Result<Option<Items<u32>>, AllocError>
    requires within { IsNetWithin (length point.now) net.now }
    requires not_negative { All (λ e. pos 0 ≤ℤ values_of point.now e.unknown) net.now.edges }
    ensures { IfOk result (λ o. MatchOption o (Joined (values_of point.now) net.now) (IsUnreached (values_of point.now) net.now)) }
{
    let seen = reached_states(alloc, net, point)?;
    if is_joined(net.edges.as_slice(), seen.as_slice(), point) {
        return Ok(None);
    }
    let set = unmarked_states(alloc, seen.as_slice(), net.states)?;
    Ok(Some(set))
}
