ghost use Rattle.std.specs.Prelude.{◌≡◌, ◌+◌, ◌<◌, ◌↔◌, length, replicate, slice_get, slice_set, slice_index, Some, IfOk, IsTrue};
ghost use Rattle.machine_core.specs.declared.edge.Edge.{Edge};
ghost use Rattle.machine_core.specs.declared.end.End.{End};
ghost use Rattle.machine_core.specs.Moves.{Moves};
ghost use Rattle.machine_core.specs.Edges.{EndsAt, StepsBy, move_of};
ghost use Rattle.machine_core.specs.Graphs.{IsRunOf};
ghost use Rattle.parikh_flow.specs.Flows.{IsFlow};

use crate::items::item_at;
use machine_core::{Cost, Edge, End, Explicit, Run};
use std::alloc::{AllocError, Global};
use sv_list::Items;
use sv_word::Word;

/// How often a run takes each edge, in the order of `edges`, and then each end, in the order of `finals`.
///
/// Of edges that are alike the first one is counted. Each step of the run costs a look at the edges of
/// its state, besides one number for each edge and end.
pub fn flow_of(alloc: Global, machine: &Explicit, run: &Run<u32>) -> Result<Items<u64>, AllocError>
    requires { IsRunOf machine.now run.now }
    ensures { IfOk result (IsFlow machine.now run.now) }
{
    let edges = machine.edges().len();
    let mut counts = nothings(alloc, edges + machine.finals().len())?;
    let states = run.states.as_slice();
    let costs = run.costs.as_slice();
    let mut k = run.word.len();
    let stop = state_at(states, k);
    let last = end_of(machine, stop, &run.last);
    while k > 0 {
        k -= 1;
        let c = character(&run.word, k);
        let from = state_at(states, k);
        let to = state_at(states, k + 1);
        let place = edge_of(machine, from, c, item_at(costs, k), to);
        let count = count_at(counts.as_slice(), place);
        counts.set(place, count + 1);
    }
    use_end(&mut counts, edges, last);
    Ok(counts)
}

// So many counts of 0.
fn nothings(alloc: Global, size: usize) -> Result<Items<u64>, AllocError>
    ensures { IfOk result (λ counts. counts ≡ replicate size 0) }
{
    Ok(Items::from_vec(vec![in alloc; 0; size]?))
}

fn character(word: &Word, at: usize) -> u32
    requires { at < length word.now }
    ensures { slice_get word.now at ≡ Some result }
{
    match word.get(at) {
        Some(c) => c,
        None => 0,
    }
}

// The count of the end at this place, behind those of the edges, is 1.
fn use_end(counts: &mut Items<u64>, edges: usize, last: usize)
    requires { edges + last < length counts.old }
    ensures { counts.new ≡ slice_set counts.old (edges + last) 1 }
{
    let _size = counts.len();
    counts.set(edges + last, 1);
}

fn state_at(states: &[u32], at: usize) -> u32
    requires { at < length states.now }
    ensures { result ≡ slice_index states.now at }
{
    states[at]
}

fn count_at(counts: &[u64], at: usize) -> u64
    requires { at < length counts.now }
    ensures { result ≡ slice_index counts.now at }
{
    counts[at]
}

fn place_at(row: &[usize], at: usize) -> usize
    requires { at < length row.now }
    ensures { result ≡ slice_index row.now at }
{
    row[at]
}

// Whether the edge leads to this state, on this character, at this cost.
fn leads(edge: &Edge, c: u32, cost: &Cost, to: u32) -> bool
    ensures { IsTrue result ↔ Moves c cost.now to (move_of edge.now) }
{
    if edge.to != to {
        return false;
    }
    if !edge.on.holds(c) {
        return false;
    }
    edge.cost.as_slice() == cost.as_slice()
}

// Whether the end has this cost.
fn costs_so(end: &End, cost: &Cost) -> bool
    ensures { IsTrue result ↔ (end.now.cost ≡ cost.now) }
{
    end.cost.as_slice() == cost.as_slice()
}

// The first edge of the state that leads to another one on this character, at this cost.
fn edge_of(machine: &Explicit, from: u32, c: u32, cost: &Cost, to: u32) -> usize
    requires step { StepsBy machine.now.edges from c cost.now to }
    requires state { from < machine.now.states }
    ensures { (e : Edge) × (slice_get machine.now.edges result ≡ Some e) × (e.from ≡ from) × Moves c cost.now to (move_of e) }
{
    let edges = machine.edges();
    let row = machine.edges_from(from);
    let mut i = 0;
    while !leads(item_at(edges, place_at(row, i)), c, cost, to) {
        i += 1;
    }
    place_at(row, i)
}

// The first end of the state that has this cost.
fn end_of(machine: &Explicit, at: u32, cost: &Cost) -> usize
    requires ending { EndsAt machine.now.ends at cost.now }
    requires state { at < machine.now.states }
    ensures { (e : End) × (slice_get machine.now.ends result ≡ Some e) × (e.at ≡ at) × (e.cost ≡ cost.now) }
{
    let ends = machine.finals();
    let row = machine.ends_at(at);
    let mut i = 0;
    while !costs_so(item_at(ends, place_at(row, i)), cost) {
        i += 1;
    }
    place_at(row, i)
}
