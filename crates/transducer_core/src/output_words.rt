//! The words that a transducer may write for one word, as a machine.
ghost use Rattle.std.specs.Prelude.{◌≡◌, ◌↔◌, ◌≤◌, ◌<◌, ◌+◌, ℕ, List, [], ◌∷◌, ◌++◌, length, slice_get, Some, Contains, IfOk, OnOk, IsTrue, false, ◌⊎◌, ◌||◌};
ghost use Rattle.machine_core.specs.Edges.{EndsAt, StepsBy};
ghost use Rattle.machine_core.specs.Graphs.{Accepts};
ghost use Rattle.sv_terms.specs.Transduction.{IsFormed, Pairs};
ghost use Rattle.transducer_core.specs.Nodes.{AddsText, LeadToNodes, IsChain, LeadsWithin};
ghost use Rattle.transducer_core.specs.Outputs.{AddsWords, ArePlaces, EndsBy, IsBase, IsOutput, MakesNode, MakesPlaces, OverEdge, OverEdges};
ghost use Rattle.sv_word.specs.Words.{IsWord, greatest_character};
ghost use Rattle.transducer_core.specs.Built.{IsAnyStep, IsBuilt, IsStep};
ghost use Rattle.transducer_core.specs.declared.node.OutputNode.{OutputNode as AnyNode};
ghost use Rattle.sv_terms.specs.declared.transducer.TransEdge.{TransEdge as AnyEdge};

use crate::node::OutputNode;
use crate::writing::text_at;
use machine_core::{Cost, Explicit};
use std::alloc::{AllocError, Global};
use sv_list::Items;
use sv_terms::{TransEdge, Transducer};
use sv_word::{Ranges, Word};

// One node more; its place.
fn push_node(nodes: &mut Items<OutputNode>, node: OutputNode) -> Result<u32, AllocError>
    ensures place { IfOk result (λ k. k ≡ length nodes.old) }
    ensures ok { OnOk result (nodes.new ≡ nodes.old ++ node ∷ []) }
{
    let place = nodes.len();
    if place >= u32::MAX as usize {
        return Err(AllocError);
    }
    nodes.push(node)?;
    Ok(place as u32)
}

// A node that writes one character and then what the node at a place writes.
fn one_first(alloc: Global, c: u32, to: u32) -> Result<OutputNode, AllocError>
    ensures firsts { IfOk result (λ n. n.firsts ≡ (c, to) ∷ []) }
    ensures ends { IfOk result (λ n. n.ends ≡ false) }
{
    let mut firsts = Items::new(alloc);
    firsts.push((c, to))?;
    Ok(OutputNode {
        firsts,
        ends: false,
    })
}

// A place from which the text is written, and then what is written from `target` on.
fn chain(
    alloc: Global,
    nodes: &mut Items<OutputNode>,
    text: &[u32],
    target: u32,
) -> Result<u32, AllocError>
    requires closed { LeadToNodes nodes.old }
    requires target { target < length nodes.old }
    requires text { IsWord text.now }
    ensures { IfOk result (IsChain nodes.old nodes.new text.now target) }
{
    let mut place = target;
    for i in (0..text.len()).rev() {
        place = push_node(nodes, one_first(alloc, text[i], place)?)?;
    }
    Ok(place)
}

fn is_first(first: &(u32, u32), c: u32, to: u32) -> bool
    ensures { IsTrue result ↔ (first.now ≡ (c, to)) }
{
    first.0 == c && first.1 == to
}

fn first_at(firsts: &[(u32, u32)], at: usize) -> &(u32, u32)
    requires { at < length firsts.now }
    ensures { slice_get firsts.now at ≡ Some result.now }
{
    &firsts[at]
}

// Whether a node has this character and this place.
fn has_first(firsts: &[(u32, u32)], c: u32, to: u32) -> bool
    ensures { IsTrue result ↔ Contains firsts.now (c, to) }
{
    for at in 0..firsts.len() {
        if is_first(first_at(firsts, at), c, to) {
            return true;
        }
    }
    false
}

// Adds a character and a place to those of a node, where they aren't among them.
fn add_first(node: &mut OutputNode, c: u32, to: u32) -> Result<(), AllocError>
    ensures firsts { OnOk result ((f : ℕ × ℕ) → Contains node.new.firsts f ↔ (Contains node.old.firsts f ⊎ ((c, to) ≡ f))) }
    ensures ends { node.new.ends ≡ node.old.ends }
{
    if has_first(node.firsts.as_slice(), c, to) {
        return Ok(());
    }
    node.firsts.push((c, to))?;
    Ok(())
}

// Adds to a node the characters and places of another.
fn add_firsts(node: &mut OutputNode, firsts: &[(u32, u32)]) -> Result<(), AllocError>
    ensures firsts { OnOk result ((f : ℕ × ℕ) → Contains node.new.firsts f ↔ (Contains node.old.firsts f ⊎ Contains firsts.now f)) }
    ensures ends { node.new.ends ≡ node.old.ends }
{
    for at in 0..firsts.len() {
        let first = first_at(firsts, at);
        add_first(node, first.0, first.1)?;
    }
    Ok(())
}

// Adds to a node what another writes.
fn join(node: &mut OutputNode, other: &OutputNode) -> Result<(), AllocError>
    ensures firsts { OnOk result ((f : ℕ × ℕ) → Contains node.new.firsts f ↔ (Contains node.old.firsts f ⊎ Contains other.now.firsts f)) }
    ensures ends { OnOk result (node.new.ends ≡ node.old.ends || other.now.ends) }
{
    add_firsts(node, other.firsts.as_slice())?;
    node.ends = node.ends || other.ends;
    Ok(())
}

// Adds to a node the text, and then what is written from `target` on.
fn add_text(
    alloc: Global,
    nodes: &mut Items<OutputNode>,
    node: &mut OutputNode,
    text: &[u32],
    target: u32,
) -> Result<(), AllocError>
    requires closed { LeadToNodes nodes.old }
    requires within { LeadsWithin (length nodes.old) node.old }
    requires target { target < length nodes.old }
    requires text { IsWord text.now }
    ensures { OnOk result (AddsText nodes.old nodes.new node.old node.new text.now target) }
{
    if text.is_empty() {
        join(node, &nodes.as_slice()[target as usize])?;
        return Ok(());
    }
    let to = chain(alloc, nodes, &text[1..], target)?;
    add_first(node, text[0], to)?;
    Ok(())
}

fn empty(alloc: Global) -> OutputNode
    ensures firsts { result.firsts ≡ [] }
    ensures ends { result.ends ≡ false }
{
    OutputNode {
        firsts: Items::new(alloc),
        ends: false,
    }
}

// Adds to a node what an end writes in a state; the node at place 0 writes the empty word alone.
fn add_end(
    alloc: Global,
    nodes: &mut Items<OutputNode>,
    node: &mut OutputNode,
    end: &(u32, Word),
    state: u32,
) -> Result<(), AllocError>
    requires base { IsBase nodes.old }
    requires within { LeadsWithin (length nodes.old) node.old }
    ensures { OnOk result (AddsWords nodes.old nodes.new node.old node.new (λ w. end.now ≡ (state, w))) }
{
    if end.0 != state {
        return Ok(());
    }
    end.1.is_word();
    add_text(alloc, nodes, node, end.1.as_slice(), 0)?;
    Ok(())
}

// What the ends write in a state.
fn end_node(
    alloc: Global,
    ends: &[(u32, Word)],
    state: u32,
    nodes: &mut Items<OutputNode>,
) -> Result<OutputNode, AllocError>
    requires { IsBase nodes.old }
    ensures { IfOk result (λ n. MakesNode nodes.old nodes.new n (EndsBy ends.now state)) }
{
    let mut node = empty(alloc);
    for end in ends {
        add_end(alloc, nodes, &mut node, end, state)?;
    }
    Ok(node)
}

// Whether an edge reads a character in a state.
fn reads_over(edge: &TransEdge, state: u32, c: u32) -> bool
    ensures { IsTrue result ↔ (edge.now.from ≡ state) × (edge.now.lo ≤ c) × (c ≤ edge.now.hi) }
{
    edge.from == state && edge.lo <= c && c <= edge.hi
}

// Adds to a node what an edge writes over a character in a state, and then what is written from the place of
// the state behind it.
fn add_edge(
    alloc: Global,
    nodes: &mut Items<OutputNode>,
    node: &mut OutputNode,
    edge: &TransEdge,
    state: u32,
    c: u32,
    places: &[u32],
) -> Result<(), AllocError>
    requires closed { LeadToNodes nodes.old }
    requires within { LeadsWithin (length nodes.old) node.old }
    requires to { edge.now.to < length places.now }
    requires places { ArePlaces nodes.old places.now }
    ensures { OnOk result (AddsWords nodes.old nodes.new node.old node.new (OverEdge nodes.old places.now state c edge.now)) }
{
    if !reads_over(edge, state, c) {
        return Ok(());
    }
    match text_at(alloc, edge.items.as_slice(), c)? {
        None => Ok(()),
        Some(text) => {
            text.is_word();
            let target = places[edge.to as usize];
            add_text(alloc, nodes, node, text.as_slice(), target)?;
            Ok(())
        }
    }
}

// What the edges write over a character in a state, and then what is written from the places of the states
// behind them.
fn edge_node(
    alloc: Global,
    edges: &[TransEdge],
    state: u32,
    c: u32,
    places: &[u32],
    nodes: &mut Items<OutputNode>,
) -> Result<OutputNode, AllocError>
    requires closed { LeadToNodes nodes.old }
    requires to { (e : AnyEdge) → Contains edges.now e → e.to < length places.now }
    requires places { ArePlaces nodes.old places.now }
    ensures { IfOk result (λ n. MakesNode nodes.old nodes.new n (OverEdges nodes.old places.now state c edges.now)) }
{
    let mut node = empty(alloc);
    for edge in edges {
        add_edge(alloc, nodes, &mut node, edge, state, c, places)?;
    }
    Ok(node)
}

// The places of the nodes of all states where nothing is left to read.
fn end_places(
    alloc: Global,
    transducer: &Transducer,
    nodes: &mut Items<OutputNode>,
) -> Result<Items<u32>, AllocError>
    requires { IsBase nodes.old }
    ensures { IfOk result (λ places. MakesPlaces nodes.old nodes.new transducer.now.states places (EndsBy transducer.now.ends)) }
{
    let mut places = Items::new(alloc);
    for state in 0..transducer.states {
        let node = end_node(alloc, transducer.ends.as_slice(), state, nodes)?;
        places.push(push_node(nodes, node)?)?;
    }
    Ok(places)
}

// The places of the nodes of all states, with one character more to read.
fn edge_places(
    alloc: Global,
    transducer: &Transducer,
    c: u32,
    places: &[u32],
    nodes: &mut Items<OutputNode>,
) -> Result<Items<u32>, AllocError>
    requires closed { LeadToNodes nodes.old }
    requires to { (e : AnyEdge) → Contains transducer.now.edges e → e.to < length places.now }
    requires places { ArePlaces nodes.old places.now }
    ensures { IfOk result (λ more. MakesPlaces nodes.old nodes.new transducer.now.states more (λ s w. OverEdges nodes.old places.now s c transducer.now.edges w)) }
{
    let mut more = Items::new(alloc);
    for state in 0..transducer.states {
        let node = edge_node(alloc, transducer.edges.as_slice(), state, c, places, nodes)?;
        more.push(push_node(nodes, node)?)?;
    }
    Ok(more)
}

// The nodes of all that may be written, and the place of the start's.
fn all_nodes(
    alloc: Global,
    transducer: &Transducer,
    read: &[u32],
    nodes: &mut Items<OutputNode>,
) -> Result<u32, AllocError>
    requires base { IsBase nodes.old }
    requires formed { IsFormed transducer.now }
    ensures { IfOk result (IsOutput transducer.now read.now nodes.new) }
{
    let mut places = end_places(alloc, transducer, nodes)?;
    for i in (0..read.len()).rev() {
        places = edge_places(alloc, transducer, read[i], places.as_slice(), nodes)?;
    }
    Ok(places.as_slice()[transducer.start as usize])
}

// Adds the edge of a character and a place, which is the state one above it.
fn add_step(
    alloc: Global,
    machine: &mut Explicit,
    state: u32,
    c: u32,
    place: u32,
) -> Result<(), AllocError>
    requires state { state < machine.old.states }
    requires place { place + 1 < machine.old.states }
    requires character { c ≤ greatest_character }
    requires free { machine.old.registers ≡ 0 }
    ensures states { machine.new.states ≡ machine.old.states }
    ensures registers { machine.new.registers ≡ machine.old.registers }
    ensures ends { machine.new.ends ≡ machine.old.ends }
    ensures steps { OnOk result ((s d : ℕ) (cost : List ℕ) (to : ℕ) → StepsBy machine.new.edges s d cost to ↔ (StepsBy machine.old.edges s d cost to ⊎ IsStep state (c, place) s d cost to)) }
{
    let _count = machine.states();
    let on = Ranges::of(alloc, c, c)?;
    machine.add_edge(state, on, Cost::new(alloc), place + 1)?;
    Ok(())
}

// Adds the edges of a node, which is this state.
fn add_steps(
    alloc: Global,
    machine: &mut Explicit,
    state: u32,
    firsts: &[(u32, u32)],
) -> Result<(), AllocError>
    requires state { state < machine.old.states }
    requires firsts { (c to : ℕ) → Contains firsts.now (c, to) → (to + 1 < machine.old.states) × (c ≤ greatest_character) }
    requires free { machine.old.registers ≡ 0 }
    ensures states { machine.new.states ≡ machine.old.states }
    ensures registers { machine.new.registers ≡ machine.old.registers }
    ensures ends { machine.new.ends ≡ machine.old.ends }
    ensures steps { OnOk result ((s d : ℕ) (cost : List ℕ) (to : ℕ) → StepsBy machine.new.edges s d cost to ↔ (StepsBy machine.old.edges s d cost to ⊎ IsAnyStep state firsts.now s d cost to)) }
{
    for first in firsts {
        add_step(alloc, machine, state, first.0, first.1)?;
    }
    Ok(())
}

// Adds the end of this state, where there is one.
fn add_stop(alloc: Global, machine: &mut Explicit, state: u32, ends: bool) -> Result<(), AllocError>
    requires state { state < machine.old.states }
    requires free { machine.old.registers ≡ 0 }
    ensures states { machine.new.states ≡ machine.old.states }
    ensures registers { machine.new.registers ≡ machine.old.registers }
    ensures edges { machine.new.edges ≡ machine.old.edges }
    ensures ends { OnOk result ((s : ℕ) (cost : List ℕ) → EndsAt machine.new.ends s cost ↔ (EndsAt machine.old.ends s cost ⊎ ((state ≡ s) × IsTrue ends × (cost ≡ [])))) }
{
    if ends {
        machine.add_end(state, Cost::new(alloc))?;
    }
    Ok(())
}

// One node more as a state.
fn add_state(
    alloc: Global,
    machine: &mut Explicit,
    state: u32,
    node: &OutputNode,
) -> Result<(), AllocError>
    requires state { state < machine.old.states }
    requires firsts { (c to : ℕ) → Contains node.now.firsts (c, to) → (to + 1 < machine.old.states) × (c ≤ greatest_character) }
    requires free { machine.old.registers ≡ 0 }
    ensures states { machine.new.states ≡ machine.old.states }
    ensures registers { machine.new.registers ≡ machine.old.registers }
    ensures built { OnOk result ((ns : List AnyNode) → state ≡ length ns → IsBuilt machine.old ns → IsBuilt machine.new (ns ++ node.now ∷ [])) }
{
    add_steps(alloc, machine, state, node.firsts.as_slice())?;
    add_stop(alloc, machine, state, node.ends)?;
    Ok(())
}

// The nodes as a machine: its start is the node at `first`, and the state k + 1 is the node at the place k.
fn machine_of(alloc: Global, nodes: &[OutputNode], first: u32) -> Result<Explicit, AllocError>
    requires closed { LeadToNodes nodes.now }
    requires first { first < length nodes.now }
    ensures registers { IfOk result (λ m. m.registers ≡ 0) }
    ensures built { IfOk result (λ m. (n : AnyNode) → slice_get nodes.now first ≡ Some n → IsBuilt m (n ∷ nodes.now)) }
{
    if nodes.len() >= u32::MAX as usize {
        return Err(AllocError);
    }
    let count = nodes.len() as u32;
    let mut machine = Explicit::new(alloc, count + 1, 0)?;
    add_state(alloc, &mut machine, 0, &nodes[first as usize])?;
    for place in 0..count {
        add_state(alloc, &mut machine, place + 1, &nodes[place as usize])?;
    }
    Ok(machine)
}

// The node that writes the empty word alone.
fn nothing(alloc: Global) -> Result<Items<OutputNode>, AllocError>
    ensures { IfOk result IsBase }
{
    let mut nodes = Items::new(alloc);
    nodes.push(OutputNode {
        firsts: Items::new(alloc),
        ends: true,
    })?;
    Ok(nodes)
}

/// A machine without registers whose words are exactly those that the transducer may write for `read`.
///
/// It has a state for each state of the transducer and each place in `read`, and one for each character
/// but the first that an edge may write there; no state has two edges on one character to one state. Time
/// is at most that times the edges of the transducer and of a state.
pub fn outputs(alloc: Global, transducer: &Transducer, read: &Word) -> Result<Explicit, AllocError>
    requires { IsFormed transducer.now }
    ensures registers { IfOk result (λ m. m.registers ≡ 0) }
    ensures words { IfOk result (λ m. (written : List ℕ) → Accepts m written [] ↔ Pairs transducer.now read.now written) }
{
    let mut nodes = nothing(alloc)?;
    let first = all_nodes(alloc, transducer, read.as_slice(), &mut nodes)?;
    machine_of(alloc, nodes.as_slice(), first)
}
