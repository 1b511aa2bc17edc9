//! The search of a run, a layer for each character.
ghost use Rattle.std.specs.Prelude.{◌≡◌, ◌≤◌, ◌<◌, ℕ, suc, List, ◌++◌, length, drop, slice_get, Some, Contains, IfOk, OnOk, IsTrue, MatchOption};
ghost use Rattle.sv_terms.specs.Transduction.{Transduces};
ghost use Rattle.transducer_core.specs.Layers.{IsPartLayer, IsLayer, LedTo};
ghost use Rattle.transducer_core.specs.declared.reached.Reached.{Reached as AnyReached};

use crate::reached::Reached;
use crate::writing::{stands_at, text_at};
use std::alloc::{AllocError, Global};
use sv_list::Items;
use sv_terms::{TransEdge, Transducer};
use sv_word::Word;

/// One of the entries.
pub fn entry_at(layer: &[Reached], at: usize) -> &Reached
    requires { at < length layer.now }
    ensures { slice_get layer.now at ≡ Some result.now }
{
    &layer[at]
}

fn edge_at(edges: &[TransEdge], at: usize) -> &TransEdge
    requires { at < length edges.now }
    ensures { slice_get edges.now at ≡ Some result.now }
{
    &edges[at]
}

// How many characters are done once the edge is taken; `None` exactly where it can't be.
fn done_after(
    alloc: Global,
    written: &Word,
    c: u32,
    from: &Reached,
    edge: &TransEdge,
) -> Result<Option<usize>, AllocError>
    requires { from.now.done ≤ length written.now }
    ensures { IfOk result (λ o. MatchOption o ((text rest : List ℕ) → Transduces from.now.state c text edge.now → drop from.now.done written.now ≡ text ++ rest → ⊥) (LedTo written.now c from.now edge.now)) }
{
    if edge.from != from.state || c < edge.lo || edge.hi < c {
        return Ok(None);
    }
    match text_at(alloc, edge.items.as_slice(), c)? {
        None => Ok(None),
        Some(text) => {
            if stands_at(written.as_slice(), from.done, text.as_slice()) {
                Ok(Some(from.done + text.len()))
            } else {
                Ok(None)
            }
        }
    }
}

// Whether the layer has an entry of this state with so many characters done.
fn lists(layer: &[Reached], state: u32, done: usize) -> bool
    ensures { IsTrue result → (r : AnyReached) × Contains layer.now r × (r.state ≡ state) × (r.done ≡ done) }
{
    for entry in layer {
        if entry.state == state && entry.done == done {
            return true;
        }
    }
    false
}

// Adds where one edge leads from one entry.
fn add_by(
    alloc: Global,
    transducer: &Transducer,
    written: &Word,
    c: u32,
    layer: &[Reached],
    before: usize,
    place: usize,
    next: &mut Items<Reached>,
) -> Result<(), AllocError>
    requires before { before < length layer.now }
    requires place { place < length transducer.now.edges }
    requires done { (r : AnyReached) → Contains layer.now r → r.done ≤ length written.now }
    requires part { IsPartLayer transducer.now written.now c layer.now before place next.old }
    ensures { OnOk result (IsPartLayer transducer.now written.now c layer.now before (suc place) next.new) }
{
    let from = entry_at(layer, before);
    let edge = edge_at(transducer.edges.as_slice(), place);
    match done_after(alloc, written, c, from, edge)? {
        None => Ok(()),
        Some(done) => {
            if lists(next.as_slice(), edge.to, done) {
                return Ok(());
            }
            next.push(Reached {
                state: edge.to,
                done,
                edge: place,
                before,
            })?;
            Ok(())
        }
    }
}

// Adds where the edges lead from one entry.
fn add_from(
    alloc: Global,
    transducer: &Transducer,
    written: &Word,
    c: u32,
    layer: &[Reached],
    before: usize,
    next: &mut Items<Reached>,
) -> Result<(), AllocError>
    requires before { before < length layer.now }
    requires done { (r : AnyReached) → Contains layer.now r → r.done ≤ length written.now }
    requires part { IsPartLayer transducer.now written.now c layer.now before 0 next.old }
    ensures { OnOk result (IsPartLayer transducer.now written.now c layer.now (suc before) 0 next.new) }
{
    for place in 0..transducer.edges.len() {
        add_by(alloc, transducer, written, c, layer, before, place, next)?;
    }
    Ok(())
}

/// The places where a run may stand after one character more, each once. At most
/// `states * (length of written + 1)` of them, so the search is polynomial.
pub fn next_layer(
    alloc: Global,
    transducer: &Transducer,
    written: &Word,
    c: u32,
    layer: &[Reached],
) -> Result<Items<Reached>, AllocError>
    requires { (r : AnyReached) → Contains layer.now r → r.done ≤ length written.now }
    ensures { IfOk result (IsLayer transducer.now written.now c layer.now) }
{
    let mut next = Items::new(alloc);
    for before in 0..layer.len() {
        add_from(alloc, transducer, written, c, layer, before, &mut next)?;
    }
    Ok(next)
}
