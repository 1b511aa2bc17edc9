ghost use Rattle.std.specs.Prelude.{◌≡◌, ◌↔◌, ◌≤◌, ◌<◌, ◌^◌, [], ◌∷◌, length, drop, reverse, slice_get, Some, Contains, IfOk, IsTrue, MatchOption};
ghost use Rattle.sv_terms.specs.Transduction.{Pairs, IsTransduction};
ghost use Rattle.transducer_core.specs.Layers.{first_of, HasEntry, IsEntry, AreSearchLayers, IsWalking};
ghost use Rattle.transducer_core.specs.declared.reached.Reached.{Reached as AnyReached};

use crate::layers::{entry_at, next_layer};
use crate::reached::Reached;
use std::alloc::{AllocError, Global};
use sv_list::Items;
use sv_terms::Transducer;
use sv_word::Word;

fn layer_at(layers: &[Items<Reached>], at: usize) -> &[Reached]
    requires { at < length layers.now }
    ensures { slice_get layers.now at ≡ Some result.now }
{
    layers[at].as_slice()
}

fn character_at(word: &[u32], at: usize) -> u32
    requires { at < length word.now }
    ensures { slice_get word.now at ≡ Some result }
{
    word[at]
}

fn end_at(ends: &[(u32, Word)], at: usize) -> &(u32, Word)
    requires { at < length ends.now }
    ensures { slice_get ends.now at ≡ Some result.now }
{
    &ends[at]
}

fn is_same(a: &[u32], b: &[u32]) -> bool
    ensures { IsTrue result ↔ (a.now ≡ b.now) }
{
    a == b
}

fn is_end(end: &(u32, Word), state: u32, rest: &[u32]) -> bool
    ensures { IsTrue result ↔ (end.now ≡ (state, rest.now)) }
{
    end.0 == state && is_same(end.1.as_slice(), rest)
}

// Whether the word may end here, with the rest of what is written.
fn may_end(ends: &[(u32, Word)], state: u32, rest: &[u32]) -> bool
    ensures { IsTrue result ↔ Contains ends.now (state, rest.now) }
{
    for at in 0..ends.len() {
        if is_end(end_at(ends, at), state, rest) {
            return true;
        }
    }
    false
}

// Whether the word may end at this entry, with the rest of what is written.
fn ends_here(transducer: &Transducer, written: &[u32], entry: &Reached) -> bool
    requires { entry.now.done ≤ length written.now }
    ensures { IsTrue result ↔ Contains transducer.now.ends (entry.now.state, drop entry.now.done written.now) }
{
    may_end(
        transducer.ends.as_slice(),
        entry.state,
        &written[entry.done..],
    )
}

// The place of an entry where the word may end, with the rest of what is written.
fn place_of_end(transducer: &Transducer, written: &[u32], layer: &[Reached]) -> Option<usize>
    requires { (r : AnyReached) → Contains layer.now r → r.done ≤ length written.now }
    ensures { MatchOption result ((r : AnyReached) → Contains layer.now r → Contains transducer.now.ends (r.state, drop r.done written.now) → ⊥) (λ at. (r : AnyReached) × (slice_get layer.now at ≡ Some r) × Contains transducer.now.ends (r.state, drop r.done written.now)) }
{
    for at in 0..layer.len() {
        if ends_here(transducer, written, entry_at(layer, at)) {
            return Some(at);
        }
    }
    None
}

fn first_layers(alloc: Global, transducer: &Transducer) -> Result<Items<Items<Reached>>, AllocError>
    ensures { IfOk result (λ layers. layers ≡ (first_of transducer.now ∷ []) ∷ []) }
{
    let mut layer = Items::new(alloc);
    layer.push(Reached {
        state: transducer.start,
        done: 0,
        edge: 0,
        before: 0,
    })?;
    let mut layers = Items::new(alloc);
    layers.push(layer)?;
    Ok(layers)
}

// Where runs may stand after each character.
fn search(
    alloc: Global,
    transducer: &Transducer,
    read: &Word,
    written: &Word,
) -> Result<Items<Items<Reached>>, AllocError>
    ensures { IfOk result (AreSearchLayers transducer.now read.now written.now) }
{
    let mut layers = first_layers(alloc, transducer)?;
    for at in 0..read.len() {
        let c = character_at(read.as_slice(), at);
        let next = next_layer(
            alloc,
            transducer,
            written,
            c,
            layer_at(layers.as_slice(), at),
        )?;
        layers.push(next)?;
    }
    Ok(layers)
}

fn entry_of(layers: &[Items<Reached>], i: usize, at: usize) -> &Reached
    requires { HasEntry layers.now i at }
    ensures { IsEntry layers.now i at result.now }
{
    entry_at(layer_at(layers, i), at)
}

fn turn_round(places: Items<u32>) -> Items<u32>
    ensures { result ≡ reverse places }
{
    let mut list = places.into_vec();
    list.reverse();
    Items::from_vec(list)
}

// The places of the edges that lead to an entry of the last layer.
fn places_back(
    alloc: Global,
    transducer: &Transducer,
    read: &Word,
    written: &Word,
    layers: &[Items<Reached>],
    at: usize,
) -> Result<Items<u32>, AllocError>
    requires small { length transducer.now.edges < 2 ^ 32 }
    requires searched { AreSearchLayers transducer.now read.now written.now layers.now }
    requires ended { IsWalking transducer.now written.now read.now layers.now (length read.now) at [] }
    ensures { IfOk result (λ places. IsTransduction transducer.now places read.now written.now) }
{
    let _written = written.len();
    let _edges = transducer.edges.len();
    let mut back = Items::new(alloc);
    let mut i = read.len();
    let mut place = at;
    while i > 0 {
        let entry = entry_of(layers, i, place);
        back.push(entry.edge as u32)?;
        place = entry.before;
        i -= 1;
    }
    Ok(turn_round(back))
}

/// The places of the edges of a run that reads the first word and writes the second; `None` exactly
/// where the transducer doesn't relate the two.
///
/// Each character that is read makes a layer of the places where a run may stand, each at most once:
/// a state, and how much of the second word is written. So there are at most
/// `states * (length of written + 1)` of them in a layer, and one for a deterministic transducer.
pub fn run_pair(
    alloc: Global,
    transducer: &Transducer,
    read: &Word,
    written: &Word,
) -> Result<Option<Items<u32>>, AllocError>
    ensures { IfOk result (λ o. MatchOption o (Pairs transducer.now read.now written.now → ⊥) (λ places. IsTransduction transducer.now places read.now written.now)) }
{
    if transducer.edges.len() > u32::MAX as usize {
        return Err(AllocError);
    }
    let layers = search(alloc, transducer, read, written)?;
    let last = layer_at(layers.as_slice(), read.len());
    match place_of_end(transducer, written.as_slice(), last) {
        None => Ok(None),
        Some(at) => {
            Ok(Some(places_back(alloc, transducer, read, written, layers.as_slice(), at)?))
        }
    }
}
