ghost use Rattle.std.specs.Prelude.{◌≡◌, ◌↔◌, ◌+◌, ◌*◌, ◌<◌, ◌≤◌, ◌^◌, ℕ, List, [], length, max, IfOk};
ghost use Rattle.sv_word.specs.Words.{IsWord};
ghost use Rattle.sv_terms.specs.Replacement.{replace_first as first_replaced, replace_all as all_replaced};
ghost use Rattle.sv_terms.specs.Transduction.{IsFormed, Pairs, WritesWithin};
ghost use Rattle.sv_terms.specs.TransducerSizes.{edges_most, ends_most};
ghost use Rattle.replace_machines.specs.Edges.{copy_edge, front_edge};
ghost use Rattle.replace_machines.specs.Relating.{Relates};

use crate::edges::{held_edges, held_ends};
use crate::rows::failure_automaton;
use std::alloc::{AllocError, Global};
use sv_list::Items;
use sv_terms::{Item, TransEdge, Transducer};
use sv_word::{GREATEST_CHARACTER, Word};

// It writes what it reads, and stays in its state.
fn copy_edge(alloc: Global, state: u32) -> Result<TransEdge, AllocError>
    ensures { IfOk result (λ e. e ≡ copy_edge state) }
{
    let mut items = Items::new(alloc);
    items.push(Item::Shift(0))?;
    Ok(TransEdge {
        from: state,
        lo: 0,
        hi: GREATEST_CHARACTER,
        items,
        to: state,
    })
}

// It writes the replacement and then what it reads.
fn front_edge(alloc: Global, by: &Word) -> Result<TransEdge, AllocError>
    ensures { IfOk result (λ e. e ≡ front_edge by.now) }
{
    let mut items = Items::new(alloc);
    items.push(Item::Text(by.copy(alloc)?))?;
    items.push(Item::Shift(0))?;
    Ok(TransEdge {
        from: 0,
        lo: 0,
        hi: GREATEST_CHARACTER,
        items,
        to: 1,
    })
}

// The word as it is: with an empty pattern nothing is replaced.
fn copy_word(alloc: Global, by: &Word) -> Result<Transducer, AllocError>
    ensures states { IfOk result (λ t. t.states ≡ 1) }
    ensures relates { IfOk result (λ t. Relates t (all_replaced [] by.now) (λ n. (n + 0) * max 1 (length by.now))) }
{
    let mut edges = Items::new(alloc);
    edges.push(copy_edge(alloc, 0)?)?;
    let mut ends = Items::new(alloc);
    ends.push((0, Word::new(alloc)))?;
    Ok(Transducer {
        states: 1,
        start: 0,
        edges,
        ends,
    })
}

fn put_in_front(alloc: Global, by: &Word) -> Result<Transducer, AllocError>
    ensures states { IfOk result (λ t. t.states ≡ 2) }
    ensures relates { IfOk result (λ t. Relates t (first_replaced [] by.now) (λ n. n + 0 + length by.now)) }
{
    by.is_word();
    let mut edges = Items::new(alloc);
    edges.push(front_edge(alloc, by)?)?;
    edges.push(copy_edge(alloc, 1)?)?;
    let mut ends = Items::new(alloc);
    ends.push((0, by.copy(alloc)?))?;
    ends.push((1, Word::new(alloc)))?;
    Ok(Transducer {
        states: 2,
        start: 0,
        edges,
        ends,
    })
}

// The machine for a pattern that isn't empty.
fn replace_each(alloc: Global, pattern: &Word, by: &Word) -> Result<Transducer, AllocError>
    requires filled { pattern.now ≡ [] → ⊥ }
    requires size { length pattern.now < 2 ^ 32 }
    ensures states { IfOk result (λ t. t.states ≡ length pattern.now) }
    ensures relates { IfOk result (λ t. Relates t (all_replaced pattern.now by.now) (λ n. (n + length pattern.now) * max 1 (length by.now))) }
{
    pattern.is_word();
    by.is_word();
    let automaton = failure_automaton(alloc, pattern)?;
    let edges = held_edges(alloc, pattern, by, 0, automaton.rows.as_slice())?;
    let ends = held_ends(alloc, pattern)?;
    Ok(Transducer {
        states: pattern.len() as u32,
        start: 0,
        edges,
        ends,
    })
}

fn replace_one(alloc: Global, pattern: &Word, by: &Word) -> Result<Transducer, AllocError>
    requires filled { pattern.now ≡ [] → ⊥ }
    requires size { length pattern.now + 1 < 2 ^ 32 }
    ensures states { IfOk result (λ t. t.states ≡ length pattern.now + 1) }
    ensures relates { IfOk result (λ t. Relates t (first_replaced pattern.now by.now) (λ n. n + length pattern.now + length by.now)) }
{
    pattern.is_word();
    by.is_word();
    let automaton = failure_automaton(alloc, pattern)?;
    let last = pattern.len() as u32;
    let mut edges = held_edges(alloc, pattern, by, last, automaton.rows.as_slice())?;
    edges.push(copy_edge(alloc, last)?)?;
    let mut ends = held_ends(alloc, pattern)?;
    ends.push((last, Word::new(alloc)))?;
    Ok(Transducer {
        states: last + 1,
        start: 0,
        edges,
        ends,
    })
}

/// The transducer that relates each word to what `str.replace` makes of it: the word with `by` in the
/// place of the first occurrence of the pattern. It has one state for each proper beginning of the
/// pattern, at least one, and one more that copies.
pub fn replace_first(alloc: Global, pattern: &Word, by: &Word) -> Result<Transducer, AllocError>
    ensures formed { IfOk result IsFormed }
    ensures states { IfOk result (λ t. t.states ≡ max 1 (length pattern.now) + 1) }
    ensures exact { IfOk result (λ t. (read written : List ℕ) → Pairs t read written ↔ (IsWord read × (written ≡ first_replaced pattern.now by.now read))) }
    ensures growth { IfOk result (λ t. WritesWithin t (λ n. n + length pattern.now + length by.now)) }
    ensures most { IfOk result (λ t. max (edges_most t.edges) (ends_most t.ends) ≤ 1 + length pattern.now + length by.now) }
{
    if pattern.is_empty() {
        return Ok(put_in_front(alloc, by)?);
    }
    if pattern.len() >= u32::MAX as usize {
        return Err(AllocError);
    }
    Ok(replace_one(alloc, pattern, by)?)
}

/// The transducer that relates each word to what `str.replace_all` makes of it: the word with `by` in
/// the place of each occurrence of the pattern, from the left and without overlap; the word itself
/// where the pattern is empty. It has one state for each proper beginning of the pattern, at least one.
pub fn replace_all(alloc: Global, pattern: &Word, by: &Word) -> Result<Transducer, AllocError>
    ensures formed { IfOk result IsFormed }
    ensures states { IfOk result (λ t. t.states ≡ max 1 (length pattern.now)) }
    ensures exact { IfOk result (λ t. (read written : List ℕ) → Pairs t read written ↔ (IsWord read × (written ≡ all_replaced pattern.now by.now read))) }
    ensures growth { IfOk result (λ t. WritesWithin t (λ n. (n + length pattern.now) * max 1 (length by.now))) }
    ensures most { IfOk result (λ t. max (edges_most t.edges) (ends_most t.ends) ≤ (1 + length pattern.now) * max 1 (length by.now)) }
{
    if pattern.is_empty() {
        return Ok(copy_word(alloc, by)?);
    }
    if pattern.len() >= u32::MAX as usize {
        return Err(AllocError);
    }
    Ok(replace_each(alloc, pattern, by)?)
}
