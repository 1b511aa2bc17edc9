//! Edges of the machines.
ghost use Rattle.std.specs.Prelude.{◌≡◌, ◌≤◌, ◌<◌, ◌^◌, ◌+◌, ◌++◌, length, IfOk, OnOk};
ghost use Rattle.replace_machines.specs.Rows.{AreMatchRows, Ascends};
ghost use Rattle.segment_machines.specs.Edges.{any_edge, mark_edge, pass_edge, phase_edge, row_edges, take_edge, AreEmptyEnds, AreHeldEdges, AreSeekEdges};

use replace_machines::{MatchRow, failure_automaton, row_at};
use std::alloc::{AllocError, Global};
use sv_list::Items;
use sv_terms::{Item, TransEdge};
use sv_word::{GREATEST_CHARACTER, Word};

// It writes a phase and what it reads.
fn mark_edge(
    alloc: Global,
    state: u32,
    phase: u32,
    lo: u32,
    hi: u32,
    to: u32,
) -> Result<TransEdge, AllocError>
    requires { phase ≤ 2 }
    ensures { IfOk result (λ e. e ≡ mark_edge state phase lo hi to) }
{
    let mut text = Word::new(alloc);
    text.push(48 + phase)?;
    let mut items = Items::new(alloc);
    items.push(Item::Text(text))?;
    items.push(Item::Shift(0))?;
    Ok(TransEdge {
        from: state,
        lo,
        hi,
        items,
        to,
    })
}

/// It reads each character, and writes a phase and this character.
pub fn any_edge(alloc: Global, state: u32, phase: u32, to: u32) -> Result<TransEdge, AllocError>
    requires { phase ≤ 2 }
    ensures { IfOk result (λ e. e ≡ any_edge state phase to) }
{
    Ok(mark_edge(alloc, state, phase, 0, GREATEST_CHARACTER, to)?)
}

/// It reads a phase, and tells whether this is the one that is picked.
pub fn phase_edge(alloc: Global, picked: u32, phase: u32) -> TransEdge
    requires { phase ≤ 2 }
    ensures { result ≡ phase_edge picked phase }
{
    TransEdge {
        from: 0,
        lo: 48 + phase,
        hi: 48 + phase,
        items: Items::new(alloc),
        to: if phase == picked { 1 } else { 2 },
    }
}

/// It writes what it reads.
pub fn take_edge(alloc: Global) -> Result<TransEdge, AllocError>
    ensures { IfOk result (λ e. e ≡ take_edge) }
{
    let mut items = Items::new(alloc);
    items.push(Item::Shift(0))?;
    Ok(TransEdge {
        from: 1,
        lo: 0,
        hi: GREATEST_CHARACTER,
        items,
        to: 0,
    })
}

/// It writes nothing.
pub fn pass_edge(alloc: Global) -> TransEdge
    ensures { result ≡ pass_edge }
{
    TransEdge {
        from: 2,
        lo: 0,
        hi: GREATEST_CHARACTER,
        items: Items::new(alloc),
        to: 0,
    }
}

// The edges of one row in phase 1, but for those to a state that isn't below the limit.
fn add_row(
    alloc: Global,
    edges: &mut Items<TransEdge>,
    state: u32,
    limit: u32,
    row: &[(u32, u32)],
) -> Result<(), AllocError>
    requires { Ascends 0 row.now }
    ensures { OnOk result (edges.new ≡ edges.old ++ row_edges limit state 0 row.now) }
{
    let mut low: u32 = 0;
    for pair in row {
        let c = pair.0;
        if low < c {
            edges.push(mark_edge(alloc, state, 1, low, c - 1, 0)?)?;
        }
        if pair.1 < limit {
            edges.push(mark_edge(alloc, state, 1, c, c, pair.1)?)?;
        }
        low = c + 1;
    }
    if low <= GREATEST_CHARACTER {
        edges.push(mark_edge(alloc, state, 1, low, GREATEST_CHARACTER, 0)?)?;
    }
    Ok(())
}

// The edges of the states that hold a part of the pattern.
fn held_edges(
    alloc: Global,
    pattern: &Word,
    limit: u32,
    rows: &[MatchRow],
) -> Result<Items<TransEdge>, AllocError>
    requires size { length pattern.now < 2 ^ 32 }
    requires limit { 0 < limit }
    requires length { length rows.now ≡ length pattern.now }
    requires rows { AreMatchRows pattern.now rows.now }
    ensures { IfOk result (AreHeldEdges pattern.now limit (length pattern.now)) }
{
    let mut edges = Items::new(alloc);
    for q in 0..rows.len() {
        add_row(alloc, &mut edges, q as u32, limit, row_at(rows, q))?;
    }
    Ok(edges)
}

/// The edges of a machine that looks for the pattern. Its first state is the limit; where this is above
/// the pattern's length, the length is the state after an occurrence.
pub fn seek_edges(alloc: Global, pattern: &Word, limit: u32) -> Result<Items<TransEdge>, AllocError>
    requires size { length pattern.now < 2 ^ 32 }
    requires filled { 0 < length pattern.now }
    requires least { length pattern.now ≤ limit }
    ensures { IfOk result (AreSeekEdges pattern.now limit) }
{
    let automaton = failure_automaton(alloc, pattern)?;
    let rows = automaton.rows.as_slice();
    let mut edges = held_edges(alloc, pattern, limit, rows)?;
    add_row(alloc, &mut edges, limit, limit, row_at(rows, 0))?;
    edges.push(any_edge(alloc, limit, 0, limit)?)?;
    let after = pattern.len() as u32;
    if after == limit {
        return Ok(edges);
    }
    edges.push(any_edge(alloc, after, 2, after)?)?;
    Ok(edges)
}

/// An end at each of the first states, where nothing is written.
pub fn empty_ends(alloc: Global, count: u32) -> Result<Items<(u32, Word)>, AllocError>
    ensures { IfOk result (AreEmptyEnds count) }
{
    let mut ends = Items::new(alloc);
    for state in 0..count {
        ends.push((state, Word::new(alloc)))?;
    }
    Ok(ends)
}
