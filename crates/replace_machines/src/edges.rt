//! Edges and ends of the states that hold a part of the pattern.
ghost use Rattle.std.specs.Prelude.{◌≡◌, ◌<◌, ◌^◌, ◌+◌, ◌-◌, ◌++◌, length, take, Some, IfOk, OnOk};
ghost use Rattle.replace_machines.specs.Rows.{AreMatchRows, Ascends};
ghost use Rattle.replace_machines.specs.Edges.{AreEdges, AreEnds, edge_for, edges_of, items_for};

use crate::rows::{MatchRow, row_at};
use std::alloc::{AllocError, Global};
use sv_list::{Copied, Items};
use sv_terms::{Item, TransEdge};
use sv_word::{GREATEST_CHARACTER, Word};

/// The first n characters of the pattern. Linear in n.
pub fn prefix(alloc: Global, pattern: &Word, n: usize) -> Result<Word, AllocError>
    ensures { IfOk result (λ w. w ≡ take n pattern.now) }
{
    let mut word = Word::new(alloc);
    for place in 0..n {
        if let Some(c) = pattern.get(place) {
            word.push(c)?;
        }
    }
    Ok(word)
}

// What is written in state q where j characters are held next.
fn items(
    alloc: Global,
    pattern: &Word,
    by: &Word,
    q: u32,
    j: u32,
) -> Result<Items<Item>, AllocError>
    requires { q < length pattern.now }
    ensures { IfOk result (λ is. is ≡ items_for pattern.now by.now q j) }
{
    let mut list = Items::new(alloc);
    if j as usize == pattern.len() {
        list.push(Item::Text(by.copy(alloc)?))?;
        return Ok(list);
    }
    if j == 0 {
        list.push(Item::Text(prefix(alloc, pattern, q as usize)?))?;
        list.push(Item::Shift(0))?;
        return Ok(list);
    }
    let more = (q as usize + 1).saturating_sub(j as usize);
    list.push(Item::Text(prefix(alloc, pattern, more)?))?;
    Ok(list)
}

fn edge(
    alloc: Global,
    pattern: &Word,
    by: &Word,
    after: u32,
    q: u32,
    lo: u32,
    hi: u32,
    j: u32,
) -> Result<TransEdge, AllocError>
    requires { q < length pattern.now }
    ensures { IfOk result (λ e. e ≡ edge_for pattern.now by.now after q lo hi j) }
{
    let items = items(alloc, pattern, by, q, j)?;
    let to = if j as usize == pattern.len() {
        after
    } else {
        j
    };
    Ok(TransEdge {
        from: q,
        lo,
        hi,
        items,
        to,
    })
}

// The edges of one row.
fn add_row(
    alloc: Global,
    edges: &mut Items<TransEdge>,
    pattern: &Word,
    by: &Word,
    after: u32,
    q: u32,
    row: &[(u32, u32)],
) -> Result<(), AllocError>
    requires q { q < length pattern.now }
    requires row { Ascends 0 row.now }
    ensures { OnOk result (edges.new ≡ edges.old ++ edges_of (edge_for pattern.now by.now after q) 0 row.now) }
{
    let mut low: u32 = 0;
    for pair in row {
        let c = pair.0;
        if low < c {
            edges.push(edge(alloc, pattern, by, after, q, low, c - 1, 0)?)?;
        }
        edges.push(edge(alloc, pattern, by, after, q, c, c, pair.1)?)?;
        low = c + 1;
    }
    if low <= GREATEST_CHARACTER {
        edges.push(edge(alloc, pattern, by, after, q, low, GREATEST_CHARACTER, 0)?)?;
    }
    Ok(())
}

/// The edges of all states that hold a proper beginning of the pattern.
pub fn held_edges(
    alloc: Global,
    pattern: &Word,
    by: &Word,
    after: u32,
    rows: &[MatchRow],
) -> Result<Items<TransEdge>, AllocError>
    requires size { length pattern.now < 2 ^ 32 }
    requires length { length rows.now ≡ length pattern.now }
    requires rows { AreMatchRows pattern.now rows.now }
    ensures { IfOk result (AreEdges pattern.now by.now after (length pattern.now)) }
{
    let mut edges = Items::new(alloc);
    for q in 0..rows.len() {
        add_row(
            alloc,
            &mut edges,
            pattern,
            by,
            after,
            q as u32,
            row_at(rows, q),
        )?;
    }
    Ok(edges)
}

/// In each state that holds a proper beginning of the pattern the word may end, and this beginning is
/// written.
pub fn held_ends(alloc: Global, pattern: &Word) -> Result<Items<(u32, Word)>, AllocError>
    requires { length pattern.now < 2 ^ 32 }
    ensures { IfOk result (AreEnds pattern.now (length pattern.now)) }
{
    let mut ends = Items::new(alloc);
    for q in 0..pattern.len() {
        ends.push((q as u32, prefix(alloc, pattern, q)?))?;
    }
    Ok(ends)
}
