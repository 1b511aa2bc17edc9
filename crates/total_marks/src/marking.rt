//! Marks on all pairs of a row and a total that are reached.

use crate::arcs::{Arc, Arcs};
use crate::marks::Marks;
use std::alloc::{AllocError, Global};

/// Marks the pairs that arcs lead to from row 0 and the total 0, as far as rows have room: a word of 64 totals
/// after another, and in it each row again that has a new mark. An arc moves all marks of a word at once.
pub fn mark_reached(
    alloc: Global,
    marks: &mut Marks,
    arcs: &Arcs,
    rows: usize,
) -> Result<(), AllocError> {
    marks.add(0, 0, 1);
    for at in 0..marks.width {
        let due = marked_rows(alloc, marks, rows, at)?;
        mark_from(marks, arcs, due, at)?;
    }
    Ok(())
}

// The rows with a mark in the words at this place.
fn marked_rows(
    alloc: Global,
    marks: &Marks,
    rows: usize,
    at: usize,
) -> Result<Vec<usize>, AllocError> {
    let mut marked = Vec::new(alloc);
    for row in 0..rows {
        if marks.word(row, at) != 0 {
            marked.push(row)?;
        }
    }
    Ok(marked)
}

// Marks what is reached from the words at this place of the rows that are due.
fn mark_from(
    marks: &mut Marks,
    arcs: &Arcs,
    mut due: Vec<usize>,
    at: usize,
) -> Result<(), AllocError> {
    for _ in 0..u64::MAX {
        let Some(row) = due.pop() else {
            return Ok(());
        };
        mark_along(marks, arcs, &mut due, row, at)?;
    }
    Ok(())
}

// Marks what the arcs from the row lead to. A row with a new mark at the same place is due.
fn mark_along(
    marks: &mut Marks,
    arcs: &Arcs,
    due: &mut Vec<usize>,
    row: usize,
    at: usize,
) -> Result<(), AllocError> {
    let word = marks.word(row, at);
    let mut next = arcs.from(row);
    for _ in 0..arcs.count() {
        let Some(arc) = next else {
            return Ok(());
        };
        if mark_moved(marks, arc, word, at) {
            due.push(arc.to)?;
        }
        next = arcs.next_from(arc);
    }
    Ok(())
}

// Marks what the arc leads to from the word at this place. Whether a mark at the same place is new.
fn mark_moved(marks: &mut Marks, arc: Arc, word: u64, at: usize) -> bool {
    let skip = (arc.cost / 64) as usize;
    let by = (arc.cost % 64) as u32;
    let to = at.saturating_add(skip);
    let new = marks.add(arc.to, to, word << by);
    if by > 0 {
        marks.add(arc.to, to.saturating_add(1), word >> (64 - by));
    }
    new && skip == 0
}
