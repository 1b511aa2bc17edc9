//! The way back from a marked pair to the first one.

use crate::arcs::{Arc, Arcs};
use crate::marks::Marks;
use std::alloc::{AllocError, Global};

/// A row and a total.
#[derive(Clone, Copy)]
pub struct Pair {
    pub row: usize,
    pub total: u64,
}

// A row from which arcs of cost 0 lead on to where the search began: by which place of the search.
#[derive(Clone, Copy)]
struct Near {
    row: usize,
    by: usize,
}

// The pairs of a way, the last one first, and which rows the search for the next one has seen.
#[derive(Drop)]
struct Way {
    back: Vec<Pair>,
    seen: Vec<u64>,
}

/// Pairs from row 0 and the total 0 to this one, each with an arc to the next; `None` where none are found. On
/// a way that is as marked as it should be no pair comes twice: costs lead to lesser totals, and where arcs cost
/// nothing the search goes by breadth.
pub fn trace(
    alloc: Global,
    marks: &Marks,
    arcs: &Arcs,
    rows: usize,
    last: Pair,
) -> Result<Option<Vec<Pair>>, AllocError> {
    let mut way = Way {
        back: Vec::new(alloc),
        seen: vec![in alloc; 0; rows]?,
    };
    if !go_back(alloc, marks, arcs, &mut way, last)? {
        return Ok(None);
    }
    let Way { mut back, seen: _ } = way;
    back.reverse();
    Ok(Some(back))
}

// Goes back from this pair to the first one. Whether it came there.
fn go_back(
    alloc: Global,
    marks: &Marks,
    arcs: &Arcs,
    way: &mut Way,
    last: Pair,
) -> Result<bool, AllocError> {
    way.back.push(last)?;
    let mut at = last;
    for round in 1..u64::MAX {
        match step_back(alloc, marks, arcs, way, at, round)? {
            Step::To(before) => at = before,
            Step::Begun => return Ok(true),
            Step::Nowhere => return Ok(false),
        }
    }
    Ok(false)
}

// Where a search back has led to.
#[derive(Clone, Copy)]
enum Step {
    // a pair with a lesser total
    To(Pair),
    // the first pair
    Begun,
    Nowhere,
}

// The way back from this pair to one with a lesser total, or to the first one.
fn step_back(
    alloc: Global,
    marks: &Marks,
    arcs: &Arcs,
    way: &mut Way,
    from: Pair,
    round: u64,
) -> Result<Step, AllocError> {
    let mut near = Vec::new(alloc);
    near.push(Near {
        row: from.row,
        by: 0,
    })?;
    see(&mut way.seen, from.row, round);
    search_back(alloc, marks, arcs, way, &mut near, from.total, round)
}

// The same, by breadth through the rows that are near.
fn search_back(
    alloc: Global,
    marks: &Marks,
    arcs: &Arcs,
    way: &mut Way,
    near: &mut Vec<Near>,
    total: u64,
    round: u64,
) -> Result<Step, AllocError> {
    for at in 0..usize::MAX {
        let Some(next) = near.get(at).copied() else {
            return Ok(Step::Nowhere);
        };
        if next.row == 0 && total == 0 {
            push_near(alloc, &mut way.back, near.as_slice(), at, total)?;
            return Ok(Step::Begun);
        }
        if let Some(arc) = look_back(
            marks,
            arcs,
            near,
            &mut way.seen,
            at,
            next.row,
            total,
            round,
        )? {
            return leave(alloc, &mut way.back, near.as_slice(), at, total, arc);
        }
    }
    Ok(Step::Nowhere)
}

// Goes from this place of the search back along the arc, to a lesser total.
fn leave(
    alloc: Global,
    back: &mut Vec<Pair>,
    near: &[Near],
    at: usize,
    total: u64,
    arc: Arc,
) -> Result<Step, AllocError> {
    push_near(alloc, back, near, at, total)?;
    let before = Pair {
        row: arc.from,
        total: total.saturating_sub(arc.cost),
    };
    back.push(before)?;
    Ok(Step::To(before))
}

// Whether the row wasn't seen in this round.
fn see(seen: &mut Vec<u64>, row: usize, round: u64) -> bool {
    let Some(last) = seen.get_mut(row) else {
        return false;
    };
    let new = *last != round;
    *last = round;
    new
}

// An arc to this row from a marked pair with a lesser total. Where there is none, the marked rows from which arcs
// of cost 0 lead there are searched too.
fn look_back(
    marks: &Marks,
    arcs: &Arcs,
    near: &mut Vec<Near>,
    seen: &mut Vec<u64>,
    at: usize,
    row: usize,
    total: u64,
    round: u64,
) -> Result<Option<Arc>, AllocError> {
    let mut next = arcs.to(row);
    for _ in 0..arcs.count() {
        let Some(arc) = next else {
            return Ok(None);
        };
        if arc.cost <= total && marks.has(arc.from, total - arc.cost) {
            if arc.cost > 0 {
                return Ok(Some(arc));
            }
            if see(seen, arc.from, round) {
                near.push(Near {
                    row: arc.from,
                    by: at,
                })?;
            }
        }
        next = arcs.next_to(arc);
    }
    Ok(None)
}

// The rows between where the search began and this place of it, its own row included.
fn push_near(
    alloc: Global,
    back: &mut Vec<Pair>,
    near: &[Near],
    to: usize,
    total: u64,
) -> Result<(), AllocError> {
    let rows = rows_between(alloc, near, to)?;
    for row in rows.iter().rev() {
        back.push(Pair { row: *row, total })?;
    }
    Ok(())
}

// These rows, the last one first.
fn rows_between(alloc: Global, near: &[Near], to: usize) -> Result<Vec<usize>, AllocError> {
    let mut rows = Vec::new(alloc);
    let mut at = to;
    for _ in 0..near.len() {
        if at == 0 {
            break;
        }
        let Some(next) = near.get(at) else {
            break;
        };
        rows.push(next.row)?;
        at = next.by;
    }
    Ok(rows)
}
