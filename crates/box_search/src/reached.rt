//! How much room the marks of all pairs that are reached take, and these marks.
ghost use Rattle.std.specs.Prelude.{◌≡◌, ◌≤◌, ◌+◌, ◌*◌, ◌<◌, ◌^◌, length, IfOk, IfSome};
ghost use Rattle.total_marks.specs.Marks.{MarksAreClosed};

use crate::places::greatest_states;
use machine_core::Explicit;
use std::alloc::{AllocError, Global};
use total_marks::{Arcs, Marks, are_closed, mark_reached};

// No marks take more words: 128 MB.
const MOST_WORDS: usize = 16_777_216;

/// How many rows each machine has, how many there are, and how many words each has.
#[derive(Clone, Copy)]
pub struct Size {
    pub states: usize,
    pub rows: usize,
    pub width: usize,
}

/// The size of marks for totals up to the greatest one; `None` where they take too much room.
pub fn size_of(machines: &[Explicit], most: u64) -> Option<Size>
    ensures rows { IfSome result (λ size. size.rows ≡ length machines.now * size.states + 1) }
    ensures few { IfSome result (λ size. size.rows ≤ MOST_WORDS) }
    ensures most { IfSome result (λ _. most < 2 ^ 31) }
{
    let states = greatest_states(machines) as usize;
    let rows = machines.len().checked_mul(states)?.checked_add(1)?;
    let width = (most / 64) as usize + 1;
    if rows.checked_mul(width)? > MOST_WORDS {
        return None;
    }
    Some(Size {
        states,
        rows,
        width,
    })
}

/// The marks of all pairs that are reached; `None` where not all are marked.
pub fn reach_marks(
    alloc: Global,
    machines: &[Explicit],
    arcs: &Arcs,
    size: Size,
    most: u64,
) -> Result<Option<Marks>, AllocError>
    requires { length machines.now * size.states < 2 ^ 62 }
    ensures { IfOk result (λ o. IfSome o (λ marks. MarksAreClosed marks.words marks.width machines.now size.states most)) }
{
    let mut marks = Marks::new(alloc, size.rows, size.width)?;
    mark_reached(alloc, &mut marks, arcs, size.rows)?;
    if !are_closed(&marks, machines, size.states, most) {
        return Ok(None);
    }
    Ok(Some(marks))
}
