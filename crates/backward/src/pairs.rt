//! Marks of pairs of states of two machines that are reached by reading words together: a row for each state of the
//! first machine, with a mark for each state of the second.
ghost use Rattle.std.specs.Prelude.{◌≡◌, ℕ, true, false, IsTrue, IfOk, IfSome, Some, slice_get};
ghost use Rattle.sv_word.specs.Ranges.{in_ranges};
ghost use Rattle.machine_core.specs.declared.edge.Edge.{Edge as AnyEdge};
ghost use Rattle.backward.specs.Ways.{is_set, is_marked, tail, head, LeadOn, IsClosed};

use machine_core::Edge;
use std::alloc::{AllocError, Global};
use sv_list::{Items, at};
use sv_word::Ranges;

/// Which way steps are followed.
#[derive(Clone, Copy)]
pub enum Way {
    /// From where a step begins to where it ends.
    Forward,
    /// From where a step ends to where it begins.
    Backward,
}

impl Way {
    /// The state from which the step is followed.
    pub fn tail(self, edge: &Edge) -> u32
        ensures { result ≡ tail self edge.now }
    {
        match self {
            Way::Forward => edge.from,
            Way::Backward => edge.to,
        }
    }

    /// The state to which the step is followed.
    pub fn head(self, edge: &Edge) -> u32
        ensures { result ≡ head self edge.now }
    {
        match self {
            Way::Forward => edge.to,
            Way::Backward => edge.from,
        }
    }
}

/// The mark at this place; what has no mark counts as marked. Constant time.
pub fn is_set(marks: &[bool], place: u32) -> bool
    ensures { result ≡ is_set marks.now place }
{
    match at(marks, place as usize) {
        None => true,
        Some(mark) => *mark,
    }
}

/// The mark of a pair, in rows of marks. Constant time.
pub fn is_marked(rows: &[Items<bool>], first: usize, second: u32) -> bool
    ensures { result ≡ is_marked rows.now first second }
{
    match at(rows, first) {
        None => true,
        Some(row) => is_set(row.as_slice(), second),
    }
}

// Whether some character lies in both.
fn overlap(alloc: Global, one: &Ranges, other: &Ranges) -> Result<bool, AllocError>
    ensures { IfOk result (λ some. some ≡ false → (c : ℕ) → IsTrue (in_ranges one.now c) → IsTrue (in_ranges other.now c) → ⊥) }
{
    let both = one.meet(alloc, other)?;
    Ok(!both.is_empty())
}

// Whether the two steps lead from a marked pair to one that isn't.
fn leads_out(
    alloc: Global,
    way: Way,
    rows: &[Items<bool>],
    first: &Edge,
    second: &Edge,
) -> Result<bool, AllocError>
    ensures { IfOk result (λ out. out ≡ false → LeadOn way rows.now first.now second.now) }
{
    if !is_marked(rows, way.tail(first) as usize, way.tail(second)) {
        return Ok(false);
    }
    if is_marked(rows, way.head(first) as usize, way.head(second)) {
        return Ok(false);
    }
    overlap(alloc, &first.on, &second.on)
}

// Whether this step leads, with none of the other machine's, from a marked pair to one that isn't.
fn is_closed_by(
    alloc: Global,
    way: Way,
    rows: &[Items<bool>],
    first: &Edge,
    seconds: &[Edge],
) -> Result<bool, AllocError>
    ensures { IfOk result (λ closed. closed ≡ true → (j : ℕ) (d : AnyEdge) → slice_get seconds.now j ≡ Some d → LeadOn way rows.now first.now d) }
{
    for j in 0..seconds.len() {
        if leads_out(alloc, way, rows, first, &seconds[j])? {
            return Ok(false);
        }
    }
    Ok(true)
}

/// Whether steps of both machines on one character lead from no marked pair to one that isn't. Time goes with
/// the product of their numbers.
pub fn is_closed(
    alloc: Global,
    way: Way,
    rows: &[Items<bool>],
    firsts: &[Edge],
    seconds: &[Edge],
) -> Result<bool, AllocError>
    ensures { IfOk result (λ closed. closed ≡ true → IsClosed way rows.now firsts.now seconds.now) }
{
    for i in 0..firsts.len() {
        if !is_closed_by(alloc, way, rows, &firsts[i], seconds)? {
            return Ok(false);
        }
    }
    Ok(true)
}

// The row that `first` leads to, with the marks to which it leads with steps of the other machine. Steps are followed
// in the order of the way, by which a mark goes far in one pass.
fn longer_row(
    alloc: Global,
    way: Way,
    from: &[bool],
    to: &[bool],
    first: &Edge,
    seconds: &[Edge],
) -> Result<Items<bool>, AllocError> {
    let mut row = Items::from_slice(alloc, to)?;
    let turns = first.from == first.to;
    for i in 0..seconds.len() {
        let second = match way {
            Way::Forward => &seconds[i],
            Way::Backward => &seconds[seconds.len() - 1 - i],
        };
        let tail = way.tail(second);
        let head = way.head(second);
        let reached = is_set(from, tail) || (turns && is_set(row.as_slice(), tail));
        if reached && !is_set(row.as_slice(), head) && overlap(alloc, &first.on, &second.on)? {
            set_mark(&mut row, head);
        }
    }
    Ok(row)
}

/// Sets the mark at this place, if there is one. Constant time.
pub fn set_mark(marks: &mut Items<bool>, place: u32)
    ensures here { is_set marks.new place ≡ true }
    ensures still { (s : ℕ) → is_set marks.old s ≡ true → is_set marks.new s ≡ true }
{
    if (place as usize) < marks.len() {
        marks.set(place as usize, true);
    }
}

/// The rows with marks to which steps of both machines lead from marked pairs. Nothing is said of them, since
/// [`is_closed`] checks them. Time goes with the product of the numbers of steps.
pub fn spread(
    alloc: Global,
    way: Way,
    rows: Items<Items<bool>>,
    firsts: &[Edge],
    seconds: &[Edge],
) -> Result<Items<Items<bool>>, AllocError> {
    let mut rows = rows;
    for i in 0..firsts.len() {
        let first = match way {
            Way::Forward => &firsts[i],
            Way::Backward => &firsts[firsts.len() - 1 - i],
        };
        let tail = way.tail(first) as usize;
        let head = way.head(first) as usize;
        if tail < rows.len() && head < rows.len() {
            let from = rows.as_slice()[tail].as_slice();
            let to = rows.as_slice()[head].as_slice();
            let row = longer_row(alloc, way, from, to, first, seconds)?;
            rows.set(head, row);
        }
    }
    Ok(rows)
}

/// So many marks that aren't set.
pub fn no_marks(alloc: Global, number: u32) -> Result<Items<bool>, AllocError> {
    let mut marks = Items::new(alloc);
    for _ in 0..number {
        marks.push(false)?;
    }
    Ok(marks)
}

/// So many rows of so many marks that aren't set.
pub fn no_rows(alloc: Global, rows: u32, marks: u32) -> Result<Items<Items<bool>>, AllocError> {
    let mut all = Items::new(alloc);
    for _ in 0..rows {
        all.push(no_marks(alloc, marks)?)?;
    }
    Ok(all)
}
