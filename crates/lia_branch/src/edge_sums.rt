ghost use Rattle.std.specs.Prelude.{◌≡◌, ℕ, ℤ, suc, ◌+ℤ◌, ◌*ℤ◌, ◌<◌, ◌≤◌, ◌^◌, length, unsigned_abs, IfOk, true, List, slice_set};
ghost use Rattle.sv_linear.specs.Forms.{form_value, entry};
ghost use Rattle.sv_linear.specs.Terms.{AscendsWithin};
ghost use Rattle.sv_linear.specs.declared.column.Column.{Column};
ghost use Rattle.farkas_check.specs.Cuts.{IsNetWithin};
ghost use Rattle.lia_branch.specs.EdgeSums.{AreSetMarks, IsSideSum, picks, side_sign};

use farkas_check::{Net, NetEdge};
use std::alloc::{AllocError, Global};
use sv_linear::{Form, FormFault};

/// The edges that a row of a set split counts.
#[derive(Clone, Copy)]
pub(crate) enum EdgeSide {
    /// Those that lead out of a state of the set.
    Out,
    /// Those that enter the set from outside, each counted as -1.
    In,
}

/// The number behind all unknowns.
const PAST_UNKNOWNS: u64 = 1 << 32;

/// The unknowns of the net's edges on this side of the set, added up.
///
/// Linear in the states, the set and the edges where these are in the order of their unknowns, and else an
/// addition of forms an edge.
pub(crate) fn side_sum(
    alloc: Global,
    side: EdgeSide,
    unknowns: u32,
    net: &Net,
    set: &[u32],
) -> Result<Form, AllocError>
    requires { IsNetWithin unknowns net.now }
    ensures { IfOk result (IsSideSum side unknowns net.now set.now) }
{
    let marks = marks_of(alloc, net.states, set)?;
    let mut sum = Form::of_constant(alloc, 0);
    let mut next: u64 = 0;
    for edge in net.edges.as_slice() {
        if is_picked(side, marks.as_slice(), *edge) {
            sum = put(alloc, sum, next, edge.unknown, sign_of_side(side))?;
            next = next_of(next, edge.unknown);
        }
    }
    Ok(sum)
}

fn sign_of_side(side: EdgeSide) -> i128
    ensures { result ≡ side_sign side }
{
    match side {
        EdgeSide::Out => 1,
        EdgeSide::In => -1,
    }
}

/// The bound of the unknowns once this one is added.
fn next_of(next: u64, unknown: u32) -> u64
    requires { next ≤ 2 ^ 32 }
    ensures bound { result ≤ 2 ^ 32 }
    ensures behind { next ≤ unknown → result ≡ suc unknown }
    ensures any { unknown < next → result ≡ 2 ^ 32 }
{
    if next <= unknown as u64 {
        unknown as u64 + 1
    } else {
        PAST_UNKNOWNS
    }
}

/// The form, whose unknowns are below `next`, and 1 or -1 times the unknown.
fn put(alloc: Global, form: Form, next: u64, unknown: u32, by: i128) -> Result<Form, AllocError>
    requires ascends { AscendsWithin 0 next form.coefficients }
    requires sign { unsigned_abs by ≡ 1 }
    requires room { (c : Column) → unsigned_abs (entry c form) < 2 ^ 64 }
    ensures value { IfOk result (λ r. (x : ℕ → ℤ) (d : ℤ) → form_value x d r ≡ form_value x d form +ℤ by *ℤ x unknown) }
    ensures small { IfOk result (λ r. (c : Column) → unsigned_abs (entry c r) ≤ suc (unsigned_abs (entry c form))) }
    ensures ascends { IfOk result (λ r. next ≤ unknown → AscendsWithin 0 (suc unknown) r.coefficients) }
{
    if next <= unknown as u64 {
        let mut form = form;
        form.push(unknown, by)?;
        return Ok(form);
    }
    let one = one_term(alloc, unknown, by)?;
    match form.add(alloc, &one) {
        Ok(sum) => Ok(sum),
        Err(FormFault::Past { .. }) => unreachable!(),
        Err(FormFault::Memory(error)) => Err(error),
    }
}

/// So many times the unknown.
fn one_term(alloc: Global, unknown: u32, by: i128) -> Result<Form, AllocError>
    requires { unsigned_abs by ≡ 1 }
    ensures value { IfOk result (λ r. (x : ℕ → ℤ) (d : ℤ) → form_value x d r ≡ by *ℤ x unknown) }
    ensures small { IfOk result (λ r. (c : Column) → unsigned_abs (entry c r) ≤ 1) }
{
    let mut form = Form::of_constant(alloc, 0);
    form.push(unknown, by)?;
    Ok(form)
}

/// For each state whether it is in the set.
fn marks_of(alloc: Global, states: u32, set: &[u32]) -> Result<Vec<bool>, AllocError>
    ensures size { IfOk result (λ marks. length marks.items ≡ states) }
    ensures marks { IfOk result (λ marks. AreSetMarks states set.now marks.items) }
{
    let mut marks = vec![in alloc; false; states as usize]?;
    for state in set {
        mark(&mut marks, *state);
    }
    Ok(marks)
}

/// Marks a state, where there is such a state.
fn mark(marks: &mut Vec<bool>, state: u32)
    ensures within { state < length marks.old.items → marks.new.items ≡ slice_set marks.old.items state true }
    ensures beyond { length marks.old.items ≤ state → marks.new.items ≡ marks.old.items }
{
    if (state as usize) < marks.len() {
        marks[state as usize] = true;
    }
}

/// Whether an edge is on this side of the set with these marks.
fn is_picked(side: EdgeSide, marks: &[bool], edge: NetEdge) -> bool
    requires from { edge.«from» < length marks.now }
    requires to { edge.to < length marks.now }
    ensures { (states : ℕ) (set : List ℕ) → AreSetMarks states set marks.now → edge.«from» < states → edge.to < states → result ≡ picks side set edge }
{
    match side {
        EdgeSide::Out => marks[edge.from as usize],
        EdgeSide::In => marks[edge.to as usize] && !marks[edge.from as usize],
    }
}
