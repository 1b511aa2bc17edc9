//! Where words of other machines lead a machine, looked up before a concatenation is cut.
//!
//! Marks are made by a search of which nothing is said, and checked: where no step leads from a mark to a state without
//! one, all states to which words lead are marked. What has no mark counts as marked, so the empty list always serves,
//! and stands where machines are too large to look up.
ghost use Rattle.std.specs.Prelude.{◌≡◌, ℕ, ◌<◌, ◌&&◌, true, List, [], length, Contains, Some, IfOk, IfSome, slice_get};
ghost use Rattle.machine_core.specs.declared.graph.Graph.{Graph};
ghost use Rattle.machine_core.specs.declared.end.End.{End as AnyEnd};
ghost use Rattle.backward.specs.Families.{HasMachine};
ghost use Rattle.backward.specs.Ways.{is_set, is_marked, AreGoals, AreLive, AreNext, AreStarts, AreStops, IsClosed};

use crate::carrying::start_at;
use crate::family::machine_at;
use crate::leaf_state::LeafState;
use crate::pairs::{Way, is_closed, is_marked, is_set, no_marks, no_rows, set_mark, spread};
use crate::shared::Shared;
use machine_core::{End, Explicit};
use std::alloc::{AllocError, Global};
use sv_list::{Items, at};

// The most pairs of steps and of states that are looked through.
const MOST_PAIRS: u64 = 4_194_304;

// How often they are looked through. Machines are mostly numbered as their states are reached, so that twice is enough.
const MOST_ROUNDS: u32 = 64;

// So many pairs take about as long as a state that is explored.
const PAIRS_OF_A_STATE: u64 = 64;

// The pairs of steps and of states of the two machines.
fn pairs_of(machine: &Explicit, target: &Explicit) -> u64 {
    let steps = (machine.edges().len() as u64).saturating_mul(target.edges().len() as u64);
    let states = u64::from(machine.states()).saturating_mul(u64::from(target.states()));
    steps.saturating_add(states)
}

// The machine of this variable, if it has one.
fn find_machine(machines: &[Option<Shared<Explicit>>], v: u32) -> Option<&Explicit> {
    match machines.get(v as usize) {
        Some(Some(machine)) => Some(machine.get()),
        _ => None,
    }
}

/// What a look-up of this piece of `x` takes, as a number of states that are explored in that time; 0 where it isn't
/// looked up. Constant time.
pub fn lookup_effort(state: &LeafState, x: u32, piece: u32) -> u64 {
    let machines = state.machines.as_slice();
    let Some(machine) = find_machine(machines, piece) else {
        return 0;
    };
    let Some(target) = find_machine(machines, x) else {
        return 0;
    };
    let pairs = pairs_of(machine, target);
    if pairs > MOST_PAIRS {
        return 0;
    }
    pairs / PAIRS_OF_A_STATE
}

// The rows with all marks to which steps of both machines lead; none where that takes too many rounds.
fn spread_out(
    alloc: Global,
    way: Way,
    rows: Items<Items<bool>>,
    machine: &Explicit,
    target: &Explicit,
) -> Result<Option<Items<Items<bool>>>, AllocError>
    ensures { IfOk result (λ o. IfSome o (λ rows. IsClosed way rows machine.now.edges target.now.edges)) }
{
    let firsts = machine.edges();
    let seconds = target.edges();
    let mut rows = rows;
    for _ in 0..MOST_ROUNDS {
        if is_closed(alloc, way, rows.as_slice(), firsts, seconds)? {
            return Ok(Some(rows));
        }
        rows = spread(alloc, way, rows, firsts, seconds)?;
    }
    Ok(None)
}

// Whether the row has all these marks.
fn has_all(row: &[bool], goals: &[bool]) -> bool
    ensures { result ≡ true → (s : ℕ) → is_set goals.now s ≡ true → is_set row.now s ≡ true }
{
    for s in 0..row.len() {
        let goal = match at(goals, s) {
            None => true,
            Some(mark) => *mark,
        };
        if goal && !row[s] {
            return false;
        }
    }
    true
}

// Whether the row of this state has all these marks.
fn row_has_all(rows: &[Items<bool>], state: u32, goals: &[bool]) -> bool
    ensures { result ≡ true → (s : ℕ) → is_set goals.now s ≡ true → is_marked rows.now state s ≡ true }
{
    match at(rows, state as usize) {
        None => true,
        Some(row) => has_all(row.as_slice(), goals),
    }
}

// Whether the row of each end has all these marks.
fn ends_have_all(rows: &[Items<bool>], ends: &[End], goals: &[bool]) -> bool
    ensures { result ≡ true → (i s : ℕ) (e : AnyEnd) → slice_get ends.now i ≡ Some e → is_set goals.now s ≡ true → is_marked rows.now e.at s ≡ true }
{
    for i in 0..ends.len() {
        if !row_has_all(rows, ends[i].at, goals) {
            return false;
        }
    }
    true
}

// The goals at the ends of `machine`.
fn goals_at_ends(
    alloc: Global,
    machine: &Explicit,
    target: &Explicit,
    goals: &[bool],
) -> Result<Items<Items<bool>>, AllocError> {
    let mut rows = no_rows(alloc, machine.states(), target.states())?;
    for end in machine.finals() {
        let row = Items::from_slice(alloc, goals)?;
        if (end.at as usize) < rows.len() {
            rows.set(end.at as usize, row);
        }
    }
    Ok(rows)
}

/// Marks of the states of `target`: each is marked from which some word of `machine` leads to a goal, and others may
/// be. Time goes with the product of the numbers of steps, times the rounds after which no mark is new; memory with the
/// product of the numbers of states.
pub fn starts_of(
    alloc: Global,
    machine: &Explicit,
    target: &Explicit,
    goals: &[bool],
) -> Result<Items<bool>, AllocError>
    ensures { IfOk result (AreStarts machine.now target.now goals.now) }
{
    if pairs_of(machine, target) <= MOST_PAIRS {
        let rows = goals_at_ends(alloc, machine, target, goals)?;
        if let Some(rows) = spread_out(alloc, Way::Backward, rows, machine, target)? {
            if ends_have_all(rows.as_slice(), machine.finals(), goals) {
                return first_row(alloc, rows.as_slice());
            }
        }
    }
    Ok(Items::new(alloc))
}

// The first row.
fn first_row(alloc: Global, rows: &[Items<bool>]) -> Result<Items<bool>, AllocError>
    ensures { IfOk result (λ row. (s : ℕ) → is_set row s ≡ is_marked rows.now 0 s) }
{
    match at(rows, 0) {
        None => Ok(Items::new(alloc)),
        Some(row) => Items::from_slice(alloc, row.as_slice()),
    }
}

// Whether the state is marked in the row of some end.
fn is_at_end(rows: &[Items<bool>], ends: &[End], s: u32) -> bool
    ensures { (i : ℕ) (e : AnyEnd) → slice_get ends.now i ≡ Some e → is_marked rows.now e.at s ≡ true → result ≡ true }
{
    for i in 0..ends.len() {
        if is_marked(rows, ends[i].at as usize, s) {
            return true;
        }
    }
    false
}

// The states that are marked in the row of some end.
fn marks_at_ends(
    alloc: Global,
    rows: &[Items<bool>],
    ends: &[End],
    states: u32,
) -> Result<Items<bool>, AllocError>
    ensures { IfOk result (λ stops. (i s : ℕ) (e : AnyEnd) → slice_get ends.now i ≡ Some e → is_marked rows.now e.at s ≡ true → is_set stops s ≡ true) }
{
    let mut stops = Items::new(alloc);
    for s in 0..states {
        stops.push(is_at_end(rows, ends, s))?;
    }
    Ok(stops)
}

/// Marks of the states of `target`: each is marked to which some word of `machine` leads from the state `from`, and
/// others may be. It takes what [`starts_of`] takes.
pub fn stops_of(
    alloc: Global,
    machine: &Explicit,
    target: &Explicit,
    from: u32,
) -> Result<Items<bool>, AllocError>
    ensures { IfOk result (AreStops machine.now target.now from) }
{
    if pairs_of(machine, target) <= MOST_PAIRS {
        let mut rows = no_rows(alloc, machine.states(), target.states())?;
        let mut first = no_marks(alloc, target.states())?;
        set_mark(&mut first, from);
        if 0 < rows.len() {
            rows.set(0, first);
        }
        if let Some(rows) = spread_out(alloc, Way::Forward, rows, machine, target)? {
            if is_marked(rows.as_slice(), 0, from) {
                return marks_at_ends(alloc, rows.as_slice(), machine.finals(), target.states());
            }
        }
    }
    Ok(Items::new(alloc))
}

// The states in which a word may end.
fn end_states(alloc: Global, target: &Explicit) -> Result<Items<bool>, AllocError>
    ensures { IfOk result (λ goals. (i : ℕ) (e : AnyEnd) → slice_get target.now.ends i ≡ Some e → is_set goals e.at ≡ true) }
{
    let ends = target.finals();
    let mut marks = no_marks(alloc, target.states())?;
    for i in 0..ends.len() {
        set_mark(&mut marks, ends[i].at);
    }
    Ok(marks)
}

/// A row of marks for each piece, for the states of the machine of `x`: each is marked from which words of this and the
/// later pieces lead to an end, and others may be. It takes what [`starts_of`] takes for each piece, and is quadratic in
/// the number of pieces.
pub fn live_cuts(
    alloc: Global,
    state: &LeafState,
    x: u32,
    pieces: &[u32],
) -> Result<Items<Items<bool>>, AllocError>
    requires machine { (m : Graph) × HasMachine state.now.machines x m }
    requires pieces { (p : ℕ) → Contains pieces.now p → (m : Graph) × HasMachine state.now.machines p m }
    ensures { IfOk result (λ live. (m : Graph) → HasMachine state.now.machines x m → AreLive state.now.machines m pieces.now live) }
{
    let machines = state.machines.as_slice();
    let target = machine_at(machines, x);
    let mut goals = end_states(alloc, target)?;
    let mut rows = Items::new(alloc);
    let mut left = pieces.len();
    while left > 0 {
        left -= 1;
        let machine = machine_at(machines, pieces[left]);
        let row = starts_of(alloc, machine, target, goals.as_slice())?;
        goals = Items::from_slice(alloc, row.as_slice())?;
        rows.insert(0, row)?;
    }
    Ok(rows)
}

/// Marks of the states of the machine of `x`: each is marked to which a word of the piece behind these cuts leads from
/// the last of them, or from the start, and others may be. It takes what [`stops_of`] takes.
pub fn next_cuts(
    alloc: Global,
    state: &LeafState,
    x: u32,
    pieces: &[u32],
    cuts: &[u32],
) -> Result<Items<bool>, AllocError>
    requires machine { (m : Graph) × HasMachine state.now.machines x m }
    requires pieces { (p : ℕ) → Contains pieces.now p → (m : Graph) × HasMachine state.now.machines p m }
    requires fewer { length cuts.now < length pieces.now }
    ensures { IfOk result (λ next. (m : Graph) → HasMachine state.now.machines x m → AreNext state.now.machines m pieces.now cuts.now next) }
{
    let machines = state.machines.as_slice();
    let machine = machine_at(machines, pieces[cuts.len()]);
    let target = machine_at(machines, x);
    let from = start_at(cuts, cuts.len());
    stops_of(alloc, machine, target, from)
}

/// Whether a cut at this state may come next and lead on to an end.
pub fn may_cut(next: &[bool], live: &[Items<bool>], place: usize, s: u32) -> bool
    ensures { result ≡ (is_set next.now s && is_marked live.now place s) }
{
    is_set(next, s) && is_marked(live, place, s)
}
