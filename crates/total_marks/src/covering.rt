//! Whether marks are all there that edges and ends ask for.
ghost use Rattle.std.specs.Prelude.{◌≡◌, ℕ, ◌+◌, ◌*◌, ◌<◌, ◌^◌, suc, true, length};
ghost use Rattle.std.specs.Int.{bit_at};
ghost use Rattle.total_marks.specs.Marks.{HasBit, IsTotalMarked, Covers, StepPasses, EdgesPass, EndsPass, MarksAreClosed, charge};

use crate::marks::{Marks, has_bit};
use machine_core::{Cost, Edge, End, Explicit};

// Whether the words have all these bits at this place, if they have a word there.
fn holds(words: &[u64], at: usize, bits: u64) -> bool
    ensures { result ≡ true → (bit : ℕ) → bit < 64 → bit_at bits bit ≡ 1 → 64 * at + bit < 64 * length words.now → HasBit words.now (64 * at + bit) }
{
    match words.get(at) {
        Some(word) => bits & !*word == 0,
        None => true,
    }
}

// Whether the words have all bits of this word, put at this place and moved up by so many bits.
fn holds_moved(words: &[u64], at: usize, word: u64, by: u32) -> bool
    requires by { by < 64 }
    requires at { at + 1 < 2 ^ 64 }
    ensures { result ≡ true → (bit : ℕ) → bit < 64 → bit_at word bit ≡ 1 → 64 * at + (bit + by) < 64 * length words.now → HasBit words.now (64 * at + (bit + by)) }
{
    if !holds(words, at, word << by) {
        return false;
    }
    if by == 0 {
        return true;
    }
    holds(words, at + 1, word >> (64 - by))
}

// Whether each bit of the first words is one of the others, moved up by the cost, as far as they have room.
fn covers(from: &[u64], to: &[u64], cost: u64) -> bool
    ensures { result ≡ true → Covers from.now to.now cost }
{
    let skip = (cost / 64) as usize;
    let by = (cost % 64) as u32;
    if skip >= to.len() {
        return true;
    }
    for (at, word) in from.iter().enumerate() {
        if !holds_moved(to, at + skip, *word, by) {
            return false;
        }
    }
    true
}

// Whether what is marked at the first row is marked at the other one with the cost more.
fn passes(marks: &Marks, from: usize, to: usize, cost: u64) -> bool
    ensures { result ≡ true → StepPasses marks.now.words marks.now.width from to cost }
{
    let Some(before) = marks.row(from) else {
        return false;
    };
    let Some(after) = marks.row(to) else {
        return false;
    };
    covers(before, after, cost)
}

/// What is paid at the one register.
pub(crate) fn charge(cost: &Cost) -> u64
    ensures { result ≡ charge cost.now }
{
    match cost.as_slice().first() {
        Some(paid) => *paid,
        None => 0,
    }
}

fn edges_pass(marks: &Marks, base: usize, edges: &[Edge]) -> bool
    requires { base < 2 ^ 62 }
    ensures { result ≡ true → EdgesPass marks.now.words marks.now.width base edges.now }
{
    for edge in edges {
        let from = base + edge.from as usize;
        let to = base + edge.to as usize;
        if !passes(marks, from, to, charge(&edge.cost)) {
            return false;
        }
    }
    true
}

fn ends_pass(marks: &Marks, base: usize, next: usize, ends: &[End]) -> bool
    requires { base < 2 ^ 62 }
    ensures { result ≡ true → EndsPass marks.now.words marks.now.width base next ends.now }
{
    for end in ends {
        let from = base + end.at as usize;
        if !passes(marks, from, next, charge(&end.cost)) {
            return false;
        }
    }
    true
}

fn machine_passes(marks: &Marks, machine: &Explicit, at: usize, states: usize) -> bool
    requires next { at + 1 < 2 ^ 64 }
    requires rows { (at + 1) * states < 2 ^ 62 }
    ensures edges { result ≡ true → EdgesPass marks.now.words marks.now.width (at * states) machine.now.edges }
    ensures ends { result ≡ true → EndsPass marks.now.words marks.now.width (at * states) (suc at * states) machine.now.ends }
{
    let base = at * states;
    let next = (at + 1) * states;
    edges_pass(marks, base, machine.edges()) && ends_pass(marks, base, next, machine.finals())
}

// Whether the total 0 is marked at the start.
fn begins(marks: &Marks) -> bool
    ensures { result ≡ true → IsTotalMarked marks.now.words marks.now.width 0 0 }
{
    match marks.row(0) {
        Some(words) => has_bit(words, 0),
        None => false,
    }
}

// Whether rows have room for the total.
fn have_room(marks: &Marks, most: u64) -> bool
    ensures { result ≡ true → most < 64 * marks.now.width }
{
    most / 64 < marks.width as u64
}

/// Whether rows have room for totals up to the greatest one, the total 0 is marked at the start, and all edges and
/// ends pass on what is marked, where each machine has so many rows. It takes a word of each edge at a time.
pub fn are_closed(marks: &Marks, machines: &[Explicit], states: usize, most: u64) -> bool
    requires { length machines.now * states < 2 ^ 62 }
    ensures { result ≡ true → MarksAreClosed marks.now.words marks.now.width machines.now states most }
{
    if !have_room(marks, most) || !begins(marks) {
        return false;
    }
    for (at, machine) in machines.iter().enumerate() {
        if !machine_passes(marks, machine, at, states) {
            return false;
        }
    }
    true
}
