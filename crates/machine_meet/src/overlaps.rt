//! Which moves of two lists read a character in common.
ghost use Rattle.std.specs.Prelude.{◌≡◌, ℕ, ◌≤◌, ◌↔◌, ◌++◌, map, Contains, IfOk, OnOk};
ghost use Rattle.std.specs.List.Sorted.{IsNonDecreasingBy};
ghost use Rattle.machine_meet.specs.Overlaps.{span, IsSpan, BeginsWithin, MovesMeet};

use machine_core::Move;
use std::alloc::{AllocError, Global};
use sv_word::Ranges;

/// An interval of the characters that the move at `place` of a list reads.
#[derive(Clone, Copy)]
pub struct MoveInterval {
    pub low: u32,
    pub high: u32,
    pub place: usize,
}

/// The places of the moves of two lists that read a character in common, each pair once, in the order
/// of the first list and then of the second one.
///
/// Where two intervals overlap the one that begins later begins within the other, so the intervals of
/// either list are searched for those that begin within one of the other list. For n intervals in
/// all, of which k pairs overlap, that takes time n log n and k log k, and memory n and k.
pub fn meeting_pairs<S, T>(
    alloc: Global,
    heads: &[Move<S>],
    tails: &[Move<T>],
) -> Result<Vec<(usize, usize)>, AllocError>
    ensures { IfOk result (λ v. (i j : ℕ) → Contains v.items (i, j) ↔ MovesMeet heads.now tails.now i j) }
{
    let heads = spans_of(alloc, heads)?;
    let tails = spans_of(alloc, tails)?;
    let mut pairs = pair_within(alloc, heads.as_slice(), tails.as_slice())?;
    let others = pair_within(alloc, tails.as_slice(), heads.as_slice())?;
    push_turned(&mut pairs, others.as_slice())?;
    pairs.sort_unstable();
    pairs.dedup();
    Ok(pairs)
}

// The intervals of the moves, in the order of their first characters.
fn spans_of<S>(alloc: Global, moves: &[Move<S>]) -> Result<Vec<MoveInterval>, AllocError>
    ensures order { IfOk result (λ v. IsNonDecreasingBy (λ s. s.low) v.items) }
    ensures exact { IfOk result (λ v. (s : MoveInterval) → Contains v.items s ↔ IsSpan moves.now s) }
{
    let mut spans = Vec::new(alloc);
    for (place, step) in moves.iter().enumerate() {
        push_spans(&mut spans, &step.on, place)?;
    }
    spans.sort_unstable_by_key(|span| span.low);
    Ok(spans)
}

// Adds the intervals of the move at `place`.
fn push_spans(spans: &mut Vec<MoveInterval>, on: &Ranges, place: usize) -> Result<(), AllocError>
    ensures ok { OnOk result (spans.new.items ≡ spans.old.items ++ map (span place) on.now) }
    ensures forward { (pair : ℕ × ℕ) → Contains on.now pair → pair.0 ≤ pair.1 }
{
    for pair in on.as_slice() {
        spans.push(MoveInterval {
            low: pair.0,
            high: pair.1,
            place,
        })?;
    }
    Ok(())
}

// The places of one of `around` and one of `spans` that begins within it.
fn pair_within(
    alloc: Global,
    around: &[MoveInterval],
    spans: &[MoveInterval],
) -> Result<Vec<(usize, usize)>, AllocError>
    requires { IsNonDecreasingBy (λ s. s.low) spans.now }
    ensures { IfOk result (λ v. (i j : ℕ) → Contains v.items (i, j) ↔ BeginsWithin around.now spans.now i j) }
{
    let mut pairs = Vec::new(alloc);
    for outer in around {
        push_pairs(
            &mut pairs,
            outer.place,
            beginning(spans, outer.low, outer.high),
        )?;
    }
    Ok(pairs)
}

// Those that begin from `low` to `high`, by two binary searches.
fn beginning(spans: &[MoveInterval], low: u32, high: u32) -> &[MoveInterval]
    requires { IsNonDecreasingBy (λ s. s.low) spans.now }
    ensures { (s : MoveInterval) → Contains result.now s ↔ (Contains spans.now s × (low ≤ s.low) × (s.low ≤ high)) }
{
    let (_, from) = spans.split_at(spans.partition_point(|span| span.low < low));
    let (window, _) = from.split_at(from.partition_point(|span| span.low <= high));
    window
}

// Adds the pairs of `place` with the places of the spans.
fn push_pairs(
    pairs: &mut Vec<(usize, usize)>,
    place: usize,
    spans: &[MoveInterval],
) -> Result<(), AllocError>
    ensures { OnOk result (pairs.new.items ≡ pairs.old.items ++ map (λ s. (place, s.place)) spans.now) }
{
    for inner in spans {
        pairs.push((place, inner.place))?;
    }
    Ok(())
}

// Adds pairs the other way round.
fn push_turned(pairs: &mut Vec<(usize, usize)>, more: &[(usize, usize)]) -> Result<(), AllocError>
    ensures { OnOk result (pairs.new.items ≡ pairs.old.items ++ map (λ p. (p.1, p.0)) more.now) }
{
    for (second, first) in more {
        pairs.push((*first, *second))?;
    }
    Ok(())
}
