//! Which states follow on which characters.
ghost use Rattle.std.specs.Prelude.{◌≡◌, ◌++◌, map, Contains, IfOk, OnOk};
ghost use Rattle.std.specs.List.Sorted.{IsNonDecreasingBy};
ghost use Rattle.subset_machine.specs.Legs.{AreHits};
ghost use Rattle.subset_machine.specs.Subsets.{ListsAll};

use crate::leaving::EdgeRange;
use crate::search::between;
use std::alloc::{AllocError, Global};
use sv_list::Items;

/// The first character of each interval with each state that a range leads to on it, in the order of
/// the characters. For h such pairs it takes time n log n for the n ranges and intervals, and h log h.
pub fn hits_of(
    alloc: Global,
    legs: &[EdgeRange],
    marks: &[(u32, u32)],
) -> Result<Vec<(u32, u32)>, AllocError>
    requires { IsNonDecreasingBy (λ m. m.0) marks.now }
    ensures { IfOk result (λ v. AreHits legs.now marks.now v.items) }
{
    let mut hits = Vec::with_capacity(alloc, legs.len())?;
    for leg in legs {
        push_hits(&mut hits, *leg, between(marks, leg.low, leg.high))?;
    }
    hits.sort_unstable();
    Ok(hits)
}

// Adds what a range leads to on the first characters of these intervals.
fn push_hits(
    hits: &mut Vec<(u32, u32)>,
    leg: EdgeRange,
    marks: &[(u32, u32)],
) -> Result<(), AllocError>
    ensures { OnOk result (hits.new.items ≡ hits.old.items ++ map (λ m. (m.0, leg.to)) marks.now) }
{
    for mark in marks {
        hits.push((mark.0, leg.to))?;
    }
    Ok(())
}

/// The states that follow on a character, each once and in order.
pub fn target(alloc: Global, hits: &[(u32, u32)], first: u32) -> Result<Items<u32>, AllocError>
    requires { IsNonDecreasingBy (λ h. h.0) hits.now }
    ensures { IfOk result (ListsAll (λ t. Contains hits.now (first, t))) }
{
    let found = between(hits, first, first);
    let mut states = Vec::with_capacity(alloc, found.len())?;
    for hit in found {
        states.push(hit.1)?;
    }
    states.sort_unstable();
    states.dedup();
    Ok(Items::from_vec(states))
}
