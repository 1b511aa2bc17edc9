//! The intervals of characters, by the list that follows on them.
ghost use Rattle.std.specs.Prelude.{◌≡◌, ◌≢◌, ℕ, ◌≤◌, ◌↔◌, [], List, Some, IsTrue, All, Any, AllPairs, IfOk, OnOk};
ghost use Rattle.std.specs.List.Sorted.{IsNonDecreasingBy};
ghost use Rattle.std.specs.BTreeMap.{get};
ghost use Rattle.sv_word.specs.Ranges.{in_ranges, IsInhabited};
ghost use Rattle.machine_core.specs.Moves.{Moves};
ghost use Rattle.subset_machine.specs.Groups.{lists_cmp, AreGroups, AddsMark, AreIntervals, MovesUnder};
ghost use Rattle.sv_word.specs.Words.{greatest_character};

use crate::targets::target;
use machine_core::{Cost, Move};
use std::alloc::{AllocError, Global};
use std::collections::BTreeMap;
use sv_list::Items;
use sv_word::Ranges;

/// Each list that follows, with the intervals on which it does; the empty one only where `dead`.
pub fn group(
    alloc: Global,
    marks: &[(u32, u32)],
    hits: &[(u32, u32)],
    dead: bool,
) -> Result<BTreeMap<Items<u32>, Items<(u32, u32)>>, AllocError>
    requires { IsNonDecreasingBy (λ h. h.0) hits.now }
    ensures { IfOk result (AreGroups marks.now hits.now dead) }
{
    let mut groups = BTreeMap::new(alloc);
    for mark in marks {
        let next = target(alloc, hits, mark.0)?;
        if is_wanted(&next, dead) {
            put(alloc, &mut groups, next, *mark)?;
        }
    }
    Ok(groups)
}

// Whether the list may follow: the empty one only where that is wanted.
fn is_wanted(next: &Items<u32>, dead: bool) -> bool
    ensures { IsTrue result ↔ (next.now ≡ [] → IsTrue dead) }
{
    dead || !next.is_empty()
}

// Adds an interval on which this list follows.
fn put(
    alloc: Global,
    groups: &mut BTreeMap<Items<u32>, Items<(u32, u32)>>,
    next: Items<u32>,
    mark: (u32, u32),
) -> Result<(), AllocError>
    ensures { OnOk result (AddsMark groups.old groups.new next mark) }
{
    match groups.get_mut(&next) {
        Some(marks) => marks.push(mark),
        None => {
            let marks = Items::from_slice(alloc, &[mark])?;
            groups.insert(next, marks)?;
            Ok(())
        }
    }
}

/// One move for each list.
pub fn moves_of(
    alloc: Global,
    mut groups: BTreeMap<Items<u32>, Items<(u32, u32)>>,
) -> Result<Items<Move<Items<u32>>>, AllocError>
    requires { (next : List ℕ) (ms : List (ℕ × ℕ)) → get lists_cmp groups next ≡ Some ms → AreIntervals ms }
    ensures exact { IfOk result (λ moves. (c : ℕ) (cost to : List ℕ) → MovesUnder groups c cost to ↔ Any (Moves c cost to) moves) }
    ensures inhabited { IfOk result (All (λ m. IsInhabited m.on)) }
    ensures joined { IfOk result (AllPairs (λ m n. m.to ≢ n.to)) }
{
    let mut moves = Items::new(alloc);
    moves.reserve(groups.len())?;
    while let Some((to, marks)) = groups.pop_first() {
        let on = union(alloc, marks.as_slice())?;
        let _characters = on.as_slice();
        moves.push(Move {
            on,
            cost: Cost::new(alloc),
            to,
        })?;
    }
    Ok(moves)
}

// The characters of some intervals, joined in halves, so that n of them take time n log n.
fn union(alloc: Global, marks: &[(u32, u32)]) -> Result<Ranges, AllocError>
    requires { All (λ m. m.1 ≤ greatest_character) marks.now }
    ensures { IfOk result (λ r. (c : ℕ) → in_ranges r c ≡ in_ranges marks.now c) }
{
    match marks {
        [] => Ok(Ranges::none(alloc)),
        [mark] => Ranges::of(alloc, mark.0, mark.1),
        _ => {
            let (left, right) = marks.split_at(marks.len() / 2);
            union(alloc, left)?.join(alloc, &union(alloc, right)?)
        }
    }
}
