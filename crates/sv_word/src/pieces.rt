ghost use Rattle.std.specs.Prelude.{◌≡◌, ℕ, ◌<◌, ◌≤◌, ◌+◌, ◌⊎◌, ◌∷◌, [], ◌++◌, All, AllPairs, IsPermutation, IfOk, OnOk, flat_map};
ghost use Rattle.std.specs.List.Sorted.{IsNonDecreasingBy};
ghost use Rattle.sv_word.specs.Ranges.{IsInhabited, IsApartFrom};
ghost use Rattle.sv_word.specs.Cuts.{IsHeld, AreDisjoint, IsUniformOn, IsParted, IsPaired, borders_of};
ghost use Rattle.sv_word.specs.Words.{greatest_character};

use crate::ranges::Ranges;
use crate::word::GREATEST_CHARACTER;
use std::alloc::{AllocError, Global};

/// Cuts the characters into pieces such that each set of `list` is a union of some of them.
///
/// The pieces are the longest intervals on which no set of the list begins or stops, from the
/// least character on; so which sets hold a piece is told by any of its characters. For n pairs
/// in the list there are at most 2n + 1 pieces, found by one sort of the borders in time n log n.
pub fn cuts(alloc: Global, list: &[Ranges]) -> Result<Vec<Ranges>, AllocError>
    ensures inhabited { IfOk result (λ pieces. All IsInhabited pieces.items) }
    ensures covering { IfOk result (λ pieces. (c : ℕ) → c ≤ greatest_character → IsHeld pieces.items c) }
    ensures disjoint { IfOk result (λ pieces. AllPairs AreDisjoint pieces.items) }

    // With `covering`, each set of the list is the union of the pieces of which it holds a
    // character.
    ensures uniform { IfOk result (λ pieces. All (λ piece. All (IsUniformOn piece) list.now) pieces.items) }

    // No cut is needless: neighbours that no set tells apart lie in one piece.
    ensures coarse { IfOk result (λ pieces. (c : ℕ) → c < greatest_character → IsPaired pieces.items c ⊎ IsParted list.now c) }
{
    let borders = sorted_borders(alloc, list)?;
    let mut pieces = Vec::new(alloc);
    let mut from = 0;
    for border in borders.as_slice() {
        if from < *border {
            pieces.push(Ranges::of(alloc, from, *border - 1)?)?;
            from = *border;
        }
    }
    Ok(pieces)
}

// Where sets of the list begin and stop, in order, and the end of the characters.
fn sorted_borders(alloc: Global, list: &[Ranges]) -> Result<Vec<u32>, AllocError>
    ensures borders { IfOk result (λ v. IsPermutation (flat_map borders_of list.now ++ (greatest_character + 1) ∷ []) v.items) }
    ensures top { IfOk result (λ v. All (λ b. b ≤ greatest_character + 1) v.items) }
    ensures order { IfOk result (λ v. IsNonDecreasingBy (λ b. b) v.items) }
    ensures apart { IfOk result (λ _. All (IsApartFrom 0) list.now) }
{
    let mut borders = Vec::new(alloc);
    for ranges in list {
        push_borders(&mut borders, ranges)?;
    }
    borders.push(GREATEST_CHARACTER + 1)?;
    borders.sort_unstable();
    Ok(borders)
}

// Adds the borders of a set.
fn push_borders(borders: &mut Vec<u32>, ranges: &Ranges) -> Result<(), AllocError>
    ensures borders { OnOk result (borders.new.items ≡ borders.old.items ++ borders_of ranges.now) }
    ensures apart { IsApartFrom 0 ranges.now }
{
    for pair in ranges.as_slice() {
        borders.push(pair.0)?;
        borders.push(pair.1 + 1)?;
    }
    Ok(())
}
