//! The machines of a leaf answered by the numbers of its cube.
ghost use Rattle.std.specs.Prelude.{◌≡◌, ◌↔◌, ◌<◌, ◌^◌, pos, ◌≤ℤ◌, ◌<ℤ◌, IsTrue, [], IfOk, length};
ghost use Rattle.leaf_solve.specs.Answers.{IsDecided};
ghost use Rattle.leaf_solve.specs.declared.long_shown.LongShown.TheVariants.{Words};
ghost use Rattle.cube_bounds.specs.Growth.{reach as reach_by_text};
ghost use Rattle.cube_bounds.specs.Sides.{IsSmall};
ghost use Rattle.flat_cubes.specs.Straight.{IsStraight};
ghost use Rattle.cube_region.specs.Regions.{IsRegionFor};
ghost use Rattle.cube_search.specs.LeafAnswers.{AreOfLeaf, IsAnswerFor, past_words, words_of};
ghost use Rattle.cube_search.specs.Limits.{MustDecideFlat};

use flat_cubes::Flat;
use leaf_solve::{LeafAnswer, LongShown, leaf};
use machine_core::Explicit;
use search_hits::{Hit, Region};
use std::alloc::{AllocError, Global};
use sv_list::{Copied, Items};

/// What is answered for the machines of a leaf, by the region of its cube, whether its box is small, and its reach: a
/// hit within reach, that nothing is there, that the words are too long, or that the solver gave up. Where nothing is
/// within reach, words without a character are too long.
///
/// Only memory may be wanting. It takes what [`leaf`] takes.
pub fn answer_machines(
    alloc: Global,
    flat: &Flat,
    region: &Region,
    small: bool,
    reach: i64,
    machines: &[Explicit],
) -> Result<LeafAnswer, AllocError>
    requires straight { IsStraight flat.now }
    requires few { length flat.now.variables < 2 ^ 32 }
    requires region { IsRegionFor flat.now region.now }
    requires small { IsTrue small ↔ IsSmall flat.now }
    requires reach { reach ≡ reach_by_text flat.now }
    requires reachable { (flat.now.rows ≡ [] → ⊥) → pos 0 ≤ℤ reach_by_text flat.now }
    requires machines { AreOfLeaf flat.now machines.now }
    ensures answer { IfOk result (IsAnswerFor flat.now region.now machines.now) }
    ensures decided { MustDecideFlat flat.now → IfOk result IsDecided }
{
    let answer = leaf(
        alloc,
        machines,
        flat.integers.len() as u32,
        flat.rows.as_slice(),
        region,
        small,
        characters(reach),
    )?;
    if reach < 0 {
        return past_words(alloc, answer);
    }
    Ok(answer)
}

// A hit as words that are too long, where nothing is within reach.
fn past_words(alloc: Global, answer: LeafAnswer) -> Result<LeafAnswer, AllocError>
    ensures { IfOk result (λ a. a ≡ past_words answer) }
{
    match answer {
        LeafAnswer::Sat(hit) => Ok(LeafAnswer::Long(evidence_of(alloc, &hit)?)),
        other => Ok(other),
    }
}

// The reach as a number of characters, 0 where there is none.
fn characters(reach: i64) -> u64
    ensures exact { pos 0 ≤ℤ reach → reach ≡ pos result }
    ensures nothing { reach <ℤ pos 0 → result ≡ 0 }
{
    if reach < 0 { 0 } else { reach as u64 }
}

// The words of the runs, as what shows that they are too long.
fn evidence_of(alloc: Global, hit: &Hit) -> Result<LongShown, AllocError>
    ensures { IfOk result (λ shown. shown ≡ Words (words_of hit.now.runs)) }
{
    let mut words = Items::new(alloc);
    for run in hit.runs.as_slice() {
        words.push(run.word.copy(alloc)?)?;
    }
    Ok(LongShown::Words(words))
}
