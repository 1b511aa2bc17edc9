//! Answers without rows: shortest words decide.
ghost use Rattle.std.specs.Prelude.{◌≡◌, ◌≤◌, ◌↔◌, [], true, length, map, IsTrue, IfOk};
ghost use Rattle.std.specs.List.{AllZip};
ghost use Rattle.trim_search.specs.Shortest.{IsShortestRun};
ghost use Rattle.search_hits.specs.Hits.{characters};
ghost use Rattle.leaf_solve.specs.Questions.{total_states};
ghost use Rattle.leaf_solve.specs.Answers.{IsDecided};
ghost use Rattle.leaf_solve.specs.Steps.{IsAskedQuestion, AnswersQuestion};

use crate::leaf_answer::LeafAnswer;
use crate::long_shown::LongShown;
use crate::question::Question;
use box_search::{hits_are_short, words_are_short};
use machine_core::Run;
use search_hits::Hit;
use std::alloc::{AllocError, Global};
use sv_list::{Copied, Items};
use sv_word::Word;

// Whether the words have together at most so many characters.
fn are_within(runs: &[Run<u32>], reach: u64) -> bool
    ensures { IsTrue result ↔ (characters runs.now ≤ reach) }
{
    let mut left = reach;
    for run in runs {
        let Some(rest) = left.checked_sub(run.word.len() as u64) else {
            return false;
        };
        left = rest;
    }
    true
}

// So many zeros.
fn zeros(alloc: Global, count: u32) -> Result<Items<i128>, AllocError>
    ensures { IfOk result (λ list. length list ≡ count) }
{
    Ok(Items::from_vec(vec![in alloc; 0; count as usize]?))
}

fn words_of(alloc: Global, runs: &[Run<u32>]) -> Result<Items<Word>, AllocError>
    ensures { IfOk result (λ words. words ≡ map (λ run. run.word) runs.now) }
{
    let mut words = Items::new(alloc);
    for run in runs {
        words.push(run.word.copy(alloc)?)?;
    }
    Ok(words)
}

/// The answer without rows, from a shortest run of each machine: they are a hit, or too long together.
pub fn by_words(
    alloc: Global,
    question: &Question,
    runs: Items<Run<u32>>,
) -> Result<LeafAnswer, AllocError>
    requires asked { IsAskedQuestion question.now }
    requires no_rows { question.now.rows.now ≡ [] }
    requires shortest { AllZip IsShortestRun question.now.machines.now runs }
    ensures answer { IfOk result (AnswersQuestion question.now) }
    ensures decided { total_states question.now.machines.now ≤ question.now.reach → IfOk result IsDecided }
    ensures small { question.now.small ≡ true → IfOk result IsDecided }
{
    hits_are_short(question.machines, question.region);
    words_are_short();
    if are_within(runs.as_slice(), question.reach) {
        let integers = zeros(alloc, question.integers)?;
        Ok(LeafAnswer::Sat(Hit { runs, integers }))
    } else {
        let words = words_of(alloc, runs.as_slice())?;
        Ok(LeafAnswer::Long(LongShown::Words(words)))
    }
}
