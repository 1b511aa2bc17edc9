//! Answers where there are rows: the system is solved, and the region searched.
ghost use Rattle.std.specs.Prelude.{◌≡◌, ◌≢◌, [], All, true, None, length, IfOk, IfSome, MatchOption};
ghost use Rattle.lia_branch.specs.EvidenceHolds.{Holds};
ghost use Rattle.farkas_check.specs.Fitting.{IsAccepted};
ghost use Rattle.leaf_solve.specs.Longs.{HasRun};
ghost use Rattle.leaf_solve.specs.Answers.{HasHitsPast, IsDecided, row_reach};
ghost use Rattle.leaf_solve.specs.Steps.{IsAskedQuestion, AnswersQuestion, IsSystemFor, TellsPast, HoldsNothing};

use crate::closing::Closing;
use crate::leaf_answer::LeafAnswer;
use crate::long_shown::{Beyond, LongShown};
use crate::question::Question;
use crate::systems::{hit_of, row_reach, solve_system, system};
use box_search::{hits_are_short, search};
use farkas_check::{System, Tree};
use lia_branch::{Evidence, Outcome};
use parikh_flow::solutions_are_hits;
use std::alloc::{AllocError, Global};

/// What meets the rows where nothing within the reach does.
#[derive(Drop)]
pub enum PastReach {
    /// Nothing.
    Nothing(Closing),
    /// What has more characters, or is not known.
    Something(Beyond),
}

/// The answer where there are rows: by the system with the row for reach; where that is closed, by the one
/// without; and where the solver gives up, by a search of the region.
pub fn by_rows(alloc: Global, question: &Question) -> Result<LeafAnswer, AllocError>
    requires asked { IsAskedQuestion question.now }
    requires has_rows { question.now.rows.now ≢ [] }
    requires inhabited { All HasRun question.now.machines.now }
    ensures answer { IfOk result (AnswersQuestion question.now) }
    ensures decided { question.now.small ≡ true → IfOk result IsDecided }
{
    let bounded = system(alloc, question, row_reach(question))?;
    match solve_system(alloc, &bounded)? {
        Outcome::Solution(point) => Ok(LeafAnswer::Sat(hit_of(alloc, question, &bounded, point)?)),
        Outcome::Closed(tree) => past_reach(alloc, question, bounded, tree),
        Outcome::GaveUp(evidence) => in_region(alloc, question, bounded, evidence),
    }
}

// The answer where nothing within the reach meets the rows. Nothing in the region does then, so it isn't
// searched.
fn past_reach(
    alloc: Global,
    question: &Question,
    bounded: System,
    tree: Tree,
) -> Result<LeafAnswer, AllocError>
    requires asked { IsAskedQuestion question.now }
    requires has_rows { question.now.rows.now ≢ [] }
    requires inhabited { All HasRun question.now.machines.now }
    requires bounded { IsSystemFor question.now (row_reach question.now.machines.now question.now.reach) bounded }
    requires accepted { IsAccepted bounded tree }
    ensures answer { IfOk result (AnswersQuestion question.now) }
    ensures decided { question.now.small ≡ true → IfOk result IsDecided }
{
    solutions_are_hits(question.machines, &bounded);
    hits_are_short(question.machines, question.region);
    if question.machines.is_empty() {
        return Ok(LeafAnswer::Closed(Closing::Tree(bounded, tree)));
    }
    match without_reach(alloc, question)? {
        PastReach::Nothing(closing) => Ok(LeafAnswer::Closed(closing)),
        PastReach::Something(beyond) => Ok(LeafAnswer::Long(LongShown::Rows {
            system: bounded,
            tree,
            beyond,
        })),
    }
}

// What the system without the row for reach tells, where whatever meets the rows has more characters.
fn without_reach(alloc: Global, question: &Question) -> Result<PastReach, AllocError>
    requires asked { IsAskedQuestion question.now }
    requires past { HasHitsPast question.now.machines.now (length question.now.region.now.registers) question.now.integers question.now.rows.now question.now.reach }
    ensures { IfOk result (TellsPast question.now) }
{
    hits_are_short(question.machines, question.region);
    let free = system(alloc, question, None)?;
    solutions_are_hits(question.machines, &free);
    match solve_system(alloc, &free)? {
        Outcome::Closed(whole) => Ok(PastReach::Nothing(Closing::Tree(free, whole))),
        Outcome::Solution(point) => Ok(PastReach::Something(Beyond::Values(point))),
        Outcome::GaveUp(evidence) => Ok(gave_up(question, free, evidence)),
    }
}

// The same where the solver gave up on that system: the region tells, where it would hold each hit.
fn gave_up(question: &Question, free: System, evidence: Evidence) -> PastReach
    requires asked { IsAskedQuestion question.now }
    requires past { HasHitsPast question.now.machines.now (length question.now.region.now.registers) question.now.integers question.now.rows.now question.now.reach }
    requires free { IsSystemFor question.now None free }
    requires gave_up { Holds free evidence }
    ensures { TellsPast question.now result }
{
    hits_are_short(question.machines, question.region);
    let beyond = Beyond::GaveUp(free, evidence);
    match (!question.small).then_some(beyond) {
        Some(beyond) => PastReach::Something(beyond),
        None => PastReach::Nothing(Closing::Box),
    }
}

// The answer where the solver gave up: what the region tells, or the evidence.
fn in_region(
    alloc: Global,
    question: &Question,
    bounded: System,
    evidence: Evidence,
) -> Result<LeafAnswer, AllocError>
    requires asked { IsAskedQuestion question.now }
    requires has_rows { question.now.rows.now ≢ [] }
    requires inhabited { All HasRun question.now.machines.now }
    requires bounded { IsSystemFor question.now (row_reach question.now.machines.now question.now.reach) bounded }
    requires gave_up { Holds bounded evidence }
    ensures answer { IfOk result (AnswersQuestion question.now) }
    ensures decided { question.now.small ≡ true → IfOk result IsDecided }
{
    let told = search_region(alloc, question).transpose();
    told.unwrap_or(Ok(LeafAnswer::Open(bounded, evidence)))
}

// What the region tells: a hit, or that there is none at all where it would hold each; `None` where it holds
// none, but needn't hold all.
fn search_region(alloc: Global, question: &Question) -> Result<Option<LeafAnswer>, AllocError>
    requires { IsAskedQuestion question.now }
    ensures answer { IfOk result (λ o. MatchOption o (HoldsNothing question.now) (AnswersQuestion question.now)) }
    ensures decided { IfOk result (λ o. IfSome o IsDecided) }
{
    let found = search(
        alloc,
        question.machines,
        question.integers,
        question.rows,
        question.region,
    )?;
    match found {
        Some(hit) => Ok(Some(LeafAnswer::Sat(hit))),
        None => {
            if question.small {
                return Ok(Some(LeafAnswer::Closed(Closing::Box)));
            }
            Ok(None)
        }
    }
}
