//! Runs of a product, split into runs of its parts.
ghost use Rattle.std.specs.Prelude.{◌≡◌, ℕ, ◌<◌, List, length, map, slice_get, Some, IfOk, All, Contains};
ghost use Rattle.machine_core.specs.declared.run.Run.{Run};
ghost use Rattle.machine_core.specs.Runs.{IsRun, run_total};
ghost use Rattle.machine_meet.specs.Products.{AreStates, MeetEnds, MeetSteps, meet_width};
ghost use Rattle.machine_core.specs.Costs.{sum_costs};
ghost use Rattle.machine_meet.specs.Splits.{AreSteps, ArePartRuns, IsSplitRow, IsColumn, as_step};

use crate::column::column;
use crate::meet::Meet;
use crate::options::{end_options, step_options};
use crate::pick::pick;
use machine_core::{Cost, Machine, Run};
use std::alloc::{AllocError, Global};
use sv_list::{Copied, Items};

// What each part costs in a step of the product.
fn pick_step<P: Machine>(
    alloc: Global,
    parts: &[P],
    from: &[P::St],
    c: u32,
    cost: &Cost,
    to: &[P::St],
) -> Result<Items<Cost>, AllocError>
    requires states { AreStates P.is_state parts.now from.now }
    requires width { (p : P) → Contains parts.now p → P.width p ≡ length cost.now }
    requires step { MeetSteps P.steps_to (length cost.now) parts.now from.now c cost.now to.now }
    ensures steps { IfOk result (AreSteps P.steps_to parts.now from.now c to.now) }
    ensures sum { IfOk result (λ costs. sum_costs (length cost.now) costs ≡ cost.now) }
{
    let options = step_options(alloc, parts, from, c, to)?;
    Ok(pick(alloc, options.as_slice(), cost)?.unwrap())
}

// What each part costs in an end of the product.
fn pick_end<P: Machine>(
    alloc: Global,
    parts: &[P],
    at: &[P::St],
    cost: &Cost,
) -> Result<Items<Cost>, AllocError>
    requires states { AreStates P.is_state parts.now at.now }
    requires width { (p : P) → Contains parts.now p → P.width p ≡ length cost.now }
    requires end { MeetEnds P.ends_with (length cost.now) parts.now at.now cost.now }
    ensures steps { IfOk result (AreSteps (as_step P.ends_with) parts.now at.now 0 at.now) }
    ensures sum { IfOk result (λ costs. sum_costs (length cost.now) costs ≡ cost.now) }
{
    let options = end_options(alloc, parts, at)?;
    Ok(pick(alloc, options.as_slice(), cost)?.unwrap())
}

// For each step of the run, what each part costs in it.
fn pick_steps<P: Machine>(
    alloc: Global,
    meet: &Meet<P>,
    run: &Run<Items<P::St>>,
) -> Result<Items<Items<Cost>>, AllocError>
    requires { IsRun (MeetEnds P.ends_with (meet_width P.width meet.now.parts.now) meet.now.parts.now)
        (MeetSteps P.steps_to (meet_width P.width meet.now.parts.now) meet.now.parts.now)
        (map P.first meet.now.parts.now) run.now }
    ensures count { IfOk result (λ rows. length rows ≡ length run.now.costs) }
    ensures rows { IfOk result (λ rows. (at : ℕ) (row : List (List ℕ)) → slice_get rows at ≡ Some row
        → IsSplitRow P.steps_to (meet_width P.width meet.now.parts.now) meet.now.parts.now run.now at row) }
{
    let mut rows = Items::new(alloc);
    let states = run.states.as_slice();
    let word = run.word.as_slice();
    for (i, cost) in run.costs.as_slice().iter().enumerate() {
        let from = states[i].as_slice();
        let to = states[i + 1].as_slice();
        rows.push(pick_step(alloc, meet.parts, from, word[i], cost, to)?)?;
    }
    Ok(rows)
}

// The run of the part at `place`, where each part's costs are known.
fn part_run<S: Copied>(
    alloc: Global,
    run: &Run<Items<S>>,
    rows: &[Items<Cost>],
    ends: &[Cost],
    place: usize,
) -> Result<Run<S>, AllocError>
    requires states { All (λ at. place < length at) run.now.states }
    requires rows { All (λ row. place < length row) rows.now }
    requires ends { place < length ends.now }
    ensures word { IfOk result (λ part. part.word ≡ run.now.word) }
    ensures states { IfOk result (λ part. IsColumn place run.now.states part.states) }
    ensures costs { IfOk result (λ part. IsColumn place rows.now part.costs) }
    ensures last { IfOk result (λ part. slice_get ends.now place ≡ Some part.last) }
{
    Ok(Run {
        word: run.word.copy(alloc)?,
        states: column(alloc, run.states.as_slice(), place)?,
        costs: column(alloc, rows, place)?,
        last: ends[place].copy(alloc)?,
    })
}

/// A run of each part on the same word, in the order of the parts, whose costs add up to those of
/// the run, which is a run of the product.
///
/// In each step the moves of each part are listed once. Where a part makes the step at several costs
/// they are tried in turn, without those that are greater than what is left of the step's cost. With
/// one cost for each part that is linear in the parts; it never takes more tries than the number of
/// parts times that of the product's moves for the step.
pub fn split_run<P: Machine>(
    alloc: Global,
    meet: &Meet<P>,
    run: &Run<Items<P::St>>,
) -> Result<Items<Run<P::St>>, AllocError>
    requires { IsRun (MeetEnds P.ends_with (meet_width P.width meet.now.parts.now) meet.now.parts.now)
        (MeetSteps P.steps_to (meet_width P.width meet.now.parts.now) meet.now.parts.now)
        (map P.first meet.now.parts.now) run.now }
    ensures runs { IfOk result (ArePartRuns P.ends_with P.steps_to P.first meet.now.parts.now run.now.word) }
    ensures costs { IfOk result (λ runs. sum_costs (meet_width P.width meet.now.parts.now) (map (λ (r : Run P.St). run_total r) runs) ≡ run_total run.now) }
{
    let rows = pick_steps(alloc, meet, run)?;
    let at = run.states.as_slice()[run.word.len()].as_slice();
    let ends = pick_end(alloc, meet.parts, at, &run.last)?;
    let mut runs = Items::new(alloc);
    for place in 0..meet.parts.len() {
        runs.push(part_run(alloc, run, rows.as_slice(), ends.as_slice(), place)?)?;
    }
    Ok(runs)
}
