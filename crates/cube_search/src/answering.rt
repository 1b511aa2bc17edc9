ghost use Rattle.std.specs.Prelude.{◌≡◌, ◌<◌, ◌^◌, ◌⊎◌, ℕ, [], true, false, length, Err, IfOk};
ghost use Rattle.trim_search.specs.declared.build_fault.BuildFault.TheVariants.{States};
ghost use Rattle.cube_bounds.specs.Bounds.{states};
ghost use Rattle.cube_bounds.specs.Measuring.{AreNumbersOf};
ghost use Rattle.flat_cubes.specs.Straight.{AreNamesApart, HasFormed, IsStraight};
ghost use Rattle.cube_search.specs.Answerable.{IsAnswerable};
ghost use Rattle.cube_search.specs.Limits.{GrowsLittle, IsWithinLimits, MustDecideFlat};
ghost use Rattle.cube_search.specs.Answers.{IsCubeAnswer, IsDecidedCube};
ghost use Rattle.cube_search.specs.Causes.{GrowsLittleUnless, IsCauseOf, past_reason};
ghost use Rattle.cube_search.specs.Allowances.{is_bounded};

use crate::allowance::Allowance;
use crate::answer::{CubeAnswer, Refutation};
use crate::apart::answer_apart;
use crate::below::Below;
use crate::limits::{PastLimit, past_limit};
use crate::modelling::model_of;
use crate::searching::{Search, descend};
use crate::settling::open_answer;
use crate::tally::LeafTally;
use backward::first_state;
use cube_bounds::Numbers;
use cube_region::region_of;
use flat_cubes::Flat;
use part_machines::{MOST_STATES, Machines};
use std::alloc::{AllocError, Global};
use trim_search::BuildFault;

/// A model of the cube, or that it has none, or why it is left open.
///
/// `numbers` are those of the cube, and machines of regular expressions are asked of `kept`. Only memory may be
/// wanting. Time goes with the ways to cut all concatenations, and with what `leaf_solve` takes for each leaf;
/// memory with one family of machines a definition. A cube whose text is past the limit on states is searched with
/// machines of at most 262,144 states, one past the limit on splits with 1,048,576 explored states in all.
pub fn cube_answer(
    alloc: Global,
    flat: &Flat,
    numbers: &Numbers,
    kept: &Machines,
) -> Result<CubeAnswer, AllocError>
    requires straight { IsStraight flat.now }
    requires formed { HasFormed flat.now }
    requires apart { AreNamesApart flat.now }
    requires few { length flat.now.variables < 2 ^ 32 }
    requires bare { flat.now.rows ≡ [] → flat.now.registers ≡ [] }
    requires numbers { AreNumbersOf flat.now numbers.now }
    ensures right { IfOk result (IsCubeAnswer flat.now) }
    ensures decided { MustDecideFlat flat.now → IfOk result IsDecidedCube }
{
    if flat.broken {
        return Ok(CubeAnswer::Unsat(empty_refutation()));
    }
    match past_limit(flat, numbers) {
        None => answer_within(alloc, flat, numbers, kept),
        Some(limit) => answer_beyond(alloc, flat, numbers, kept, limit),
    }
}

/// No leaf is closed.
pub fn empty_refutation() -> Refutation {
    Refutation {
        empty: 0,
        trees: 0,
        boxes: 0,
    }
}

// The answer where the text is within all limits: by all leaves.
fn answer_within(
    alloc: Global,
    flat: &Flat,
    numbers: &Numbers,
    kept: &Machines,
) -> Result<CubeAnswer, AllocError>
    requires answerable { IsAnswerable flat.now numbers.now }
    requires whole { flat.now.broken ≡ false }
    requires limits { IsWithinLimits flat.now }
    ensures right { IfOk result (IsCubeAnswer flat.now) }
    ensures decided { MustDecideFlat flat.now → IfOk result IsDecidedCube }
{
    match answer_apart(alloc, flat, numbers, kept, Allowance::Whole) {
        Ok(answer) => Ok(answer),
        Err(BuildFault::Memory(e)) => Err(e),
        Err(BuildFault::States(_)) => unreachable!(),
    }
}

// The answer where the text is past a limit, by the leaves that a bounded effort reaches; the reason where that
// isn't enough. Where words grow past the longest one of a model and there are rows, nothing is searched.
fn answer_beyond(
    alloc: Global,
    flat: &Flat,
    numbers: &Numbers,
    kept: &Machines,
    limit: PastLimit,
) -> Result<CubeAnswer, AllocError>
    requires answerable { IsAnswerable flat.now numbers.now }
    requires whole { flat.now.broken ≡ false }
    requires cause { IsCauseOf flat.now (past_reason limit) }
    requires little { GrowsLittleUnless flat.now limit }
    ensures right { IfOk result (IsCubeAnswer flat.now) }
{
    if let PastLimit::Growth(_) = limit {
        return Ok(CubeAnswer::Open(limit.reason()));
    }
    match answer_apart(alloc, flat, numbers, kept, Allowance::beyond(numbers)) {
        Ok(answer) => Ok(answer),
        Err(BuildFault::Memory(e)) => Err(e),
        Err(BuildFault::States(_)) => Ok(CubeAnswer::Open(limit.reason())),
    }
}

/// The answer by all leaves. `States` comes where they take more than is allowed, or the text allows a machine
/// more states than one may have.
pub fn answer_by_search(
    alloc: Global,
    flat: &Flat,
    numbers: &Numbers,
    kept: &Machines,
    allowance: Allowance,
) -> Result<CubeAnswer, BuildFault>
    requires answerable { IsAnswerable flat.now numbers.now }
    requires whole { flat.now.broken ≡ false }
    requires little { GrowsLittle flat.now }
    ensures right { IfOk result (IsCubeAnswer flat.now) }
    ensures decided { MustDecideFlat flat.now → IfOk result IsDecidedCube }
    ensures refused { (n : ℕ) → result ≡ Err (States n) → (is_bounded allowance ≡ true) ⊎ (MOST_STATES < states flat.now) }
{
    let search = Search {
        flat,
        region: region_of(alloc, flat, numbers)?,
        small: numbers.small,
        reach: numbers.reach,
        allowance,
    };
    let mut tally = LeafTally {
        given: None,
        long: None,
        closed: empty_refutation(),
    };
    let mut spent = 0;
    let state = first_state(alloc, flat, kept)?;
    let left = flat.definitions.len() as u32;
    match descend(&search, alloc, &state, left, &mut tally, &mut spent)? {
        Below::Found(found) => Ok(CubeAnswer::Sat(model_of(alloc, flat, &found)?)),
        Below::Refuted(_) => Ok(CubeAnswer::Unsat(tally.closed)),
        Below::Left => Ok(open_answer(tally)),
    }
}
