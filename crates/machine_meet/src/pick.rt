//! One cost out of each list, so that they add up to a given cost.
ghost use Rattle.std.specs.Prelude.{◌≡◌, [], ◌∷◌, ◌++◌, length, reverse, IfOk};
ghost use Rattle.machine_meet.specs.Splits.{IsPick, AreCostsWide, IsLeft, turned};

use machine_core::Cost;
use std::alloc::{AllocError, Global};
use sv_list::{Copied, Items, at};

// `whole` less `part`; `None` where a number of `part` is above that of `whole`.
fn left_of(alloc: Global, whole: &Cost, part: &Cost) -> Result<Option<Cost>, AllocError>
    ensures { IfOk result (λ left. length part.now ≡ length whole.now → IsLeft whole.now part.now left) }
{
    let mut rest = Cost::new(alloc);
    for (register, entry) in whole.as_slice().iter().enumerate() {
        let Some(taken) = at(part.as_slice(), register) else {
            return Ok(None);
        };
        let Some(left) = entry.checked_sub(*taken) else {
            return Ok(None);
        };
        rest.push(left)?;
    }
    Ok(Some(rest))
}

// No cost at all, where `want` is nothing at each register.
fn pick_none(alloc: Global, want: &Cost) -> Option<Items<Cost>>
    ensures { IsPick [] want.now result }
{
    for entry in want.as_slice() {
        if *entry != 0 {
            return None;
        }
    }
    Some(Items::new(alloc))
}

// This cost, and one out of each list of the rest, the last one first.
#[cycle(pick_back)]
fn pick_after(
    alloc: Global,
    cost: &Cost,
    rest: &[Items<Cost>],
    want: &Cost,
) -> Result<Option<Items<Cost>>, AllocError>
    ensures { IfOk result (λ picked. length cost.now ≡ length want.now → AreCostsWide (length want.now) rest.now
        → IsPick ((cost.now ∷ []) ∷ rest.now) want.now (turned picked)) }
{
    match left_of(alloc, want, cost)? {
        None => Ok(None),
        Some(left) => match pick_back(alloc, rest, &left)? {
            None => Ok(None),
            Some(costs) => Ok(Some(add_last(alloc, costs, cost)?)),
        },
    }
}

// One of the costs, and one out of each list of the rest, the last one first.
#[cycle(pick_back)]
fn pick_one_of(
    alloc: Global,
    costs: &[Cost],
    rest: &[Items<Cost>],
    want: &Cost,
) -> Result<Option<Items<Cost>>, AllocError>
    ensures { IfOk result (λ picked. AreCostsWide (length want.now) (costs.now ∷ rest.now)
        → IsPick (costs.now ∷ rest.now) want.now (turned picked)) }
{
    for cost in costs {
        if let Some(picked) = pick_after(alloc, cost, rest, want)? {
            return Ok(Some(picked));
        }
    }
    Ok(None)
}

// One cost out of each list, the last one first: each is added once what comes behind it is found.
#[cycle(pick_back)]
fn pick_back(
    alloc: Global,
    options: &[Items<Cost>],
    want: &Cost,
) -> Result<Option<Items<Cost>>, AllocError>
    ensures { IfOk result (λ picked. AreCostsWide (length want.now) options.now → IsPick options.now want.now (turned picked)) }
{
    match options {
        [] => Ok(pick_none(alloc, want)),
        [first, rest @ ..] => pick_one_of(alloc, first.as_slice(), rest, want),
    }
}

// The costs and a copy of one more.
fn add_last(alloc: Global, costs: Items<Cost>, cost: &Cost) -> Result<Items<Cost>, AllocError>
    ensures { IfOk result (λ all. all ≡ costs ++ cost.now ∷ []) }
{
    let mut all = costs;
    all.push(cost.copy(alloc)?)?;
    Ok(all)
}

// The costs the other way round.
fn turn(costs: Items<Cost>) -> Items<Cost>
    ensures { result ≡ reverse costs }
{
    let mut turned = costs.into_vec();
    turned.reverse();
    Items::from_vec(turned)
}

/// One cost out of each list, which add up to `want`; `None` exactly where no such costs do.
///
/// What is greater than what is left of `want` is passed over at once. At the worst it tries each way
/// to take a cost out of each of the first lists; such a choice is a subset sum, so nothing is known
/// that is fast for all numbers. Each cost of the answer is copied once.
pub fn pick(
    alloc: Global,
    options: &[Items<Cost>],
    want: &Cost,
) -> Result<Option<Items<Cost>>, AllocError>
    ensures { IfOk result (λ picked. AreCostsWide (length want.now) options.now → IsPick options.now want.now picked) }
{
    match pick_back(alloc, options, want)? {
        None => Ok(None),
        Some(costs) => Ok(Some(turn(costs))),
    }
}
