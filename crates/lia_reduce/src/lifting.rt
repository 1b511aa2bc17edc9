use crate::elimination::Elimination;
use crate::reducing::Reduced;
use crate::taken::Taken;
use farkas_check::{System, Tree};
use std::alloc::{AllocError, Global};
use sv_list::{Boxed, Items};

/// A system, and the one that it was reduced to.
#[derive(Clone, Copy)]
pub struct Reduction<'a> {
    pub system: &'a System,
    pub elimination: &'a Elimination,
    pub reduced: &'a Reduced,
}

/// How many splits of a tree that is lifted may stand above one another.
const MOST_DEPTH: u32 = 256;

/// A tree of the reduced system as one of the whole system, or `None` where a number leaves 128 bits or more
/// than 256 splits stand above one another.
///
/// The splits stay. A row of a leaf becomes the row that it began with and what was added to it.
pub fn lift(alloc: Global, reduction: Reduction, tree: &Tree) -> Result<Option<Tree>, AllocError> {
    lift_from(alloc, reduction, tree, MOST_DEPTH)
}

fn lift_from(
    alloc: Global,
    reduction: Reduction,
    tree: &Tree,
    depth: u32,
) -> Result<Option<Tree>, AllocError> {
    match tree {
        Tree::Split {
            unknown,
            at,
            low,
            high,
        } => {
            if depth == 0 {
                return Ok(None);
            }
            let Some(low) = lift_from(alloc, reduction, low.get(), depth - 1)? else {
                return Ok(None);
            };
            let low = Boxed::new(alloc, low)?;
            let Some(high) = lift_from(alloc, reduction, high.get(), depth - 1)? else {
                return Ok(None);
            };
            Ok(Some(Tree::Split {
                unknown: *unknown,
                at: *at,
                low,
                high: Boxed::new(alloc, high)?,
            }))
        }
        Tree::Farkas { multipliers } => lift_farkas(alloc, reduction, multipliers.as_slice()),
        Tree::Divisor {
            multipliers,
            divisor,
        } => lift_divisor(alloc, reduction, multipliers.as_slice(), *divisor),
        Tree::SetSplit { .. } => Ok(None),
        Tree::Open => Ok(None),
    }
}

fn lift_farkas(
    alloc: Global,
    reduction: Reduction,
    multipliers: &[(u32, i128)],
) -> Result<Option<Tree>, AllocError> {
    match lift_multipliers(alloc, reduction, multipliers, None)? {
        None => Ok(None),
        Some(multipliers) => Ok(Some(Tree::Farkas { multipliers })),
    }
}

fn lift_divisor(
    alloc: Global,
    reduction: Reduction,
    multipliers: &[(u32, i128)],
    divisor: i128,
) -> Result<Option<Tree>, AllocError> {
    match lift_multipliers(alloc, reduction, multipliers, Some(divisor))? {
        None => Ok(None),
        Some(multipliers) => Ok(Some(Tree::Divisor {
            multipliers,
            divisor,
        })),
    }
}

/// The multipliers of a leaf over the rows of the whole system, and then over those of the branches above it, or
/// `None` where a number leaves 128 bits.
pub(crate) fn lift_multipliers(
    alloc: Global,
    reduction: Reduction,
    multipliers: &[(u32, i128)],
    divisor: Option<i128>,
) -> Result<Option<Items<(u32, i128)>>, AllocError> {
    let mut taken = Taken::new(alloc, reduction.system, reduction.elimination, divisor)?;
    let mut branches = Items::new(alloc);
    if !take_each(reduction, multipliers, &mut taken, &mut branches)? {
        return Ok(None);
    }
    taken.multipliers(alloc, reduction.elimination, branches)
}

/// Takes each row of the reduced system so often, and each branch behind them; false where a number leaves 128 bits, or
/// a branch's number 32.
fn take_each(
    reduction: Reduction,
    multipliers: &[(u32, i128)],
    taken: &mut Taken,
    branches: &mut Items<(u32, i128)>,
) -> Result<bool, AllocError> {
    for (at, times) in multipliers {
        let is_taken = match reduction.reduced.sums.get(*at as usize) {
            Some(sum) => taken.add(sum, *times),
            None => push_branch(branches, reduction, *at, *times)?,
        };
        if !is_taken {
            return Ok(false);
        }
    }
    Ok(true)
}

/// Adds a branch of the reduced system that is taken so often; false where its number leaves 32 bits.
pub(crate) fn push_branch(
    branches: &mut Items<(u32, i128)>,
    reduction: Reduction,
    at: u32,
    times: i128,
) -> Result<bool, AllocError> {
    let Some(place) = branch_place(reduction, at) else {
        return Ok(false);
    };
    branches.push((place, times))?;
    Ok(true)
}

/// The number of a branch's row behind the rows of the whole system.
fn branch_place(reduction: Reduction, at: u32) -> Option<u32> {
    let branch = (at as usize).checked_sub(reduction.reduced.sums.len())?;
    let place = branch.checked_add(reduction.system.rows.len())?;
    if place <= u32::MAX as usize {
        Some(place as u32)
    } else {
        None
    }
}
