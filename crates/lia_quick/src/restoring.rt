ghost use Rattle.std.specs.Prelude.{IfOk, IfSome};
ghost use Rattle.sv_linear.specs.Rows.{NameUnknowns};
ghost use Rattle.farkas_check.specs.Fitting.{IsAccepted};
ghost use Rattle.lia_quick.specs.Finds.{IsQuickAnswer};

use crate::accepting::accepts;
use crate::bound_search::{BoundsEnding, search};
use farkas_check::{System, Tree};
use lia_reduce::{Elimination, Reduced, Reduction, lift, restore_point};
use std::alloc::{AllocError, Global};
use sv_list::Items;

/// What a quick way finds of a system.
#[derive(Drop)]
pub enum QuickAnswer {
    /// A value for each unknown, which meet the rows.
    Point(Items<i128>),
    /// A tree that closes the system.
    Closed(Tree),
}

/// The tree of a reduced system as one of the whole system, where that closes it. Each leaf costs the rows and unknowns
/// of the whole, and the terms of the rows that it names.
pub fn restore_tree(
    alloc: Global,
    system: &System,
    elimination: &Elimination,
    reduced: &Reduced,
    tree: &Tree,
) -> Result<Option<Tree>, AllocError>
    requires { NameUnknowns system.now.unknowns system.now.rows }
    ensures { IfOk result (λ o. IfSome o (IsAccepted system.now)) }
{
    let reduction = Reduction {
        system,
        elimination,
        reduced,
    };
    match lift(alloc, reduction, tree)? {
        None => Ok(None),
        Some(tree) => accept(alloc, system, tree),
    }
}

/// The tree, where it closes the system.
fn accept(alloc: Global, system: &System, tree: Tree) -> Result<Option<Tree>, AllocError>
    requires { NameUnknowns system.now.unknowns system.now.rows }
    ensures { IfOk result (λ o. IfSome o (IsAccepted system.now)) }
{
    if accepts(alloc, system, &tree)? {
        Ok(Some(tree))
    } else {
        Ok(None)
    }
}

/// Solves or closes a system by the bounds that the rows of its reduced system give one another.
///
/// A bound that isn't a whole number is rounded behind a split whose other side is closed at once; where no row
/// narrows a range further, the narrowest range is cut in the middle, those of unknowns that equations hold first.
/// `None` behind 4,000 splits, where a number leaves 128 bits, or where 2^21 terms have been looked at and multipliers
/// written down.
pub fn solve_by_bounds(
    alloc: Global,
    system: &System,
    elimination: &Elimination,
    reduced: &Reduced,
) -> Result<Option<QuickAnswer>, AllocError>
    requires { NameUnknowns system.now.unknowns system.now.rows }
    ensures { IfOk result (λ o. IfSome o (IsQuickAnswer system.now)) }
{
    let reduction = Reduction {
        system,
        elimination,
        reduced,
    };
    match search(alloc, reduction)? {
        None => Ok(None),
        Some(BoundsEnding::Point(point)) => match restore_point(system, elimination, point) {
            None => Ok(None),
            Some(point) => Ok(Some(QuickAnswer::Point(point))),
        },
        Some(BoundsEnding::Closed(tree)) => match accept(alloc, system, tree)? {
            None => Ok(None),
            Some(tree) => Ok(Some(QuickAnswer::Closed(tree))),
        },
    }
}
