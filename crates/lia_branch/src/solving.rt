ghost use Rattle.std.specs.Prelude.{◌≡◌, IfOk};
ghost use Rattle.lia_branch.specs.Outcomes.{IsSearchable, IsAnswer};

use crate::outcome::Outcome;
use crate::reduced_search::solve_reduced;
use crate::searching::search_tree;
use farkas_check::{Cutter, System};
use lia_reduce::{Elimination, close_by_divisor};
use std::alloc::{AllocError, Global};

/// Whole numbers that meet the system's rows and join its nets, a tree that closes it, or the evidence with
/// which it was given up.
///
/// The cutter is one for the system's nets. An equation that one pass of elimination shows to have no whole
/// numbers closes the system at once. Else what elimination leaves is solved, which is small where the equations
/// are those of chains; and where that doesn't do, the tree of the whole system is searched whose splits are due,
/// up to 2,000 of them.
pub fn solve<C: Cutter>(alloc: Global, system: &System, cutter: &C) -> Result<Outcome, AllocError>
    requires searchable { IsSearchable system.now }
    requires cutter { C.nets cutter.now ≡ system.now.nets }
    ensures { IfOk result (IsAnswer system.now) }
{
    let Some(elimination) = Elimination::of(alloc, system)? else {
        return search_tree(alloc, system, cutter);
    };
    solve_eliminated(alloc, system, cutter, &elimination)
}

/// As `solve`, with the system's elimination.
fn solve_eliminated<C: Cutter>(
    alloc: Global,
    system: &System,
    cutter: &C,
    elimination: &Elimination,
) -> Result<Outcome, AllocError>
    requires searchable { IsSearchable system.now }
    requires cutter { C.nets cutter.now ≡ system.now.nets }
    ensures { IfOk result (IsAnswer system.now) }
{
    if let Some(tree) = close_by_divisor(alloc, system, elimination)? {
        return Ok(Outcome::Closed(tree));
    }
    match solve_reduced(alloc, system, cutter, elimination)? {
        Some(outcome) => Ok(outcome),
        None => search_tree(alloc, system, cutter),
    }
}
