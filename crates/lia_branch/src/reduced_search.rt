ghost use Rattle.std.specs.Prelude.{◌≡◌, [], IfOk, IfSome};
ghost use Rattle.farkas_check.specs.declared.system.System.{System as AnySystem};
ghost use Rattle.lia_branch.specs.Outcomes.{IfSolution, IfClosed, IsSearchable, IsFound};
ghost use Rattle.lia_reduce.specs.Points.{IsPointOf};
ghost use Rattle.sv_linear.specs.Rows.{NameUnknowns};

use crate::no_cut::NoCut;
use crate::outcome::Outcome;
use crate::searching::search_tree;
use farkas_check::{Cutter, System, Tree};
use lia_quick::{QuickAnswer, restore_tree, solve_by_bounds};
use lia_reduce::{Elimination, Reduced, reduce, restore_point};
use std::alloc::{AllocError, Global};
use sv_list::Items;

/// Solves the system by what is left of it once owned unknowns are put out, where that works: by the bounds of its
/// unknowns, and then by the tree of what is left.
///
/// A solution of what is left gives the owned unknowns their values, and is tested on each row and net of the
/// system; a tree of it is lifted, and tested as the checker does. `None` where a test fails, where a number leaves
/// 128 bits, or where what is left was given up.
pub(crate) fn solve_reduced<C: Cutter>(
    alloc: Global,
    system: &System,
    cutter: &C,
    elimination: &Elimination,
) -> Result<Option<Outcome>, AllocError>
    requires searchable { IsSearchable system.now }
    requires cutter { C.nets cutter.now ≡ system.now.nets }
    ensures { IfOk result (λ o. IfSome o (IsFound system.now)) }
{
    let Some(reduced) = reduce(alloc, system, elimination)? else {
        return Ok(None);
    };
    solve_left(alloc, system, cutter, elimination, &reduced)
}

/// Solves the system by what is left of it: by the bounds of its unknowns, and then by its tree.
fn solve_left<C: Cutter>(
    alloc: Global,
    system: &System,
    cutter: &C,
    elimination: &Elimination,
    reduced: &Reduced,
) -> Result<Option<Outcome>, AllocError>
    requires searchable { IsSearchable system.now }
    requires cutter { C.nets cutter.now ≡ system.now.nets }
    requires left { IsSearchable reduced.now.system }
    requires no_nets { reduced.now.system.nets ≡ [] }
    ensures { IfOk result (λ o. IfSome o (IsFound system.now)) }
{
    match solve_by_bounds(alloc, system, elimination, reduced)? {
        Some(QuickAnswer::Point(point)) => joining_point(alloc, cutter, point),
        Some(QuickAnswer::Closed(tree)) => Ok(Some(Outcome::Closed(tree))),
        None => search_left(alloc, system, cutter, elimination, reduced),
    }
}

/// Solves the system by the tree of what is left of it, where that isn't the system itself.
fn search_left<C: Cutter>(
    alloc: Global,
    system: &System,
    cutter: &C,
    elimination: &Elimination,
    reduced: &Reduced,
) -> Result<Option<Outcome>, AllocError>
    requires searchable { IsSearchable system.now }
    requires cutter { C.nets cutter.now ≡ system.now.nets }
    requires left { IsSearchable reduced.now.system }
    requires no_nets { reduced.now.system.nets ≡ [] }
    ensures { IfOk result (λ o. IfSome o (IsFound system.now)) }
{
    if elimination.is_idle() {
        return Ok(None);
    }
    match search_tree(alloc, &reduced.system, &NoCut)? {
        Outcome::Solution(point) => match restore_point(system, elimination, point) {
            Some(point) => joining_point(alloc, cutter, point),
            None => Ok(None),
        },
        Outcome::Closed(tree) => lifted_tree(alloc, system, elimination, reduced, &tree),
        Outcome::GaveUp(_) => Ok(None),
    }
}

/// The tree of what is left, lifted, where it closes the system.
fn lifted_tree(
    alloc: Global,
    system: &System,
    elimination: &Elimination,
    reduced: &Reduced,
    tree: &Tree,
) -> Result<Option<Outcome>, AllocError>
    requires { NameUnknowns system.now.unknowns system.now.rows }
    ensures found { IfOk result (λ o. IfSome o (IsFound system.now)) }
    ensures no_point { IfOk result (λ o. IfSome o (λ a. IfSolution a (λ _. ⊥))) }
{
    match restore_tree(alloc, system, elimination, reduced, tree)? {
        Some(tree) => Ok(Some(Outcome::Closed(tree))),
        None => Ok(None),
    }
}

/// The point, where it joins the nets.
fn joining_point<C: Cutter>(
    alloc: Global,
    cutter: &C,
    point: Items<i128>,
) -> Result<Option<Outcome>, AllocError>
    requires { (s : AnySystem) × IsSearchable s × (C.nets cutter.now ≡ s.nets) × IsPointOf s point }
    ensures found { (s : AnySystem) → IsSearchable s → C.nets cutter.now ≡ s.nets → IsPointOf s point → IfOk result (λ o. IfSome o (IsFound s)) }
    ensures no_tree { IfOk result (λ o. IfSome o (λ a. IfClosed a (λ _. ⊥))) }
{
    match cutter.cut(alloc, point.as_slice())? {
        None => Ok(Some(Outcome::Solution(point))),
        Some(_) => Ok(None),
    }
}
