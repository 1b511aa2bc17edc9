//! Whether a system of rows has no solution.
ghost use Rattle.std.specs.Prelude.{◌≡◌, true, IfOk};
ghost use Rattle.sv_linear.specs.Rows.{NameUnknowns};
ghost use Rattle.farkas_check.specs.Systems.{HasNoSolution};

use farkas_check::{System, closes};
use lia_quick::{QuickAnswer, solve_by_bounds};
use lia_reduce::{Elimination, reduce};
use std::alloc::{AllocError, Global};

/// Whether no whole numbers solve the system, as far as its bounds tell.
pub fn has_no_solution(alloc: Global, system: &System) -> Result<bool, AllocError>
    requires { NameUnknowns system.now.unknowns system.now.rows }
    ensures { IfOk result (λ found. found ≡ true → HasNoSolution system.now) }
{
    let Some(elimination) = Elimination::of(alloc, system)? else {
        return Ok(false);
    };
    let Some(reduced) = reduce(alloc, system, &elimination)? else {
        return Ok(false);
    };
    match solve_by_bounds(alloc, system, &elimination, &reduced)? {
        Some(QuickAnswer::Closed(tree)) => {
            let closed = closes(system, &tree);
            Ok(closed)
        }
        Some(QuickAnswer::Point(_)) => Ok(false),
        None => Ok(false),
    }
}
