//! Laws of the bounds.
ghost use Rattle.std.specs.Prelude.{◌≤◌, List, Bool};
ghost use Rattle.cube_bounds.specs.Bounds.{part_bound, product_by};
ghost use Rattle.flat_cubes.specs.declared.variable.Own.{Own as AnyOwn};
ghost use denote.Param.Send.{IsSend, IsSync};
ghost use Rattle.part_machines.specs.contracts.machines.Machines.{the_row as machines_row};

use crate::machines::Machines;

/// The bounds of parts, multiplied, are at least 1.
pub fn bounds_are_positive()
    ensures { (parts : List (AnyOwn × Bool)) → 1 ≤ product_by part_bound parts }
{}

fn crosses<T: Send + Sync>()
    ensures send { IsSend T.row }
    ensures sync { IsSync T.row }
{}

/// Machines may go to another thread, and threads may share them.
pub fn machines_cross()
    ensures send { IsSend machines_row }
    ensures sync { IsSync machines_row }
{
    crosses::<Machines>()
}
