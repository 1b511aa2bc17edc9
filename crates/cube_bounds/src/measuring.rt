ghost use Rattle.std.specs.Prelude.{IfOk};
ghost use Rattle.cube_bounds.specs.Measuring.{AreNumbersOf};
ghost use Rattle.flat_cubes.specs.Straight.{IsStraight};

use crate::boxing::{all_points, all_sides};
use crate::counting::{all_states, most};
use crate::growing::{all_growths, reach_of};
use crate::measures::Numbers;
use crate::smallness::is_small;
use crate::splitting::{all_sources, all_splits};
use flat_cubes::Flat;
use std::alloc::{AllocError, Global};

/// The numbers of a flat cube: how many states its machines have at most, how long its words may become,
/// and the box that its rows make.
///
/// Three passes: over the parts and the definitions from the last one back, over the definitions from the
/// first one on, and over the rows. Memory for two numbers a variable and a side for each register and each
/// integer constant.
pub fn numbers(alloc: Global, flat: &Flat) -> Result<Numbers, AllocError>
    requires { IsStraight flat.now }
    ensures { IfOk result (AreNumbersOf flat.now) }
{
    let machines = all_states(alloc, flat)?;
    let growths = all_growths(alloc, flat)?;
    let sides = all_sides(alloc, flat)?;
    let states = most(machines.as_slice());
    let splits = all_splits(machines.as_slice(), flat.definitions.as_slice());
    let sources = all_sources(flat);
    let growth = most(growths.as_slice());
    let reach = reach_of(growth);
    let points = all_points(sides.as_slice());
    let small = is_small(flat, states, sources, reach, points, sides.as_slice());
    Ok(Numbers {
        states,
        splits,
        growth,
        reach,
        points,
        sources,
        small,
        sides,
    })
}
