//! The region in which leaves are searched.
ghost use Rattle.std.specs.Prelude.{IfOk};
ghost use Rattle.cube_bounds.specs.Measuring.{AreNumbersOf};
ghost use Rattle.flat_cubes.specs.Straight.{IsStraight};
ghost use Rattle.cube_region.specs.Regions.{IsRegionFor};

use crate::boxes::box_of;
use crate::near::near_region;
use cube_bounds::Numbers;
use flat_cubes::Flat;
use search_hits::Region;
use std::alloc::{AllocError, Global};

/// The region in which leaves of a flat cube are searched: its box where that is small, and else the values
/// near 0, or none where their search is too much work or a row doesn't fit them.
///
/// Linear in the registers, the integer constants and the terms of the rows.
pub fn region_of(alloc: Global, flat: &Flat, numbers: &Numbers) -> Result<Region, AllocError>
    requires straight { IsStraight flat.now }
    requires numbers { AreNumbersOf flat.now numbers.now }
    ensures { IfOk result (IsRegionFor flat.now) }
{
    if numbers.small {
        return box_of(alloc, flat, numbers.sides.as_slice());
    }
    near_region(alloc, flat, numbers)
}
