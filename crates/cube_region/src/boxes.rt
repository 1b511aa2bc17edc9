//! The box of a flat cube, as a region.
ghost use Rattle.std.specs.Prelude.{◌≡◌, map, IfOk};
ghost use Rattle.cube_bounds.specs.Sides.{sides};
ghost use Rattle.cube_region.specs.Bounding.{box_of, integer_bounds, register_bounds};

use flat_cubes::Flat;
use search_hits::Region;
use std::alloc::{AllocError, Global};
use sv_list::Items;

// From 0 to the greatest total, which may be below 0.
fn register_bounds(side: &Option<(i128, i128)>) -> (u64, u64)
    ensures { result ≡ register_bounds side.now }
{
    match side {
        None => (1, 0),
        Some(bounds) => {
            if bounds.1 < 0 {
                (1, 0)
            } else {
                (0, bounds.1.unsigned_abs().min(u64::MAX as u128) as u64)
            }
        }
    }
}

fn integer_bounds(side: &Option<(i128, i128)>) -> (i128, i128)
    ensures { result ≡ integer_bounds side.now }
{
    match side {
        None => (1, 0),
        Some(bounds) => *bounds,
    }
}

fn all_register_bounds(
    alloc: Global,
    given: &[Option<(i128, i128)>],
) -> Result<Items<(u64, u64)>, AllocError>
    ensures { IfOk result (λ all. all ≡ map register_bounds given.now) }
{
    let mut all = Items::new(alloc);
    for side in given {
        all.push(register_bounds(side))?;
    }
    Ok(all)
}

fn all_integer_bounds(
    alloc: Global,
    given: &[Option<(i128, i128)>],
) -> Result<Items<(i128, i128)>, AllocError>
    ensures { IfOk result (λ all. all ≡ map integer_bounds given.now) }
{
    let mut all = Items::new(alloc);
    for side in given {
        all.push(integer_bounds(side))?;
    }
    Ok(all)
}

/// The box of these sides, which are those of the cube.
pub fn box_of(
    alloc: Global,
    flat: &Flat,
    box_sides: &[Option<(i128, i128)>],
) -> Result<Region, AllocError>
    requires { box_sides.now ≡ sides flat.now }
    ensures { IfOk result (λ region. region ≡ box_of flat.now) }
{
    let (of_registers, of_integers) = box_sides.split_at(flat.registers.len());
    Ok(Region {
        empty: false,
        registers: all_register_bounds(alloc, of_registers)?,
        integers: all_integer_bounds(alloc, of_integers)?,
    })
}
