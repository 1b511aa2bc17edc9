ghost use Rattle.std.specs.List.{AllByRecursion};
ghost use Rattle.literal_forms.specs.Past.{IsFitting};
ghost use Rattle.cube_table.specs.Straightened.{IsStraightenedCube};

use cube_bounds::{Numbers, numbers};
use flat_cubes::{Flat, FlatFault};
use literal_forms::Cube;
use std::alloc::Global;
use straight_line::flatten;

/// A straight cube: its flat form, and the numbers of that.
#[derive(Drop)]
pub struct Straight {
    pub flat: Flat,
    pub numbers: Numbers,
}

/// The flat form of a cube and its numbers, or why it isn't straight.
pub fn straighten(alloc: Global, cube: &Cube) -> Result<Straight, FlatFault>
    requires { AllByRecursion IsFitting cube.now.literals }
    ensures { IsStraightenedCube cube.now.literals result }
{
    let flat = flatten(alloc, cube)?;
    match numbers(alloc, &flat) {
        Ok(numbers) => Ok(Straight { flat, numbers }),
        Err(error) => Err(FlatFault::Memory(error)),
    }
}
