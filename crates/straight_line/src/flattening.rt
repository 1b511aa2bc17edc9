//! The flat cube of a cube.
ghost use Rattle.std.specs.Prelude.{◌<◌, ◌^◌, length, IfOk};
ghost use Rattle.std.specs.List.{AllByRecursion};
ghost use Rattle.literal_forms.specs.Past.{IsFitting};
ghost use Rattle.flat_cubes.specs.Flattening.{IsFlattened};

use crate::finishing::finish;
use cube_draft::scan;
use flat_cubes::{Flat, FlatFault};
use literal_forms::Cube;
use std::alloc::Global;

/// The flat cube of a cube, or the first thing in this order for which it isn't straight: a literal of no written kind, a
/// variable with two definitions, a cycle of definitions, too many registers or integer constants. Time is linear in the
/// cube up to a logarithm, times the depth to which replacements nest in it, but for the forms of comparisons, which are
/// added up from the left.
#[tactic(auto, using(crate::proofs::Flattened::ready, crate::proofs::Flattened::scan_refused))]
pub fn flatten(alloc: Global, cube: &Cube) -> Result<Flat, FlatFault>
    requires { AllByRecursion IsFitting cube.now.literals }
    ensures flat { IsFlattened cube.now.literals result }
    ensures few { IfOk result (λ flat. length flat.variables < 2 ^ 32) }
{
    let draft = scan(alloc, cube)?;
    finish(alloc, draft)
}
