//! What the literals of a cube say.
ghost use Rattle.std.specs.List.{AllByRecursion};
ghost use Rattle.literal_forms.specs.Past.{IsFitting};
ghost use Rattle.flat_cubes.specs.Drafted.{IsDraftOf};

use crate::literals::LiteralReading;
use crate::meeting::DraftBuilder;
use flat_cubes::{FlatDraft, FlatFault};
use literal_forms::Cube;
use std::alloc::Global;
use sv_list::Copied;

/// What the literals of a cube say, or the first of no written kind. Time is linear in the cube, times the depth to which
/// replacements nest in it, but for the forms of comparisons, which are added up from the left.
#[tactic(auto, using(crate::proofs::Scanned::scanned_first, crate::proofs::Scanned::scanned_step, crate::proofs::Scanned::scanned_outside, crate::proofs::Scanned::scanned_all, crate::proofs::Scanned::scanned_gathered, crate::proofs::Scanned::fitting_at))]
pub fn scan(alloc: Global, cube: &Cube) -> Result<FlatDraft, FlatFault>
    requires { AllByRecursion IsFitting cube.now.literals }
    ensures { IsDraftOf cube.now.literals result }
{
    let mut meeting = DraftBuilder::new(alloc);
    let literals = cube.literals.as_slice();
    for i in 0..literals.len() {
        match meeting.add(alloc, &literals[i])? {
            LiteralReading::Written => {}
            LiteralReading::Outside => return Err(FlatFault::Outside(literals[i].copy(alloc)?)),
        }
    }
    Ok(meeting.into_draft(alloc)?)
}
