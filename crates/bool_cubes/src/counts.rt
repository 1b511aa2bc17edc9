//! How many cubes assertions have.
ghost use Rattle.std.specs.Prelude.{◌≡◌, IfOk};
ghost use Rattle.std.specs.List.{AllByRecursion};
ghost use Rattle.bool_cubes.specs.Laws.{IsClearBool};
ghost use Rattle.bool_cubes.specs.Refusing.{count_of};
ghost use Rattle.sv_terms.specs.CutOff.{cut_off};

use crate::plan::Plan;
use crate::planning::all_sides;
use std::alloc::{AllocError, Global};
use sv_terms::Term;

/// The number of cubes of assertions, 2^64 - 1 where they are more. Takes the time and memory of `Cubes::new`, but for
/// the forms, which aren't made.
#[tactic(auto, using(crate::proofs::Gathered::counted))]
pub fn count(alloc: Global, terms: &[Term]) -> Result<u64, AllocError>
    requires { AllByRecursion IsClearBool terms.now }
    ensures { IfOk result (λ cubes. cubes ≡ cut_off (count_of terms.now)) }
{
    let mut plan = Plan::new(alloc);
    let sides = all_sides(&mut plan, alloc, terms)?;
    Ok(plan.count_at(sides.holding))
}
