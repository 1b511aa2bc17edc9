//! Cubes whose parts have nothing to do with one another: where one part is refuted, the cube is.
ghost use Rattle.std.specs.Prelude.{◌≡◌, ◌<◌, ◌^◌, ◌⊎◌, ℕ, [], true, false, length, Err, IfOk};
ghost use Rattle.trim_search.specs.declared.build_fault.BuildFault.TheVariants.{States};
ghost use Rattle.cube_bounds.specs.Bounds.{states};
ghost use Rattle.flat_cubes.specs.Straight.{AreNamesApart, HasFormed, IsStraight};
ghost use Rattle.cube_search.specs.Answerable.{IsAnswerable};
ghost use Rattle.cube_search.specs.Limits.{GrowsLittle, MustDecideFlat};
ghost use Rattle.cube_search.specs.Answers.{IsCubeAnswer, IsDecidedCube};
ghost use Rattle.cube_search.specs.Causes.{EachSolution};
ghost use Rattle.cube_search.specs.Allowances.{is_bounded};
ghost use Rattle.cube_search.specs.Parts.{IsPartCube};

use crate::allowance::Allowance;
use crate::answer::CubeAnswer;
use crate::answering::{answer_by_search, empty_refutation};
use crate::limits::{PastLimit, past_limit};
use crate::part_copy::part_of;
use crate::parts::Parts;
use cube_bounds::{Numbers, numbers};
use flat_cubes::Flat;
use part_machines::{MOST_STATES, Machines};
use std::alloc::{AllocError, Global};
use trim_search::BuildFault;

/// The answer by all leaves. Where the cube comes apart it is searched with a small effort first; where that isn't enough,
/// each part is searched, and one that is refuted refutes the cube; else the whole search goes on.
///
/// `States` comes where the search takes more than is allowed, or the text allows a machine more states than one may have.
pub fn answer_apart(
    alloc: Global,
    flat: &Flat,
    numbers: &Numbers,
    kept: &Machines,
    allowance: Allowance,
) -> Result<CubeAnswer, BuildFault>
    requires answerable { IsAnswerable flat.now numbers.now }
    requires whole { flat.now.broken ≡ false }
    requires little { GrowsLittle flat.now }
    ensures right { IfOk result (IsCubeAnswer flat.now) }
    ensures decided { MustDecideFlat flat.now → IfOk result IsDecidedCube }
    ensures refused { (n : ℕ) → result ≡ Err (States n) → (is_bounded allowance ≡ true) ⊎ (MOST_STATES < states flat.now) }
{
    let parts = Parts::of(alloc, flat)?;
    let roots = parts.roots(alloc)?;
    if roots.is_empty() {
        return answer_by_search(alloc, flat, numbers, kept, allowance);
    }
    match answer_by_search(alloc, flat, numbers, kept, Allowance::first()) {
        Ok(answer) => return Ok(answer),
        Err(BuildFault::Memory(e)) => return Err(BuildFault::Memory(e)),
        Err(BuildFault::States(_)) => {}
    }
    if is_part_refuted(alloc, flat, kept, &parts, roots.as_slice())? {
        return Ok(CubeAnswer::Unsat(empty_refutation()));
    }
    answer_by_search(alloc, flat, numbers, kept, allowance)
}

// Whether the search of one of these parts refutes it.
fn is_part_refuted(
    alloc: Global,
    flat: &Flat,
    kept: &Machines,
    parts: &Parts,
    roots: &[usize],
) -> Result<bool, AllocError>
    requires cube { IsPartCube flat.now }
    ensures { IfOk result (λ b. b ≡ true → EachSolution flat.now (λ ws ints. ⊥)) }
{
    let allowance = Allowance::of_part(roots.len());
    for i in 0..roots.len() {
        let marks = parts.marks(alloc, roots[i])?;
        let part = part_of(alloc, flat, marks.as_slice())?;
        if is_refuted(alloc, &part, kept, allowance)? {
            return Ok(true);
        }
    }
    Ok(false)
}

// Whether a search of so much refutes the cube.
fn is_refuted(
    alloc: Global,
    flat: &Flat,
    kept: &Machines,
    allowance: Allowance,
) -> Result<bool, AllocError>
    requires cube { IsPartCube flat.now }
    requires bare { flat.now.rows ≡ [] → flat.now.registers ≡ [] }
    ensures { IfOk result (λ b. b ≡ true → EachSolution flat.now (λ ws ints. ⊥)) }
{
    let numbers = numbers(alloc, flat)?;
    if let Some(PastLimit::Growth(_)) = past_limit(flat, &numbers) {
        return Ok(false);
    }
    match answer_by_search(alloc, flat, &numbers, kept, allowance) {
        Ok(CubeAnswer::Unsat(_)) => Ok(true),
        Ok(_) => Ok(false),
        Err(BuildFault::Memory(e)) => Err(e),
        Err(BuildFault::States(_)) => Ok(false),
    }
}
