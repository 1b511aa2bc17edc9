ghost use Rattle.std.specs.Prelude.{◌≡◌, pos, ◌<ℤ◌, IfOk};
ghost use Rattle.lia_branch.specs.LeafMultipliers.{slack_multipliers, slack_remainders, sign_of};
ghost use Rattle.sv_linear.specs.Rows.{HasSymmetricEntries};

use std::alloc::{AllocError, Global};
use sv_linear::Form;
use sv_list::Items;

/// The multipliers by which the rows give a line: a pair of a row's number and how often its slack stands
/// in the line, each negated where `negated`.
pub(crate) fn multipliers_of(
    alloc: Global,
    unknowns: u32,
    line: &Form,
    negated: bool,
) -> Result<Items<(u32, i128)>, AllocError>
    requires { HasSymmetricEntries line.now }
    ensures { IfOk result (λ ms. ms ≡ slack_multipliers unknowns (sign_of negated) line.now.coefficients) }
{
    let mut multipliers = Items::new(alloc);
    for (quantity, coefficient) in line.coefficients.as_slice() {
        if *quantity >= unknowns {
            let by = if negated { -*coefficient } else { *coefficient };
            multipliers.push((*quantity - unknowns, by))?;
        }
    }
    Ok(multipliers)
}

/// The multipliers by which the rows give a line up to multiples of a divisor: each is the remainder of how
/// often the row's slack stands in the line.
pub(crate) fn remainders_of(
    alloc: Global,
    unknowns: u32,
    line: &Form,
    divisor: i128,
) -> Result<Items<(u32, i128)>, AllocError>
    requires symmetric { HasSymmetricEntries line.now }
    requires positive { pos 0 <ℤ divisor }
    ensures { IfOk result (λ ms. ms ≡ slack_remainders unknowns divisor line.now.coefficients) }
{
    let mut multipliers = Items::new(alloc);
    for (quantity, coefficient) in line.coefficients.as_slice() {
        if *quantity >= unknowns {
            multipliers.push((*quantity - unknowns, coefficient.rem_euclid(divisor)))?;
        }
    }
    Ok(multipliers)
}
