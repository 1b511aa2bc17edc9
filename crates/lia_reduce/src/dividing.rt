ghost use Rattle.std.specs.Prelude.{◌<ℤ◌, pos, IfOk, IfSome};
ghost use Rattle.sv_linear.specs.Rows.{NameUnknowns};
ghost use Rattle.farkas_check.specs.Closings.{Closes};
ghost use Rattle.farkas_check.specs.Fitting.{SumsFit};

use crate::elimination::{Elimination, RowSum};
use crate::taken::Taken;
use farkas_check::{LeafTest, System, Tree, test_divisor};
use std::alloc::{AllocError, Global};
use sv_linear::{Form, gcd};
use sv_list::Items;

/// A tree of one leaf that closes the system by a divisor, where elimination shows one.
///
/// Each equation with the owned unknowns put out of it is looked at for a common divisor of its unknowns that
/// doesn't divide its constant. How often each row is taken is put together for the first such equation alone,
/// and tested as a leaf of the system. Linear in the equations' terms.
pub fn close_by_divisor(
    alloc: Global,
    system: &System,
    elimination: &Elimination,
) -> Result<Option<Tree>, AllocError>
    requires { NameUnknowns system.now.unknowns system.now.rows }
    ensures { IfOk result (λ o. IfSome o (λ t. Closes system.now t × SumsFit system.now t)) }
{
    for sum in elimination.sums() {
        if let Some(divisor) = divisor_of(&sum.form) {
            return leaf_of(alloc, system, elimination, sum, divisor);
        }
    }
    Ok(None)
}

/// The leaf of a sum whose constant the divisor doesn't divide.
fn leaf_of(
    alloc: Global,
    system: &System,
    elimination: &Elimination,
    sum: &RowSum,
    divisor: i128,
) -> Result<Option<Tree>, AllocError>
    requires names { NameUnknowns system.now.unknowns system.now.rows }
    requires divisor { pos 1 <ℤ divisor }
    ensures { IfOk result (λ o. IfSome o (λ t. Closes system.now t × SumsFit system.now t)) }
{
    let Some(multipliers) = multipliers_of(alloc, system, elimination, sum, divisor)? else {
        return Ok(None);
    };
    match test_divisor(
        alloc,
        system.unknowns,
        system.rows.as_slice(),
        multipliers.as_slice(),
        divisor,
    )? {
        LeafTest::Closes => Ok(Some(Tree::Divisor {
            multipliers,
            divisor,
        })),
        LeafTest::Fails => Ok(None),
        LeafTest::Past(_) => Ok(None),
    }
}

/// How often each row is taken for the sum, up to multiples of the divisor; `None` where a number leaves 128 bits.
fn multipliers_of(
    alloc: Global,
    system: &System,
    elimination: &Elimination,
    sum: &RowSum,
    divisor: i128,
) -> Result<Option<Items<(u32, i128)>>, AllocError> {
    let mut taken = Taken::new(alloc, system, elimination, Some(divisor))?;
    if !taken.add(sum, 1) {
        return Ok(None);
    }
    taken.multipliers(alloc, elimination, Items::new(alloc))
}

/// A number of at least 2 that divides each coefficient and not the constant.
fn divisor_of(form: &Form) -> Option<i128>
    ensures { IfSome result (λ d. pos 1 <ℤ d) }
{
    let mut common: i128 = 0;
    for (_, coefficient) in form.coefficients.as_slice() {
        common = to_signed(gcd(common, *coefficient))?;
    }
    let divisor = if common == 0 {
        to_signed(form.constant.unsigned_abs())?.checked_add(1)?
    } else {
        common
    };
    if divisor < 2 || form.constant.checked_rem(divisor) == Some(0) {
        return None;
    }
    Some(divisor)
}

fn to_signed(number: u128) -> Option<i128> {
    if number <= i128::MAX as u128 {
        Some(number as i128)
    } else {
        None
    }
}
