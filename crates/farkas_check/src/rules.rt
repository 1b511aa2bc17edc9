ghost use Rattle.std.specs.Prelude.{IsTrue, ◌↔◌};
ghost use Rattle.farkas_check.specs.Leaves.{leaf_rows};
ghost use Rattle.farkas_check.specs.Closings.{FarkasRule, DivisorRule};
ghost use Rattle.farkas_check.specs.Fitting.{LeafFits};

use crate::leaf::{Leaf, OF_ZERO_ALONE, is_multiple};
use sv_linear::Column;

/// The least number that the coefficients of a sum may be divided by.
pub(crate) const LEAST_DIVISOR: i128 = 2;

/// Whether the multiplied rows add up to a constant above 0.
pub fn is_farkas(leaf: &Leaf) -> bool
    ensures { IsTrue result ↔ (FarkasRule (leaf_rows leaf.now) leaf.now.multipliers.now × LeafFits (leaf_rows leaf.now) leaf.now.multipliers.now) }
{
    if !leaf.is_allowed() {
        return false;
    }
    if !leaf.are_multiples(OF_ZERO_ALONE) {
        return false;
    }
    match leaf.sum(Column::Constant) {
        Some(constant) => 0 < constant,
        None => false,
    }
}

/// Whether the divisor divides each coefficient of the sum of the multiplied rows, and not its constant.
pub fn is_divisor(leaf: &Leaf, divisor: i128) -> bool
    ensures { IsTrue result ↔ (DivisorRule (leaf_rows leaf.now) leaf.now.multipliers.now divisor × LeafFits (leaf_rows leaf.now) leaf.now.multipliers.now) }
{
    if divisor < LEAST_DIVISOR {
        return false;
    }
    if !leaf.has_equations() {
        return false;
    }
    if !leaf.are_multiples(divisor) {
        return false;
    }
    match leaf.sum(Column::Constant) {
        Some(constant) => !is_multiple(constant, divisor),
        None => false,
    }
}
