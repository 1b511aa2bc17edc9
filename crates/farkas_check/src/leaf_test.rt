ghost use Rattle.std.specs.Prelude.{◌≡◌, ℕ, IsTrue, ◌↔◌, map, get_or, IfOk, pos, ◌≤ℤ◌, ◌<ℤ◌};
ghost use Rattle.sv_linear.specs.Divisors.{Divides};
ghost use Rattle.sv_linear.specs.Rows.{NameUnknowns};
ghost use Rattle.farkas_check.specs.Systems.{constraint_of};
ghost use Rattle.farkas_check.specs.Closings.{Allowed, OfEquations, FarkasRule, DivisorRule};
ghost use Rattle.farkas_check.specs.LeafTests.{LeafTold};

use crate::above::Above;
use crate::leaf::{Leaf, is_multiple};
use crate::leaf_sum::{LeafSum, past_column, sum_of};
use crate::rules::LEAST_DIVISOR;
use std::alloc::{AllocError, Global};
use sv_linear::{Column, Row};

/// What multipliers show of some rows.
#[derive(Clone, Copy)]
pub enum LeafTest {
    /// The leaf closes the rows: its rule is met, and no sum leaves 128 bits.
    Closes,
    /// The rule isn't met.
    Fails,
    /// A sum leaves 128 bits at this column, the first such: unknowns ascending, and then the constant.
    Past(Column),
}

/// Tests a Farkas leaf over these rows, which name unknowns below `unknowns` alone.
///
/// Linear in the unknowns and in the terms of the rows that are named; only where a sum leaves 128 bits also a look at
/// each row for each unknown. As `closes`, for a leaf of these rows.
pub fn test_farkas(
    alloc: Global,
    unknowns: u32,
    rows: &[Row],
    multipliers: &[(u32, i128)],
) -> Result<LeafTest, AllocError>
    requires { NameUnknowns unknowns rows.now }
    ensures { IfOk result (LeafTold (FarkasRule (map constraint_of rows.now) multipliers.now) (map constraint_of rows.now) multipliers.now) }
{
    if !is_allowed(rows, multipliers) {
        return Ok(LeafTest::Fails);
    }
    match sum_of(alloc, unknowns, rows, multipliers)? {
        None => Ok(LeafTest::Past(past_column(rows, multipliers, unknowns))),
        Some(sum) => {
            if is_above_zero(&sum) {
                Ok(LeafTest::Closes)
            } else {
                Ok(LeafTest::Fails)
            }
        }
    }
}

/// Tests a leaf by a divisor over these rows. As `test_farkas`.
pub fn test_divisor(
    alloc: Global,
    unknowns: u32,
    rows: &[Row],
    multipliers: &[(u32, i128)],
    divisor: i128,
) -> Result<LeafTest, AllocError>
    requires { NameUnknowns unknowns rows.now }
    ensures { IfOk result (LeafTold (DivisorRule (map constraint_of rows.now) multipliers.now divisor) (map constraint_of rows.now) multipliers.now) }
{
    if divisor < LEAST_DIVISOR || !has_equations(rows, multipliers) {
        return Ok(LeafTest::Fails);
    }
    match sum_of(alloc, unknowns, rows, multipliers)? {
        None => Ok(LeafTest::Past(past_column(rows, multipliers, unknowns))),
        Some(sum) => {
            if is_indivisible(&sum, divisor) {
                Ok(LeafTest::Closes)
            } else {
                Ok(LeafTest::Fails)
            }
        }
    }
}

fn is_allowed(rows: &[Row], multipliers: &[(u32, i128)]) -> bool
    ensures { IsTrue result ↔ Allowed 0 (map constraint_of rows.now) multipliers.now }
{
    let leaf = Leaf {
        rows,
        above: &Above::Top,
        multipliers,
    };
    leaf.is_allowed()
}

fn has_equations(rows: &[Row], multipliers: &[(u32, i128)]) -> bool
    ensures { IsTrue result ↔ OfEquations 0 (map constraint_of rows.now) multipliers.now }
{
    let leaf = Leaf {
        rows,
        above: &Above::Top,
        multipliers,
    };
    leaf.has_equations()
}

/// Whether the sum is 0 at each unknown, and its constant above 0.
fn is_above_zero(sum: &LeafSum) -> bool
    ensures { IsTrue result ↔ (((u : ℕ) → get_or sum.now.numbers u (pos 0) ≡ pos 0) × (pos 0 <ℤ sum.now.constant)) }
{
    0 < sum.constant && are_zero(sum.numbers.as_slice())
}

fn are_zero(numbers: &[i128]) -> bool
    ensures { IsTrue result ↔ ((u : ℕ) → get_or numbers.now u (pos 0) ≡ pos 0) }
{
    for number in numbers {
        if *number != 0 {
            return false;
        }
    }
    true
}

/// Whether the divisor divides the sum at each unknown, and not its constant.
fn is_indivisible(sum: &LeafSum, divisor: i128) -> bool
    requires { pos 0 ≤ℤ divisor }
    ensures { IsTrue result ↔ (((u : ℕ) → Divides divisor (get_or sum.now.numbers u (pos 0))) × (Divides divisor sum.now.constant → ⊥)) }
{
    are_multiples(sum.numbers.as_slice(), divisor) && !is_multiple(sum.constant, divisor)
}

fn are_multiples(numbers: &[i128], divisor: i128) -> bool
    requires { pos 0 ≤ℤ divisor }
    ensures { IsTrue result ↔ ((u : ℕ) → Divides divisor (get_or numbers.now u (pos 0))) }
{
    for number in numbers {
        if !is_multiple(*number, divisor) {
            return false;
        }
    }
    true
}
