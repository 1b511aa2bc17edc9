ghost use Rattle.std.specs.Prelude.{◌≡◌, ◌≢◌, ℕ, pos, ◌<◌, ◌≤◌, ◌↔◌, IsTrue, MatchOption};
ghost use Rattle.lia_tableau.specs.Quantities.{bound_of, bound_of_kind};
ghost use Rattle.lia_tableau.specs.Shown.{HoldsEquationsAlone, IsUnknownsDivisor, ShowsDivisor, Breaks, CanMend, Mends, HaveOppositeSigns};
ghost use Rattle.sv_linear.specs.Rows.{HasSymmetricEntries};

use crate::bound::QuantityBound;
use sv_linear::{Form, Row, RowKind, gcd};

/// The least common divisor that shows anything.
const LEAST_DIVISOR: i128 = 2;

/// The bound of a quantity, where the first ones are unknowns.
pub(crate) fn bound_at(unknowns: u32, rows: &[Row], quantity: u32) -> QuantityBound
    ensures { result ≡ bound_of unknowns rows.now quantity }
{
    if quantity < unknowns {
        return QuantityBound::Free;
    }
    match rows.get((quantity - unknowns) as usize) {
        Some(row) => slack_bound(row.kind),
        None => QuantityBound::Fixed,
    }
}

fn slack_bound(kind: RowKind) -> QuantityBound
    ensures { result ≡ bound_of_kind kind }
{
    match kind {
        RowKind::Le => QuantityBound::NotNegative,
        RowKind::Eq => QuantityBound::Fixed,
    }
}

/// Whether a quantity of the basis with this bound breaks it.
pub(crate) fn is_broken(bound: QuantityBound, form: &Form) -> bool
    ensures { IsTrue result ↔ Breaks bound form.now }
{
    match bound {
        QuantityBound::Free => false,
        QuantityBound::NotNegative => 0 < form.constant,
        QuantityBound::Fixed => form.constant != 0,
    }
}

/// Whether a quantity outside with this bound, held so many times, can mend a break with this constant.
fn can_mend(bound: QuantityBound, coefficient: i128, constant: i128) -> bool
    ensures { IsTrue result ↔ CanMend bound coefficient constant }
{
    match bound {
        QuantityBound::Free => coefficient != 0,
        QuantityBound::NotNegative => are_opposite(coefficient, constant),
        QuantityBound::Fixed => false,
    }
}

fn are_opposite(a: i128, b: i128) -> bool
    ensures { IsTrue result ↔ HaveOppositeSigns a b }
{
    if a < 0 { 0 < b } else { 0 < a && b < 0 }
}

/// The least quantity but its own that a line holds and that can mend the break of its own.
pub(crate) fn least_mender(unknowns: u32, rows: &[Row], own: u32, form: &Form) -> Option<u32>
    ensures { MatchOption result ((p : ℕ) → p ≢ own → Mends unknowns rows.now form.now p → ⊥) (λ at. (at ≢ own) × (Mends unknowns rows.now form.now at × ((p : ℕ) → p ≢ own → Mends unknowns rows.now form.now p → at ≤ p))) }
{
    for (quantity, coefficient) in form.coefficients.as_slice() {
        if *quantity != own
            && can_mend(
                bound_at(unknowns, rows, *quantity),
                *coefficient,
                form.constant,
            )
        {
            return Some(*quantity);
        }
    }
    None
}

/// Whether the row holds slacks of equations alone.
fn holds_equations_alone(unknowns: u32, rows: &[Row], form: &Form) -> bool
    ensures { IsTrue result ↔ HoldsEquationsAlone unknowns rows.now form.now }
{
    for (quantity, _) in form.coefficients.as_slice() {
        if matches!(
            bound_at(unknowns, rows, *quantity),
            QuantityBound::NotNegative
        ) {
            return false;
        }
    }
    true
}

/// The greatest common divisor of the unknowns' coefficients in a row of a tableau, 0 where it holds none.
/// Linear in the terms; takes no memory.
pub fn unknowns_divisor(unknowns: u32, form: &Form) -> i128
    requires { HasSymmetricEntries form.now }
    ensures { (g : ℕ) × ((result ≡ pos g) × IsUnknownsDivisor unknowns form.now g) }
{
    let mut divisor = 0;
    for (quantity, coefficient) in form.coefficients.as_slice() {
        if *quantity < unknowns {
            divisor = gcd(divisor, *coefficient) as i128;
        }
    }
    divisor
}

/// Whether the row shows that no whole numbers meet the rows.
pub(crate) fn shows_divisor(unknowns: u32, rows: &[Row], form: &Form) -> bool
    requires { HasSymmetricEntries form.now }
    ensures { IsTrue result ↔ ShowsDivisor unknowns rows.now form.now }
{
    if !holds_equations_alone(unknowns, rows, form) {
        return false;
    }
    let divisor = unknowns_divisor(unknowns, form);
    if divisor < LEAST_DIVISOR {
        return false;
    }
    form.constant % divisor != 0
}
