ghost use Rattle.std.specs.Prelude.{◌≡◌, IfSome, IsTrue, All, pos};
ghost use Rattle.sv_linear.specs.Forms.{form_value};
ghost use Rattle.farkas_check.specs.Cuts.{values_of};
ghost use Rattle.farkas_check.specs.Systems.{Meets, constraint_of, rows_of};
ghost use Rattle.lia_reduce.specs.Points.{IsPointOf};

use crate::elimination::Elimination;
use farkas_check::System;
use sv_linear::{Form, Row, RowKind};
use sv_list::Items;

/// The point of a reduced system with the values of the owned unknowns, where it meets the rows of the whole system.
/// Linear in the rows' terms.
pub fn restore_point(
    system: &System,
    elimination: &Elimination,
    point: Items<i128>,
) -> Option<Items<i128>>
    ensures { IfSome result (IsPointOf system.now) }
{
    let mut point = point.into_vec();
    if !fill(&mut point, elimination) {
        return None;
    }
    if point.len() != system.unknowns as usize || !meets(system, &point) {
        return None;
    }
    Some(Items::from_vec(point))
}

/// Gives each owned unknown its value, the last sums first; false where a number leaves 128 bits.
fn fill(point: &mut Vec<i128>, elimination: &Elimination) -> bool {
    let sums = elimination.sums();
    for behind in 0..sums.len() {
        let at = sums.len() - 1 - behind;
        if let Some(owned) = elimination.find_owned(at) {
            let place = owned.unknown as usize;
            if place < point.len() {
                point[place] = 0;
                let Some(rest) = value_of(&sums[at].form, point) else {
                    return false;
                };
                let value = if owned.negative {
                    Some(rest)
                } else {
                    rest.checked_neg()
                };
                match value {
                    None => return false,
                    Some(value) => point[place] = value,
                }
            }
        }
    }
    true
}

/// The value of the form where each unknown has the value at its place, 0 behind them, if each partial sum fits.
fn value_of(form: &Form, point: &[i128]) -> Option<i128>
    ensures { IfSome result (λ z. z ≡ form_value (values_of point.now) (pos 1) form.now) }
{
    let mut sum = form.constant;
    for (unknown, coefficient) in form.coefficients.as_slice() {
        let product = coefficient.checked_mul(value_at(point, *unknown))?;
        sum = sum.checked_add(product)?;
    }
    Some(sum)
}

fn value_at(point: &[i128], unknown: u32) -> i128
    ensures { result ≡ values_of point.now unknown }
{
    match point.get(unknown as usize) {
        Some(value) => *value,
        None => 0,
    }
}

/// Whether the point meets each row of the system, with no sum past 128 bits.
fn meets(system: &System, point: &[i128]) -> bool
    ensures { IsTrue result → All (Meets (values_of point.now)) (rows_of system.now) }
{
    for row in system.rows.as_slice() {
        if !meets_row(row, point) {
            return false;
        }
    }
    true
}

fn meets_row(row: &Row, point: &[i128]) -> bool
    ensures { IsTrue result → Meets (values_of point.now) (constraint_of row.now) }
{
    match value_of(&row.form, point) {
        None => false,
        Some(value) => match row.kind {
            RowKind::Le => value <= 0,
            RowKind::Eq => value == 0,
        },
    }
}
