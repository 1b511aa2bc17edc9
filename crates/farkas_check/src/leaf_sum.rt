ghost use Rattle.std.specs.Prelude.{◌≡◌, ℕ, pos, ◌<◌, length, get_or, map, replicate, false, IsTrue, FitsSigned, IfOk, SomeIff, MatchOption};
ghost use Rattle.std.specs.Int.{w128};
ghost use Rattle.sv_linear.specs.Combining.{IsFirstOutside};
ghost use Rattle.sv_linear.specs.Forms.{entry};
ghost use Rattle.sv_linear.specs.Rows.{NameUnknowns};
ghost use Rattle.sv_linear.specs.Terms.{AscendsWithin};
ghost use Rattle.sv_linear.specs.declared.column.Column.{Column};
ghost use Rattle.farkas_check.specs.Systems.{no_constraint, constraint_of};
ghost use Rattle.farkas_check.specs.Closings.{combined, Allowed};
ghost use Rattle.farkas_check.specs.Columns.{part_at};
ghost use Rattle.farkas_check.specs.Fitting.{SumFits, LeafFits};
ghost use Rattle.farkas_check.specs.Sums.{total_at, IsSumOf, IsFormAdded, IsNotAdded, IsColumnAdded, IsNotAddedAt, AreColumnsAdded, AreNotAdded, NumbersFit};

use std::alloc::{AllocError, Global};
use sv_linear::{Column, Form, Row};
use sv_list::Items;

/// A number for each unknown, and one for the constant.
#[derive(Drop)]
pub(crate) struct LeafSum {
    pub numbers: Items<i128>,
    pub constant: i128,
}

/// Adds so many times each term to the number of its unknown; false where a product or a new number leaves 128 bits.
fn add_terms(numbers: &mut Items<i128>, terms: &[(u32, i128)], by: i128) -> bool
    requires ascends { AscendsWithin 0 (length numbers.old) terms.now }
    requires fits { NumbersFit numbers.old }
    ensures size { length numbers.new ≡ length numbers.old }
    ensures added { IsTrue result → AreColumnsAdded numbers.old terms.now by numbers.new }
    ensures past { result ≡ false → AreNotAdded numbers.old terms.now by }
{
    for (unknown, coefficient) in terms {
        let at = *unknown as usize;
        let number = numbers.as_slice()[at];
        match plus_times(number, by, *coefficient) {
            None => return false,
            Some(next) => numbers.set(at, next),
        }
    }
    true
}

/// The sum of a number and a product, where both fit.
fn plus_times(number: i128, by: i128, coefficient: i128) -> Option<i128>
    ensures { MatchOption result (IsNotAddedAt number coefficient by) (IsColumnAdded number coefficient by) }
{
    number.checked_add(by.checked_mul(coefficient)?)
}

/// Adds so many times the form; false where at some column the product or the new sum leaves 128 bits.
fn add_multiple(sum: &mut LeafSum, form: &Form, by: i128) -> bool
    requires ascends { AscendsWithin 0 (length sum.old.numbers) form.now.coefficients }
    requires fits { (c : Column) → FitsSigned w128 (total_at sum.old c) }
    ensures size { length sum.new.numbers ≡ length sum.old.numbers }
    ensures added { IsTrue result → IsFormAdded sum.old form.now by sum.new }
    ensures past { result ≡ false → IsNotAdded sum.old form.now by }
{
    match plus_times(sum.constant, by, form.constant) {
        None => false,
        Some(constant) => {
            sum.constant = constant;
            add_terms(&mut sum.numbers, form.coefficients.as_slice(), by)
        }
    }
}

/// 0 at each column.
fn no_sum(alloc: Global, unknowns: u32) -> Result<LeafSum, AllocError>
    ensures numbers { IfOk result (λ s. s.numbers ≡ replicate unknowns (pos 0)) }
    ensures constant { IfOk result (λ s. s.constant ≡ pos 0) }
{
    let numbers = Items::from_vec(vec![in alloc; 0; unknowns as usize]?);
    Ok(LeafSum {
        numbers,
        constant: 0,
    })
}

fn form_at(rows: &[Row], row: u32) -> &Form
    requires { row < length rows.now }
    ensures entries { (c : Column) → entry c result.now ≡ part_at c (get_or (map constraint_of rows.now) row no_constraint) }
    ensures ascends { (n : ℕ) → NameUnknowns n rows.now → AscendsWithin 0 n result.now.coefficients }
{
    &rows[row as usize].form
}

/// The sum of the multiplied rows, which name unknowns below `unknowns` alone, or none where a product or a partial sum
/// leaves 128 bits. Linear in the unknowns and in the rows' terms.
pub(crate) fn sum_of(
    alloc: Global,
    unknowns: u32,
    rows: &[Row],
    multipliers: &[(u32, i128)],
) -> Result<Option<LeafSum>, AllocError>
    requires allowed { Allowed 0 (map constraint_of rows.now) multipliers.now }
    requires names { NameUnknowns unknowns rows.now }
    ensures { IfOk result (λ o. MatchOption o (LeafFits (map constraint_of rows.now) multipliers.now → ⊥) (IsSumOf (map constraint_of rows.now) multipliers.now)) }
{
    let mut sum = no_sum(alloc, unknowns)?;
    for (row, multiplier) in multipliers {
        if !add_multiple(&mut sum, form_at(rows, *row), *multiplier) {
            return Ok(None);
        }
    }
    Ok(Some(sum))
}

fn entry_at(rows: &[Row], row: u32, column: Column) -> i128
    requires { row < length rows.now }
    ensures { result ≡ part_at column (get_or (map constraint_of rows.now) row no_constraint) }
{
    rows[row as usize].form.entry(column)
}

/// The sum of the multipliers times the rows' entries at a column, or none where a product or a partial
/// sum leaves 128 bits.
fn sum_at(rows: &[Row], multipliers: &[(u32, i128)], column: Column) -> Option<i128>
    requires { Allowed 0 (map constraint_of rows.now) multipliers.now }
    ensures { SomeIff result (SumFits (part_at column) (map constraint_of rows.now) (pos 0) multipliers.now) (combined (part_at column) (map constraint_of rows.now) multipliers.now) }
{
    let mut sum: i128 = 0;
    for (row, multiplier) in multipliers {
        let entry = entry_at(rows, *row, column);
        let product = multiplier.checked_mul(entry)?;
        sum = sum.checked_add(product)?;
    }
    Some(sum)
}

/// The first column at which a sum leaves 128 bits, where one does.
pub(crate) fn past_column(rows: &[Row], multipliers: &[(u32, i128)], unknowns: u32) -> Column
    requires allowed { Allowed 0 (map constraint_of rows.now) multipliers.now }
    requires names { NameUnknowns unknowns rows.now }
    requires past { LeafFits (map constraint_of rows.now) multipliers.now → ⊥ }
    ensures { IsFirstOutside (λ c. SumFits (part_at c) (map constraint_of rows.now) (pos 0) multipliers.now) result }
{
    for unknown in 0..unknowns {
        if sum_at(rows, multipliers, Column::Unknown(unknown)).is_none() {
            return Column::Unknown(unknown);
        }
    }
    Column::Constant
}
