//! Rows by other numbers of their unknowns.
ghost use Rattle.std.specs.Prelude.{◌≡◌, ◌≢◌, ℕ, ◌+◌, ◌<◌, ◌^◌, pos, [], ◌++◌, get_or, Some, None, IfOk, OnOk};
ghost use Rattle.std.specs.List.{AllZip};
ghost use Rattle.sv_linear.specs.Terms.{AscendsWithin};
ghost use Rattle.straight_line.specs.Columns.{AreNumbersWithin, IsRenumberedRow, Rises, chosen, with_term};

use std::alloc::{AllocError, Global};
use sv_linear::{Form, Row};
use sv_list::Items;

/// The rows over the unknowns that have numbers, as `renumber`. Linear in all their terms.
#[tactic(auto, using(crate::proofs::Chosen::renumbered_more, crate::proofs::Chosen::renumbered_all))]
pub fn renumber_all(
    alloc: Global,
    base: usize,
    integers: &[Option<usize>],
    registers: &[Option<usize>],
    rows: &[Row],
) -> Result<Items<Row>, AllocError>
    requires integers_rise { Rises integers.now }
    requires registers_rise { Rises registers.now }
    requires integers_within { AreNumbersWithin base integers.now }
    requires registers_within { AreNumbersWithin (2 ^ 31) registers.now }
    requires few { base < 2 ^ 31 }
    ensures { IfOk result (AllZip (IsRenumberedRow base integers.now registers.now) rows.now) }
{
    let mut renumbered = Items::new(alloc);
    for row in rows {
        let next = renumber(alloc, base, integers, registers, row)?;
        renumbered.push(next)?;
    }
    Ok(renumbered)
}

/// The row over the unknowns that have numbers: first those of `integers`, which are below `base`, and behind it
/// those of `registers`. Both lists are by the unknowns of the row. Linear in its terms.
fn renumber(
    alloc: Global,
    base: usize,
    integers: &[Option<usize>],
    registers: &[Option<usize>],
    row: &Row,
) -> Result<Row, AllocError>
    requires integers_rise { Rises integers.now }
    requires registers_rise { Rises registers.now }
    requires integers_within { AreNumbersWithin base integers.now }
    requires registers_within { AreNumbersWithin (2 ^ 31) registers.now }
    requires few { base < 2 ^ 31 }
    ensures { IfOk result (IsRenumberedRow base integers.now registers.now row.now) }
{
    let terms = row.form.coefficients.as_slice();
    let mut form = Form::of_constant(alloc, row.form.constant);
    add_terms(&mut form, 0, integers, terms)?;
    add_terms(&mut form, base, registers, terms)?;
    Ok(Row {
        form,
        kind: row.kind,
    })
}

/// Adds the terms whose unknowns have numbers, by these numbers behind a base.
fn add_terms(
    form: &mut Form,
    base: usize,
    numbers: &[Option<usize>],
    terms: &[(u32, i128)],
) -> Result<(), AllocError>
    requires rising { Rises numbers.now }
    requires within { AreNumbersWithin (2 ^ 31) numbers.now }
    requires few { base < 2 ^ 31 }
    requires low { AscendsWithin 0 base form.old.coefficients }
    requires terms { AscendsWithin 0 (2 ^ 32) terms.now }
    ensures constant { form.new.constant ≡ form.old.constant }
    ensures added { OnOk result (form.new.coefficients ≡ form.old.coefficients ++ chosen base numbers.now terms.now) }
{
    for (unknown, coefficient) in terms {
        let number = number_at(numbers, *unknown as usize);
        add_term(form, base, number, *coefficient)?;
    }
    Ok(())
}

fn number_at(numbers: &[Option<usize>], unknown: usize) -> Option<usize>
    ensures { result ≡ get_or numbers.now unknown None }
{
    if unknown >= numbers.len() {
        return None;
    }
    numbers[unknown]
}

fn add_term(
    form: &mut Form,
    base: usize,
    number: Option<usize>,
    coefficient: i128,
) -> Result<(), AllocError>
    requires few { (k : ℕ) → number ≡ Some k → base + k < 2 ^ 32 }
    requires last { (k : ℕ) → number ≡ Some k → AscendsWithin 0 (base + k) form.old.coefficients }
    requires not_zero { coefficient ≢ pos 0 }
    ensures constant { form.new.constant ≡ form.old.constant }
    ensures added { OnOk result (form.new.coefficients ≡ form.old.coefficients ++ with_term base number coefficient []) }
{
    match number {
        Some(number) => form.push((base + number) as u32, coefficient),
        None => Ok(()),
    }
}
