//! Systems of rows for tests.
ghost use Rattle.std.specs.Prelude.{◌≡◌, ℕ, [], Some, slice_get, IfOk};
ghost use Rattle.sv_linear.specs.Rows.{IsRowWithin};
ghost use Rattle.sv_linear.specs.declared.row.Row.{Row as AnyRow};

use farkas_check::System;
use lia_reduce::is_within;
use std::alloc::Global;
use std::test::Fail;
use sv_linear::{Form, FormFault, Row, RowKind};
use sv_list::Items;

/// A row's kind, its constant, and its coefficients at x and at y.
pub(crate) type Entries = (RowKind, i128, i128, i128);

/// The form, and so many times the unknown.
fn add_term(alloc: Global, form: &Form, unknown: u32, times: i128) -> Result<Form, FormFault> {
    let one = Form::of_unknown(alloc, unknown)?;
    let term = one.scale(alloc, times)?;
    form.add(alloc, &term)
}

/// The row of these terms.
pub(crate) fn row_of(
    alloc: Global,
    kind: RowKind,
    terms: &[(u32, i128)],
    constant: i128,
) -> Result<Row, Fail> {
    let mut form = Form::of_constant(alloc, constant);
    for (unknown, coefficient) in terms {
        form = add_term(alloc, &form, *unknown, *coefficient)?;
    }
    Ok(Row { form, kind })
}

pub(crate) fn rows_of(alloc: Global, table: &[Entries]) -> Result<Items<Row>, Fail> {
    let mut rows = Items::new(alloc);
    for (kind, constant, x, y) in table {
        rows.push(row_of(alloc, *kind, &[(0, *x), (1, *y)], *constant)?)?;
    }
    Ok(rows)
}

/// The system of these rows, where they name unknowns of it alone.
pub(crate) fn system_over(alloc: Global, unknowns: u32, rows: Items<Row>) -> Result<System, Fail>
    ensures nets { IfOk result (λ s. s.nets ≡ []) }
    ensures rows { IfOk result (λ s. (i : ℕ) (r : AnyRow) → slice_get s.rows i ≡ Some r → IsRowWithin s.unknowns r) }
{
    for row in rows.as_slice() {
        if !is_within(row, unknowns) {
            return Err(Fail::new("a row past its bounds"));
        }
    }
    Ok(System {
        unknowns,
        rows,
        nets: Items::new(alloc),
    })
}
