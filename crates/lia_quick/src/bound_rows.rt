ghost use Rattle.std.specs.Prelude.{◌≡◌, suc, IfOk};
ghost use Rattle.sv_linear.specs.Combining.{IsSymmetric};
ghost use Rattle.sv_linear.specs.Rows.{IsRowWithin};
ghost use Rattle.farkas_check.specs.Closings.{at_most, at_least};
ghost use Rattle.farkas_check.specs.Systems.{constraint_of};

use std::alloc::{AllocError, Global};
use sv_linear::{Form, Row, RowKind};

/// The row that says that the unknown is at most `at`.
pub fn at_most_row(alloc: Global, unknown: u32, at: i128) -> Result<Row, AllocError>
    requires { IsSymmetric at }
    ensures row { IfOk result (λ r. constraint_of r ≡ at_most unknown at) }
    ensures within { IfOk result (IsRowWithin (suc unknown)) }
{
    let mut form = Form::of_constant(alloc, -at);
    form.push(unknown, 1)?;
    Ok(Row {
        form,
        kind: RowKind::Le,
    })
}

/// The row that says that the unknown is at least `least`.
pub fn at_least_row(alloc: Global, unknown: u32, least: i128) -> Result<Row, AllocError>
    requires { IsSymmetric least }
    ensures row { IfOk result (λ r. constraint_of r ≡ at_least unknown least) }
    ensures within { IfOk result (IsRowWithin (suc unknown)) }
{
    let mut form = Form::of_constant(alloc, least);
    form.push(unknown, -1)?;
    Ok(Row {
        form,
        kind: RowKind::Le,
    })
}
