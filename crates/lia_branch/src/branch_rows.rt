ghost use Rattle.std.specs.Prelude.{IfOk};
ghost use Rattle.sv_linear.specs.Rows.{IsRowWithin};
ghost use Rattle.farkas_check.specs.Closings.{none_out, some_in};
ghost use Rattle.farkas_check.specs.Cuts.{IsNetWithin};
ghost use Rattle.lia_branch.specs.Nodes.{IsRowOf};

use crate::edge_sums::{EdgeSide, side_sum};
use farkas_check::Net;
use std::alloc::{AllocError, Global};
use sv_linear::{Form, Row, RowKind};

/// No edge of the net out of the states is used. Costs: as `side_sum`.
pub(crate) fn none_out_row(
    alloc: Global,
    unknowns: u32,
    net: &Net,
    states: &[u32],
) -> Result<Row, AllocError>
    requires { IsNetWithin unknowns net.now }
    ensures row { IfOk result (IsRowOf (none_out net.now states.now)) }
    ensures within { IfOk result (IsRowWithin unknowns) }
{
    Ok(Row {
        form: side_sum(alloc, EdgeSide::Out, unknowns, net, states)?,
        kind: RowKind::Le,
    })
}

/// Some edge of the net that enters the states from outside is used. Costs: as `side_sum`.
pub(crate) fn some_in_row(
    alloc: Global,
    unknowns: u32,
    net: &Net,
    states: &[u32],
) -> Result<Row, AllocError>
    requires { IsNetWithin unknowns net.now }
    ensures row { IfOk result (IsRowOf (some_in net.now states.now)) }
    ensures within { IfOk result (IsRowWithin unknowns) }
{
    let Form {
        coefficients,
        constant: _,
    } = side_sum(alloc, EdgeSide::In, unknowns, net, states)?;
    Ok(Row {
        form: Form {
            coefficients,
            constant: 1,
        },
        kind: RowKind::Le,
    })
}
