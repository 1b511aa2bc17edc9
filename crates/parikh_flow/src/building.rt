ghost use Rattle.std.specs.Prelude.{◌≡◌, ℕ, ◌+◌, ◌<◌, ◌^◌, ◌++◌, List, All, Some, slice_get, IfOk, IfSome, OnOk};
ghost use Rattle.sv_linear.specs.Rows.{IsRowWithin};
ghost use Rattle.sv_linear.specs.declared.row.Row.{Row};
ghost use Rattle.search_hits.specs.Hits.{HaveRegisters};
ghost use Rattle.parikh_flow.specs.Building.{CostsFit};
ghost use Rattle.parikh_flow.specs.Rows.{unknowns_after, run_rows, AreSameRows, IsSystemOf};

use crate::nets::nets_of;
use crate::rows::{family_rows, not_negative_rows, reach_rows, register_rows};
use crate::sizes::unknowns_from;
use farkas_check::System;
use machine_core::Explicit;
use std::alloc::{AllocError, Global};
use sv_linear::Row;
use sv_list::{Copied, Items};

/// The system of machines with so many registers and of rows: its joined solutions are the hits, with the
/// counts of their runs.
///
/// The unknowns are the whole numbers, as many as `integers` says, the registers, and for each machine
/// its edges and its ends. The given rows come first; then for each register that it is what the edges and
/// ends cost there; that each register and each count is at least 0; for each machine that one end is used,
/// and the balance of each state; and, where `reach` is given, that the words have together at most so
/// many characters. Where the given rows name integers and registers alone and don't hold the number -2^127,
/// the others don't either. Linear in the rows and in the machines times the registers. More edges and ends
/// than leave the unknowns below 2^32 are want of memory: they would take more than 100 GB.
pub fn system_of(
    alloc: Global,
    machines: &[Explicit],
    integers: u32,
    registers: u32,
    rows: &[Row],
    reach: Option<u64>,
) -> Result<System, AllocError>
    requires registers { HaveRegisters registers machines.now }
    requires few { integers + registers < 2 ^ 31 }
    ensures system { IfOk result (IsSystemOf machines.now integers registers rows.now reach) }
    ensures within { ((i : ℕ) (r : Row) → slice_get rows.now i ≡ Some r → IsRowWithin (integers + registers) r)
        → IfOk result (λ s. (i : ℕ) (r : Row) → slice_get s.rows i ≡ Some r → IsRowWithin s.unknowns r) }
{
    let base = integers + registers;
    let Some(unknowns) = unknowns_from(machines, base) else {
        return Err(AllocError);
    };
    let mut all = copy_rows(alloc, rows)?;
    append_run_rows(
        alloc, &mut all, machines, integers, registers, unknowns, reach,
    )?;
    let nets = nets_of(alloc, machines, base)?;
    Ok(System {
        unknowns,
        rows: all,
        nets,
    })
}

// Adds the rows that say of the unknowns that they are totals and counts of runs.
fn append_run_rows(
    alloc: Global,
    all: &mut Items<Row>,
    machines: &[Explicit],
    integers: u32,
    registers: u32,
    unknowns: u32,
    reach: Option<u64>,
) -> Result<(), AllocError>
    requires registers { HaveRegisters registers machines.now }
    requires few { integers + registers < 2 ^ 31 }
    requires unknowns { unknowns ≡ unknowns_after (integers + registers) machines.now }
    ensures rows { OnOk result ((more : List Row) × (all.new ≡ all.old ++ more) × AreSameRows more (run_rows machines.now integers registers reach)) }
    ensures fit { OnOk result ((k : ℕ) → k < registers → All (CostsFit k) machines.now) }
    ensures fits { OnOk result (IfSome reach (λ most. most < 2 ^ 64)) }
{
    let base = integers + registers;
    all.append(register_rows(alloc, machines, integers, registers)?)?;
    all.append(not_negative_rows(alloc, integers, unknowns)?)?;
    all.append(family_rows(alloc, machines, base)?)?;
    all.append(reach_rows(alloc, machines, base, reach)?)
}

fn copy_rows(alloc: Global, rows: &[Row]) -> Result<Items<Row>, AllocError>
    ensures { IfOk result (λ copies. copies ≡ rows.now) }
{
    let mut copies = Items::new(alloc);
    for row in rows {
        copies.push(row.copy(alloc)?)?;
    }
    Ok(copies)
}
