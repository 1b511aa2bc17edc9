//! The rows of a system beside those that are given.
ghost use Rattle.std.specs.Prelude.{ℕ, ◌+◌, ◌-◌, ◌<◌, ◌≤◌, ◌^◌, pos, neg_ℤ, map, All, IfOk, IfSome, OnOk};
ghost use Rattle.std.specs.List.{range_with_len};
ghost use Rattle.sv_linear.specs.Terms.{AscendsWithin};
ghost use Rattle.search_hits.specs.Hits.{HaveRegisters};
ghost use Rattle.parikh_flow.specs.Counts.{size_of};
ghost use Rattle.parikh_flow.specs.Rows.{machine_terms, family_terms, unknowns_after, edge_cost, end_cost, register_row, not_negative_row, end_row, machine_rows, family_rows, reach_rows, inequality, IsSameRow, AreSameRows};
ghost use Rattle.parikh_flow.specs.Building.{AreTermsAdded, CostsFit};

use crate::balances::state_rows;
use crate::sizes::{end_base, next_base};
use crate::terms::{edge_costs, end_costs, ones, push_terms};
use machine_core::Explicit;
use std::alloc::{AllocError, Global};
use sv_linear::{Form, Row, RowKind};
use sv_list::Items;

// Adds what the edges and ends of a machine cost at the register.
fn push_costs(
    alloc: Global,
    form: &mut Form,
    machine: &Explicit,
    register: usize,
    base: u32,
) -> Result<(), AllocError>
    requires register { register < machine.now.registers }
    requires room { base + size_of machine.now < 2 ^ 32 }
    requires ascends { AscendsWithin 0 base form.old.coefficients }
    ensures added { OnOk result (AreTermsAdded (machine_terms (edge_cost register) (end_cost register) base machine.now) form.old form.new) }
    ensures ascends { OnOk result (AscendsWithin 0 (base + size_of machine.now) form.new.coefficients) }
    ensures fit { OnOk result (CostsFit register machine.now) }
{
    let of_edges = edge_costs(alloc, machine.edges(), register)?;
    push_terms(form, base, of_edges.as_slice())?;
    let of_ends = end_costs(alloc, machine.finals(), register)?;
    push_terms(form, end_base(machine, base), of_ends.as_slice())?;
    Ok(())
}

// That a register is what edges and ends cost there, as often as they are used.
fn register_row(
    alloc: Global,
    machines: &[Explicit],
    integers: u32,
    registers: u32,
    register: u32,
) -> Result<Row, AllocError>
    requires register { register < registers }
    requires registers { HaveRegisters registers machines.now }
    requires room { unknowns_after (integers + registers) machines.now < 2 ^ 32 }
    ensures row { IfOk result (λ row. IsSameRow row (register_row integers (integers + registers) machines.now register)) }
    ensures fit { IfOk result (λ _. All (CostsFit register) machines.now) }
{
    let mut form = Form::of_constant(alloc, 0);
    form.push(integers + register, -1)?;
    let mut base = integers + registers;
    for machine in machines {
        push_costs(alloc, &mut form, machine, register as usize, base)?;
        base = next_base(machine, base);
    }
    Ok(Row {
        form,
        kind: RowKind::Eq,
    })
}

/// The row of each register, in their order.
pub fn register_rows(
    alloc: Global,
    machines: &[Explicit],
    integers: u32,
    registers: u32,
) -> Result<Items<Row>, AllocError>
    requires registers { HaveRegisters registers machines.now }
    requires room { unknowns_after (integers + registers) machines.now < 2 ^ 32 }
    ensures rows { IfOk result (λ rows. AreSameRows rows (map (register_row integers (integers + registers) machines.now) (range_with_len 0 registers))) }
    ensures fit { IfOk result (λ _. (k : ℕ) → k < registers → All (CostsFit k) machines.now) }
{
    let mut rows = Items::new(alloc);
    for register in 0..registers {
        rows.push(register_row(alloc, machines, integers, registers, register)?)?;
    }
    Ok(rows)
}

// That an unknown isn't below 0.
fn not_negative_row(alloc: Global, unknown: u32) -> Result<Row, AllocError>
    ensures { IfOk result (λ row. IsSameRow row (not_negative_row unknown)) }
{
    let mut form = Form::of_constant(alloc, 0);
    form.push(unknown, -1)?;
    Ok(Row {
        form,
        kind: RowKind::Le,
    })
}

/// That the unknowns from the one up to the other aren't below 0.
pub fn not_negative_rows(alloc: Global, from: u32, to: u32) -> Result<Items<Row>, AllocError>
    requires { from ≤ to }
    ensures { IfOk result (λ rows. AreSameRows rows (map not_negative_row (range_with_len from (to - from)))) }
{
    let mut rows = Items::new(alloc);
    for unknown in from..to {
        rows.push(not_negative_row(alloc, unknown)?)?;
    }
    Ok(rows)
}

// That one end of a machine is used.
fn end_row(alloc: Global, machine: &Explicit, base: u32) -> Result<Row, AllocError>
    requires { base + size_of machine.now < 2 ^ 32 }
    ensures { IfOk result (λ row. IsSameRow row (end_row base machine.now)) }
{
    let mut form = Form::of_constant(alloc, -1);
    let each = ones(alloc, machine.finals().len())?;
    push_terms(&mut form, end_base(machine, base), each.as_slice())?;
    Ok(Row {
        form,
        kind: RowKind::Eq,
    })
}

// The rows of a machine: that one end is used, and that counts balance at each state.
fn machine_rows(alloc: Global, machine: &Explicit, base: u32) -> Result<Items<Row>, AllocError>
    requires { base + size_of machine.now < 2 ^ 32 }
    ensures { IfOk result (λ rows. AreSameRows rows (machine_rows base machine.now)) }
{
    let mut rows = Items::new(alloc);
    rows.push(end_row(alloc, machine, base)?)?;
    rows.append(state_rows(alloc, machine, base)?)?;
    Ok(rows)
}

/// The rows of all machines, whose unknowns begin at `base`. Linear in the machines.
pub fn family_rows(
    alloc: Global,
    machines: &[Explicit],
    base: u32,
) -> Result<Items<Row>, AllocError>
    requires { unknowns_after base machines.now < 2 ^ 32 }
    ensures { IfOk result (λ rows. AreSameRows rows (family_rows base machines.now)) }
{
    let mut rows = Items::new(alloc);
    let mut next = base;
    for machine in machines {
        rows.append(machine_rows(alloc, machine, next)?)?;
        next = next_base(machine, next);
    }
    Ok(rows)
}

// That the words have together at most so many characters.
fn reach_row(alloc: Global, machines: &[Explicit], base: u32, reach: u64) -> Result<Row, AllocError>
    requires { unknowns_after base machines.now < 2 ^ 32 }
    ensures { IfOk result (λ row. IsSameRow row (inequality (family_terms (λ _. pos 1) (λ _. pos 0) base machines.now) (neg_ℤ (pos reach)))) }
{
    let mut form = Form::of_constant(alloc, -i128::from(reach));
    let mut next = base;
    for machine in machines {
        let each = ones(alloc, machine.edges().len())?;
        push_terms(&mut form, next, each.as_slice())?;
        next = next_base(machine, next);
    }
    Ok(Row {
        form,
        kind: RowKind::Le,
    })
}

/// The row for reach, where there is one.
pub fn reach_rows(
    alloc: Global,
    machines: &[Explicit],
    base: u32,
    reach: Option<u64>,
) -> Result<Items<Row>, AllocError>
    requires { unknowns_after base machines.now < 2 ^ 32 }
    ensures rows { IfOk result (λ rows. AreSameRows rows (reach_rows base machines.now reach)) }
    ensures fits { IfOk result (λ _. IfSome reach (λ most. most < 2 ^ 64)) }
{
    let mut rows = Items::new(alloc);
    let Some(most) = reach else {
        return Ok(rows);
    };
    rows.push(reach_row(alloc, machines, base, most)?)?;
    Ok(rows)
}
