//! Machines by tables: where each state leads on each character.
ghost use Rattle.std.specs.Prelude.{◌≡◌, ℕ, ◌+◌, ◌<◌, ◌≤◌, ◌⊎◌, ◌↔◌, List, [], length, slice_get, Some, IfOk, OnOk};
ghost use Rattle.sv_word.specs.Words.{greatest_character};
ghost use Rattle.machine_core.specs.Edges.{EndsAt, StepsBy};
ghost use Rattle.part_machines.specs.Tables.{IsEndState, IsOfTable, IsRow, StepsAlong, StepsOfRow, next, row_of};
ghost use Rattle.part_machines.specs.declared.table.TableRow.{TableRow as AnyRow};

use machine_core::{Cost, Explicit};
use std::alloc::{AllocError, Global};
use sv_list::Items;
use sv_word::{GREATEST_CHARACTER, Ranges};

/// The characters below `stop` lead to the state `to`, from where the leg before stops.
#[derive(Drop)]
pub struct TableLeg {
    pub stop: u32,
    pub to: u32,
}

/// Where a state leads: along its legs, and to the state `rest` behind the last one.
#[derive(Drop)]
pub struct TableRow {
    pub legs: Items<TableLeg>,
    pub rest: u32,
}

/// The row on which every character leads to one state.
pub fn plain_row(alloc: Global, rest: u32) -> TableRow
    ensures { result ≡ row_of [] rest }
{
    TableRow {
        legs: Items::new(alloc),
        rest,
    }
}

// Adds the edge on the characters from `start` on and below `stop`, if there are any and if the machine
// has the state that they lead to.
fn add_leg(
    alloc: Global,
    machine: &mut Explicit,
    at: u32,
    start: u32,
    stop: u32,
    to: u32,
) -> Result<(), AllocError>
    requires at { at < machine.old.states }
    requires plain { machine.old.registers ≡ 0 }
    requires stop { stop ≤ greatest_character + 1 }
    ensures states { machine.new.states ≡ machine.old.states }
    ensures registers { machine.new.registers ≡ machine.old.registers }
    ensures ends { machine.new.ends ≡ machine.old.ends }
    ensures steps { OnOk result ((s c : ℕ) (cost : List ℕ) (t : ℕ) → StepsBy machine.new.edges s c cost t
        ↔ (StepsBy machine.old.edges s c cost t ⊎ StepsAlong at start stop to machine.old.states s c cost t)) }
{
    if stop <= start {
        return Ok(());
    }
    if machine.states() <= to {
        return Ok(());
    }
    let on = Ranges::of(alloc, start, stop - 1)?;
    let cost = Cost::new(alloc);
    machine.add_edge(at, on, cost, to)?;
    Ok(())
}

// Adds the edges of a row. Linear in its legs.
fn add_row(alloc: Global, machine: &mut Explicit, at: u32, row: &TableRow) -> Result<(), AllocError>
    requires at { at < machine.old.states }
    requires plain { machine.old.registers ≡ 0 }
    requires row { IsRow row.now }
    ensures states { machine.new.states ≡ machine.old.states }
    ensures registers { machine.new.registers ≡ machine.old.registers }
    ensures ends { machine.new.ends ≡ machine.old.ends }
    ensures steps { OnOk result ((s c : ℕ) (cost : List ℕ) (t : ℕ) → StepsBy machine.new.edges s c cost t
        ↔ (StepsBy machine.old.edges s c cost t ⊎ StepsOfRow at row.now (greatest_character + 1) machine.old.states s c cost t)) }
{
    let mut start = 0;
    for leg in row.legs.as_slice() {
        add_leg(alloc, machine, at, start, leg.stop, leg.to)?;
        start = start.max(leg.stop);
    }
    add_leg(alloc, machine, at, start, GREATEST_CHARACTER + 1, row.rest)?;
    Ok(())
}

// Adds an end to a state, where a word may end there.
fn add_end(
    alloc: Global,
    machine: &mut Explicit,
    at: u32,
    last: u32,
    holds: bool,
) -> Result<(), AllocError>
    requires at { at < machine.old.states }
    requires plain { machine.old.registers ≡ 0 }
    ensures states { machine.new.states ≡ machine.old.states }
    ensures registers { machine.new.registers ≡ machine.old.registers }
    ensures edges { machine.new.edges ≡ machine.old.edges }
    ensures ends { OnOk result ((s : ℕ) (cost : List ℕ) → EndsAt machine.new.ends s cost
        ↔ (EndsAt machine.old.ends s cost ⊎ ((at ≡ s) × ([] ≡ cost) × IsEndState holds last s))) }
{
    if (at == last) != holds {
        return Ok(());
    }
    let cost = Cost::new(alloc);
    machine.add_end(at, cost)?;
    Ok(())
}

/// The machine of a table's first states. A word may end in the state `last` alone, or without `holds` in
/// every other one. Linear in the legs.
pub fn table_machine(
    alloc: Global,
    rows: &[TableRow],
    states: u32,
    last: u32,
    holds: bool,
) -> Result<Explicit, AllocError>
    requires some { 0 < states }
    requires rows { states ≤ length rows.now }
    requires formed { (s : ℕ) (row : AnyRow) → slice_get rows.now s ≡ Some row → IsRow row }
    ensures states { IfOk result (λ m. m.states ≡ states) }
    ensures table { IfOk result (IsOfTable (next rows.now) last holds) }
{
    let mut machine = Explicit::new(alloc, states, 0)?;
    for at in 0..states {
        add_row(alloc, &mut machine, at, &rows[at as usize])?;
        add_end(alloc, &mut machine, at, last, holds)?;
    }
    Ok(machine)
}
