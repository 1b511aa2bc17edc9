//! What was met of whole numbers: rows over the unknowns that have a column that isn't 0.
ghost use Rattle.std.specs.Prelude.{◌+◌, ◌<◌, List, length, map, IfOk};
ghost use Rattle.std.specs.List.{AllByRecursion, AllZip};
ghost use Rattle.sv_linear.specs.Rows.{HasSymmetricEntries};
ghost use Rattle.sv_linear.specs.declared.row.Row.{Row};
ghost use Rattle.literal_forms.specs.Shapes.{Shape};
ghost use Rattle.flat_cubes.specs.Drafted.{unknown_at};
ghost use Rattle.flat_cubes.specs.Flattening.{Bounded, IsRowFor};
ghost use Rattle.straight_line.specs.Keeping.{AreQuantitiesBelow};
ghost use Rattle.straight_line.specs.Rowing.{AreRowsExactly, IsNumber};
ghost use Rattle.flat_cubes.specs.Straight.{IsRowBelow};

use crate::columns::columns_of;
use crate::keeping::keep;
use crate::renumbering::renumber_all;
use flat_cubes::{FlatFault, Quantity};
use std::alloc::{AllocError, Global};
use sv_linear::Row;
use sv_list::Items;
use sv_terms::{MOST_REGISTERS, Name};

/// Rows and their unknowns: the integer constants, and behind them the registers.
#[derive(Drop)]
pub struct Rows {
    pub rows: Items<Row>,
    pub registers: Items<u32>,
    pub integers: Items<Name>,
}

/// The rows over those of the quantities that have a column that isn't 0, by the variables of places; or the
/// number of registers, or else of integer constants, above `MOST_REGISTERS`. Linear in the quantities and the rows.
#[tactic(auto, using(crate::proofs::Rowed::excess_is))]
pub fn settle_rows(
    alloc: Global,
    of: &[u32],
    quantities: Items<Quantity>,
    rows: &[Row],
) -> Result<Rows, FlatFault>
    requires { AreQuantitiesBelow (length of.now) quantities }
    ensures exact { (ts : List Shape) (bs : List Bounded) → AllZip (IsRowFor (map (unknown_at ts) quantities)) bs rows.now → AreRowsExactly of.now ts bs quantities result }
    ensures numbered { AllByRecursion (λ (r : Row). HasSymmetricEntries r.form) rows.now → IfOk result (λ s. AllByRecursion (IsRowBelow (length s.integers + length s.registers)) s.rows) }
{
    let used = columns_of(alloc, quantities.len(), rows)?;
    let kept = keep(alloc, of, quantities, used.as_slice())?;
    let registers = kept.registers.len();
    if registers > MOST_REGISTERS {
        return Err(excess(registers));
    }
    let integers = kept.integers.len();
    if integers > MOST_REGISTERS {
        return Err(excess(integers));
    }
    let rows = renumber_all(
        alloc,
        integers,
        kept.integer_numbers.as_slice(),
        kept.register_numbers.as_slice(),
        rows,
    )?;
    Ok(Rows {
        rows,
        registers: kept.registers,
        integers: kept.integers,
    })
}

/// So many unknowns of one kind are too many.
fn excess(unknowns: usize) -> FlatFault
    ensures { IsNumber unknowns result }
{
    match u32::try_from(unknowns) {
        Ok(unknowns) => FlatFault::Wide(unknowns),
        Err(_) => FlatFault::Memory(AllocError),
    }
}
