//! Words in which a pattern occurs, and words that end with it.
ghost use Rattle.std.specs.Prelude.{◌≡◌, ℕ, ◌+◌, ◌<◌, ◌^◌, length, IfOk, slice_get, Some};
ghost use Rattle.replace_machines.specs.Rows.{AreMatchRows, Ascends, IsBorderOf};
ghost use Rattle.part_machines.specs.Parts.{Decides};
ghost use Rattle.part_machines.specs.Patterns.{ArePatternRows, AreStatesNeeded, NextOfWhole, finds, spread, spread_row};
ghost use Rattle.part_machines.specs.Tables.{IsRow, lead};
ghost use Rattle.part_machines.specs.declared.table.TableRow.{TableRow as AnyRow};

use crate::table::{TableLeg, TableRow, plain_row, table_machine};
use machine_core::Explicit;
use replace_machines::{FailureAutomaton, failure_automaton, row_at};
use std::alloc::{AllocError, Global};
use sv_list::Items;
use sv_word::Word;

// The row on which these characters lead to their states and all others to 0.
fn spread_row(alloc: Global, row: &[(u32, u32)]) -> Result<TableRow, AllocError>
    requires { Ascends 0 row.now }
    ensures row { IfOk result (λ spread. spread ≡ spread_row row.now) }
    ensures formed { IfOk result IsRow }
{
    let mut legs = Items::new(alloc);
    for pair in row {
        legs.push(TableLeg {
            stop: pair.0,
            to: 0,
        })?;
        legs.push(TableLeg {
            stop: pair.0 + 1,
            to: pair.1,
        })?;
    }
    Ok(TableRow { legs, rest: 0 })
}

// The row of the whole pattern.
fn whole_row(
    alloc: Global,
    pattern: &Word,
    automaton: &FailureAutomaton,
    stays: bool,
) -> Result<TableRow, AllocError>
    requires size { length pattern.now < 2 ^ 32 }
    requires length { length automaton.now.rows ≡ length pattern.now }
    requires rows { AreMatchRows pattern.now automaton.now.rows }
    requires border { IsBorderOf pattern.now (length pattern.now) automaton.now.border }
    ensures next { IfOk result (λ row. (c : ℕ) → NextOfWhole stays pattern.now c (lead row.rest row.legs c)) }
    ensures formed { IfOk result IsRow }
{
    let rows = automaton.rows.as_slice();
    if stays {
        return Ok(plain_row(alloc, rows.len() as u32));
    }
    if rows.is_empty() {
        return Ok(plain_row(alloc, 0));
    }
    spread_row(alloc, row_at(rows, automaton.border as usize))
}

// The table of a pattern: one row for each of its beginnings.
fn pattern_rows(alloc: Global, pattern: &Word, stays: bool) -> Result<Items<TableRow>, AllocError>
    requires { length pattern.now < 2 ^ 32 }
    ensures rows { IfOk result (ArePatternRows stays pattern.now) }
    ensures formed { IfOk result (λ rows. (s : ℕ) (row : AnyRow) → slice_get rows s ≡ Some row → IsRow row) }
{
    let automaton = failure_automaton(alloc, pattern)?;
    let mut rows = Items::new(alloc);
    for row in automaton.rows.as_slice() {
        let spread = spread_row(alloc, row.as_slice())?;
        rows.push(spread)?;
    }
    let last = whole_row(alloc, pattern, &automaton, stays)?;
    rows.push(last)?;
    Ok(rows)
}

// How many states of the table of a pattern of so many characters its machine has. Where the pattern may not occur,
// no word ends behind it: with that state a product of many such machines would have one for each set of patterns that
// have occurred.
fn states_needed(count: u32, stays: bool, holds: bool) -> u32
    requires { count + 1 < 2 ^ 32 }
    ensures { AreStatesNeeded stays holds count result }
{
    if holds {
        return count + 1;
    }
    if !stays {
        return count + 1;
    }
    count.max(1)
}

/// The words in which the pattern occurs where it `stays` found, and else the words that end with it;
/// without `holds`, all other words. The table is made in one pass over the pattern.
pub fn pattern_machine(
    alloc: Global,
    pattern: &Word,
    stays: bool,
    holds: bool,
) -> Result<Explicit, AllocError>
    requires { length pattern.now + 1 < 2 ^ 32 }
    ensures { IfOk result (Decides (finds stays pattern.now) holds (length pattern.now + 1)) }
{
    let rows = pattern_rows(alloc, pattern, stays)?;
    let count = pattern.len() as u32;
    let states = states_needed(count, stays, holds);
    table_machine(alloc, rows.as_slice(), states, count, holds)
}
