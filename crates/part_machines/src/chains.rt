//! Words along a chain of ranges of characters.
ghost use Rattle.std.specs.Prelude.{◌≡◌, ◌+◌, ◌<◌, ◌≤◌, ◌^◌, length, if◌then◌else◌, IfOk};
ghost use Rattle.sv_word.specs.Words.{greatest_character};
ghost use Rattle.part_machines.specs.Chains.{AreRanges, chain_row, chain_rows as rows_of_chain, follows, ranges_of as ranges_of_word};
ghost use Rattle.part_machines.specs.Parts.{Decides};

use crate::table::{TableLeg, TableRow, plain_row, table_machine};
use machine_core::Explicit;
use std::alloc::{AllocError, Global};
use sv_list::Items;
use sv_word::Word;

/// Each character of the word alone, as a range.
pub fn ranges_of(alloc: Global, word: &Word) -> Result<Items<(u32, u32)>, AllocError>
    ensures ranges { IfOk result (λ ranges. ranges ≡ ranges_of_word word.now) }
    ensures formed { IfOk result AreRanges }
{
    word.is_word();
    let mut ranges = Items::new(alloc);
    for c in word.as_slice() {
        ranges.push((*c, *c))?;
    }
    Ok(ranges)
}

// The row of the state `at`, from which the characters of a range lead on.
fn chain_row(alloc: Global, lost: u32, at: u32, range: (u32, u32)) -> Result<TableRow, AllocError>
    requires next { at < lost }
    requires range { range.1 ≤ greatest_character }
    ensures { IfOk result (λ row. row ≡ chain_row lost at range) }
{
    let mut legs = Items::new(alloc);
    legs.push(TableLeg {
        stop: range.0,
        to: lost,
    })?;
    legs.push(TableLeg {
        stop: range.1 + 1,
        to: at + 1,
    })?;
    Ok(TableRow { legs, rest: lost })
}

// The table of a chain: one row for each range, one behind them, and one for what is lost.
fn chain_rows(
    alloc: Global,
    ranges: &[(u32, u32)],
    longer: bool,
) -> Result<Items<TableRow>, AllocError>
    requires few { length ranges.now + 2 < 2 ^ 32 }
    requires ranges { AreRanges ranges.now }
    ensures { IfOk result (λ rows. rows ≡ rows_of_chain longer (length ranges.now + 1) 0 ranges.now) }
{
    let count = ranges.len() as u32;
    let lost = count + 1;
    let mut rows = Items::new(alloc);
    for at in 0..count {
        rows.push(chain_row(alloc, lost, at, ranges[at as usize])?)?;
    }
    let behind = if longer { count } else { lost };
    rows.push(plain_row(alloc, behind))?;
    rows.push(plain_row(alloc, lost))?;
    Ok(rows)
}

/// The words that have a character of each range in turn, and where they may be `longer`, any characters
/// behind them; without `holds`, all other words. Linear in the ranges.
pub fn chain(
    alloc: Global,
    ranges: &[(u32, u32)],
    longer: bool,
    holds: bool,
) -> Result<Explicit, AllocError>
    requires few { length ranges.now + 2 < 2 ^ 32 }
    requires ranges { AreRanges ranges.now }
    ensures { IfOk result (Decides (follows longer ranges.now) holds (length ranges.now + (if holds then 1 else 2))) }
{
    let rows = chain_rows(alloc, ranges, longer)?;
    let count = ranges.len() as u32;
    let states = if holds { count + 1 } else { count + 2 };
    table_machine(alloc, rows.as_slice(), states, count, holds)
}
