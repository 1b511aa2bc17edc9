//! Rows of what is said of one word.
ghost use Rattle.std.specs.Prelude.{◌≡◌, ◌<◌, ◌^◌, ◌+◌, ◌≤ℤ◌, ℕ, ℤ, pos, List, length, OnOk};
ghost use Rattle.std.specs.List.{AllZip};
ghost use Rattle.sv_terms.specs.Language.{Word as AnyWord};
ghost use Rattle.flat_cubes.specs.Satisfying.{MeetsPart, MeetsParts};
ghost use Rattle.length_rows.specs.Lengths.{AreMet, HasLengths};

use farkas_check::rows_are_constraints;
use flat_cubes::{Own, Variable};
use lia_quick::{at_least_row, at_most_row};
use std::alloc::{AllocError, Global};
use sv_linear::Row;
use sv_list::Items;

/// Adds a row: the unknown is at least so much.
fn push_least(
    alloc: Global,
    rows: &mut Items<Row>,
    unknown: u32,
    least: usize,
) -> Result<(), AllocError>
    ensures { OnOk result ((x : ℕ → ℤ) → pos least ≤ℤ x unknown → AreMet x rows.old → AreMet x rows.new) }
{
    rows_are_constraints();
    let row = at_least_row(alloc, unknown, least as i128)?;
    rows.push(row)?;
    Ok(())
}

/// Adds a row: the unknown is at most so much.
fn push_most(
    alloc: Global,
    rows: &mut Items<Row>,
    unknown: u32,
    most: usize,
) -> Result<(), AllocError>
    ensures { OnOk result ((x : ℕ → ℤ) → x unknown ≤ℤ pos most → AreMet x rows.old → AreMet x rows.new) }
{
    rows_are_constraints();
    let row = at_most_row(alloc, unknown, most as i128)?;
    rows.push(row)?;
    Ok(())
}

/// Adds two rows: the unknown is so much.
fn push_exact(
    alloc: Global,
    rows: &mut Items<Row>,
    unknown: u32,
    amount: usize,
) -> Result<(), AllocError>
    ensures { OnOk result ((x : ℕ → ℤ) → x unknown ≡ pos amount → AreMet x rows.old → AreMet x rows.new) }
{
    push_least(alloc, rows, unknown, amount)?;
    push_most(alloc, rows, unknown, amount)?;
    Ok(())
}

/// Adds what a part says of the length of its word, which is the unknown.
fn push_part(
    alloc: Global,
    rows: &mut Items<Row>,
    unknown: u32,
    part: &(Own, bool),
) -> Result<(), AllocError>
    ensures { OnOk result ((x : ℕ → ℤ) (w : AnyWord) → MeetsPart w part.now → x unknown ≡ pos (length w) → AreMet x rows.old → AreMet x rows.new) }
{
    if !part.1 {
        return Ok(());
    }
    match &part.0 {
        Own::Word(word) => {
            push_exact(alloc, rows, unknown, word.len())?;
            Ok(())
        }
        Own::Prefix(word) => {
            push_least(alloc, rows, unknown, word.len())?;
            Ok(())
        }
        Own::Suffix(word) => {
            push_least(alloc, rows, unknown, word.len())?;
            Ok(())
        }
        Own::Contains(word) => {
            push_least(alloc, rows, unknown, word.len())?;
            Ok(())
        }
        Own::Digit => {
            push_exact(alloc, rows, unknown, 1)?;
            Ok(())
        }
        Own::InRe(_) => Ok(()),
    }
}

/// Adds what is said of the length of a variable's word, which is the unknown.
fn push_variable(
    alloc: Global,
    rows: &mut Items<Row>,
    unknown: u32,
    variable: &Variable,
) -> Result<(), AllocError>
    ensures { OnOk result ((x : ℕ → ℤ) (w : AnyWord) → MeetsParts variable.now w → x unknown ≡ pos (length w) → AreMet x rows.old → AreMet x rows.new) }
{
    push_least(alloc, rows, unknown, 0)?;
    for part in variable.parts.as_slice() {
        push_part(alloc, rows, unknown, part)?;
    }
    Ok(())
}

/// Adds what is said of the lengths of the variables' words, which are the unknowns from `base` on.
pub fn push_variables(
    alloc: Global,
    rows: &mut Items<Row>,
    base: u32,
    variables: &[Variable],
) -> Result<(), AllocError>
    requires { base + length variables.now < 2 ^ 32 }
    ensures { OnOk result ((x : ℕ → ℤ) (words : List AnyWord) → AllZip MeetsParts variables.now words → HasLengths base x words → AreMet x rows.old → AreMet x rows.new) }
{
    for at in 0..variables.len() {
        push_variable(alloc, rows, base + at as u32, &variables[at])?;
    }
    Ok(())
}
