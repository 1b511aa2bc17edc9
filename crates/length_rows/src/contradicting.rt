//! Whether the rows and the lengths of a flat cube contradict one another.
ghost use Rattle.std.specs.Prelude.{◌≡◌, ◌<◌, ◌^◌, ◌+◌, true, length, List, ℤ, IfOk};
ghost use Rattle.sv_terms.specs.Language.{Word as AnyWord};
ghost use Rattle.flat_cubes.specs.Satisfying.{Satisfies};
ghost use Rattle.flat_cubes.specs.Straight.{IsStraight};
ghost use Rattle.length_rows.specs.Lengths.{AreImplied, own_unknowns};

use crate::closing::has_no_solution;
use crate::naming::name_below;
use crate::part_rows::push_variables;
use crate::sum_rows::{push_definitions, push_registers};
use farkas_check::{System, rows_are_constraints};
use flat_cubes::Flat;
use std::alloc::{AllocError, Global};
use sv_linear::Row;
use sv_list::{Copied, Items};

/// A cube of more variables isn't looked at.
const MOST_VARIABLES: usize = 4096;

/// A cube of more integer constants or registers isn't looked at.
const MOST_UNKNOWNS: usize = 64;

/// The rows of the cube, and what its text says of lengths, over the unknowns of the cube's rows and the length of each
/// variable behind these.
fn length_rows(
    alloc: Global,
    flat: &Flat,
    integers: u32,
    base: u32,
) -> Result<Items<Row>, AllocError>
    requires straight { IsStraight flat.now }
    requires integers { integers ≡ length flat.now.integers }
    requires base { base ≡ own_unknowns flat.now }
    requires few { base + length flat.now.variables < 2 ^ 32 }
    ensures { IfOk result (AreImplied flat.now) }
{
    let mut rows = flat.rows.copy(alloc)?;
    push_registers(alloc, &mut rows, base, integers, flat.registers.as_slice())?;
    push_variables(alloc, &mut rows, base, flat.variables.as_slice())?;
    push_definitions(alloc, &mut rows, base, flat.definitions.as_slice())?;
    Ok(rows)
}

/// Whether the lengths of the cube's words and its integer constants can't meet its rows, as far as their bounds tell.
///
/// True only where nothing satisfies the cube. False where there is no row, or more than 4,096 variables.
pub fn contradict(alloc: Global, flat: &Flat) -> Result<bool, AllocError>
    requires { IsStraight flat.now }
    ensures { IfOk result (λ found. found ≡ true → (words : List AnyWord) (numbers : List ℤ) → Satisfies flat.now words numbers → ⊥) }
{
    rows_are_constraints();
    if flat.rows.is_empty()
        || flat.variables.len() > MOST_VARIABLES
        || flat.integers.len() > MOST_UNKNOWNS
        || flat.registers.len() > MOST_UNKNOWNS
    {
        return Ok(false);
    }
    let integers = flat.integers.len() as u32;
    let base = integers + flat.registers.len() as u32;
    let unknowns = base + flat.variables.len() as u32;
    let rows = length_rows(alloc, flat, integers, base)?;
    if !name_below(rows.as_slice(), unknowns) {
        return Ok(false);
    }
    let system = System {
        unknowns,
        rows,
        nets: Items::new(alloc),
    };
    let found = has_no_solution(alloc, &system)?;
    Ok(found)
}
