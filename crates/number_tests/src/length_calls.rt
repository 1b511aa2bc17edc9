//! Rows and lengths of a flat cube, in which x is y, a seven and y once more.
ghost use Rattle.std.specs.Prelude.{◌<◌, IfOk};
ghost use Rattle.std.specs.List.{AllByRecursion};
ghost use Rattle.flat_cubes.specs.Straight.{IsRowBelow, IsStraight};

use flat_cubes::{By, Definition, Flat, Own, Variable};
use length_parts::{has_length_rows, with_length_parts};
use length_rows::contradict;
use std::alloc::{AllocError, Global};
use sv_linear::{Form, Row, RowKind};
use sv_list::Items;
use sv_word::Word;

const X: u32 = 0;

const Y: u32 = 1;

// That so many times the length and a number are 0 or less.
type Entry = (i32, i32);

// A variable of which nothing is said.
fn free(alloc: Global) -> Variable {
    Variable {
        names: Items::new(alloc),
        parts: Items::new(alloc),
    }
}

// The literal "7".
fn seven(alloc: Global) -> Result<Variable, AllocError> {
    let mut word = Word::new(alloc);
    word.push(0x37)?;
    let mut parts = Items::new(alloc);
    parts.push((Own::Word(word), true))?;
    Ok(Variable {
        names: Items::new(alloc),
        parts,
    })
}

fn row_of(alloc: Global, entry: Entry) -> Result<Row, AllocError>
    ensures { IfOk result (IsRowBelow 1) }
{
    let mut form = Form::of_constant(alloc, i128::from(entry.1));
    let times = i128::from(entry.0);
    if times != 0 {
        form.push(0, times)?;
    }
    Ok(Row {
        form,
        kind: RowKind::Le,
    })
}

fn rows_of(alloc: Global, first: Entry, second: Entry) -> Result<Items<Row>, AllocError>
    ensures { IfOk result (AllByRecursion (IsRowBelow 1)) }
{
    let mut rows = Items::new(alloc);
    rows.push(row_of(alloc, first)?)?;
    rows.push(row_of(alloc, second)?)?;
    Ok(rows)
}

// The cube with two rows on the length of one variable.
fn flat_of(alloc: Global, measured: u32, first: Entry, second: Entry) -> Result<Flat, AllocError>
    requires { measured < 3 }
    ensures { IfOk result IsStraight }
{
    let mut variables = Items::new(alloc);
    variables.push(free(alloc))?;
    variables.push(free(alloc))?;
    variables.push(seven(alloc)?)?;
    let pieces = Items::from_slice(alloc, &[1, 2, 1])?;
    let mut definitions = Items::new(alloc);
    definitions.push(Definition {
        variable: 0,
        by: By::Concat(pieces),
    })?;
    let registers = Items::from_slice(alloc, &[measured])?;
    let rows = rows_of(alloc, first, second)?;
    Ok(Flat {
        variables,
        definitions,
        rows,
        registers,
        integers: Items::new(alloc),
        truths: Items::new(alloc),
        broken: false,
    })
}

// Whether the cube with these rows on the length of x is refuted.
fn is_refuted(alloc: Global, first: Entry, second: Entry) -> Result<bool, AllocError> {
    let flat = flat_of(alloc, X, first, second)?;
    contradict(alloc, &flat)
}

#[test]
fn lengths_of_a_concatenation_with_a_seven(rt: HostRuntime) -> Result<(), AllocError> {
    let alloc = rt.alloc();
    for (first, second, refuted) in [
        ((0, 1), (0, 0), true), // 1 <= 0
        ((0, 0), (0, 0), false), // 0 <= 0
        ((1, 0), (1, 0), true), // the length is at most 0
        ((1, -1), (1, -1), false), // at most 1
        ((1, -2), (-1, 3), true), // at most 2, and at least 3
        ((1, -3), (-1, 3), false), // 3
    ] {
        assert!(rt; is_refuted(alloc, first, second)? == refuted);
    }
    Ok(())
}

// Whether rows on the length of y become parts, and neither rows nor registers are left then.
fn are_parts(alloc: Global, first: Entry, second: Entry) -> Result<bool, AllocError> {
    let flat = flat_of(alloc, Y, first, second)?;
    let found = has_length_rows(&flat);
    let new = with_length_parts(alloc, flat)?;
    Ok(found && new.rows.is_empty() && new.registers.is_empty())
}

// Whether rows on the length of this variable stay as they are.
fn stay(alloc: Global, measured: u32, first: Entry, second: Entry) -> Result<bool, AllocError>
    requires { measured < 3 }
{
    let flat = flat_of(alloc, measured, first, second)?;
    let found = has_length_rows(&flat);
    let new = with_length_parts(alloc, flat)?;
    Ok(!found && new.rows.len() == 2 && new.registers.len() == 1)
}

#[test]
fn bounds_up_to_64_of_a_source_become_parts(rt: HostRuntime) -> Result<(), AllocError> {
    let alloc = rt.alloc();
    assert!(rt; are_parts(alloc, (1, 0), (-1, 0))?);
    assert!(rt; are_parts(alloc, (1, -64), (-1, 64))?);
    assert!(rt; stay(alloc, Y, (1, -65), (-1, 65))?);
    assert!(rt; stay(alloc, Y, (2, -4), (-2, 4))?);
    assert!(rt; stay(alloc, X, (1, -5), (-1, 0))?);
    Ok(())
}
