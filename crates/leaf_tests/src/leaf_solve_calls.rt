//! One machine under a row on the length of its word.
ghost use Rattle.std.specs.Prelude.{◌≡◌, ◌≢◌, ℕ, pos, ◌≤◌, ◌<◌, [], ◌∷◌, Some, slice_get, IfOk};
ghost use Rattle.sv_linear.specs.Rows.{IsRowWithin};
ghost use Rattle.sv_linear.specs.declared.row.Row.{Row};

use leaf_solve::{Closing, LeafAnswer, leaf};
use machine_core::{Cost, Explicit};
use search_hits::Region;
use std::alloc::{AllocError, Global};
use sv_linear::{Form, Row, RowKind};
use sv_list::Items;
use sv_word::Ranges;

const REACH: u64 = 4_194_303;

/// What ends a question about a machine: a tree that closes it, or something else.
#[derive(Clone, Copy)]
enum Ending {
    Tree,
    Other,
}

fn ending_of(answer: &LeafAnswer) -> Ending {
    match answer {
        LeafAnswer::Closed(Closing::Tree(_, _)) => Ending::Tree,
        _ => Ending::Other,
    }
}

// Adds an edge on one letter, which counts as one character.
fn add_edge(
    alloc: Global,
    machine: &mut Explicit,
    from: u32,
    letter: u8,
    to: u32,
) -> Result<(), AllocError>
    requires from { from < machine.old.states }
    requires to { to < machine.old.states }
    requires registers { machine.old.registers ≡ 1 }
    ensures states { machine.new.states ≡ machine.old.states }
    ensures registers { machine.new.registers ≡ 1 }
{
    let on = Ranges::of(alloc, u32::from(letter), u32::from(letter))?;
    machine.add_edge(from, on, Cost::from_slice(alloc, &[1])?, to)
}

// The words `a`, and `bb` with any number of `ccc` behind it, with their lengths.
fn sample(alloc: Global) -> Result<Explicit, AllocError>
    ensures { IfOk result (λ m. m.registers ≡ 1) }
{
    let mut machine = Explicit::new(alloc, 6, 1)?;
    add_edge(alloc, &mut machine, 0, b'a', 1)?;
    add_edge(alloc, &mut machine, 0, b'b', 2)?;
    add_edge(alloc, &mut machine, 2, b'b', 3)?;
    add_edge(alloc, &mut machine, 3, b'c', 4)?;
    add_edge(alloc, &mut machine, 4, b'c', 5)?;
    add_edge(alloc, &mut machine, 5, b'c', 3)?;
    machine.add_end(1, Cost::zeros(alloc, 1)?)?;
    machine.add_end(3, Cost::zeros(alloc, 1)?)?;
    Ok(machine)
}

// That so many times the unknown 0, and a number, are 0 or at most 0.
fn row(alloc: Global, kind: RowKind, by: i128, constant: i128) -> Result<Row, AllocError>
    requires { by ≢ pos 0 }
    ensures terms { IfOk result (λ r. r.form.coefficients ≡ (0, by) ∷ []) }
    ensures constant { IfOk result (λ r. r.form.constant ≡ constant) }
    ensures kind { IfOk result (λ r. r.kind ≡ kind) }
{
    let mut form = Form::of_constant(alloc, constant);
    form.push(0, by)?;
    Ok(Row { form, kind })
}

// What is answered for one machine, with an empty region.
fn answer(alloc: Global, machine: Explicit, rows: &[Row], reach: u64) -> Result<Ending, AllocError>
    requires registers { machine.registers ≡ 1 }
    requires rows { (i : ℕ) (r : Row) → slice_get rows.now i ≡ Some r → IsRowWithin 1 r }
    requires reach { reach ≤ 4194303 }
{
    let mut machines = Items::new(alloc);
    machines.push(machine)?;
    let region = Region {
        empty: true,
        registers: Items::from_slice(alloc, &[(0, 0)])?,
        integers: Items::new(alloc),
    };
    let answer = leaf(alloc, machines.as_slice(), 0, rows, &region, false, reach)?;
    Ok(ending_of(&answer))
}

// What is answered where the word of a machine has so many characters.
fn answer_at(alloc: Global, machine: Explicit, length: u32) -> Result<Ending, AllocError>
    requires { machine.registers ≡ 1 }
{
    let mut rows = Items::new(alloc);
    rows.push(row(alloc, RowKind::Eq, 1, -i128::from(length))?)?;
    answer(alloc, machine, rows.as_slice(), REACH)
}

// An `a` and a `ccc` that lies apart have four characters, and balance.
#[test]
fn a_cycle_apart_is_closed_by_a_tree(rt: HostRuntime) -> Result<(), AllocError> {
    let alloc = rt.alloc();
    assert!(rt; matches!(answer_at(alloc, sample(alloc)?, 4)?, Ending::Tree));
    Ok(())
}
