//! Rows of lengths that are sums of lengths.
ghost use Rattle.std.specs.Prelude.{◌≡◌, ◌<◌, ◌^◌, ◌+◌, ◌+ℤ◌, ◌-ℤ◌, ℕ, ℤ, pos, List, length, map, get_or, IfOk, IfSome, OnOk};
ghost use Rattle.std.specs.List.{AllByRecursion};
ghost use Rattle.sv_terms.specs.Language.{Word as AnyWord};
ghost use Rattle.sv_terms.specs.Meaning.{joined};
ghost use Rattle.sv_linear.specs.Forms.{form_value};
ghost use Rattle.flat_cubes.specs.Satisfying.{Defines, word_at};
ghost use Rattle.length_rows.specs.Lengths.{AreMet, HasLengths};

use flat_cubes::{By, Definition};
use std::alloc::{AllocError, Global};
use std::slice;
use sv_linear::{Form, FormFault, Row, RowKind};
use sv_list::Items;

/// A concatenation of more pieces makes no row.
const MOST_PIECES: usize = 256;

/// The form with one more length; `None` where a number leaves 128 bits.
fn with_length(
    alloc: Global,
    form: &Form,
    base: u32,
    variable: u32,
) -> Result<Option<Form>, AllocError>
    ensures { IfOk result (λ o. IfSome o (λ f. (x : ℕ → ℤ) → form_value x (pos 1) f ≡ form_value x (pos 1) form.now +ℤ x (base + variable))) }
{
    let Some(unknown) = base.checked_add(variable) else {
        return Ok(None);
    };
    let term = Form::of_unknown(alloc, unknown)?;
    match form.add(alloc, &term) {
        Ok(sum) => Ok(Some(sum)),
        Err(FormFault::Past { left: _, right: _ }) => Ok(None),
        Err(FormFault::Memory(error)) => Err(error),
    }
}

/// The lengths of the pieces added up, without the unknown `whole`; `None` where a number leaves 128 bits.
fn difference_of(
    alloc: Global,
    base: u32,
    whole: u32,
    pieces: &[u32],
) -> Result<Option<Form>, AllocError>
    ensures { IfOk result (λ o. IfSome o (λ f. (x : ℕ → ℤ) (words : List AnyWord) → HasLengths base x words → form_value x (pos 1) f ≡ pos (length (joined (map (word_at words) pieces.now))) -ℤ x whole)) }
{
    let mut form = Form::of_constant(alloc, 0);
    form.push(whole, -1)?;
    for at in (0..pieces.len()).rev() {
        match with_length(alloc, &form, base, pieces[at])? {
            None => return Ok(None),
            Some(sum) => form = sum,
        }
    }
    Ok(Some(form))
}

/// Adds a row: the unknown `whole` is the length of the joined words of the pieces.
fn push_sum(
    alloc: Global,
    rows: &mut Items<Row>,
    base: u32,
    whole: u32,
    pieces: &[u32],
) -> Result<(), AllocError>
    ensures { OnOk result ((x : ℕ → ℤ) (words : List AnyWord) → x whole ≡ pos (length (joined (map (word_at words) pieces.now))) → HasLengths base x words → AreMet x rows.old → AreMet x rows.new) }
{
    if pieces.len() > MOST_PIECES {
        return Ok(());
    }
    match difference_of(alloc, base, whole, pieces)? {
        None => Ok(()),
        Some(form) => {
            rows.push(Row {
                form,
                kind: RowKind::Eq,
            })?;
            Ok(())
        }
    }
}

/// Adds what a definition says of lengths.
fn push_definition(
    alloc: Global,
    rows: &mut Items<Row>,
    base: u32,
    definition: &Definition,
) -> Result<(), AllocError>
    ensures { OnOk result ((x : ℕ → ℤ) (words : List AnyWord) → Defines words definition.now → HasLengths base x words → AreMet x rows.old → AreMet x rows.new) }
{
    let Some(whole) = base.checked_add(definition.variable) else {
        return Ok(());
    };
    match &definition.by {
        By::Concat(pieces) => {
            push_sum(alloc, rows, base, whole, pieces.as_slice())?;
            Ok(())
        }
        By::First(_, _, _) => Ok(()),
        By::All(_, _, _) => Ok(()),
        By::Through(_, _) => Ok(()),
    }
}

/// Adds what the definitions say of lengths.
pub fn push_definitions(
    alloc: Global,
    rows: &mut Items<Row>,
    base: u32,
    definitions: &[Definition],
) -> Result<(), AllocError>
    ensures { OnOk result ((x : ℕ → ℤ) (words : List AnyWord) → AllByRecursion (Defines words) definitions.now → HasLengths base x words → AreMet x rows.old → AreMet x rows.new) }
{
    for definition in definitions {
        push_definition(alloc, rows, base, definition)?;
    }
    Ok(())
}

/// Adds a row for each register, which is the length of its variable. Registers are the unknowns from `first` on.
pub fn push_registers(
    alloc: Global,
    rows: &mut Items<Row>,
    base: u32,
    first: u32,
    registers: &[u32],
) -> Result<(), AllocError>
    requires { first + length registers.now < 2 ^ 32 }
    ensures { OnOk result ((x : ℕ → ℤ) (words : List AnyWord) → ((i : ℕ) → i < length registers.now → x (first + i) ≡ pos (length (word_at words (get_or registers.now i 0)))) → HasLengths base x words → AreMet x rows.old → AreMet x rows.new) }
{
    for at in 0..registers.len() {
        push_sum(
            alloc,
            rows,
            base,
            first + at as u32,
            slice::from_ref(&registers[at]),
        )?;
    }
    Ok(())
}
