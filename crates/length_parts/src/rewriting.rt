//! Rows that become parts.
ghost use Rattle.std.specs.Prelude.{◌≡◌, ◌<◌, ◌++◌, ◌∷◌, [], ℕ, true, length, get_or, slice_get, slice_set, Some, IfOk, IfSome};
ghost use Rattle.sv_linear.specs.declared.form.Form.{Form as AnyForm};
ghost use Rattle.flat_cubes.specs.declared.variable.Own.TheVariants.{InRe};
ghost use Rattle.length_parts.specs.Rewriting.{HasWordsOf, IsBare, IsBoundBy, IsRegisterOf, IsRewriting};
ghost use Rattle.length_parts.specs.Steps.{IsBoundRow, with_part};

use crate::bound::LengthBound;
use crate::bounding::{bound_by, source_of};
use crate::lengths::regex_of;
use flat_cubes::{Flat, Own};
use std::alloc::{AllocError, Global};
use sv_linear::Row;
use sv_list::Items;
use sv_terms::Regex;

/// A term of a row.
#[derive(Clone, Copy)]
struct Term {
    unknown: u32,
    coefficient: i128,
}

/// A row that bounds the length of a variable.
#[derive(Clone, Copy)]
struct BoundRow {
    variable: u32,
    bound: LengthBound,
}

/// The term of the row, where it has no other.
fn only_term(row: &Row) -> Option<Term>
    ensures { IfSome result (λ t. row.now.form.coefficients ≡ (t.unknown, t.coefficient) ∷ []) }
{
    let coefficients = row.form.coefficients.as_slice();
    if coefficients.len() != 1 {
        return None;
    }
    let (unknown, coefficient) = coefficients[0];
    Some(Term {
        unknown,
        coefficient,
    })
}

/// The row at this place as a bound of a variable's length, where it is one.
fn bound_at(flat: &Flat, at: usize) -> Option<BoundRow>
    ensures { IfSome result (λ b. IsBoundRow flat.now at b.variable b.bound) }
{
    let row = flat.rows.get(at)?;
    let term = only_term(row)?;
    let variable = source_of(flat, term.unknown)?;
    let bound = bound_by(row.kind, term.coefficient, row.form.constant)?;
    Some(BoundRow { variable, bound })
}

/// The cube with one more part of the variable, and without the row at this place.
fn with_part(flat: Flat, at: usize, variable: u32, regex: Regex) -> Result<Flat, AllocError>
    requires row { at < length flat.rows }
    requires variable { variable < length flat.variables }
    ensures { IfOk result (λ new. new ≡ with_part flat at variable (InRe regex)) }
{
    let Flat {
        variables,
        definitions,
        mut rows,
        registers,
        integers,
        truths,
        broken,
    } = flat;
    let mut list = variables.into_vec();
    list[variable as usize]
        .parts
        .push((Own::InRe(regex), true))?;
    let _row = rows.remove(at);
    Ok(Flat {
        variables: Items::from_vec(list),
        definitions,
        rows,
        registers,
        integers,
        truths,
        broken,
    })
}

/// The cube with the row at this place as a part, where it bounds a length.
fn rewrite_at(alloc: Global, flat: Flat, at: usize) -> Result<Flat, AllocError>
    ensures { IfOk result (IsRewriting flat) }
{
    match bound_at(&flat, at) {
        None => Ok(flat),
        Some(row) => {
            let regex = regex_of(alloc, row.bound)?;
            let new = with_part(flat, at, row.variable, regex)?;
            Ok(new)
        }
    }
}

/// The cube without registers, where it has no rows.
fn without_idle_registers(flat: Flat) -> Flat
    ensures rewriting { IsRewriting flat result }
    ensures bare { IsBare result }
{
    if !flat.rows.is_empty() {
        return flat;
    }
    let Flat {
        variables,
        definitions,
        rows,
        mut registers,
        integers,
        truths,
        broken,
    } = flat;
    registers.truncate(0);
    Flat {
        variables,
        definitions,
        rows,
        registers,
        integers,
        truths,
        broken,
    }
}

/// The cube with each row that bounds the length of a variable as a part of that, where the variable has no
/// definition, its coefficient is 1 or -1 and the bound is at most 64.
///
/// Memory for a regular expression each. The only error is want of memory.
pub fn with_length_parts(alloc: Global, flat: Flat) -> Result<Flat, AllocError>
    ensures rewriting { IfOk result (IsRewriting flat) }
    ensures bare { IfOk result IsBare }
{
    let rewritten = rewrite_all(alloc, flat)?;
    let new = without_idle_registers(rewritten);
    Ok(new)
}

/// Whether some row bounds a length so: `with_length_parts` leaves such rows out.
pub fn has_length_rows(flat: &Flat) -> bool {
    for at in 0..flat.rows.len() {
        if bound_at(flat, at).is_some() {
            return true;
        }
    }
    false
}

/// The cube with all such rows as parts.
fn rewrite_all(alloc: Global, flat: Flat) -> Result<Flat, AllocError>
    ensures { IfOk result (IsRewriting flat) }
{
    let count = flat.rows.len();
    let mut new = flat;
    for at in (0..count).rev() {
        new = rewrite_at(alloc, new, at)?;
    }
    Ok(new)
}
