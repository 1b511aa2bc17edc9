//! A part of a flat cube, as a cube of its own.
ghost use Rattle.std.specs.Prelude.{◌≡◌, ◌++◌, ◌∷◌, [], cond, filter, take, IfOk, OnOk};
ghost use Rattle.std.specs.List.{AllByRecursion, AllZip, Contains};
ghost use Rattle.flat_cubes.specs.declared.definition.Definition.{Definition as AnyDefinition};
ghost use Rattle.cube_search.specs.Conflicts.{is_named};
ghost use Rattle.cube_search.specs.Parts.{IsBareOf, IsPart};

use crate::names::is_named;
use crate::parts::node_of;
use flat_cubes::{By, Definition, Flat, Own, Variable};
use std::alloc::{AllocError, Global};
use sv_linear::Row;
use sv_list::{Copied, Items, at};

/// What a flat cube says of the variables that are marked, with the rows over their lengths. The numbers of the variables
/// stay; no variable has a name. Linear in the cube.
pub fn part_of(alloc: Global, flat: &Flat, marks: &[bool]) -> Result<Flat, AllocError>
    ensures { IfOk result (IsPart flat.now marks.now) }
{
    let variables = part_variables(alloc, flat.variables.as_slice(), marks)?;
    let definitions = part_definitions(alloc, flat.definitions.as_slice(), marks)?;
    let rows = part_rows(alloc, flat, marks)?;
    let registers = if rows.is_empty() {
        Items::new(alloc)
    } else {
        flat.registers.copy(alloc)?
    };
    Ok(Flat {
        variables,
        definitions,
        rows,
        registers,
        integers: flat.integers.copy(alloc)?,
        truths: Items::new(alloc),
        broken: flat.broken,
    })
}

fn part_variables(
    alloc: Global,
    variables: &[Variable],
    marks: &[bool],
) -> Result<Items<Variable>, AllocError>
    ensures { IfOk result (AllZip IsBareOf variables.now) }
{
    let mut bare = Items::new(alloc);
    for place in 0..variables.len() {
        let chosen = is_marked(marks, place);
        bare.push(bare_unless(alloc, &variables[place], chosen)?)?;
    }
    Ok(bare)
}

// The variable without names, and without what is said of it unless it is chosen.
fn bare_unless(alloc: Global, variable: &Variable, chosen: bool) -> Result<Variable, AllocError>
    ensures { IfOk result (IsBareOf variable.now) }
{
    let names = Items::new(alloc);
    if !chosen {
        return Ok(Variable {
            names,
            parts: Items::new(alloc),
        });
    }
    Ok(Variable {
        names,
        parts: copy_parts(alloc, variable.parts.as_slice())?,
    })
}

fn copy_parts(alloc: Global, parts: &[(Own, bool)]) -> Result<Items<(Own, bool)>, AllocError>
    ensures { IfOk result (λ all. all ≡ parts.now) }
{
    let mut all = Items::new(alloc);
    for part in parts {
        all.push((copy_own(alloc, &part.0)?, part.1))?;
    }
    Ok(all)
}

fn copy_own(alloc: Global, own: &Own) -> Result<Own, AllocError>
    ensures { IfOk result (λ o. o ≡ own.now) }
{
    match own {
        Own::Word(word) => Ok(Own::Word(word.copy(alloc)?)),
        Own::InRe(regex) => Ok(Own::InRe(regex.copy(alloc)?)),
        Own::Prefix(word) => Ok(Own::Prefix(word.copy(alloc)?)),
        Own::Suffix(word) => Ok(Own::Suffix(word.copy(alloc)?)),
        Own::Contains(word) => Ok(Own::Contains(word.copy(alloc)?)),
        Own::Digit => Ok(Own::Digit),
    }
}

fn part_definitions(
    alloc: Global,
    definitions: &[Definition],
    marks: &[bool],
) -> Result<Items<Definition>, AllocError>
    ensures { IfOk result (λ ds. ds ≡ filter (λ (d : AnyDefinition). is_named marks.now d.variable) definitions.now) }
{
    let mut chosen = Items::new(alloc);
    for definition in definitions {
        add_definition(alloc, &mut chosen, definition, marks)?;
    }
    Ok(chosen)
}

fn add_definition(
    alloc: Global,
    chosen: &mut Items<Definition>,
    definition: &Definition,
    marks: &[bool],
) -> Result<(), AllocError>
    ensures { OnOk result (chosen.new ≡ chosen.old ++ cond (is_named marks.now definition.now.variable) (definition.now ∷ []) []) }
{
    if !is_named(marks, definition.variable) {
        return Ok(());
    }
    let by = copy_by(alloc, &definition.by)?;
    chosen.push(Definition {
        variable: definition.variable,
        by,
    })?;
    Ok(())
}

fn copy_by(alloc: Global, by: &By) -> Result<By, AllocError>
    ensures { IfOk result (λ b. b ≡ by.now) }
{
    match by {
        By::Concat(pieces) => Ok(By::Concat(pieces.copy(alloc)?)),
        By::First(old, new, read) => Ok(By::First(old.copy(alloc)?, new.copy(alloc)?, *read)),
        By::All(old, new, read) => Ok(By::All(old.copy(alloc)?, new.copy(alloc)?, *read)),
        By::Through(transducer, read) => Ok(By::Through(transducer.copy(alloc)?, *read)),
    }
}

// The rows whose first unknown is of the part.
fn part_rows(alloc: Global, flat: &Flat, marks: &[bool]) -> Result<Items<Row>, AllocError>
    ensures { IfOk result (AllByRecursion (Contains flat.now.rows)) }
{
    let rows = flat.rows.as_slice();
    let mut chosen = Items::new(alloc);
    for i in 0..rows.len() {
        if !is_row_of(flat, &rows[i], marks) {
            continue;
        }
        chosen.push(rows[i].copy(alloc)?)?;
    }
    Ok(chosen)
}

fn is_row_of(flat: &Flat, row: &Row, marks: &[bool]) -> bool {
    match row.form.coefficients.as_slice() {
        [] => false,
        [term, ..] => is_marked(marks, node_of(flat, term.0)),
    }
}

fn is_marked(marks: &[bool], place: usize) -> bool {
    match at(marks, place) {
        None => false,
        Some(mark) => *mark,
    }
}
