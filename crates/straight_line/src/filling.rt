//! Variables with what was met at their places.
ghost use Rattle.std.specs.Prelude.{◌≡◌, ◌<◌, get_or, length, replicate, IfOk, OnOk};
ghost use Rattle.straight_line.specs.Filling.{AreNumbersBelow, ArePartsBelow, free_variable, named, named_all, parted, parted_all};

use flat_cubes::{Own, Variable};
use std::alloc::{AllocError, Global};
use sv_list::Items;
use sv_terms::Name;

/// All variables with what was met at their places, in the order in which it was met, by the variables of
/// places. Linear.
pub fn variables(
    alloc: Global,
    count: u32,
    of: &[u32],
    names: Items<Option<Name>>,
    parts: Items<(u32, (Own, bool))>,
) -> Result<Items<Variable>, AllocError>
    requires places { length names ≡ length of.now }
    requires numbers { AreNumbersBelow count of.now }
    requires parts { ArePartsBelow (length of.now) parts }
    ensures { IfOk result (λ vs. vs ≡ parted_all of.now parts (named_all of.now names (replicate count free_variable))) }
{
    let mut variables = free_variables(alloc, count)?;
    add_names(&mut variables, of, names)?;
    add_parts(&mut variables, of, parts)?;
    Ok(Items::from_vec(variables))
}

/// So many variables of which nothing is said.
fn free_variables(alloc: Global, count: u32) -> Result<Vec<Variable>, AllocError>
    ensures { IfOk result (λ vs. vs.items ≡ replicate count free_variable) }
{
    let mut variables = Vec::new(alloc);
    for _variable in 0..count {
        variables.push(Variable {
            names: Items::new(alloc),
            parts: Items::new(alloc),
        })?;
    }
    Ok(variables)
}

/// Adds the name of each place to its variable.
fn add_names(
    variables: &mut Vec<Variable>,
    of: &[u32],
    names: Items<Option<Name>>,
) -> Result<(), AllocError>
    requires places { length names ≡ length of.now }
    requires numbers { AreNumbersBelow (length variables.old.items) of.now }
    ensures count { length variables.new.items ≡ length variables.old.items }
    ensures named { OnOk result (variables.new.items ≡ named_all of.now names variables.old.items) }
{
    let mut i = 0;
    for name in names.into_vec() {
        let variable = variable_at(of, i);
        add_name(variables, variable, name)?;
        i += 1;
    }
    Ok(())
}

fn variable_at(of: &[u32], place: usize) -> u32
    requires { place < length of.now }
    ensures inside { place < length of.now }
    ensures number { result ≡ get_or of.now place 0 }
{
    of[place]
}

fn add_name(
    variables: &mut Vec<Variable>,
    variable: u32,
    name: Option<Name>,
) -> Result<(), AllocError>
    requires { variable < length variables.old.items }
    ensures count { length variables.new.items ≡ length variables.old.items }
    ensures named { OnOk result (variables.new.items ≡ named variable name variables.old.items) }
{
    match name {
        Some(name) => variables[variable as usize].names.push(name),
        None => Ok(()),
    }
}

/// Adds each part to the variable of its place.
fn add_parts(
    variables: &mut Vec<Variable>,
    of: &[u32],
    parts: Items<(u32, (Own, bool))>,
) -> Result<(), AllocError>
    requires numbers { AreNumbersBelow (length variables.old.items) of.now }
    requires parts { ArePartsBelow (length of.now) parts }
    ensures { OnOk result (variables.new.items ≡ parted_all of.now parts variables.old.items) }
{
    for (place, part) in parts.into_vec() {
        add_part(variables, of[place as usize], part)?;
    }
    Ok(())
}

fn add_part(
    variables: &mut Vec<Variable>,
    variable: u32,
    part: (Own, bool),
) -> Result<(), AllocError>
    requires { variable < length variables.old.items }
    ensures count { length variables.new.items ≡ length variables.old.items }
    ensures parted { OnOk result (variables.new.items ≡ parted variable part variables.old.items) }
{
    variables[variable as usize].parts.push(part)
}
