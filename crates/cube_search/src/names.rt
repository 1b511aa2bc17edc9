//! Variables that a refutation names, as marks by their numbers. A variable without a mark isn't named.
ghost use Rattle.std.specs.Prelude.{◌≡◌, ℕ, false, ◌≤◌, [], ◌∷◌, length, Contains, IfOk, OnOk};
ghost use Rattle.cube_search.specs.Conflicts.{is_named, AreJoined, AreNamesOf, IsNamedToo};

use std::alloc::{AllocError, Global};
use sv_list::{Items, at};

/// Whether the variable is named. Constant time.
pub fn is_named(names: &[bool], v: u32) -> bool
    ensures { result ≡ is_named names.now v }
{
    match at(names, v as usize) {
        None => false,
        Some(mark) => *mark,
    }
}

/// Whether one of these variables is named. Linear in their number.
pub fn names_any(names: &[bool], variables: &[u32]) -> bool
    ensures { result ≡ false → (v : ℕ) → Contains variables.now v → is_named names.now v ≡ false }
{
    for i in 0..variables.len() {
        if is_named(names, variables[i]) {
            return true;
        }
    }
    false
}

/// Names the variable of this number too. Linear in it, less the marks that there are.
pub fn add_name(names: &mut Items<bool>, v: usize) -> Result<(), AllocError>
    ensures { OnOk result (IsNamedToo v names.old names.new) }
{
    if v < names.len() {
        names.set(v, true);
        return Ok(());
    }
    lengthen(names, v)?;
    names.push(true)?;
    Ok(())
}

/// The name of the variable of this number alone. Linear in it.
pub fn only(alloc: Global, v: usize) -> Result<Items<bool>, AllocError>
    ensures { IfOk result (AreNamesOf (v ∷ [])) }
{
    let mut names = Items::new(alloc);
    add_name(&mut names, v)?;
    Ok(names)
}

// So many marks; the new ones name nothing.
fn lengthen(names: &mut Items<bool>, number: usize) -> Result<(), AllocError>
    requires { length names.old ≤ number }
    ensures same { OnOk result ((u : ℕ) → is_named names.new u ≡ is_named names.old u) }
    ensures long { OnOk result (length names.new ≡ number) }
{
    for _place in names.len()..number {
        names.push(false)?;
    }
    Ok(())
}

/// The names of these variables. Linear in their number and in the greatest of them.
pub fn names_of(alloc: Global, variables: &[u32]) -> Result<Items<bool>, AllocError>
    ensures { IfOk result (AreNamesOf variables.now) }
{
    let mut names = Items::new(alloc);
    for i in 0..variables.len() {
        add_name(&mut names, variables[i] as usize)?;
    }
    Ok(names)
}

/// Names the others too. Linear in the marks.
pub fn add_names(names: &mut Items<bool>, others: &[bool]) -> Result<(), AllocError>
    ensures { OnOk result (AreJoined names.old others.now names.new) }
{
    for v in 0..others.len() {
        if !others[v] {
            continue;
        }
        add_name(names, v)?;
    }
    Ok(())
}
