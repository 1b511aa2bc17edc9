// What `let`, quantifiers and macros bind.
ghost use Rattle.std.specs.Prelude.{◌≡◌, true, not, [], ◌∷◌, ◌++◌, map, IfOk};
ghost use Rattle.smt_names.specs.Signature.{stands_in};
ghost use Rattle.std.specs.List.{list_all};
ghost use Rattle.std.specs.Option.{option_map, option_to_list};
ghost use Rattle.sv_terms.specs.Names.{symbol_name};
ghost use Rattle.smt_names.specs.Form.{seen, forms, are_all};
ghost use Rattle.item_passes.specs.Binders as binders;

use indexmap::IndexSet;
use sexpr_reader::Sexpr;
use smt_names::CheckFault;
use smt_names::signature::sort_of;
use smt_names::token::{is_sort_form, pair, symbol};
use std::alloc::{AllocError, Global};
use sv_list::Items;
use sv_terms::{Name, Sort};

/// Whether it is a symbol and one item more: a binding of `let`.
pub(crate) fn is_binding(item: &Sexpr) -> bool
    ensures { result ≡ binders.is_binding (seen item.now) }
{
    bound_name(item).is_some()
}

/// Whether it is a symbol and its sort: a parameter, or a variable of a quantifier.
pub(crate) fn is_variable(item: &Sexpr) -> bool
    ensures { result ≡ binders.is_variable (seen item.now) }
{
    match pair(item) {
        Some((name, sort)) => symbol(name).is_some() && is_sort_form(sort),
        None => false,
    }
}

/// The text of the symbol that is bound first in a list of two.
pub(crate) fn bound_name(item: &Sexpr) -> Option<&[u8]>
    ensures { option_map (λ text. symbol_name text.now) result ≡ binders.bound_name (seen item.now) }
{
    match pair(item) {
        Some((name, _)) => symbol(name),
        None => None,
    }
}

fn all_bindings(items: &[Sexpr]) -> bool
    ensures { result ≡ list_all (λ item. binders.is_binding (seen item)) items.now }
{
    items.iter().all(is_binding)
}

/// Whether they are one or more bindings of `let`.
#[tactic(auto, using(crate::proofs::Looking::testing))]
pub fn are_bindings(items: &[Sexpr]) -> bool
    ensures { result ≡ binders.are_some binders.is_binding (forms (map seen items.now)) }
{
    !items.is_empty() && all_bindings(items)
}

/// Whether each is a symbol and its sort: the parameters of a macro.
pub fn are_parameters(items: &[Sexpr]) -> bool
    ensures { result ≡ are_all binders.is_variable (forms (map seen items.now)) }
{
    items.iter().all(is_variable)
}

/// Whether they are one or more variables of a quantifier.
#[tactic(auto, using(crate::proofs::Looking::testing))]
pub fn are_variables(items: &[Sexpr]) -> bool
    ensures { result ≡ binders.are_some binders.is_variable (forms (map seen items.now)) }
{
    !items.is_empty() && are_parameters(items)
}

/// The sort of a variable, where it is known.
pub(crate) fn variable_sort(item: &Sexpr) -> Option<Sort>
    ensures { result ≡ binders.variable_sort (seen item.now) }
{
    match pair(item) {
        Some((_, sort)) => sort_of(sort),
        None => None,
    }
}

/// Whether the name is new to those that were met, and then adds it.
fn is_new(met: &mut IndexSet<Name>, name: Name) -> Result<bool, AllocError>
    ensures answer { IfOk result (λ new. new ≡ not (stands_in met.old.keys name)) }
    ensures added { IfOk result (λ new. new ≡ true → met.new.keys ≡ met.old.keys ++ name ∷ []) }
{
    match met.insert(name) {
        Ok(new) => Ok(new),
        Err(_) => Err(AllocError),
    }
}

/// Whether two of the items bind one name. Linear, by a set of names.
#[tactic(auto, using(crate::proofs::Names::repeating))]
pub fn repeats(alloc: Global, items: &[Sexpr]) -> Result<bool, AllocError>
    ensures { IfOk result (λ r. r ≡ binders.repeats (binders.bound_names (forms (map seen items.now)))) }
{
    let mut met: IndexSet<Name> = IndexSet::new(alloc);
    for item in items {
        match bound_name(item) {
            Some(text) => {
                let name = Name::of(alloc, text)?;
                if !is_new(&mut met, name)? {
                    return Ok(true);
                }
            }
            None => {}
        }
    }
    Ok(false)
}

/// Unknown, where a variable has a sort that isn't known.
pub(crate) fn known_sort(item: &Sexpr) -> Result<(), CheckFault>
    ensures { result ≡ binders.known_sort (seen item.now) }
{
    match variable_sort(item) {
        Some(_) => Ok(()),
        None => Err(CheckFault::Unknown),
    }
}

/// Sort, where a variable has the sort RegLan.
pub(crate) fn no_language(item: &Sexpr) -> Result<(), CheckFault>
    ensures { result ≡ binders.no_language (seen item.now) }
{
    match variable_sort(item) {
        Some(Sort::RegLan) => Err(CheckFault::Sort),
        _ => Ok(()),
    }
}

/// A variable with its sort, if that is known.
fn variable(alloc: Global, item: &Sexpr) -> Result<Option<(Name, Sort)>, AllocError>
    ensures { IfOk result (λ v. option_to_list v ≡ binders.variable_of (binders.bound_name (seen item.now)) (binders.variable_sort (seen item.now))) }
{
    match bound_name(item) {
        Some(text) => match variable_sort(item) {
            Some(sort) => Ok(Some((Name::of(alloc, text)?, sort))),
            None => Ok(None),
        },
        None => Ok(None),
    }
}

/// The variables with their sorts, under the names that they are written with.
#[tactic(auto, using(crate::proofs::Names::binding))]
pub fn variables(alloc: Global, items: &[Sexpr]) -> Result<Items<(Name, Sort)>, AllocError>
    ensures { IfOk result (λ vs. vs ≡ binders.variables (forms (map seen items.now))) }
{
    let mut all = Items::new(alloc);
    for item in items {
        match variable(alloc, item)? {
            Some(variable) => all.push(variable)?,
            None => {}
        }
    }
    Ok(all)
}
