// Names that are bound around a term, and the places of what they stand for.
ghost use Rattle.std.specs.Prelude.{◌≡◌, ◌++◌, ◌||◌, not, Ok, OnOk, IfOk};
ghost use Rattle.sv_terms.specs.declared.entry.Body.{Body as Meant};
ghost use Rattle.smt_names.specs.Form.{seen};
ghost use Rattle.smt_names.specs.Tokens as tokens;
ghost use Rattle.term_draft.specs.Drafts as drafts;
ghost use Rattle.term_weight.specs.Sizes as sizes;
ghost use Rattle.term_walk.specs.Meant as meaning;
ghost use Rattle.term_walk.specs.Walks as walks;
ghost use Rattle.term_walk.specs.Walks.{ReadsMeaning, Here, Bound};

use crate::parts::{constant, put_opaque};
use crate::scope::{Scope, parameter_name};
use crate::walk::Walk;
use sexpr_reader::Sexpr;
use smt_names::CheckFault;
use smt_names::token::symbol;
use std::alloc::{AllocError, Global};
use sv_list::Items;
use sv_terms::{Name, Sort};
use term_weight::same_sort;

/// The name of a binding, if it has one, with the place of its value.
fn bound_place(
    alloc: Global,
    name: &Sexpr,
    place: usize,
) -> Result<Items<(Name, usize)>, AllocError>
    ensures { IfOk result (λ q. q ≡ walks.bound_place (tokens.symbol (seen name.now)) place) }
{
    let mut bound = Items::new(alloc);
    match symbol(name) {
        Some(text) => {
            bound.push((Name::of(alloc, text)?, place))?;
            Ok(bound)
        }
        None => Ok(bound),
    }
}

fn is_either_true(a: bool, b: bool) -> bool
    ensures { result ≡ (a || b) }
{
    a || b
}

/// Notes whether the value at a place is too large.
fn note(walk: &mut Walk<'_>, place: usize)
    ensures scope { walk.new.scope ≡ walk.old.scope }
    ensures draft { walk.new.draft ≡ walk.old.draft }
    ensures past { walk.new.is_past ≡ (walk.old.is_past || not (sizes.fits (drafts.at_place walk.old.draft place))) }
{
    let past = !walk.draft.fits(place);
    walk.is_past = is_either_true(walk.is_past, past);
}

/// The name of a binding with the place of its value, which is noted if it is too large.
pub fn note_value(
    alloc: Global,
    walk: &mut Walk<'_>,
    name: &Sexpr,
    place: usize,
) -> Result<Items<(Name, usize)>, CheckFault>
    ensures { (x : Meant) → Here walk.old.draft place x
        → ReadsMeaning Bound (λ t. walks.bound_to t (tokens.symbol (seen name.now)) x) walk.old walk.new result }
{
    let bound = bound_place(alloc, name, place)?;
    note(walk, place);
    Ok(bound)
}

/// Binds names to places.
pub fn bind(alloc: Global, scope: &mut Scope, bound: &[(Name, usize)]) -> Result<(), AllocError>
    ensures { OnOk result (scope.new ≡ scope.old ++ bound.now) }
{
    for binding in bound {
        scope.bind(alloc, binding.0.copy(alloc)?, binding.1)?;
    }
    Ok(())
}

/// The name of the constant in the place of a variable, or of a parameter.
fn constant_name(alloc: Global, name: &Name, is_parameter: bool) -> Result<Name, AllocError>
    ensures { IfOk result (λ n. n ≡ meaning.renamed is_parameter name.now) }
{
    if is_parameter {
        parameter_name(alloc, name)
    } else {
        name.copy(alloc)
    }
}

/// Variables with places of constants, under their own names or under those of parameters.
pub fn constants(
    alloc: Global,
    walk: &mut Walk<'_>,
    variables: &[(Name, Sort)],
    are_parameters: bool,
) -> Result<Items<(Name, usize)>, CheckFault>
    ensures { ReadsMeaning Bound (λ t. Ok (meaning.as_constants (meaning.renamed are_parameters) variables.now)) walk.old walk.new result }
{
    let mut all = Items::new(alloc);
    for variable in variables {
        let bound = variable.0.copy(alloc)?;
        let name = constant_name(alloc, &variable.0, are_parameters)?;
        all.push((bound, constant(walk, name, variable.1)?))?;
    }
    Ok(all)
}

/// A quantified term is read and sorted alone.
pub fn quantify(walk: &mut Walk<'_>, place: usize) -> Result<usize, CheckFault>
    ensures { (x : Meant) → Here walk.old.draft place x
        → ReadsMeaning Here (λ t. meaning.quantified x) walk.old walk.new result }
{
    if !same_sort(Sort::Bool, walk.draft.sort(place)) {
        return Err(CheckFault::Sort);
    }
    put_opaque(walk, Sort::Bool)
}
