// What is looked for in the whole of a term before it is walked. Each pass takes time linear in the
// term, and stack in its nesting.
ghost use Rattle.std.specs.Prelude.{◌≡◌, map};
ghost use Rattle.smt_names.specs.Form.{seen, forms};
ghost use Rattle.item_passes.specs.Binders as binders;
ghost use Rattle.smt_names.specs.Faults.{Answers};
ghost use Rattle.item_passes.specs.Passes as passes;

use crate::binder::{are_bindings, are_variables, known_sort, no_language, repeats};
use crate::pass::Pass;
use sexpr_reader::Sexpr;
use smt_names::token::{digits, number, opening};
use smt_names::{CheckFault, Opening};
use std::alloc::Global;

/// Number, where a numeral is too large.
fn at_numeral(pass: Pass, item: &Sexpr) -> Result<(), CheckFault>
    ensures { result ≡ passes.at_numeral pass (seen item.now) }
{
    match pass {
        Pass::Numbers => match digits(item) {
            Some(digits) => match number(digits) {
                Some(_) => Ok(()),
                None => Err(CheckFault::Number),
            },
            None => Ok(()),
        },
        _ => Ok(()),
    }
}

/// Declared, where two bindings of a `let` have one name.
fn at_bindings(alloc: Global, pass: Pass, bindings: &[Sexpr]) -> Result<(), CheckFault>
    ensures { Answers (passes.at_bindings pass (forms (map seen bindings.now))) result }
{
    match pass {
        Pass::Names => {
            if repeats(alloc, bindings)? {
                Err(CheckFault::Declared)
            } else {
                Ok(())
            }
        }
        _ => Ok(()),
    }
}

/// What is wrong with the sorts of parameters, or of the variables of a quantifier.
pub fn at_variables(pass: Pass, variables: &[Sexpr]) -> Result<(), CheckFault>
    ensures { result ≡ passes.at_variables pass (forms (map seen variables.now)) }
{
    match pass {
        Pass::Sorts => known_sorts(variables),
        Pass::Languages => no_languages(variables),
        Pass::Names => Ok(()),
        Pass::Numbers => Ok(()),
    }
}

#[tactic(auto, using(crate::proofs::Looking::looking))]
fn known_sorts(variables: &[Sexpr]) -> Result<(), CheckFault>
    ensures { result ≡ binders.each binders.known_sort (forms (map seen variables.now)) }
{
    for variable in variables {
        known_sort(variable)?;
    }
    Ok(())
}

#[tactic(auto, using(crate::proofs::Looking::looking))]
fn no_languages(variables: &[Sexpr]) -> Result<(), CheckFault>
    ensures { result ≡ binders.each binders.no_language (forms (map seen variables.now)) }
{
    for variable in variables {
        no_language(variable)?;
    }
    Ok(())
}

/// What stands behind `_`.
#[tactic(auto, using(crate::proofs::Bound::identifiers))]
fn at_identifier(pass: Pass, parts: &[Sexpr]) -> Result<(), CheckFault>
    ensures { result ≡ passes.at_identifier pass (forms (map seen parts.now)) }
{
    match parts {
        [] => Ok(()),
        [_, indices @ ..] => at_indices(pass, indices),
    }
}

#[tactic(auto, using(crate::proofs::Looking::looking))]
fn at_indices(pass: Pass, indices: &[Sexpr]) -> Result<(), CheckFault>
    ensures { result ≡ binders.each (passes.at_numeral pass) (forms (map seen indices.now)) }
{
    for index in indices {
        at_numeral(pass, index)?;
    }
    Ok(())
}

/// The first fault of a term and the terms in it, from the left.
#[cycle(look)]
pub fn look(alloc: Global, pass: Pass, item: &Sexpr) -> Result<(), CheckFault>
    ensures { Answers (passes.looked pass (seen item.now)) result }
{
    match item {
        Sexpr::Atom(_, _) => at_numeral(pass, item),
        Sexpr::List(items) => match items.as_slice() {
            [] => Ok(()),
            [first, rest @ ..] => match opening(first) {
                Opening::Let => look_let(alloc, pass, rest),
                Opening::Quantifier => look_quantifier(alloc, pass, rest),
                Opening::Annotation => look_annotated(alloc, pass, rest),
                Opening::Identifier => at_identifier(pass, rest),
                Opening::Application => {
                    look_first(alloc, pass, first)?;
                    look_all(alloc, pass, rest)
                }
            },
        },
    }
}

/// The first fault of some terms, from the left.
#[cycle(look)]
#[tactic(auto, using(crate::proofs::Looking::looking))]
pub(crate) fn look_all(alloc: Global, pass: Pass, items: &[Sexpr]) -> Result<(), CheckFault>
    ensures { Answers (passes.looked_all pass (forms (map seen items.now))) result }
{
    for item in items {
        look(alloc, pass, item)?;
    }
    Ok(())
}

/// What an application begins with.
#[cycle(look)]
fn look_first(alloc: Global, pass: Pass, first: &Sexpr) -> Result<(), CheckFault>
    ensures { Answers (passes.in_list (seen first.now) (passes.looked pass (seen first.now))) result }
{
    match first {
        Sexpr::Atom(_, _) => Ok(()),
        Sexpr::List(_) => look(alloc, pass, first),
    }
}

#[cycle(look)]
#[tactic(auto, using(crate::proofs::Bound::lets))]
fn look_let(alloc: Global, pass: Pass, parts: &[Sexpr]) -> Result<(), CheckFault>
    ensures { Answers (passes.looked_let pass (forms (map seen parts.now))) result }
{
    match parts {
        [bindings, body] => match bindings {
            Sexpr::List(bindings) => {
                let bindings = bindings.as_slice();
                if !are_bindings(bindings) {
                    return Ok(());
                }
                at_bindings(alloc, pass, bindings)?;
                look_values(alloc, pass, bindings)?;
                look(alloc, pass, body)
            }
            Sexpr::Atom(_, _) => Ok(()),
        },
        _ => Ok(()),
    }
}

#[cycle(look)]
#[tactic(auto, using(crate::proofs::Looking::looking))]
fn look_values(alloc: Global, pass: Pass, bindings: &[Sexpr]) -> Result<(), CheckFault>
    ensures { Answers (passes.looked_values pass (forms (map seen bindings.now))) result }
{
    for binding in bindings {
        look_value(alloc, pass, binding)?;
    }
    Ok(())
}

#[cycle(look)]
fn look_value(alloc: Global, pass: Pass, binding: &Sexpr) -> Result<(), CheckFault>
    ensures { Answers (passes.looked_value pass (seen binding.now)) result }
{
    match binding {
        Sexpr::List(items) => match items.as_slice() {
            [_, value] => look(alloc, pass, value),
            _ => Ok(()),
        },
        Sexpr::Atom(_, _) => Ok(()),
    }
}

#[cycle(look)]
#[tactic(auto, using(crate::proofs::Bound::quantifiers))]
fn look_quantifier(alloc: Global, pass: Pass, parts: &[Sexpr]) -> Result<(), CheckFault>
    ensures { Answers (passes.looked_quantifier pass (forms (map seen parts.now))) result }
{
    match parts {
        [variables, body] => match variables {
            Sexpr::List(variables) => {
                let variables = variables.as_slice();
                if !are_variables(variables) {
                    return Ok(());
                }
                at_variables(pass, variables)?;
                look(alloc, pass, body)
            }
            Sexpr::Atom(_, _) => Ok(()),
        },
        _ => Ok(()),
    }
}

#[cycle(look)]
fn look_annotated(alloc: Global, pass: Pass, parts: &[Sexpr]) -> Result<(), CheckFault>
    ensures { Answers (passes.looked_annotated pass (forms (map seen parts.now))) result }
{
    match parts {
        [] => Ok(()),
        [term, ..] => look(alloc, pass, term),
    }
}

/// The four passes over terms, one after another.
pub fn pass_over(alloc: Global, items: &[Sexpr]) -> Result<(), CheckFault>
    ensures { Answers (passes.passed (forms (map seen items.now))) result }
{
    look_all(alloc, Pass::Names, items)?;
    look_all(alloc, Pass::Sorts, items)?;
    look_all(alloc, Pass::Languages, items)?;
    look_all(alloc, Pass::Numbers, items)
}
