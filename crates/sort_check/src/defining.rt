// A macro or a transducer that is defined.
ghost use Rattle.std.specs.Prelude.{◌≡◌, [], ◌∷◌, IfOk, map};
ghost use Rattle.sv_terms.specs.Names.{symbol_name};
ghost use Rattle.item_passes.specs.Binders as binders;
ghost use Rattle.term_weight.specs.Bodies as terms;
ghost use Rattle.sort_check.specs.Checking as commands;
ghost use Rattle.smt_names.specs.Faults.{Answers};
ghost use Rattle.smt_names.specs.Form.{Forms, seen, forms};
ghost use Rattle.transducer_form.specs.Written as written;

use crate::commands::Command;
use crate::declaring::free_name;
use item_passes::{Pass, are_parameters, at_variables, look, repeats, variables};
use sexpr_reader::Sexpr;
use smt_names::CheckFault;
use smt_names::signature::sort_of;
use smt_names::token::{is_sort_form, list_items, symbol};
use std::alloc::{AllocError, Global};
use sv_list::Items;
use sv_terms::{Body, Entry, Name, Sort};
use term_draft::body_sort;
use term_walk::{parameter_name, settle_one};
use term_weight::{Declarations, same_sort};
use transducer_form::{Description, build_transducer};

/// The parameters of a macro as they stand in its body: under names with a backslash before them,
/// which no symbol has.
fn escape_parameters(
    alloc: Global,
    variables: &[(Name, Sort)],
) -> Result<Items<(Name, Sort)>, AllocError>
    ensures { IfOk result (λ ps. ps ≡ map (λ p. (terms.parameter_name p.0, p.1)) variables.now) }
{
    let mut all = Items::new(alloc);
    for variable in variables {
        all.push((parameter_name(alloc, &variable.0)?, variable.1))?;
    }
    Ok(all)
}

/// What is looked for in a definition before its body is walked.
#[tactic(auto, using(crate::proofs::Answering::answering))]
fn pass_definition(
    alloc: Global,
    parameters: &[Sexpr],
    sort: &Sexpr,
    body: &Sexpr,
) -> Result<(), CheckFault>
    ensures { Answers (commands.passed_definition (forms (map seen parameters.now)) (seen sort.now) (seen body.now)) result }
{
    if repeats(alloc, parameters)? {
        return Err(CheckFault::Declared);
    }
    look(alloc, Pass::Names, body)?;
    at_variables(Pass::Sorts, parameters)?;
    if sort_of(sort).is_none() {
        return Err(CheckFault::Unknown);
    }
    look(alloc, Pass::Sorts, body)?;
    at_variables(Pass::Languages, parameters)?;
    look(alloc, Pass::Languages, body)?;
    look(alloc, Pass::Numbers, body)
}

/// A macro of this body.
fn define_macro(
    alloc: Global,
    name: Name,
    variables: &[(Name, Sort)],
    sort: Sort,
    body: Body,
) -> Result<Command, CheckFault>
    ensures { (ps : Forms) → variables.now ≡ binders.variables ps → Answers (commands.defined name ps sort (body ∷ [])) result }
{
    if !same_sort(sort, body_sort(&body)) {
        // as in `command_without_parts`, by one call
        drop(body);
        return Err(CheckFault::Sort);
    }
    let parameters = escape_parameters(alloc, variables)?;
    Ok(Command::Define(name, Entry::Macro { parameters, body }))
}

#[tactic(auto, using(crate::proofs::Answering::answering))]
fn settle_definition(
    alloc: Global,
    symbols: &Declarations,
    name: Name,
    parameters: &[Sexpr],
    sort: Sort,
    body: &Sexpr,
) -> Result<Command, CheckFault>
    ensures { Answers (commands.settled_definition symbols.now name (forms (map seen parameters.now)) (seen body.now) sort) result }
{
    let variables = variables(alloc, parameters)?;
    let body = settle_one(alloc, symbols, variables.as_slice(), body)?;
    define_macro(alloc, name, variables.as_slice(), sort, body)
}

#[tactic(auto, using(crate::proofs::Answering::answering))]
fn definition(
    alloc: Global,
    symbols: &Declarations,
    text: &[u8],
    parameters: &[Sexpr],
    sort: &Sexpr,
    body: &Sexpr,
) -> Result<Command, CheckFault>
    ensures { Answers (commands.definition symbols.now (symbol_name text.now) (forms (map seen parameters.now)) (seen sort.now) (seen body.now)) result }
{
    let name = free_name(alloc, symbols, text)?;
    pass_definition(alloc, parameters, sort, body)?;
    match sort_of(sort) {
        Some(sort) => settle_definition(alloc, symbols, name, parameters, sort, body),
        None => Err(CheckFault::Unknown),
    }
}

pub fn define_fun(
    alloc: Global,
    symbols: &Declarations,
    parts: &[Sexpr],
) -> Result<Command, CheckFault>
    ensures { Answers (commands.define_fun symbols.now (forms (map seen parts.now))) result }
{
    match parts {
        [name, parameters, sort, body] => match list_items(parameters) {
            Some(parameters) => {
                if !are_parameters(parameters) || !is_sort_form(sort) {
                    return Err(CheckFault::Shape);
                }
                match symbol(name) {
                    Some(text) => definition(alloc, symbols, text, parameters, sort, body),
                    None => Err(CheckFault::Shape),
                }
            }
            None => Err(CheckFault::Shape),
        },
        _ => Err(CheckFault::Shape),
    }
}

/// The transducer of a description, under a name that may be declared.
#[tactic(auto, using(crate::proofs::Answering::answering))]
fn machine(
    alloc: Global,
    symbols: &Declarations,
    description: &Description<'_>,
    text: &[u8],
) -> Result<Command, CheckFault>
    ensures { Answers (commands.machine symbols.now (written.description_seen description.now) (symbol_name text.now)) result }
{
    let name = free_name(alloc, symbols, text)?;
    let transducer = build_transducer(alloc, description)?;
    Ok(Command::Define(name, Entry::Machine(transducer)))
}

pub fn define_transducer(
    alloc: Global,
    symbols: &Declarations,
    parts: &[Sexpr],
) -> Result<Command, CheckFault>
    ensures { Answers (commands.define_transducer symbols.now (forms (map seen parts.now))) result }
{
    match parts {
        [name, states, start, edges, ends] => {
            match Description::of(states, start, edges, ends) {
                Some(description) => match symbol(name) {
                    Some(text) => machine(alloc, symbols, &description, text),
                    None => Err(CheckFault::Shape),
                },
                None => Err(CheckFault::Shape),
            }
        }
        _ => Err(CheckFault::Shape),
    }
}
