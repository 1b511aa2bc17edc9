// A constant that is declared, and which names may be declared.
ghost use Rattle.std.specs.Prelude.{◌≡◌, Ok, Err, IfOk, IfErr, map};
ghost use Rattle.sv_terms.specs.Names.{symbol_name};
ghost use Rattle.term_weight.specs.Bodies as terms;
ghost use Rattle.sort_check.specs.Checking as commands;
ghost use Rattle.smt_names.specs.Faults.{Answers};
ghost use Rattle.smt_names.specs.Form.{seen, forms};
ghost use Rattle.smt_names.specs.Tokens as tokens;

use crate::commands::Command;
use sexpr_reader::Sexpr;
use smt_names::CheckFault;
use smt_names::signature::{is_reserved, sort_of};
use smt_names::token::{bare_name, is_sort_form, symbol};
use std::alloc::Global;
use sv_terms::{Name, Sort};
use term_weight::Declarations;

/// Whether parameters stand under such names: it begins with a backslash.
fn is_escaped(name: &[u8]) -> bool
    ensures { result ≡ terms.is_escaped name.now }
{
    match name {
        [first, ..] => *first == b'\\',
        [] => false,
    }
}

/// A name that may be declared.
pub fn free_name(alloc: Global, symbols: &Declarations, text: &[u8]) -> Result<Name, CheckFault>
    ensures ok { IfOk result (λ n. (n ≡ symbol_name text.now) × (commands.free symbols.now n ≡ Ok tt)) }
    ensures err { IfErr result (λ f. Answers (commands.free symbols.now (symbol_name text.now)) (Err f)) }
{
    let name = bare_name(text);
    if is_escaped(name) {
        return Err(CheckFault::Shape);
    }
    if is_reserved(name) {
        return Err(CheckFault::Reserved);
    }
    let name = Name::of(alloc, text)?;
    match symbols.get(&name) {
        Some(_) => Err(CheckFault::Declared),
        None => Ok(name),
    }
}

fn declare_as(name: Name, sort: Sort) -> Result<Command, CheckFault>
    ensures { result ≡ commands.declared_as name sort }
{
    match sort {
        Sort::RegLan => Err(CheckFault::Sort),
        _ => Ok(Command::Declare(name, sort)),
    }
}

#[tactic(auto, using(crate::proofs::Answering::answering))]
fn declaration(
    alloc: Global,
    symbols: &Declarations,
    name: &Sexpr,
    sort: &Sexpr,
) -> Result<Command, CheckFault>
    ensures { Answers (commands.declaration symbols.now (seen name.now) (seen sort.now)) result }
{
    if !is_sort_form(sort) {
        return Err(CheckFault::Shape);
    }
    match symbol(name) {
        Some(text) => {
            let name = free_name(alloc, symbols, text)?;
            match sort_of(sort) {
                Some(sort) => declare_as(name, sort),
                None => Err(CheckFault::Unknown),
            }
        }
        None => Err(CheckFault::Shape),
    }
}

pub fn declare_const(
    alloc: Global,
    symbols: &Declarations,
    parts: &[Sexpr],
) -> Result<Command, CheckFault>
    ensures { Answers (commands.declare_const symbols.now (forms (map seen parts.now))) result }
{
    match parts {
        [name, sort] => declaration(alloc, symbols, name, sort),
        _ => Err(CheckFault::Shape),
    }
}

#[tactic(auto, using(crate::proofs::Answering::emptiness))]
fn is_empty_list(item: &Sexpr) -> bool
    ensures { result ≡ commands.is_empty (tokens.listed (seen item.now)) }
{
    match item {
        Sexpr::List(items) => match items.as_slice() {
            [] => true,
            _ => false,
        },
        Sexpr::Atom(_, _) => false,
    }
}

pub fn declare_fun(
    alloc: Global,
    symbols: &Declarations,
    parts: &[Sexpr],
) -> Result<Command, CheckFault>
    ensures { Answers (commands.declare_fun symbols.now (forms (map seen parts.now))) result }
{
    match parts {
        [name, parameters, sort] => {
            if is_empty_list(parameters) {
                declaration(alloc, symbols, name, sort)
            } else {
                Err(CheckFault::Shape)
            }
        }
        _ => Err(CheckFault::Shape),
    }
}
