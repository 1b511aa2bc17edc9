// What is asked of a level, a value, an information or a text.
ghost use Rattle.std.specs.Prelude.{◌≡◌, ℕ, [], ◌∷◌, map};
ghost use Rattle.std.specs.List.{list_all};
ghost use Rattle.sort_check.specs.declared.commands.Command.{Command as AnyCommand};
ghost use Rattle.sort_check.specs.Checking as commands;
ghost use Rattle.smt_names.specs.Faults.{Answers, made_of};
ghost use Rattle.smt_names.specs.Form.{seen, forms};
ghost use Rattle.smt_names.specs.Tokens as tokens;

use crate::commands::Command;
use item_passes::{Pass, look, pass_over};
use sexpr_reader::{Sexpr, copy_sexprs};
use smt_names::CheckFault;
use smt_names::token::{digits, keyword, level, list_items, literal_text};
use std::alloc::Global;
use sv_list::Items;
use sv_terms::{Body, Sort, Term};
use term_draft::{body_sort, into_term};
use term_walk::{settle_one, settle_sorts};
use term_weight::{Declarations, same_sort};

/// A number of levels.
fn levels(part: &Sexpr) -> Result<u32, CheckFault>
    ensures { (make : ℕ → AnyCommand) → made_of make result ≡ commands.level_command make (tokens.digits (seen part.now)) }
{
    match digits(part) {
        Some(digits) => match level(digits) {
            Some(n) => Ok(n),
            None => Err(CheckFault::Number),
        },
        None => Err(CheckFault::Shape),
    }
}

#[tactic(auto, using(crate::proofs::Counted::commands))]
pub fn level_count(parts: &[Sexpr]) -> Result<u32, CheckFault>
    ensures { (make : ℕ → AnyCommand) → made_of make result ≡ commands.stepped make (forms (map seen parts.now)) }
{
    match parts {
        [] => Ok(1),
        [n] => levels(n),
        _ => Err(CheckFault::Shape),
    }
}

fn has_values(sort: Sort) -> bool
    ensures { result ≡ commands.has_values sort }
{
    !same_sort(Sort::RegLan, sort)
}

/// Whether none is RegLan.
fn all_have_values(sorts: &[Sort]) -> bool
    ensures { result ≡ list_all commands.has_values sorts.now }
{
    for sort in sorts {
        if !has_values(*sort) {
            return false;
        }
    }
    true
}

#[tactic(auto, using(crate::proofs::Answering::reading))]
fn value_command(alloc: Global, items: &[Sexpr], sorts: &[Sort]) -> Result<Command, CheckFault>
    ensures { Answers (commands.valued (forms (map seen items.now)) sorts.now) result }
{
    if !all_have_values(sorts) {
        return Err(CheckFault::Sort);
    }
    Ok(Command::GetValue(copy_sexprs(alloc, items)?))
}

#[tactic(auto, using(crate::proofs::Answering::valuing))]
fn values(alloc: Global, symbols: &Declarations, items: &[Sexpr]) -> Result<Command, CheckFault>
    ensures { Answers (commands.values symbols.now (forms (map seen items.now))) result }
{
    if items.is_empty() {
        return Err(CheckFault::Shape);
    }
    pass_over(alloc, items)?;
    let sorts = settle_sorts(alloc, symbols, items)?;
    value_command(alloc, items, sorts.as_slice())
}

/// What is looked for in one term before it is walked.
#[tactic(auto, using(crate::proofs::Answering::answering))]
fn pass_term(alloc: Global, term: &Sexpr) -> Result<(), CheckFault>
    ensures { Answers (commands.passed_term (seen term.now)) result }
{
    look(alloc, Pass::Names, term)?;
    look(alloc, Pass::Sorts, term)?;
    look(alloc, Pass::Languages, term)?;
    look(alloc, Pass::Numbers, term)
}

fn term_of(body: Body) -> Result<Term, CheckFault>
    ensures { result ≡ commands.asked (body ∷ []) }
{
    if has_values(body_sort(&body)) {
        Ok(into_term(body))
    } else {
        // as in `command_without_parts`, by one call
        drop(body);
        Err(CheckFault::Sort)
    }
}

/// The term of one of the s-expressions of `Command::GetValue`, under the symbols under which the
/// command was checked. Then it has no fault but want of memory (`terms_are_taken_one_by_one`); else its fault is
/// the one that `get-value` of it alone has.
///
/// Time is linear in the item and the term that it answers. Stack is linear in the nesting.
#[tactic(auto, using(crate::proofs::Answering::answering))]
pub fn asked_term(alloc: Global, symbols: &Declarations, item: &Sexpr) -> Result<Term, CheckFault>
    ensures { Answers (commands.asked_term symbols.now (seen item.now)) result }
{
    pass_term(alloc, item)?;
    term_of(settle_one(alloc, symbols, &[], item)?)
}

pub fn get_value(
    alloc: Global,
    symbols: &Declarations,
    parts: &[Sexpr],
) -> Result<Command, CheckFault>
    ensures { Answers (commands.get_value symbols.now (forms (map seen parts.now))) result }
{
    match parts {
        [terms] => match list_items(terms) {
            Some(terms) => values(alloc, symbols, terms),
            None => Err(CheckFault::Shape),
        },
        _ => Err(CheckFault::Shape),
    }
}

#[tactic(auto, using(crate::proofs::Counted::commands))]
pub fn get_info(alloc: Global, parts: &[Sexpr]) -> Result<Command, CheckFault>
    ensures { Answers (commands.get_info (forms (map seen parts.now))) result }
{
    match parts {
        [part] => match keyword(part) {
            Some(keyword) => Ok(Command::GetInfo(Items::from_slice(alloc, keyword)?)),
            None => Err(CheckFault::Shape),
        },
        _ => Err(CheckFault::Shape),
    }
}

#[tactic(auto, using(crate::proofs::Counted::commands))]
pub fn echo(alloc: Global, parts: &[Sexpr]) -> Result<Command, CheckFault>
    ensures { Answers (commands.echo (forms (map seen parts.now))) result }
{
    match parts {
        [part] => match literal_text(part) {
            Some(text) => Ok(Command::Echo(Items::from_slice(alloc, text)?)),
            None => Err(CheckFault::Shape),
        },
        _ => Err(CheckFault::Shape),
    }
}
