// The command that an item is.
ghost use Rattle.std.specs.Prelude.{◌≡◌, Some, map};
ghost use Rattle.sort_check.specs.Checking as commands;
ghost use Rattle.smt_names.specs.Faults.{Answers};
ghost use Rattle.smt_names.specs.Form.{seen, forms};
ghost use Rattle.smt_names.specs.Tokens as tokens;
ghost use Rattle.smt_names.specs.Verbs.{verb_of as verb_is};

use crate::asking::{echo, get_info, get_value, level_count};
use crate::asserting::{assertion, check_assuming};
use crate::commands::Command;
use crate::declaring::{declare_const, declare_fun};
use crate::defining::{define_fun, define_transducer};
use crate::options::{set_info, set_logic, set_option};
use sexpr_reader::Sexpr;
use smt_names::signature::verb;
use smt_names::token::{list_items, symbol, word};
use smt_names::{CheckFault, CommandName};
use std::alloc::Global;
use term_weight::Declarations;

#[tactic(auto, using(crate::proofs::Counted::commands))]
fn command_without_parts(made: Command, parts: &[Sexpr]) -> Result<Command, CheckFault>
    ensures { result ≡ commands.without_parts made (forms (map seen parts.now)) }
{
    match parts {
        [] => Ok(made),
        _ => {
            // by one call, where the end of the scope would be a way for each variant
            drop(made);
            Err(CheckFault::Shape)
        }
    }
}

fn command_of(
    alloc: Global,
    symbols: &Declarations,
    verb: CommandName,
    parts: &[Sexpr],
) -> Result<Command, CheckFault>
    ensures { Answers (commands.commanded symbols.now (Some verb) (forms (map seen parts.now))) result }
{
    match verb {
        CommandName::SetLogic => set_logic(parts),
        CommandName::SetInfo => set_info(parts),
        CommandName::SetOption => set_option(parts),
        CommandName::DeclareConst => declare_const(alloc, symbols, parts),
        CommandName::DeclareFun => declare_fun(alloc, symbols, parts),
        CommandName::DefineFun => define_fun(alloc, symbols, parts),
        CommandName::DefineTransducer => define_transducer(alloc, symbols, parts),
        CommandName::Assert => assertion(alloc, symbols, parts),
        CommandName::Push => Ok(Command::Push(level_count(parts)?)),
        CommandName::Pop => Ok(Command::Pop(level_count(parts)?)),
        CommandName::CheckSat => command_without_parts(Command::CheckSat, parts),
        CommandName::CheckSatAssuming => check_assuming(alloc, symbols, parts),
        CommandName::GetModel => command_without_parts(Command::GetModel, parts),
        CommandName::GetValue => get_value(alloc, symbols, parts),
        CommandName::GetUnsatCore => command_without_parts(Command::GetCore, parts),
        CommandName::GetInfo => get_info(alloc, parts),
        CommandName::Echo => echo(alloc, parts),
        CommandName::Reset => command_without_parts(Command::Reset, parts),
        CommandName::ResetAssertions => command_without_parts(Command::ResetAssertions, parts),
        CommandName::Exit => command_without_parts(Command::Exit, parts),
    }
}

fn parse_command(
    alloc: Global,
    symbols: &Declarations,
    items: &[Sexpr],
) -> Result<Command, CheckFault>
    ensures { Answers (commands.begun symbols.now (forms (map seen items.now))) result }
{
    match items {
        [] => Err(CheckFault::Shape),
        [first, parts @ ..] => {
            if symbol(first).is_none() {
                return Err(CheckFault::Shape);
            }
            match verb_of(first) {
                Some(verb) => command_of(alloc, symbols, verb, parts),
                None => Ok(Command::Unsupported),
            }
        }
    }
}

fn verb_of(first: &Sexpr) -> Option<CommandName>
    ensures { result ≡ verb_is (tokens.word (seen first.now)) }
{
    match word(first) {
        Some(word) => verb(word),
        None => None,
    }
}

/// The command that an item is under these symbols, with its terms sorted and `let` and macros put
/// in, or the first fault that it has.
///
/// The faults are looked for one after another, each over the whole item: Shape of the command;
/// Reserved and Declared names; Unknown sorts, and variables of sort RegLan; Numbers; then the walk
/// over the terms, in which the head of a term comes before the number of its arguments, these from
/// left to right, and their sorts; Size; and the Sort of the whole (SMT-LIB 2.6, sections 3.6 and 3.9).
/// A description of a transducer has its fault behind those of its form and its name.
///
/// Time is linear in the item and the terms that it answers. Stack is linear in the nesting.
pub fn command(alloc: Global, symbols: &Declarations, item: &Sexpr) -> Result<Command, CheckFault>
    ensures { Answers (commands.checked symbols.now (seen item.now)) result }
{
    match list_items(item) {
        Some(items) => parse_command(alloc, symbols, items),
        None => Err(CheckFault::Shape),
    }
}
