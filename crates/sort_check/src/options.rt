// What `set-logic`, `set-info` and `set-option` ask for.
ghost use Rattle.std.specs.Prelude.{◌≡◌, Some, map};
ghost use Rattle.sort_check.specs.Checking as commands;
ghost use Rattle.smt_names.specs.Form.{seen, forms};
ghost use Rattle.smt_names.specs.Tokens as tokens;

use crate::commands::Command;
use sexpr_reader::Sexpr;
use smt_names::CheckFault;
use smt_names::signature::truth;
use smt_names::token::{keyword, symbol};

#[tactic(auto, using(crate::proofs::Counted::commands))]
pub fn set_logic(parts: &[Sexpr]) -> Result<Command, CheckFault>
    ensures { result ≡ commands.set_logic (forms (map seen parts.now)) }
{
    match parts {
        [name] => {
            if symbol(name).is_some() {
                Ok(Command::Inform)
            } else {
                Err(CheckFault::Shape)
            }
        }
        _ => Err(CheckFault::Shape),
    }
}

#[tactic(auto, using(crate::proofs::Counted::commands))]
pub fn set_info(parts: &[Sexpr]) -> Result<Command, CheckFault>
    ensures { result ≡ commands.set_info (forms (map seen parts.now)) }
{
    match parts {
        [] => Err(CheckFault::Shape),
        [first, ..] => {
            if keyword(first).is_some() {
                Ok(Command::Inform)
            } else {
                Err(CheckFault::Shape)
            }
        }
    }
}

fn known_option(keyword: &[u8], value: bool) -> Command
    ensures { result ≡ commands.option_set (Some keyword.now) (Some value) }
{
    if keyword == b":print-success".as_slice() {
        return Command::PrintSuccess(value);
    }
    if keyword == b":produce-models".as_slice()
        || keyword == b":produce-unsat-cores".as_slice()
        || keyword == b":produce-proofs".as_slice()
    {
        return Command::Inform;
    }
    Command::Unsupported
}

fn option_command(first: &Sexpr, second: &Sexpr) -> Command
    ensures { result ≡ commands.option_set (tokens.keyword (seen first.now)) (tokens.truth (seen second.now)) }
{
    match keyword(first) {
        Some(keyword) => match truth(second) {
            Some(value) => known_option(keyword, value),
            None => Command::Unsupported,
        },
        None => Command::Unsupported,
    }
}

pub fn set_option(parts: &[Sexpr]) -> Result<Command, CheckFault>
    ensures { result ≡ commands.set_option (forms (map seen parts.now)) }
{
    match parts {
        [first, second] => Ok(option_command(first, second)),
        _ => Ok(Command::Unsupported),
    }
}
