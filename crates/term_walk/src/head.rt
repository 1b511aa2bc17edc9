// What an identifier stands for where it is no variable.
ghost use Rattle.std.specs.Prelude.{◌≡◌, Some, map};
ghost use Rattle.std.specs.Map.{lookup};
ghost use Rattle.sv_terms.specs.Names.{symbol_name};
ghost use Rattle.smt_names.specs.declared.check_fault.CheckFault.TheVariants.{Unknown};
ghost use Rattle.smt_names.specs.Faults.{Answers, made_of, or_fault};
ghost use Rattle.smt_names.specs.Form.{seen, forms};
ghost use Rattle.term_walk.specs.Heads.{kept};
ghost use Rattle.term_walk.specs.Meant as meaning;
ghost use Rattle.smt_names.specs.Signature.{same_name};
ghost use Rattle.smt_names.specs.Tokens as tokens;

use sexpr_reader::Sexpr;
use smt_names::signature::{character, function, is_indexed, loop_from};
use smt_names::token::{bare_name, character_token, digits, number, opening, symbol};
use smt_names::{ArgumentSorts, CheckFault, Function, Opening};
use std::alloc::Global;
use sv_terms::{MOST_TIMES, Name, Sort, Transducer};
use term_weight::{Declarations, Declared, Macro, are_of, takes_count, takes_sorts};

/// What an identifier stands for where it is no variable.
#[derive(Drop)]
pub enum Head<'a> {
    Theory(Function),
    Constant(Name, Sort),
    Macro(Macro<'a>),
    Machine(&'a Transducer),
}

/// The function of the theories, or what was declared, of this name. Time is linear in the name.
pub(crate) fn find_head<'a>(
    alloc: Global,
    symbols: &'a Declarations,
    text: &[u8],
) -> Result<Head<'a>, CheckFault>
    ensures { Answers (meaning.named symbols.now (symbol_name text.now)) (made_of kept result) }
{
    if is_indexed(bare_name(text)) {
        return Err(CheckFault::Index);
    }
    match function(bare_name(text)) {
        Some(function) => Ok(Head::Theory(function)),
        None => declared_head(symbols, Name::of(alloc, text)?),
    }
}

fn declared_head<'a>(symbols: &'a Declarations, name: Name) -> Result<Head<'a>, CheckFault>
    ensures { made_of kept result ≡ or_fault Unknown (meaning.mapped (meaning.of_entry name) (lookup (same_name name) symbols.now)) }
{
    match symbols.find(&name) {
        Some(Declared::Constant(sort)) => Ok(Head::Constant(name, sort)),
        Some(Declared::Macro(defined)) => Ok(Head::Macro(defined)),
        Some(Declared::Machine(transducer)) => Ok(Head::Machine(transducer)),
        None => Err(CheckFault::Unknown),
    }
}

/// An index: a numeral up to 65,535.
fn index(item: &Sexpr) -> Result<u32, CheckFault>
    ensures { result ≡ meaning.index_of (tokens.digits (seen item.now)) }
{
    match digits(item) {
        Some(digits) => match number(digits) {
            Some(n) => {
                if n > MOST_TIMES as i128 {
                    Err(CheckFault::Index)
                } else {
                    Ok(n as u32)
                }
            }
            None => Err(CheckFault::Number),
        },
        None => Err(CheckFault::Index),
    }
}

#[tactic(auto, using(crate::proofs::Shapes::indices))]
fn power(indices: &[Sexpr]) -> Result<Function, CheckFault>
    ensures { result ≡ meaning.powered (forms (map seen indices.now)) }
{
    match indices {
        [n] => {
            let n = index(n)?;
            Ok(loop_from(n, n))
        }
        _ => Err(CheckFault::Index),
    }
}

#[tactic(auto, using(crate::proofs::Shapes::indices))]
fn loop_function(indices: &[Sexpr]) -> Result<Function, CheckFault>
    ensures { result ≡ meaning.looped (forms (map seen indices.now)) }
{
    match indices {
        [i, j] => {
            let i = index(i)?;
            let j = index(j)?;
            Ok(loop_from(i, j))
        }
        _ => Err(CheckFault::Index),
    }
}

#[tactic(auto, using(crate::proofs::Shapes::indices))]
fn character_function(indices: &[Sexpr]) -> Result<Function, CheckFault>
    ensures { result ≡ meaning.charred (forms (map seen indices.now)) }
{
    match indices {
        [token] => match character_token(token) {
            Some(c) => Ok(character(c)),
            None => Err(CheckFault::Index),
        },
        _ => Err(CheckFault::Index),
    }
}

/// The function that stands behind `_`. An index that the symbol doesn't take is Index.
pub(crate) fn find_function(
    alloc: Global,
    symbols: &Declarations,
    parts: &[Sexpr],
) -> Result<Function, CheckFault>
    ensures { Answers (meaning.identified symbols.now (forms (map seen parts.now))) result }
{
    match parts {
        [] => Err(CheckFault::Shape),
        [name, indices @ ..] => match symbol(name) {
            Some(text) => indexed_function(alloc, symbols, text, indices),
            None => Err(CheckFault::Shape),
        },
    }
}

fn indexed_function(
    alloc: Global,
    symbols: &Declarations,
    text: &[u8],
    indices: &[Sexpr],
) -> Result<Function, CheckFault>
    ensures { Answers (meaning.indexed symbols.now (Some (symbol_name text.now)) (forms (map seen indices.now))) result }
{
    let name = bare_name(text);
    if name == b"re.^".as_slice() {
        return power(indices);
    }
    if name == b"re.loop".as_slice() {
        return loop_function(indices);
    }
    if name == b"char".as_slice() {
        return character_function(indices);
    }
    find_head(alloc, symbols, text)?;
    Err(CheckFault::Index)
}

/// What an application begins with.
pub(crate) fn head_of<'a>(
    alloc: Global,
    symbols: &'a Declarations,
    first: &Sexpr,
) -> Result<Head<'a>, CheckFault>
    ensures { Answers (meaning.head symbols.now (seen first.now)) (made_of kept result) }
{
    match first {
        Sexpr::Atom(_, _) => match symbol(first) {
            Some(text) => find_head(alloc, symbols, text),
            None => Err(CheckFault::Shape),
        },
        Sexpr::List(items) => match items.as_slice() {
            [] => Err(CheckFault::Shape),
            [under, parts @ ..] => match opening(under) {
                Opening::Identifier => Ok(Head::Theory(find_function(alloc, symbols, parts)?)),
                _ => Err(CheckFault::Shape),
            },
        },
    }
}

impl Head<'_> {
    /// Whether so many arguments are taken.
    pub fn takes_count(&self, n: usize) -> bool
        ensures { result ≡ meaning.head_count (kept self.now) n }
    {
        match self {
            Head::Theory(function) => takes_count(function.takes, n),
            Head::Constant(_, _) => n == 0,
            Head::Macro(defined) => n == defined.parameters.len(),
            Head::Machine(_) => n == 2,
        }
    }

    /// Whether arguments of these sorts are taken. Linear in their number.
    pub fn takes_sorts(&self, sorts: &[Sort]) -> bool
        ensures { result ≡ meaning.head_sorts (kept self.now) sorts.now }
    {
        match self {
            Head::Theory(function) => takes_sorts(function.takes, sorts),
            Head::Constant(_, _) => takes_sorts(ArgumentSorts::Nothing, sorts),
            Head::Macro(defined) => are_of(defined.parameters, sorts),
            Head::Machine(_) => {
                takes_sorts(ArgumentSorts::Two(Sort::String, Sort::String), sorts)
            }
        }
    }
}
