//! The texts of the parts of replies. Each function adds its text at the end.
ghost use Rattle.std.specs.Prelude.{◌≡◌, ◌++◌, codes, map, OnOk};
ghost use Rattle.std.specs.Fmt.{decimal};
ghost use Rattle.reply_text.specs.Replies.{cause_text, cube_cause_text, definition_text, error_text, info_text, name_text, number_text, numbered, pair_text, sexpr_text, sort_text, spaced, truth_text, value_text};

use crate::cause::{Cause, CubeCause};
use crate::error_kind::ErrorKind;
use crate::info::Info;
use itoa::Buffer;
use sexpr_reader::{Sexpr, is_symbol};
use std::alloc::{AllocError, Global};
use sv_terms::{Name, Sort, Value};
use sv_word::print_literal;

type Text = Vec<u8>;

fn decimal(text: &mut Text, n: u64) -> Result<(), AllocError>
    ensures { OnOk result (text.new.items ≡ text.old.items ++ decimal n) }
{
    let mut digits = Buffer::new();
    text.extend_from_slice(digits.format(n).as_bytes())
}

pub fn name(text: &mut Text, name: &Name) -> Result<(), AllocError>
    ensures { OnOk result (text.new.items ≡ text.old.items ++ name_text name.now) }
{
    if is_symbol(name.as_bytes()) {
        return text.extend_from_slice(name.as_bytes());
    }
    text.push(b'|')?;
    text.extend_from_slice(name.as_bytes())?;
    text.push(b'|')?;
    Ok(())
}

fn sort(text: &mut Text, sort: Sort) -> Result<(), AllocError>
    ensures { OnOk result (text.new.items ≡ text.old.items ++ sort_text sort) }
{
    let word = match sort {
        Sort::Bool => "Bool",
        Sort::Int => "Int",
        Sort::String => "String",
        Sort::RegLan => "RegLan",
    };
    text.extend_from_slice(word.as_bytes())
}

fn truth(text: &mut Text, b: bool) -> Result<(), AllocError>
    ensures { OnOk result (text.new.items ≡ text.old.items ++ truth_text b) }
{
    let word = if b { "true" } else { "false" };
    text.extend_from_slice(word.as_bytes())
}

fn number(text: &mut Text, n: i128) -> Result<(), AllocError>
    ensures { OnOk result (text.new.items ≡ text.old.items ++ number_text n) }
{
    let mut digits = Buffer::new();
    if n >= 0 {
        return text.extend_from_slice(digits.format(n).as_bytes());
    }
    text.extend_from_slice(b"(- ")?;
    text.extend_from_slice(digits.format(n.unsigned_abs()).as_bytes())?;
    text.push(b')')?;
    Ok(())
}

pub fn value(alloc: Global, text: &mut Text, value: &Value) -> Result<(), AllocError>
    ensures { OnOk result (text.new.items ≡ text.old.items ++ value_text value.now) }
{
    match value {
        Value::Truth(b) => truth(text, *b),
        Value::Number(n) => number(text, *n),
        Value::Text(word) => {
            let literal = print_literal(alloc, word)?;
            text.extend_from_slice(&literal)
        }
    }
}

#[cycle(sexpr)]
pub fn sexpr(text: &mut Text, item: &Sexpr) -> Result<(), AllocError>
    ensures { OnOk result (text.new.items ≡ text.old.items ++ sexpr_text item.now) }
{
    match item {
        Sexpr::Atom(_, bytes) => text.extend_from_slice(bytes.as_slice()),
        Sexpr::List(items) => {
            text.push(b'(')?;
            sexprs(text, items.as_slice())?;
            text.push(b')')?;
            Ok(())
        }
    }
}

// One space between them.
#[cycle(sexpr)]
fn sexprs(text: &mut Text, items: &[Sexpr]) -> Result<(), AllocError>
    ensures { OnOk result (text.new.items ≡ text.old.items ++ spaced (map sexpr_text items.now)) }
{
    for at in 0..items.len() {
        if at > 0 {
            text.push(b' ')?;
        }
        sexpr(text, &items[at])?;
    }
    Ok(())
}

/// The line of a constant in a model.
pub fn definition(
    alloc: Global,
    text: &mut Text,
    constant: &(Name, Sort, Value),
) -> Result<(), AllocError>
    ensures { OnOk result (text.new.items ≡ text.old.items ++ definition_text constant.now) }
{
    text.extend_from_slice(b"  (define-fun ")?;
    name(text, &constant.0)?;
    text.extend_from_slice(b" () ")?;
    sort(text, constant.1)?;
    text.push(b' ')?;
    value(alloc, text, &constant.2)?;
    text.extend_from_slice(b")\n")?;
    Ok(())
}

/// A term as it was read with its value, between parentheses.
pub fn pair(alloc: Global, text: &mut Text, pair: &(Sexpr, Value)) -> Result<(), AllocError>
    ensures { OnOk result (text.new.items ≡ text.old.items ++ pair_text pair.now) }
{
    text.push(b'(')?;
    sexpr(text, &pair.0)?;
    text.push(b' ')?;
    value(alloc, text, &pair.1)?;
    text.push(b')')?;
    Ok(())
}

// The words, and a number behind them.
fn push_numbered(text: &mut Text, words: &str, n: u64) -> Result<(), AllocError>
    ensures { OnOk result (text.new.items ≡ text.old.items ++ numbered words.now n) }
{
    text.extend_from_slice(words.as_bytes())?;
    decimal(text, n)
}

/// The text of an error, without what stands around it.
pub fn error(text: &mut Text, kind: ErrorKind) -> Result<(), AllocError>
    ensures { OnOk result (text.new.items ≡ text.old.items ++ error_text kind) }
{
    match kind {
        ErrorKind::Unknown => text.extend_from_slice(b"unknown symbol"),
        ErrorKind::Sort => text.extend_from_slice(b"sort"),
        ErrorKind::Arity => text.extend_from_slice(b"arity"),
        ErrorKind::Declared => text.extend_from_slice(b"declared"),
        ErrorKind::Number => text.extend_from_slice(b"number"),
        ErrorKind::Reserved => text.extend_from_slice(b"reserved"),
        ErrorKind::Shape => text.extend_from_slice(b"shape"),
        ErrorKind::Transducer => text.extend_from_slice(b"transducer"),
        ErrorKind::Index => text.extend_from_slice(b"index"),
        ErrorKind::Size => text.extend_from_slice(b"size"),
        ErrorKind::NoSuchLevel => text.extend_from_slice(b"no such level"),
        ErrorKind::Levels => text.extend_from_slice(b"levels"),
        ErrorKind::NoModel => text.extend_from_slice(b"no model"),
        ErrorKind::NoReason => text.extend_from_slice(b"no reason"),
        ErrorKind::NoCore => text.extend_from_slice(b"no core"),
        ErrorKind::OpaqueValue => text.extend_from_slice(b"opaque value"),
        ErrorKind::SyntaxToken(place) => push_numbered(text, "syntax token at ", place),
        ErrorKind::SyntaxClose(place) => push_numbered(text, "syntax close at ", place),
        ErrorKind::SyntaxDepth(place) => push_numbered(text, "syntax depth at ", place),
        ErrorKind::SyntaxLiteral(place) => push_numbered(text, "syntax literal at ", place),
        ErrorKind::Incomplete => text.extend_from_slice(b"incomplete"),
    }
}

// Why a cube is open, in a word.
fn cube_cause(text: &mut Text, cause: CubeCause) -> Result<(), AllocError>
    ensures { OnOk result (text.new.items ≡ text.old.items ++ cube_cause_text cause) }
{
    match cause {
        CubeCause::Fragment => text.extend_from_slice(b"fragment"),
        CubeCause::Wide => text.extend_from_slice(b"wide"),
        CubeCause::States => text.extend_from_slice(b"states"),
        CubeCause::Splits => text.extend_from_slice(b"splits"),
        CubeCause::Length => text.extend_from_slice(b"length"),
        CubeCause::Branches => text.extend_from_slice(b"branches"),
        CubeCause::NumberRow => text.extend_from_slice(b"number-row"),
        CubeCause::NumberSum => text.extend_from_slice(b"number-sum"),
    }
}

// Why there is no answer.
fn cause(text: &mut Text, cause: Cause) -> Result<(), AllocError>
    ensures { OnOk result (text.new.items ≡ text.old.items ++ cause_text cause) }
{
    match cause {
        Cause::Cubes => text.extend_from_slice(b"cubes"),
        Cause::NumberForm => text.extend_from_slice(b"number-form"),
        Cause::Cube(at, why) => {
            push_numbered(text, "(cube ", at)?;
            text.push(b' ')?;
            cube_cause(text, why)?;
            text.push(b')')?;
            Ok(())
        }
    }
}

// The reason of an answer `unknown`.
fn reason_unknown(text: &mut Text, why: Cause) -> Result<(), AllocError>
    ensures { OnOk result (text.new.items ≡ text.old.items ++ codes ":reason-unknown " ++ cause_text why) }
{
    text.extend_from_slice(b":reason-unknown ")?;
    cause(text, why)
}

/// An info, without what stands around it.
pub fn info(text: &mut Text, info: Info) -> Result<(), AllocError>
    ensures { OnOk result (text.new.items ≡ text.old.items ++ info_text info) }
{
    match info {
        Info::Name => text.extend_from_slice(b":name \"strsolve\""),
        Info::Version => text.extend_from_slice(b":version \"1\""),
        Info::ErrorBehavior => text.extend_from_slice(b":error-behavior continued-execution"),
        Info::AssertionStackLevels(n) => push_numbered(
            text,
            ":assertion-stack-levels ",
            u64::from(n),
        ),
        Info::ReasonUnknown(why) => reason_unknown(text, why),
    }
}
