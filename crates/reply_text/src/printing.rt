//! The lines of replies.
ghost use Rattle.std.specs.Prelude.{◌≡◌, ◌++◌, codes, map, IfOk, OnOk};
ghost use Rattle.std.specs.List.{flat_map};
ghost use Rattle.reply_text.specs.Replies.{definition_text, enclosed, entry_text, error_text, info_text, line, pair_text, spaced};

use crate::error_kind::ErrorKind;
use crate::info::Info;
use crate::shown;
use sexpr_reader::Sexpr;
use std::alloc::{AllocError, Global};
use sv_terms::{Name, Sort, Value};

type Text = Vec<u8>;

fn definitions(
    alloc: Global,
    text: &mut Text,
    constants: &[(Name, Sort, Value)],
) -> Result<(), AllocError>
    ensures { OnOk result (text.new.items ≡ text.old.items ++ flat_map definition_text constants.now) }
{
    for constant in constants {
        shown::definition(alloc, text, constant)?;
    }
    Ok(())
}

// One space between them.
fn pairs(alloc: Global, text: &mut Text, pairs: &[(Sexpr, Value)]) -> Result<(), AllocError>
    ensures { OnOk result (text.new.items ≡ text.old.items ++ spaced (map pair_text pairs.now)) }
{
    for at in 0..pairs.len() {
        if at > 0 {
            text.push(b' ')?;
        }
        shown::pair(alloc, text, &pairs[at])?;
    }
    Ok(())
}

// The names of the entries, one space between them.
fn names<V>(text: &mut Text, entries: &[(Name, V)]) -> Result<(), AllocError>
    ensures { OnOk result (text.new.items ≡ text.old.items ++ spaced (map entry_text entries.now)) }
{
    for at in 0..entries.len() {
        if at > 0 {
            text.push(b' ')?;
        }
        shown::name(text, &entries[at].0)?;
    }
    Ok(())
}

/// The line of an error.
pub fn error_line(alloc: Global, kind: ErrorKind) -> Result<Vec<u8>, AllocError>
    ensures { IfOk result (λ text. text.items ≡ line (codes "(error \"" ++ error_text kind ++ codes "\")")) }
{
    let mut text = Vec::from_slice(alloc, b"(error \"")?;
    shown::error(&mut text, kind)?;
    text.extend_from_slice(b"\")\n")?;
    Ok(text)
}

/// The lines of a model: one for each constant, between parentheses on lines of their own.
pub fn model_lines(alloc: Global, constants: &[(Name, Sort, Value)]) -> Result<Vec<u8>, AllocError>
    ensures { IfOk result (λ text. text.items ≡ line (codes "(") ++ flat_map definition_text constants.now ++ line (codes ")")) }
{
    let mut text = Vec::from_slice(alloc, b"(\n")?;
    definitions(alloc, &mut text, constants)?;
    text.extend_from_slice(b")\n")?;
    Ok(text)
}

/// The line of terms with their values.
pub fn values_line(alloc: Global, all: &[(Sexpr, Value)]) -> Result<Vec<u8>, AllocError>
    ensures { IfOk result (λ text. text.items ≡ line (enclosed (spaced (map pair_text all.now)))) }
{
    let mut text = Vec::from_slice(alloc, b"(")?;
    pairs(alloc, &mut text, all)?;
    text.extend_from_slice(b")\n")?;
    Ok(text)
}

/// The line of the names of entries, as that of an unsatisfiable core.
pub fn names_line<V>(alloc: Global, entries: &[(Name, V)]) -> Result<Vec<u8>, AllocError>
    ensures { IfOk result (λ text. text.items ≡ line (enclosed (spaced (map entry_text entries.now)))) }
{
    let mut text = Vec::from_slice(alloc, b"(")?;
    names(&mut text, entries)?;
    text.extend_from_slice(b")\n")?;
    Ok(text)
}

/// The line of an info.
pub fn info_line(alloc: Global, info: Info) -> Result<Vec<u8>, AllocError>
    ensures { IfOk result (λ text. text.items ≡ line (enclosed (info_text info))) }
{
    let mut text = Vec::from_slice(alloc, b"(")?;
    shown::info(&mut text, info)?;
    text.extend_from_slice(b")\n")?;
    Ok(text)
}

/// The bytes as a line.
pub fn line(alloc: Global, bytes: &[u8]) -> Result<Vec<u8>, AllocError>
    ensures { IfOk result (λ text. text.items ≡ line bytes.now) }
{
    let mut text = Vec::from_slice(alloc, bytes)?;
    text.push(b'\n')?;
    Ok(text)
}
