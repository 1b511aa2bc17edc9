//! Whether a word is in a regular expression.
ghost use Rattle.std.specs.Prelude.{◌≡◌, ◌++◌, ◌+◌, ◌<◌, ◌≤◌, List, ℕ, Some, drop, length, slice_get, IfNone, IfOk, IfSome, IsTrue, ◌↔◌};
ghost use Rattle.sv_terms.specs.Language.{In};
ghost use Rattle.sv_terms.specs.declared.regex.Regex.TheVariants.{Concat, Text};
ghost use Rattle.term_eval.specs.Advances.{AdvancesOrFails};

use crate::derivative::derive;
use crate::nullable::is_nullable;
use std::alloc::{AllocError, Global};
use sv_list::Items;
use sv_terms::Regex;
use sv_word::Word;

/// Whether the word is in the regular expression, of any form.
///
/// A literal at the front of what is left is compared with the word as a block. For any other
/// character what is left is made anew: time and memory for one are linear in what is left, which
/// unions and intersections without repeats keep small, and which is never more than exponential
/// in the expression.
#[tactic(auto, using(crate::proofs::Reading::contents))]
pub fn contains(alloc: Global, regex: &Regex, word: &Word) -> Result<bool, AllocError>
    ensures { IfOk result (λ b. IsTrue b ↔ In regex.now word.now) }
{
    let mut left = regex.copy(alloc)?;
    let mut at = 0;
    while at < word.len() {
        match step(alloc, left, word, at)? {
            Some((rest, next)) => {
                left = rest;
                at = next;
            }
            None => return Ok(false),
        }
    }
    let ends = is_nullable(&left);
    drop(left);
    Ok(ends)
}

// Reads a literal at the front of what is left, or else one character.
#[tactic(auto, using(crate::proofs::Reading::contents))]
fn step(
    alloc: Global,
    left: Regex,
    word: &Word,
    at: usize,
) -> Result<Option<(Regex, usize)>, AllocError>
    requires { at < length word.now }
    ensures { IfOk result (AdvancesOrFails left word.now at) }
{
    match left {
        Regex::Empty => Ok(None),
        Regex::Concat(parts) => read_front(alloc, parts, word, at),
        Regex::Text(text) => {
            let mut parts = Items::new(alloc);
            parts.push(Regex::Text(text))?;
            read_front(alloc, parts, word, at)
        }
        left => read_one(alloc, left, word, at),
    }
}

#[tactic(auto, using(crate::proofs::Reading::contents))]
fn read_one(
    alloc: Global,
    left: Regex,
    word: &Word,
    at: usize,
) -> Result<Option<(Regex, usize)>, AllocError>
    requires { at < length word.now }
    ensures { IfOk result (AdvancesOrFails left word.now at) }
{
    let end = word.len();
    prove!(at < end);
    match word.get(at) {
        Some(c) => {
            let rest = derive(alloc, &left, c);
            // before the `?`, so that it stands here once
            drop(left);
            Ok(Some((rest?, at + 1)))
        }
        None => {
            drop(left);
            Ok(None)
        }
    }
}

// The literal at the front of a concatenation.
fn front(parts: &[Regex]) -> Option<&Word>
    ensures { IfSome result (λ text. slice_get parts.now 0 ≡ Some (Text text.now)) }
{
    match parts.first() {
        Some(Regex::Text(text)) => Some(text),
        _ => None,
    }
}

fn same_text(a: &[u32], b: &[u32]) -> bool
    ensures { IsTrue result ↔ (a.now ≡ b.now) }
{
    a == b
}

// The place behind the text, if it stands in the word at this place.
#[tactic(auto, using(crate::proofs::Reading::contents))]
fn place_behind(text: &Word, word: &Word, at: usize) -> Option<usize>
    requires { at ≤ length word.now }
    ensures next { IfSome result (λ next. next ≡ at + length text.now) }
    ensures within { IfSome result (λ next. next ≤ length word.now) }
    ensures stands { IfSome result (λ next. drop at word.now ≡ text.now ++ drop next word.now) }
    ensures missing { IfNone result ((w : List ℕ) → drop at word.now ≡ text.now ++ w → ⊥) }
{
    if text.len() > word.len() - at {
        return None;
    }
    let next = at + text.len();
    if same_text(&word.as_slice()[at..next], text.as_slice()) {
        Some(next)
    } else {
        None
    }
}

#[tactic(auto, using(crate::proofs::Reading::contents))]
fn read_front(
    alloc: Global,
    mut parts: Items<Regex>,
    word: &Word,
    at: usize,
) -> Result<Option<(Regex, usize)>, AllocError>
    requires { at < length word.now }
    ensures { IfOk result (AdvancesOrFails (Concat parts) word.now at) }
{
    match front(parts.as_slice()) {
        Some(text) => {
            if text.is_empty() {
                return read_one(alloc, Regex::Concat(parts), word, at);
            }
            text.is_word();
            match place_behind(text, word, at) {
                Some(next) => {
                    let _ = parts.remove(0);
                    Ok(Some((Regex::Concat(parts), next)))
                }
                None => Ok(None),
            }
        }
        None => read_one(alloc, Regex::Concat(parts), word, at),
    }
}
