//! What is left of a regular expression once a character is read.
ghost use Rattle.std.specs.Prelude.{◌≡◌, [], ◌∷◌, ◌++◌, ◌<◌, ℕ, List, drop, length, slice_index, IfOk, OnOk, MatchOption};
ghost use Rattle.term_eval.specs.Derivative.{IsDerivative, SameWords};
ghost use Rattle.sv_terms.specs.declared.regex.Regex.TheVariants.{Concat, Inter, Text, Union};

use crate::build::{
    add_need, add_part, all_of, complement, empty_word, minus, one_of, then, then_any, then_times,
};
use crate::nullable::is_nullable;
use std::alloc::{AllocError, Global};
use sv_list::Items;
use sv_terms::{Regex, copy_regexes};
use sv_word::{GREATEST_CHARACTER, Word};

/// What is left of it once the character is read, by cases on its form.
#[cycle(derive)]
#[tactic(auto, using(crate::proofs::Derives::derives))]
pub(crate) fn derive(alloc: Global, regex: &Regex, c: u32) -> Result<Regex, AllocError>
    ensures { IfOk result (IsDerivative regex.now c) }
{
    if c > GREATEST_CHARACTER {
        return Ok(Regex::Empty);
    }
    match regex {
        Regex::Empty => Ok(Regex::Empty),
        Regex::All => Ok(Regex::All),
        Regex::AnyChar => Ok(empty_word(alloc)),
        Regex::Text(text) => derive_text(alloc, text, c),
        Regex::Range(lo, hi) => {
            if *lo <= c && c <= *hi {
                Ok(empty_word(alloc))
            } else {
                Ok(Regex::Empty)
            }
        }
        Regex::Concat(rs) => derive_in_turn(alloc, rs.as_slice(), c),
        Regex::Union(rs) => derive_one(alloc, rs.as_slice(), c),
        Regex::Inter(rs) => derive_all(alloc, rs.as_slice(), c),
        Regex::Diff(rs) => match rs.as_slice() {
            [] => Ok(Regex::Empty),
            [r, rest @ ..] => {
                let a = derive(alloc, r, c)?;
                match derive_one(alloc, rest, c) {
                    Ok(b) => minus(alloc, a, b),
                    Err(error) => {
                        // One call, where a drop at the end of the scope is one for each kind of expression.
                        drop(a);
                        Err(error)
                    }
                }
            }
        },
        Regex::Star(r) => {
            let first = derive(alloc, r.get(), c)?;
            then_any(alloc, first, r.get())
        }
        Regex::Plus(r) => {
            let first = derive(alloc, r.get(), c)?;
            then_any(alloc, first, r.get())
        }
        Regex::Opt(r) => derive(alloc, r.get(), c),
        Regex::Comp(r) => {
            let d = derive(alloc, r.get(), c)?;
            complement(alloc, d)
        }
        Regex::Loop(r, i, j) => {
            if *j == 0 {
                return Ok(Regex::Empty);
            }
            let first = derive(alloc, r.get(), c)?;
            then_times(alloc, first, r.get(), i.saturating_sub(1), *j - 1)
        }
    }
}

// Adds the character of the text at this place.
fn push_at(rest: &mut Word, text: &Word, at: usize) -> Result<(), AllocError>
    requires { at < length text.now }
    ensures { OnOk result (rest.new ≡ rest.old ++ slice_index text.now at ∷ []) }
{
    match text.get(at) {
        Some(c) => {
            rest.push(c)?;
            Ok(())
        }
        None => Ok(()),
    }
}

// The rest of the text, which isn't empty.
#[tactic(auto, using(crate::proofs::Rests::rests))]
fn behind_front(alloc: Global, text: &Word) -> Result<Word, AllocError>
    ensures { IfOk result (λ rest. rest ≡ drop 1 text.now) }
{
    let mut rest = Word::new(alloc);
    for i in 1..text.len() {
        push_at(&mut rest, text, i)?;
    }
    Ok(rest)
}

// The rest of the text, if it begins with the character.
#[tactic(auto, using(crate::proofs::Rests::rests))]
fn after(alloc: Global, text: &Word, c: u32) -> Result<Option<Word>, AllocError>
    ensures { IfOk result (λ found. MatchOption found ((t : List ℕ) → text.now ≡ c ∷ t → ⊥) (λ t. text.now ≡ c ∷ t)) }
{
    match text.get(0) {
        Some(first) => {
            if first == c {
                Ok(Some(behind_front(alloc, text)?))
            } else {
                Ok(None)
            }
        }
        None => Ok(None),
    }
}

// What is left of a text.
#[tactic(auto, using(crate::proofs::Derives::derives))]
fn derive_text(alloc: Global, text: &Word, c: u32) -> Result<Regex, AllocError>
    ensures { IfOk result (IsDerivative (Text text.now) c) }
{
    text.is_word();
    match after(alloc, text, c)? {
        Some(rest) => Ok(Regex::Text(rest)),
        None => Ok(Regex::Empty),
    }
}

#[tactic(auto, using(crate::proofs::Derives::derives))]
fn rest_in_turn(alloc: Global, rs: &[Regex]) -> Result<Regex, AllocError>
    ensures { IfOk result (λ d. SameWords d (Concat rs.now)) }
{
    match rs {
        [] => Ok(empty_word(alloc)),
        [r] => r.copy(alloc),
        _ => Ok(Regex::Concat(copy_regexes(alloc, rs)?)),
    }
}

// A word of the first and then one of each of the others.
#[tactic(auto, using(crate::proofs::Builds::behinds))]
fn then_parts(alloc: Global, first: Regex, rs: &[Regex]) -> Result<Regex, AllocError>
    ensures { IfOk result (λ d. SameWords d (Concat (first ∷ Concat rs.now ∷ []))) }
{
    let rest = rest_in_turn(alloc, rs)?;
    then(alloc, first, rest)
}

#[cycle(derive)]
#[tactic(auto, using(crate::proofs::Derives::derives))]
fn derive_in_turn(alloc: Global, rs: &[Regex], c: u32) -> Result<Regex, AllocError>
    ensures { IfOk result (IsDerivative (Concat rs.now) c) }
{
    let mut parts = Items::new(alloc);
    for i in 0..rs.len() {
        let r = &rs[i];
        let first = derive(alloc, r, c)?;
        let d = then_parts(alloc, first, &rs[i + 1..])?;
        add_part(&mut parts, d)?;
        if !is_nullable(r) {
            return Ok(one_of(parts));
        }
    }
    Ok(one_of(parts))
}

#[cycle(derive)]
#[tactic(auto, using(crate::proofs::Derives::derives))]
fn derive_one(alloc: Global, rs: &[Regex], c: u32) -> Result<Regex, AllocError>
    ensures { IfOk result (IsDerivative (Union rs.now) c) }
{
    let mut parts = Items::new(alloc);
    for r in rs {
        let d = derive(alloc, r, c)?;
        add_part(&mut parts, d)?;
    }
    Ok(one_of(parts))
}

#[cycle(derive)]
#[tactic(auto, using(crate::proofs::Derives::derives))]
fn derive_all(alloc: Global, rs: &[Regex], c: u32) -> Result<Regex, AllocError>
    ensures { IfOk result (IsDerivative (Inter rs.now) c) }
{
    if c > GREATEST_CHARACTER {
        return Ok(Regex::Empty);
    }
    let mut parts = Items::new(alloc);
    for r in rs {
        let d = derive(alloc, r, c)?;
        add_need(&mut parts, d)?;
    }
    Ok(all_of(parts))
}
