// What is asserted, with a name or without one, and what is assumed for one check.
ghost use Rattle.std.specs.Prelude.{◌≡◌, Ok, Some, List, [], ◌∷◌, map};
ghost use Rattle.std.specs.Option.{option_map};
ghost use Rattle.sv_terms.specs.Names.{symbol_name};
ghost use Rattle.std.specs.List.{list_all};
ghost use Rattle.sv_terms.specs.declared.entry.Body.{Body as AnyBody};
ghost use Rattle.sv_terms.specs.declared.sort.Sort.TheVariants as sort;
ghost use Rattle.sv_terms.specs.Sorting.{same_sort as same_sort_as};
ghost use Rattle.term_walk.specs.Meant.{settled};
ghost use Rattle.term_weight.specs.Bodies.{term_of};
ghost use Rattle.sort_check.specs.Checking as commands;
ghost use Rattle.smt_names.specs.Faults.{Answers, made_of};
ghost use Rattle.smt_names.specs.Form.{seen, forms, are_all};
ghost use Rattle.smt_names.specs.Tokens as tokens;

use crate::commands::Command;
use crate::declaring::free_name;
use item_passes::pass_over;
use sexpr_reader::Sexpr;
use smt_names::token::{bare_name, keyword, list_items, opening, pair, symbol};
use smt_names::{CheckFault, Opening};
use std::alloc::Global;
use std::slice;
use sv_list::Items;
use sv_terms::{Body, Sort, Term};
use term_draft::{body_sort, into_term};
use term_walk::{settle_one, settle_sorts};
use term_weight::{Declarations, same_sort};

/// Whether it is the keyword `:named`.
fn is_named(item: &Sexpr) -> bool
    ensures { result ≡ commands.is_named (seen item.now) }
{
    match keyword(item) {
        Some(keyword) => keyword == b":named".as_slice(),
        None => false,
    }
}

/// What stands after the first `:named`.
fn after_named(attributes: &[Sexpr]) -> Option<&[Sexpr]>
    ensures { option_map (λ rest. forms (map seen rest.now)) result ≡ commands.after_named (forms (map seen attributes.now)) }
{
    for (place, attribute) in attributes.iter().enumerate() {
        if is_named(attribute) {
            return Some(&attributes[place + 1..]);
        }
    }
    None
}

/// The attributes in a list that is an annotated term.
#[tactic(auto, using(crate::proofs::Counted::annotating))]
fn attributes(items: &[Sexpr]) -> &[Sexpr]
    ensures { forms (map seen result.now) ≡ commands.attributes (Some (forms (map seen items.now))) }
{
    match items {
        [first, _, attributes @ ..] => match opening(first) {
            Opening::Annotation => attributes,
            _ => &[],
        },
        _ => &[],
    }
}

/// The symbol that is the name of an asserted term, where its attributes give one.
fn label(term: &Sexpr) -> Result<Option<&[u8]>, CheckFault>
    ensures { made_of (option_map (λ text. symbol_name text.now)) result ≡ commands.label (seen term.now) }
{
    match list_items(term) {
        Some(items) => match after_named(attributes(items)) {
            Some(after) => Ok(Some(label_of(after)?)),
            None => Ok(None),
        },
        None => Ok(None),
    }
}

/// The one symbol after `:named`.
fn label_of(after: &[Sexpr]) -> Result<&[u8], CheckFault>
    ensures { made_of (λ text. Some (symbol_name text.now)) result ≡ commands.label_of (Some (forms (map seen after.now))) }
{
    match after {
        [] => Err(CheckFault::Shape),
        [name, rest @ ..] => {
            if after_named(rest).is_some() {
                return Err(CheckFault::Shape);
            }
            match symbol(name) {
                Some(text) => Ok(text),
                None => Err(CheckFault::Shape),
            }
        }
    }
}

fn assertion_of(body: Body) -> Result<Term, CheckFault>
    ensures { result ≡ commands.assertion_of (body ∷ []) }
{
    if same_sort(Sort::Bool, body_sort(&body)) {
        Ok(into_term(body))
    } else {
        // as in `command_without_parts`, by one call
        drop(body);
        Err(CheckFault::Sort)
    }
}

/// A term of sort Bool.
#[tactic(auto, using(crate::proofs::Answering::answering))]
fn asserted(alloc: Global, symbols: &Declarations, term: &Sexpr) -> Result<Term, CheckFault>
    ensures { Answers (commands.asserted symbols.now (seen term.now)) result }
{
    pass_over(alloc, slice::from_ref(term))?;
    assertion_of(settle_one(alloc, symbols, &[], term)?)
}

/// A term with a name, which the term doesn't see.
fn named(
    alloc: Global,
    symbols: &Declarations,
    text: &[u8],
    term: &Sexpr,
) -> Result<Command, CheckFault>
    ensures { Answers (commands.labelled symbols.now (seen term.now) (Some (symbol_name text.now))) result }
{
    let name = free_name(alloc, symbols, text)?;
    Ok(Command::AssertNamed(name, asserted(alloc, symbols, term)?))
}

pub fn assertion(
    alloc: Global,
    symbols: &Declarations,
    parts: &[Sexpr],
) -> Result<Command, CheckFault>
    ensures { Answers (commands.assertion symbols.now (forms (map seen parts.now))) result }
{
    match parts {
        [term] => match label(term)? {
            Some(text) => named(alloc, symbols, text, term),
            None => Ok(Command::Assert(asserted(alloc, symbols, term)?)),
        },
        _ => Err(CheckFault::Shape),
    }
}

fn is_not(item: &Sexpr) -> bool
    ensures { result ≡ commands.is_not (tokens.symbol (seen item.now)) }
{
    match symbol(item) {
        Some(text) => bare_name(text) == b"not".as_slice(),
        None => false,
    }
}

/// A symbol, or `(not SYMBOL)`.
fn is_assumption(item: &Sexpr) -> bool
    ensures { result ≡ commands.is_assumption (seen item.now) }
{
    if symbol(item).is_some() {
        return true;
    }
    match pair(item) {
        Some((first, second)) => is_not(first) && symbol(second).is_some(),
        None => false,
    }
}

fn are_assumptions(items: &[Sexpr]) -> bool
    ensures { result ≡ are_all commands.is_assumption (forms (map seen items.now)) }
{
    items.iter().all(is_assumption)
}

fn are_bool(sorts: &[Sort]) -> bool
    ensures { result ≡ list_all (same_sort_as sort.Bool) sorts.now }
{
    sorts.iter().all(|sort| same_sort(Sort::Bool, *sort))
}

/// The terms of items whose sorts are known to be Bool.
fn assumed_terms(
    alloc: Global,
    symbols: &Declarations,
    items: &[Sexpr],
) -> Result<Items<Term>, CheckFault>
    ensures { (bodies : List AnyBody) → settled symbols.now [] (forms (map seen items.now)) ≡ Ok bodies → Answers (Ok (map term_of bodies)) result }
{
    let mut terms = Items::new(alloc);
    for item in items {
        terms.push(into_term(settle_one(alloc, symbols, &[], item)?))?;
    }
    Ok(terms)
}

fn assumptions(
    alloc: Global,
    symbols: &Declarations,
    items: &[Sexpr],
) -> Result<Command, CheckFault>
    ensures { Answers (commands.assumptions symbols.now (forms (map seen items.now))) result }
{
    if !are_assumptions(items) {
        return Err(CheckFault::Shape);
    }
    // all faults of all of them before the first is built
    let sorts = settle_sorts(alloc, symbols, items)?;
    if !are_bool(sorts.as_slice()) {
        return Err(CheckFault::Sort);
    }
    let terms = assumed_terms(alloc, symbols, items)?;
    Ok(Command::CheckAssuming(terms))
}

pub fn check_assuming(
    alloc: Global,
    symbols: &Declarations,
    parts: &[Sexpr],
) -> Result<Command, CheckFault>
    ensures { Answers (commands.check_assuming symbols.now (forms (map seen parts.now))) result }
{
    match parts {
        [items] => match list_items(items) {
            Some(items) => assumptions(alloc, symbols, items),
            None => Err(CheckFault::Shape),
        },
        _ => Err(CheckFault::Shape),
    }
}
