// The one walk over a term: it sorts and weighs each part, and puts nothing in.
ghost use Rattle.std.specs.Prelude.{◌≡◌, ◌++◌, [], false, length, map};
ghost use Rattle.sv_terms.specs.Names.{symbol_name};
ghost use Rattle.smt_names.specs.Form.{seen, forms};
ghost use Rattle.term_walk.specs.Meant as meaning;
ghost use Rattle.term_walk.specs.Walks.{ReadsMeaning, Here, Each, Bound};

use crate::binding::{bind, constants, note_value, quantify};
use crate::head::{Head, find_function, find_head, head_of};
use crate::parts::{apply, apply_alone, read_literal, read_number};
use crate::scope::Scope;
use item_passes::{are_bindings, are_variables, variables};
use sexpr_reader::{Sexpr, TokenKind};
use smt_names::token::opening;
use smt_names::{CheckFault, Opening};
use std::alloc::Global;
use sv_list::Items;
use sv_terms::Name;
use term_draft::TermDraft;
use term_weight::Declarations;

/// What is known in the middle of a walk over terms.
pub struct Walk<'a> {
    pub scope: Scope,
    pub draft: TermDraft<'a>,
    /// Whether some value of a `let` is too large.
    pub is_past: bool,
}

// A drop by hand is one call where a derived one is a call for each vector inside.
impl Drop for Walk<'_> {
    fn drop(self) {
        let Self {
            scope: _,
            draft: _,
            is_past: _,
        } = self;
    }
}

impl<'a> Walk<'a> {
    /// Nothing is bound and nothing was read.
    pub fn new(alloc: Global) -> Walk<'a>
        ensures scope { result.scope ≡ [] }
        ensures draft { result.draft ≡ [] }
        ensures past { result.is_past ≡ false }
    {
        Walk {
            scope: Scope::new(alloc),
            draft: TermDraft::new(alloc),
            is_past: false,
        }
    }
}

fn read_name<'a>(
    alloc: Global,
    walk: &mut Walk<'a>,
    symbols: &'a Declarations,
    text: &[u8],
) -> Result<usize, CheckFault>
    ensures { (s : meaning.Scope) → Bound walk.old.draft walk.old.scope s
        → ReadsMeaning Here (λ t. meaning.meant_name symbols.now s (symbol_name text.now)) walk.old walk.new result }
{
    let name = Name::of(alloc, text)?;
    match walk.scope.latest(&name) {
        Some(place) => Ok(place),
        None => apply_alone(alloc, walk, find_head(alloc, symbols, text)?),
    }
}

fn read_token<'a>(
    alloc: Global,
    walk: &mut Walk<'a>,
    symbols: &'a Declarations,
    kind: TokenKind,
    text: &[u8],
) -> Result<usize, CheckFault>
    ensures { (s : meaning.Scope) → Bound walk.old.draft walk.old.scope s
        → ReadsMeaning Here (λ t. meaning.meant_token symbols.now s kind text.now) walk.old walk.new result }
{
    match kind {
        TokenKind::Numeral => read_number(walk, text),
        TokenKind::Literal => read_literal(alloc, walk, text),
        TokenKind::Symbol => read_name(alloc, walk, symbols, text),
        TokenKind::Quoted => read_name(alloc, walk, symbols, text),
        TokenKind::Decimal => Err(CheckFault::Unknown),
        TokenKind::Hexadecimal => Err(CheckFault::Unknown),
        TokenKind::Binary => Err(CheckFault::Unknown),
        TokenKind::Keyword => Err(CheckFault::Shape),
    }
}

fn read_identifier<'a>(
    alloc: Global,
    walk: &mut Walk<'a>,
    symbols: &'a Declarations,
    parts: &[Sexpr],
) -> Result<usize, CheckFault>
    ensures { ReadsMeaning Here (λ t. meaning.alone (meaning.of_theory (meaning.identified symbols.now (forms (map seen parts.now))))) walk.old walk.new result }
{
    let function = find_function(alloc, symbols, parts)?;
    apply_alone(alloc, walk, Head::Theory(function))
}

/// The place of a term, or its first fault.
#[cycle(read)]
pub fn read<'a>(
    alloc: Global,
    walk: &mut Walk<'a>,
    symbols: &'a Declarations,
    item: &Sexpr,
) -> Result<usize, CheckFault>
    ensures { (s : meaning.Scope) → Bound walk.old.draft walk.old.scope s
        → ReadsMeaning Here (λ t. meaning.meant t symbols.now s (seen item.now)) walk.old walk.new result }
{
    match item {
        Sexpr::Atom(kind, text) => read_token(alloc, walk, symbols, *kind, text.as_slice()),
        Sexpr::List(items) => match items.as_slice() {
            [] => Err(CheckFault::Shape),
            [first, rest @ ..] => match opening(first) {
                Opening::Let => read_let(alloc, walk, symbols, rest),
                Opening::Quantifier => read_quantifier(alloc, walk, symbols, rest),
                Opening::Annotation => read_annotated(alloc, walk, symbols, rest),
                Opening::Identifier => read_identifier(alloc, walk, symbols, rest),
                Opening::Application => read_application(alloc, walk, symbols, rest, first),
            },
        },
    }
}

/// The places of some terms, or the first fault from the left.
#[cycle(read)]
pub fn read_all<'a>(
    alloc: Global,
    walk: &mut Walk<'a>,
    symbols: &'a Declarations,
    items: &[Sexpr],
) -> Result<Items<usize>, CheckFault>
    ensures { (s : meaning.Scope) → Bound walk.old.draft walk.old.scope s
        → ReadsMeaning Each (λ t. meaning.meant_all t symbols.now s (forms (map seen items.now))) walk.old walk.new result }
{
    let mut all = Items::new(alloc);
    for item in items {
        all.push(read(alloc, walk, symbols, item)?)?;
    }
    Ok(all)
}

#[cycle(read)]
fn read_application<'a>(
    alloc: Global,
    walk: &mut Walk<'a>,
    symbols: &'a Declarations,
    rest: &[Sexpr],
    first: &Sexpr,
) -> Result<usize, CheckFault>
    ensures { (s : meaning.Scope) → Bound walk.old.draft walk.old.scope s
        → ReadsMeaning Here (λ t. meaning.in_parentheses (meaning.head symbols.now (seen first.now)) (length rest.now) (meaning.meant_all t symbols.now s (forms (map seen rest.now)))) walk.old walk.new result }
{
    let head = head_of(alloc, symbols, first)?;
    if rest.is_empty() {
        return Err(CheckFault::Arity);
    }
    if !head.takes_count(rest.len()) {
        return Err(CheckFault::Arity);
    }
    let places = read_all(alloc, walk, symbols, rest)?;
    apply(alloc, walk, head, places)
}

#[cycle(read)]
fn read_let<'a>(
    alloc: Global,
    walk: &mut Walk<'a>,
    symbols: &'a Declarations,
    parts: &[Sexpr],
) -> Result<usize, CheckFault>
    ensures { (s : meaning.Scope) → Bound walk.old.draft walk.old.scope s
        → ReadsMeaning Here (λ t. meaning.meant_let t symbols.now s (forms (map seen parts.now))) walk.old walk.new result }
{
    match parts {
        [bindings, body] => match bindings {
            Sexpr::List(bindings) => {
                let bindings = bindings.as_slice();
                if !are_bindings(bindings) {
                    return Err(CheckFault::Shape);
                }
                let bound = read_values(alloc, walk, symbols, bindings)?;
                read_within(alloc, walk, symbols, bound, body)
            }
            Sexpr::Atom(_, _) => Err(CheckFault::Shape),
        },
        _ => Err(CheckFault::Shape),
    }
}

/// The names that a `let` binds, with the places of their values.
#[cycle(read)]
fn read_values<'a>(
    alloc: Global,
    walk: &mut Walk<'a>,
    symbols: &'a Declarations,
    bindings: &[Sexpr],
) -> Result<Items<(Name, usize)>, CheckFault>
    ensures { (s : meaning.Scope) → Bound walk.old.draft walk.old.scope s
        → ReadsMeaning Bound (λ t. meaning.meant_values t symbols.now s (forms (map seen bindings.now))) walk.old walk.new result }
{
    let mut all = Items::new(alloc);
    for binding in bindings {
        all.append(read_value(alloc, walk, symbols, binding)?)?;
    }
    Ok(all)
}

/// The name that a binding binds, with the place of its value.
#[cycle(read)]
fn read_value<'a>(
    alloc: Global,
    walk: &mut Walk<'a>,
    symbols: &'a Declarations,
    binding: &Sexpr,
) -> Result<Items<(Name, usize)>, CheckFault>
    ensures { (s : meaning.Scope) → Bound walk.old.draft walk.old.scope s
        → ReadsMeaning Bound (λ t. meaning.meant_value t symbols.now s (seen binding.now)) walk.old walk.new result }
{
    match binding {
        Sexpr::List(items) => match items.as_slice() {
            [name, value] => {
                let place = read(alloc, walk, symbols, value)?;
                note_value(alloc, walk, name, place)
            }
            _ => Err(CheckFault::Shape),
        },
        Sexpr::Atom(_, _) => Err(CheckFault::Shape),
    }
}

/// Binds these names around a term.
#[cycle(read)]
fn read_within<'a>(
    alloc: Global,
    walk: &mut Walk<'a>,
    symbols: &'a Declarations,
    bound: Items<(Name, usize)>,
    body: &Sexpr,
) -> Result<usize, CheckFault>
    ensures { (s : meaning.Scope) (q : meaning.Scope) → Bound walk.old.draft walk.old.scope s → Bound walk.old.draft bound q
        → ReadsMeaning Here (λ t. meaning.meant t symbols.now (s ++ q) (seen body.now)) walk.old walk.new result }
{
    let mark = walk.scope.len();
    bind(alloc, &mut walk.scope, bound.as_slice())?;
    let place = read(alloc, walk, symbols, body)?;
    walk.scope.leave(mark);
    Ok(place)
}

#[cycle(read)]
fn read_quantifier<'a>(
    alloc: Global,
    walk: &mut Walk<'a>,
    symbols: &'a Declarations,
    parts: &[Sexpr],
) -> Result<usize, CheckFault>
    ensures { (s : meaning.Scope) → Bound walk.old.draft walk.old.scope s
        → ReadsMeaning Here (λ t. meaning.meant_quantifier t symbols.now s (forms (map seen parts.now))) walk.old walk.new result }
{
    match parts {
        [bound, body] => match bound {
            Sexpr::List(bound) => {
                let bound = bound.as_slice();
                if !are_variables(bound) {
                    return Err(CheckFault::Shape);
                }
                let variables = variables(alloc, bound)?;
                let constants = constants(alloc, walk, variables.as_slice(), false)?;
                let place = read_within(alloc, walk, symbols, constants, body)?;
                quantify(walk, place)
            }
            Sexpr::Atom(_, _) => Err(CheckFault::Shape),
        },
        _ => Err(CheckFault::Shape),
    }
}

#[cycle(read)]
fn read_annotated<'a>(
    alloc: Global,
    walk: &mut Walk<'a>,
    symbols: &'a Declarations,
    parts: &[Sexpr],
) -> Result<usize, CheckFault>
    ensures { (s : meaning.Scope) → Bound walk.old.draft walk.old.scope s
        → ReadsMeaning Here (λ t. meaning.meant_annotated t symbols.now s (forms (map seen parts.now))) walk.old walk.new result }
{
    match parts {
        [] => Err(CheckFault::Shape),
        [term, ..] => read(alloc, walk, symbols, term),
    }
}
