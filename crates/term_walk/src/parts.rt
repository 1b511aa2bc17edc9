// A part of a term, put into the draft behind those that it holds.
ghost use Rattle.std.specs.Prelude.{[], Ok};
ghost use Rattle.term_weight.specs.Bodies as bodies;
ghost use Rattle.term_draft.specs.Drafts as drafts;
ghost use Rattle.term_weight.specs.Ranks as ranks;
ghost use Rattle.term_walk.specs.Heads.{kept};
ghost use Rattle.term_walk.specs.Meant as meaning;
ghost use Rattle.term_walk.specs.Walks as walks;
ghost use Rattle.term_walk.specs.Walks.{ReadsMeaning, Here};

use crate::head::Head;
use crate::walk::Walk;
use sexpr_reader::TokenKind;
use smt_names::token::{literal_word, number};
use smt_names::{CheckFault, Function};
use std::alloc::Global;
use sv_list::Items;
use sv_terms::{Body, Name, Sort, Term, Transducer};
use term_weight::Macro;

pub fn put_opaque(walk: &mut Walk<'_>, sort: Sort) -> Result<usize, CheckFault>
    ensures { ReadsMeaning Here (λ t. Ok (bodies.opaque sort)) walk.old walk.new result }
{
    Ok(walk.draft.put_opaque(sort)?)
}

pub fn constant(walk: &mut Walk<'_>, name: Name, sort: Sort) -> Result<usize, CheckFault>
    ensures { ReadsMeaning Here (λ t. Ok (Body.Term (Term.Constant name sort))) walk.old walk.new result }
{
    Ok(walk.draft.put_constant(name, sort)?)
}

pub fn read_number(walk: &mut Walk<'_>, text: &[u8]) -> Result<usize, CheckFault>
    ensures { (s : meaning.Scope) → ReadsMeaning Here (λ t. meaning.meant_token [] s TokenKind.Numeral text.now) walk.old walk.new result }
{
    match number(text) {
        Some(n) => Ok(walk.draft.put_number(n)?),
        None => Err(CheckFault::Number),
    }
}

pub fn read_literal(alloc: Global, walk: &mut Walk<'_>, text: &[u8]) -> Result<usize, CheckFault>
    ensures { (s : meaning.Scope) → ReadsMeaning Here (λ t. meaning.meant_token [] s TokenKind.Literal text.now) walk.old walk.new result }
{
    let word = literal_word(alloc, text)?;
    match word {
        Some(word) => Ok(walk.draft.put_word(word)?),
        None => Err(CheckFault::Shape),
    }
}

/// A function of the theories at arguments at these places.
fn apply_function(
    alloc: Global,
    walk: &mut Walk<'_>,
    function: Function,
    places: Items<usize>,
) -> Result<usize, CheckFault>
    ensures { ReadsMeaning Here (λ t. Ok (ranks.applied function (drafts.at_places walk.old.draft places))) walk.old walk.new result }
{
    Ok(walk.draft.put_applied(alloc, function, places)?)
}

fn call<'a>(
    alloc: Global,
    walk: &mut Walk<'a>,
    defined: Macro<'a>,
    places: Items<usize>,
) -> Result<usize, CheckFault>
    ensures { ReadsMeaning Here (λ t. Ok (bodies.called defined.entry.parameters.now defined.entry.body.now (drafts.at_places walk.old.draft places))) walk.old walk.new result }
{
    Ok(walk.draft.put_called(alloc, defined, places)?)
}

fn relate<'a>(
    alloc: Global,
    walk: &mut Walk<'a>,
    transducer: &'a Transducer,
    places: Items<usize>,
) -> Result<usize, CheckFault>
    ensures { ReadsMeaning Here (λ t. Ok (bodies.related transducer.now (drafts.at_places walk.old.draft places))) walk.old walk.new result }
{
    Ok(walk.draft.put_related(alloc, transducer, places)?)
}

/// What the head is at arguments at these places, whose number it takes.
pub fn apply<'a>(
    alloc: Global,
    walk: &mut Walk<'a>,
    head: Head<'a>,
    places: Items<usize>,
) -> Result<usize, CheckFault>
    ensures { ReadsMeaning Here (λ t. walks.applied_head (kept head.entry) (drafts.at_places walk.old.draft places)) walk.old walk.new result }
{
    let sorts = walk.draft.sorts(alloc, places.as_slice())?;
    if !head.takes_sorts(sorts.as_slice()) {
        return Err(CheckFault::Sort);
    }
    match head {
        Head::Theory(function) => apply_function(alloc, walk, function, places),
        Head::Constant(name, sort) => constant(walk, name, sort),
        Head::Macro(defined) => call(alloc, walk, defined, places),
        Head::Machine(transducer) => relate(alloc, walk, transducer, places),
    }
}

/// An identifier by itself.
pub fn apply_alone<'a>(
    alloc: Global,
    walk: &mut Walk<'a>,
    head: Head<'a>,
) -> Result<usize, CheckFault>
    ensures { ReadsMeaning Here (λ t. meaning.application (kept head.entry) 0 (Ok [])) walk.old walk.new result }
{
    if !head.takes_count(0) {
        return Err(CheckFault::Arity);
    }
    apply(alloc, walk, head, Items::new(alloc))
}
