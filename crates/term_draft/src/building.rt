// Terms from drafts, with `let` and macros put in. Time and memory are linear in what is built, and
// the stack in its nesting: what a recursion calls that doesn't recurse stands in functions of its
// own, so that their frames are gone before it goes deeper.
ghost use Rattle.std.specs.Prelude.{◌≡◌, map, IfOk};
ghost use Rattle.term_weight.specs.Bodies as bodies;
ghost use Rattle.term_draft.specs.Drafts as drafts;
ghost use Rattle.term_weight.specs.Weights as weights;

use crate::applying::{apply, into_term, opaque_body, relate, relate_terms};
use crate::draft::{DraftNode, DraftPart, TermDraft};
use smt_names::Interpretation;
use std::alloc::{AllocError, Global};
use sv_list::{Boxed, Copied, Items};
use sv_terms::{Body, Name, Op, Regex, Sort, Term, Transducer};
use term_weight::{NamePlaces, room};

#[inline(never)]
fn copy_body(alloc: Global, body: &Body) -> Result<Body, AllocError>
    ensures { IfOk result (λ x. x ≡ body.now) }
{
    match body {
        Body::Term(term) => Ok(Body::Term(term.copy(alloc)?)),
        Body::Language(regex) => Ok(Body::Language(regex.copy(alloc)?)),
    }
}

#[inline(never)]
fn copy_term(alloc: Global, term: &Term) -> Result<Term, AllocError>
    ensures { IfOk result (λ x. x ≡ term.now) }
{
    term.copy(alloc)
}

#[inline(never)]
fn copy_language(alloc: Global, regex: &Regex) -> Result<Body, AllocError>
    ensures { IfOk result (λ x. x ≡ Body.Language regex.now) }
{
    Ok(Body::Language(regex.copy(alloc)?))
}

/// That a word is in a language.
#[inline(never)]
fn member(alloc: Global, word: Term, regex: &Regex) -> Result<Term, AllocError>
    ensures { IfOk result (λ x. x ≡ Term.InRe word regex.now) }
{
    let word = Boxed::new(alloc, word)?;
    Ok(Term::InRe(word, regex.copy(alloc)?))
}

/// What the part at a place is.
pub fn build_at(alloc: Global, draft: &TermDraft<'_>, place: usize) -> Result<Body, AllocError>
    ensures { IfOk result (λ x. x ≡ drafts.at_place draft.now place) }
{
    build(alloc, draft.parts(), place)
}

/// What the part at a place among these is.
#[cycle(build)]
#[tactic(auto, using(crate::proofs::Builds::building))]
fn build(alloc: Global, parts: &[DraftPart<'_>], place: usize) -> Result<Body, AllocError>
    ensures { IfOk result (λ x. x ≡ drafts.at_place (drafts.senses parts.now) place) }
{
    if place >= parts.len() {
        return Ok(opaque_body(Sort::Bool));
    }
    let node = &parts[place].node;
    build_node(alloc, &parts[..place], node)
}

/// What a part behind these is.
#[cycle(build)]
#[tactic(auto, using(crate::proofs::Builds::building))]
fn build_node(
    alloc: Global,
    before: &[DraftPart<'_>],
    node: &DraftNode<'_>,
) -> Result<Body, AllocError>
    ensures { IfOk result (λ x. x ≡ drafts.sense (drafts.senses before.now) node.now) }
{
    match node {
        DraftNode::Leaf(body) => copy_body(alloc, body),
        DraftNode::Applied(sense, places) => build_applied(
            alloc,
            before,
            *sense,
            places.as_slice(),
        ),
        DraftNode::Called(parameters, body, places) => match body {
            Body::Language(regex) => copy_language(alloc, regex),
            Body::Term(term) => build_called(alloc, before, parameters, term, places.as_slice()),
        },
        DraftNode::Related(transducer, places) => {
            build_related(alloc, before, transducer, places.as_slice())
        }
    }
}

/// A function of the theories at the parts at these places.
#[cycle(build)]
#[tactic(auto, using(crate::proofs::Builds::building))]
#[inline(never)]
fn build_applied(
    alloc: Global,
    before: &[DraftPart<'_>],
    sense: Interpretation,
    places: &[usize],
) -> Result<Body, AllocError>
    ensures { IfOk result (λ x. x ≡ weights.plain sense (drafts.at_places (drafts.senses before.now) places.now)) }
{
    let bodies = build_all(alloc, before, places)?;
    apply(alloc, sense, bodies)
}

/// The term of a macro with the parts at these places in the place of its parameters.
#[cycle(build)]
#[tactic(auto, using(crate::proofs::Builds::building))]
#[inline(never)]
fn build_called(
    alloc: Global,
    before: &[DraftPart<'_>],
    parameters: &[(Name, Sort)],
    term: &Term,
    places: &[usize],
) -> Result<Body, AllocError>
    ensures { IfOk result (λ x. x ≡ bodies.called parameters.now (Body.Term term.now) (drafts.at_places (drafts.senses before.now) places.now)) }
{
    let index = NamePlaces::of(alloc, parameters)?;
    let term = put_in(alloc, before, places, &index, term)?;
    Ok(Body::Term(term))
}

/// What a transducer relates, at the parts at these places.
#[cycle(build)]
#[tactic(auto, using(crate::proofs::Builds::building))]
#[inline(never)]
fn build_related(
    alloc: Global,
    before: &[DraftPart<'_>],
    transducer: &Transducer,
    places: &[usize],
) -> Result<Body, AllocError>
    ensures { IfOk result (λ x. x ≡ bodies.related transducer.now (drafts.at_places (drafts.senses before.now) places.now)) }
{
    let bodies = build_all(alloc, before, places)?;
    relate(alloc, transducer, bodies)
}

#[cycle(build)]
#[tactic(auto, using(crate::proofs::Builds::building))]
fn build_all(
    alloc: Global,
    parts: &[DraftPart<'_>],
    places: &[usize],
) -> Result<Items<Body>, AllocError>
    ensures { IfOk result (λ xs. xs ≡ drafts.at_places (drafts.senses parts.now) places.now) }
{
    let mut all = room(alloc, places.len())?;
    for place in places {
        all.push(build(alloc, parts, *place)?)?;
    }
    Ok(all)
}

/// A term with the arguments in the place of the parameters, each built where it stands.
#[cycle(build)]
#[tactic(auto, using(crate::proofs::Builds::building))]
fn put_in(
    alloc: Global,
    parts: &[DraftPart<'_>],
    arguments: &[usize],
    index: &NamePlaces,
    term: &Term,
) -> Result<Term, AllocError>
    ensures { IfOk result (λ x. x ≡ bodies.put_in (drafts.term_found (drafts.senses parts.now) index.now arguments.now) term.now) }
{
    match term {
        Term::Constant(name, sort) => put_in_constant(alloc, parts, arguments, index, name, *sort),
        Term::Apply(op, terms) => {
            put_in_applied(alloc, parts, arguments, index, *op, terms.as_slice())
        }
        Term::InRe(word, regex) => {
            put_in_member(alloc, parts, arguments, index, word.get(), regex)
        }
        Term::Related(transducer, read, written) => {
            let (read, written) = (read.get(), written.get());
            put_in_related(
                alloc,
                parts,
                arguments,
                index,
                transducer.get(),
                read,
                written,
            )
        }
        Term::Truth(_) => copy_term(alloc, term),
        Term::Number(_) => copy_term(alloc, term),
        Term::Text(_) => copy_term(alloc, term),
        Term::Opaque(_) => copy_term(alloc, term),
    }
}

#[cycle(build)]
#[tactic(auto, using(crate::proofs::Builds::building))]
#[inline(never)]
fn put_in_constant(
    alloc: Global,
    parts: &[DraftPart<'_>],
    arguments: &[usize],
    index: &NamePlaces,
    name: &Name,
    sort: Sort,
) -> Result<Term, AllocError>
    ensures { IfOk result (λ x. x ≡ bodies.or_constant name.now sort (drafts.term_found (drafts.senses parts.now) index.now arguments.now name.now)) }
{
    match argument(index, arguments, name) {
        Some(place) => Ok(into_term(build(alloc, parts, place)?)),
        None => Ok(Term::Constant(name.copy(alloc)?, sort)),
    }
}

#[cycle(build)]
#[tactic(auto, using(crate::proofs::Builds::building))]
#[inline(never)]
fn put_in_applied(
    alloc: Global,
    parts: &[DraftPart<'_>],
    arguments: &[usize],
    index: &NamePlaces,
    op: Op,
    terms: &[Term],
) -> Result<Term, AllocError>
    ensures { IfOk result (λ x. x ≡ Term.Apply op (map (bodies.put_in (drafts.term_found (drafts.senses parts.now) index.now arguments.now)) terms.now)) }
{
    let mut all = room(alloc, terms.len())?;
    for term in terms {
        all.push(put_in(alloc, parts, arguments, index, term)?)?;
    }
    Ok(Term::Apply(op, all))
}

#[cycle(build)]
#[tactic(auto, using(crate::proofs::Builds::building))]
#[inline(never)]
fn put_in_member(
    alloc: Global,
    parts: &[DraftPart<'_>],
    arguments: &[usize],
    index: &NamePlaces,
    word: &Term,
    regex: &Regex,
) -> Result<Term, AllocError>
    ensures { IfOk result (λ x. x ≡ Term.InRe (bodies.put_in (drafts.term_found (drafts.senses parts.now) index.now arguments.now) word.now) regex.now) }
{
    let word = put_in(alloc, parts, arguments, index, word)?;
    member(alloc, word, regex)
}

#[cycle(build)]
#[tactic(auto, using(crate::proofs::Builds::building))]
#[inline(never)]
fn put_in_related(
    alloc: Global,
    parts: &[DraftPart<'_>],
    arguments: &[usize],
    index: &NamePlaces,
    transducer: &Transducer,
    read: &Term,
    written: &Term,
) -> Result<Term, AllocError>
    ensures { IfOk result (λ x. let put = bodies.put_in (drafts.term_found (drafts.senses parts.now) index.now arguments.now) in x ≡ Term.Related transducer.now (put read.now) (put written.now)) }
{
    let read = Boxed::new(alloc, put_in(alloc, parts, arguments, index, read)?)?;
    let written = Boxed::new(alloc, put_in(alloc, parts, arguments, index, written)?)?;
    relate_terms(alloc, transducer, read, written)
}

/// The place of the argument of a parameter of this name.
#[tactic(auto, using(crate::proofs::Calling::finding))]
#[inline(never)]
fn argument(index: &NamePlaces, arguments: &[usize], name: &Name) -> Option<usize>
    ensures { result ≡ drafts.place_found index.now arguments.now name.now }
{
    match index.get(name) {
        Some(place) => arguments.get(place).copied(),
        None => None,
    }
}
