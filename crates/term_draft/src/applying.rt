// What an application of a function is, once its arguments are built.
ghost use Rattle.std.specs.Prelude.{◌≡◌, [], ◌∷◌, length, IfOk, MatchOption, map};
ghost use Rattle.term_weight.specs.Bodies as b;
ghost use Rattle.term_weight.specs.Ranks as r;
ghost use Rattle.term_weight.specs.Weights as w;

use smt_names::Interpretation;
use std::alloc::{AllocError, Global};
use sv_list::{Boxed, Copied, Items};
use sv_terms::{Body, Op, Regex, Sort, Term, Transducer};
use sv_word::{GREATEST_CHARACTER, Word};
use term_weight::room;

/// The sort of a sorted term, or RegLan. Constant.
pub fn body_sort(body: &Body) -> Sort
    ensures { result ≡ b.body_sort body.now }
{
    match body {
        Body::Term(term) => term.sort(),
        Body::Language(_) => Sort::RegLan,
    }
}

// What isn't taken of a body is dropped by one call, and not in place with a way for each form.

/// The term that it is; a regular expression is opaque where a term is wanted.
pub fn into_term(body: Body) -> Term
    ensures { result ≡ b.term_of body }
{
    match body {
        Body::Term(term) => term,
        Body::Language(regex) => {
            drop(regex);
            Term::Opaque(Sort::RegLan)
        }
    }
}

fn into_terms(alloc: Global, bodies: Items<Body>) -> Result<Items<Term>, AllocError>
    ensures { IfOk result (λ ts. ts ≡ map b.term_of bodies) }
{
    let mut all = room(alloc, bodies.len())?;
    for body in bodies.into_vec() {
        all.push(into_term(body))?;
    }
    Ok(all)
}

fn into_regex(body: Body) -> Regex
    ensures { result ≡ b.regex_of body }
{
    match body {
        Body::Term(term) => {
            drop(term);
            Regex::Empty
        }
        Body::Language(regex) => regex,
    }
}

fn into_regexes(alloc: Global, bodies: Items<Body>) -> Result<Items<Regex>, AllocError>
    ensures { IfOk result (λ rs. rs ≡ map b.regex_of bodies) }
{
    let mut all = room(alloc, bodies.len())?;
    for body in bodies.into_vec() {
        all.push(into_regex(body))?;
    }
    Ok(all)
}

pub(crate) fn opaque_body(sort: Sort) -> Body
    ensures { result ≡ b.opaque sort }
{
    Body::Term(Term::Opaque(sort))
}

fn apply_op(alloc: Global, op: Op, bodies: Items<Body>) -> Result<Body, AllocError>
    ensures { IfOk result (λ x. x ≡ r.apply op bodies) }
{
    Ok(Body::Term(Term::Apply(op, into_terms(alloc, bodies)?)))
}

/// The one of a list of one.
#[tactic(auto, using(crate::proofs::Shapes::few))]
fn one<T: Drop>(mut items: Items<T>) -> Option<T>
    ensures { MatchOption result (length items ≡ 1 → ⊥) (λ x. items ≡ x ∷ []) }
{
    if items.len() != 1 {
        return None;
    }
    items.pop()
}

/// The two of a list of two.
#[tactic(auto, using(crate::proofs::Shapes::few))]
fn two<T: Drop>(mut items: Items<T>) -> Option<(T, T)>
    ensures { MatchOption result (length items ≡ 2 → ⊥) (λ p. items ≡ p.0 ∷ p.1 ∷ []) }
{
    if items.len() != 2 {
        return None;
    }
    match items.pop() {
        Some(second) => match items.pop() {
            Some(first) => Some((first, second)),
            None => None,
        },
        None => None,
    }
}

#[tactic(auto, using(crate::proofs::Shapes::shaped))]
fn membership(alloc: Global, bodies: Items<Body>) -> Result<Body, AllocError>
    ensures { IfOk result (λ x. x ≡ w.tested bodies) }
{
    match two(bodies) {
        Some((word, regex)) => {
            let regex = into_regex(regex);
            match Boxed::new(alloc, into_term(word)) {
                Ok(word) => Ok(Body::Term(Term::InRe(word, regex))),
                Err(error) => {
                    drop(regex);
                    Err(error)
                }
            }
        }
        None => Ok(opaque_body(Sort::Bool)),
    }
}

/// Two values on the heap.
fn boxes<T: Drop>(alloc: Global, first: T, second: T) -> Result<(Boxed<T>, Boxed<T>), AllocError>
    ensures { IfOk result (λ p. (p.0 ≡ first) × (p.1 ≡ second)) }
{
    let first = Boxed::new(alloc, first)?;
    let second = Boxed::new(alloc, second)?;
    Ok((first, second))
}

/// That a transducer may write the one term where it reads the other.
#[inline(never)]
pub(crate) fn relate_terms(
    alloc: Global,
    transducer: &Transducer,
    read: Boxed<Term>,
    written: Boxed<Term>,
) -> Result<Term, AllocError>
    ensures { IfOk result (λ x. x ≡ Term.Related transducer.now read written) }
{
    let transducer = Boxed::new(alloc, transducer.copy(alloc)?)?;
    Ok(Term::Related(transducer, read, written))
}

/// What a transducer relates.
#[tactic(auto, using(crate::proofs::Shapes::shaped))]
#[inline(never)]
pub(crate) fn relate(
    alloc: Global,
    transducer: &Transducer,
    bodies: Items<Body>,
) -> Result<Body, AllocError>
    ensures { IfOk result (λ x. x ≡ b.related transducer.now bodies) }
{
    match two(bodies) {
        Some((read, written)) => {
            let (read, written) = boxes(alloc, into_term(read), into_term(written))?;
            Ok(Body::Term(relate_terms(alloc, transducer, read, written)?))
        }
        None => Ok(opaque_body(Sort::Bool)),
    }
}

fn term_word(term: Term) -> Option<Word>
    ensures { result ≡ b.literal (Body.Term term) }
{
    match term {
        Term::Text(word) => Some(word),
        other => {
            drop(other);
            None
        }
    }
}

/// The word of a literal.
fn literal(body: Body) -> Option<Word>
    ensures { result ≡ b.literal body }
{
    match body {
        Body::Term(term) => term_word(term),
        Body::Language(regex) => {
            drop(regex);
            None
        }
    }
}

fn text_of(word: Option<Word>) -> Body
    ensures { result ≡ r.text_of word }
{
    match word {
        Some(word) => Body::Language(Regex::Text(word)),
        None => opaque_body(Sort::RegLan),
    }
}

#[tactic(auto, using(crate::proofs::Shapes::shaped))]
fn word_body(bodies: Items<Body>) -> Body
    ensures { result ≡ w.worded bodies }
{
    match one(bodies) {
        Some(body) => text_of(literal(body)),
        None => opaque_body(Sort::RegLan),
    }
}

/// The characters between two literals.
#[tactic(auto, using(crate::proofs::Shapes::shaped))]
fn characters(low: &Word, high: &Word) -> Regex
    ensures { result ≡ r.characters low.now high.now }
{
    match low.as_slice() {
        [lo] => match high.as_slice() {
            [hi] => {
                if lo <= hi {
                    Regex::Range(*lo, *hi)
                } else {
                    Regex::Empty
                }
            }
            _ => Regex::Empty,
        },
        _ => Regex::Empty,
    }
}

fn range_of(low: Option<Word>, high: Option<Word>) -> Body
    ensures { result ≡ r.range_of low high }
{
    match low {
        Some(low) => match high {
            Some(high) => Body::Language(characters(&low, &high)),
            None => opaque_body(Sort::RegLan),
        },
        None => opaque_body(Sort::RegLan),
    }
}

#[tactic(auto, using(crate::proofs::Shapes::shaped))]
fn range_body(bodies: Items<Body>) -> Body
    ensures { result ≡ w.ranged bodies }
{
    match two(bodies) {
        Some((low, high)) => range_of(literal(low), literal(high)),
        None => opaque_body(Sort::RegLan),
    }
}

/// A regular expression of one part, by its sense.
fn wrap(alloc: Global, sense: Interpretation, regex: Regex) -> Result<Regex, AllocError>
    ensures { IfOk result (λ x. x ≡ w.around_one sense regex) }
{
    let regex = Boxed::new(alloc, regex)?;
    match sense {
        Interpretation::Star => Ok(Regex::Star(regex)),
        Interpretation::Plus => Ok(Regex::Plus(regex)),
        Interpretation::Opt => Ok(Regex::Opt(regex)),
        Interpretation::Comp => Ok(Regex::Comp(regex)),
        Interpretation::Loop(i, j) => Ok(Regex::Loop(regex, i, j)),
        _ => Ok(Regex::Empty),
    }
}

#[tactic(auto, using(crate::proofs::Shapes::shaped))]
fn combine_one(
    alloc: Global,
    sense: Interpretation,
    bodies: Items<Body>,
) -> Result<Body, AllocError>
    ensures { IfOk result (λ x. x ≡ Body.Language (r.of_one (w.around_one sense) (map b.regex_of bodies))) }
{
    match one(bodies) {
        Some(body) => Ok(Body::Language(wrap(alloc, sense, into_regex(body))?)),
        None => Ok(Body::Language(Regex::Empty)),
    }
}

/// The word of a character.
fn one_character(alloc: Global, c: u32) -> Result<Word, AllocError>
    ensures { IfOk result (λ x. x ≡ r.word_of c) }
{
    let mut word = Word::new(alloc);
    if c <= GREATEST_CHARACTER {
        word.push(c)?;
        return Ok(word);
    }
    Ok(word)
}

/// The literal of a character.
fn character(alloc: Global, c: u32) -> Result<Body, AllocError>
    ensures { IfOk result (λ x. x ≡ Body.Term (Term.Text (r.word_of c))) }
{
    Ok(Body::Term(Term::Text(one_character(alloc, c)?)))
}

/// An application that isn't opaque, in time linear in the number of arguments.
#[inline(never)]
pub(crate) fn apply(
    alloc: Global,
    sense: Interpretation,
    bodies: Items<Body>,
) -> Result<Body, AllocError>
    ensures { IfOk result (λ x. x ≡ w.plain sense bodies) }
{
    match sense {
        Interpretation::Truth(b) => Ok(Body::Term(Term::Truth(b))),
        Interpretation::Meaning(op) => apply_op(alloc, op, bodies),
        Interpretation::Equality(op) => apply_op(alloc, op, bodies),
        Interpretation::Choice => apply_op(alloc, Op::IfThenElse, bodies),
        Interpretation::Product => apply_op(alloc, Op::Multiply, bodies),
        Interpretation::Replacement(op) => apply_op(alloc, op, bodies),
        Interpretation::Opaque => Ok(opaque_body(Sort::Bool)),
        Interpretation::Membership => membership(alloc, bodies),
        Interpretation::TextOf => Ok(word_body(bodies)),
        Interpretation::Range => Ok(range_body(bodies)),
        Interpretation::Empty => Ok(Body::Language(Regex::Empty)),
        Interpretation::All => Ok(Body::Language(Regex::All)),
        Interpretation::AnyChar => Ok(Body::Language(Regex::AnyChar)),
        Interpretation::Character(c) => character(alloc, c),
        Interpretation::Concat => Ok(Body::Language(Regex::Concat(into_regexes(alloc, bodies)?))),
        Interpretation::Union => Ok(Body::Language(Regex::Union(into_regexes(alloc, bodies)?))),
        Interpretation::Inter => Ok(Body::Language(Regex::Inter(into_regexes(alloc, bodies)?))),
        Interpretation::Diff => Ok(Body::Language(Regex::Diff(into_regexes(alloc, bodies)?))),
        Interpretation::Star => combine_one(alloc, sense, bodies),
        Interpretation::Plus => combine_one(alloc, sense, bodies),
        Interpretation::Opt => combine_one(alloc, sense, bodies),
        Interpretation::Comp => combine_one(alloc, sense, bodies),
        Interpretation::Loop(_, _) => combine_one(alloc, sense, bodies),
    }
}
