ghost use Rattle.std.specs.Prelude.{◌≡◌, map, Some, IfOk, IsTrue, IsSome};
ghost use Rattle.std.specs.List.{list_any};
ghost use Rattle.sv_terms.specs.Meaning.{related, tested, val};
ghost use Rattle.sv_terms.specs.Matches.{matches};
ghost use Rattle.sv_terms.specs.Parts.{is_opaque};
ghost use Rattle.sv_terms.specs.Sorting.{is_valued, sort_of};
ghost use Rattle.sv_terms.specs.Transduction.{writes};
ghost use Rattle.term_eval.specs.Evaluation.{EvaluatesAs, evaluated, in_turn, or_opaque, value_or_fault};

use crate::contents::contains;
use crate::fault::EvalFault;
use crate::functions::apply;
use std::alloc::{AllocError, Global};
use sv_list::Items;
use sv_terms::{
    Model, Regex, Term, Transducer, Value, membership_is_decided, pairs_are_decided, pairs_are_runs,
};
use sv_word::Word;
use transducer_core::run_pair;

/// The value of a term whose functions stand at arguments of their ranks and whose constants have
/// values of their sorts in the model.
///
/// Time and memory are those of its functions: linear in the values, but for `distinct`, which
/// compares each two, for `str.contains`, `str.replace` and `str.replace_all`, which compare the
/// pattern at each place, for `str.in_re` (see `contains`), and for a transducer (see
/// `transducer_core`). The stack grows with the nesting.
///
/// # Errors
///
/// `Opaque` exactly where an opaque part stands in the term. Else `Past` exactly where a step of the
/// arithmetic leaves 128 bits: the first from the left, the arguments of a function before its own
/// steps; a difference is a product of its right side and -1, and then a sum.
#[tactic(auto, using(crate::proofs::Evaluating::evaluating))]
pub fn eval(alloc: Global, term: &Term, model: &Model) -> Result<Value, EvalFault>
    requires sorted { IsSome (sort_of term.now) }
    requires valued { IsTrue (is_valued model.now term.now) }
    ensures answer { EvaluatesAs (value_or_fault model.now term.now) result }
    ensures value { IfOk result (λ v. val model.now term.now ≡ Some v) }
{
    if has_opaque(term) {
        return Err(EvalFault::Opaque);
    }
    value_of(alloc, term, model)
}

/// Whether an opaque part stands in the term. Time is linear in it, the stack grows with the nesting.
#[cycle(has_opaque)]
#[tactic(auto, using(crate::proofs::Opaques::opaques))]
pub fn has_opaque(term: &Term) -> bool
    ensures { result ≡ is_opaque term.now }
{
    match term {
        Term::Truth(_) => false,
        Term::Number(_) => false,
        Term::Text(_) => false,
        Term::Constant(_, _) => false,
        Term::Apply(_, terms) => some_opaque(terms.as_slice()),
        Term::InRe(term, _) => has_opaque(term.get()),
        Term::Related(_, read, written) => has_opaque(read.get()) || has_opaque(written.get()),
        Term::Opaque(_) => true,
    }
}

#[cycle(has_opaque)]
#[tactic(auto, using(crate::proofs::Opaques::opaques))]
fn some_opaque(terms: &[Term]) -> bool
    ensures { result ≡ list_any is_opaque terms.now }
{
    for term in terms {
        if has_opaque(term) {
            return true;
        }
    }
    false
}

// `str.in_re`
#[tactic(auto, using(crate::proofs::Evaluating::evaluating))]
fn is_member(alloc: Global, value: &Value, regex: &Regex) -> Result<Value, EvalFault>
    ensures { EvaluatesAs (or_opaque (tested (matches regex.now) (Some value.now))) result }
{
    match value {
        Value::Text(word) => {
            membership_is_decided();
            Ok(Value::Truth(contains(alloc, regex, word)?))
        }
        _ => Err(EvalFault::Opaque),
    }
}

// Whether the transducer relates two words.
fn is_related(
    alloc: Global,
    transducer: &Transducer,
    read: &Word,
    written: &Word,
) -> Result<bool, AllocError>
    ensures { IfOk result (λ b. b ≡ writes transducer.now transducer.now.start read.now written.now) }
{
    pairs_are_decided();
    pairs_are_runs();
    Ok(run_pair(alloc, transducer, read, written)?.is_some())
}

// `(T s t)`
fn relation(
    alloc: Global,
    transducer: &Transducer,
    read: &Value,
    written: &Value,
) -> Result<Value, EvalFault>
    ensures { EvaluatesAs (or_opaque (related transducer.now (Some read.now) (Some written.now))) result }
{
    match read {
        Value::Text(read) => match written {
            Value::Text(written) => Ok(Value::Truth(is_related(alloc, transducer, read, written)?)),
            _ => Err(EvalFault::Opaque),
        },
        _ => Err(EvalFault::Opaque),
    }
}

// The value, or the first fault.
#[cycle(value_of)]
#[tactic(auto, using(crate::proofs::Evaluating::evaluating))]
fn value_of(alloc: Global, term: &Term, model: &Model) -> Result<Value, EvalFault>
    ensures { EvaluatesAs (evaluated model.now term.now) result }
{
    match term {
        Term::Truth(b) => Ok(Value::Truth(*b)),
        Term::Number(n) => Ok(Value::Number(*n)),
        Term::Text(word) => Ok(Value::Text(word.copy(alloc)?)),
        Term::Constant(name, _) => match model.get(name) {
            Some(value) => Ok(value.copy(alloc)?),
            None => Err(EvalFault::Opaque),
        },
        Term::Apply(op, terms) => {
            let arguments = values_of(alloc, terms.as_slice(), model)?;
            apply(alloc, *op, arguments.as_slice())
        }
        Term::InRe(term, regex) => {
            let value = value_of(alloc, term.get(), model)?;
            is_member(alloc, &value, regex)
        }
        Term::Related(transducer, read, written) => {
            let read = value_of(alloc, read.get(), model)?;
            let written = value_of(alloc, written.get(), model)?;
            relation(alloc, transducer.get(), &read, &written)
        }
        Term::Opaque(_) => Err(EvalFault::Opaque),
    }
}

#[cycle(value_of)]
#[tactic(auto, using(crate::proofs::Evaluating::evaluating))]
fn values_of(alloc: Global, terms: &[Term], model: &Model) -> Result<Items<Value>, EvalFault>
    ensures { EvaluatesAs (in_turn (map (evaluated model.now) terms.now)) result }
{
    let mut all = Items::new(alloc);
    for term in terms {
        all.push(value_of(alloc, term, model)?)?;
    }
    Ok(all)
}
