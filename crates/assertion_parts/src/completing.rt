//! Models with a value for each constant of some assertions.
ghost use Rattle.std.specs.Prelude.{◌≡◌, [], ◌∷◌, IfOk, OnOk, nat_eq};
ghost use Rattle.std.specs.Map.{lookup};
ghost use Rattle.std.specs.Cmp.Lexicographic.{pointwise};
ghost use Rattle.sv_terms.specs.Sorting.{kind, same_sort};
ghost use Rattle.sv_terms.specs.Truth.{clear_of};
ghost use Rattle.assertion_parts.specs.Constants.{ConstantsHaveOneSort};
ghost use Rattle.assertion_parts.specs.Filling.{Fills, FillsAll, FillsOne, IsFilledFrom, default, or_default};

use std::alloc::{AllocError, Global};
use sv_terms::{Model, Name, Sort, Term, Value};
use sv_word::Word;
use term_eval::has_opaque;

fn default(alloc: Global, sort: Sort) -> Value
    ensures { result ≡ default sort }
{
    match sort {
        Sort::Bool => Value::Truth(false),
        Sort::Int => Value::Number(0),
        Sort::String => Value::Text(Word::new(alloc)),
        Sort::RegLan => Value::Text(Word::new(alloc)),
    }
}

fn is_of(sort: Sort, value: &Value) -> bool
    ensures { result ≡ same_sort sort (kind value.now) }
{
    match value {
        Value::Truth(_) => matches!(sort, Sort::Bool),
        Value::Number(_) => matches!(sort, Sort::Int),
        Value::Text(_) => matches!(sort, Sort::String),
    }
}

/// The value of a constant: what is given to the name, if it is of the sort, else the default of the sort, which is
/// `false`, 0 or the empty word. Costs a look-up by the name and a copy of the value.
pub fn value_for(alloc: Global, given: &Model, name: &Name, sort: Sort) -> Result<Value, AllocError>
    ensures { IfOk result (λ v. v ≡ or_default sort (lookup (pointwise nat_eq name.now) given.now)) }
{
    match given.get(name) {
        Some(value) => {
            if is_of(sort, value) {
                value.copy(alloc)
            } else {
                Ok(default(alloc, sort))
            }
        }
        None => Ok(default(alloc, sort)),
    }
}

/// Gives the constant a value, unless it has one.
fn fill_one(
    alloc: Global,
    full: &mut Model,
    given: &Model,
    name: &Name,
    sort: Sort,
) -> Result<(), AllocError>
    ensures { OnOk result (FillsOne given.now name.now sort full.old full.new) }
{
    if full.get(name).is_some() {
        return Ok(());
    }
    let value = value_for(alloc, given, name, sort)?;
    full.set(name.copy(alloc)?, value)
}

/// Gives each constant of the term that has no value yet a value. Linear in the term, but for the moves of
/// a growing map.
#[cycle(fill)]
fn fill(alloc: Global, full: &mut Model, given: &Model, term: &Term) -> Result<(), AllocError>
    ensures { OnOk result (Fills given.now term.now full.old full.new) }
{
    match term {
        Term::Truth(_) => Ok(()),
        Term::Number(_) => Ok(()),
        Term::Text(_) => Ok(()),
        Term::Constant(name, sort) => fill_one(alloc, full, given, name, *sort),
        Term::Apply(_, terms) => fill_all(alloc, full, given, terms.as_slice()),
        Term::InRe(term, _) => fill(alloc, full, given, term.get()),
        Term::Related(_, read, written) => {
            fill(alloc, full, given, read.get())?;
            fill(alloc, full, given, written.get())
        }
        Term::Opaque(_) => Ok(()),
    }
}

#[cycle(fill)]
fn fill_all(
    alloc: Global,
    full: &mut Model,
    given: &Model,
    terms: &[Term],
) -> Result<(), AllocError>
    ensures { OnOk result (FillsAll given.now terms.now full.old full.new) }
{
    for term in terms {
        fill(alloc, full, given, term)?;
    }
    Ok(())
}

/// The same of a term that has no opaque part; one that has is left.
fn fill_clear(alloc: Global, full: &mut Model, given: &Model, term: &Term) -> Result<(), AllocError>
    ensures { OnOk result (FillsAll given.now (clear_of (term.now ∷ [])) full.old full.new) }
{
    if has_opaque(term) {
        return Ok(());
    }
    fill(alloc, full, given, term)
}

/// A model with a value for each constant of the terms without opaque parts, and for no other name: the
/// given one, where it is of the constant's sort, else the default of the sort. Linear in the terms and the
/// values, but for the moves of a growing map.
pub fn complete(alloc: Global, given: &Model, terms: &[Term]) -> Result<Model, AllocError>
    ensures { IfOk result (λ full. ConstantsHaveOneSort (clear_of terms.now) → IsFilledFrom given.now (clear_of terms.now) full) }
{
    let mut full = Model::new(alloc);
    for term in terms {
        fill_clear(alloc, &mut full, given, term)?;
    }
    Ok(full)
}
