//! The values of a cube's constants.
ghost use Rattle.std.specs.Prelude.{◌≡◌, nat_eq, length, IfOk, OnOk};
ghost use Rattle.std.specs.Cmp.Lexicographic.{pointwise};
ghost use Rattle.indexmap.specs.IndexMap.{insert_all};
ghost use Rattle.sv_terms.specs.Truth.{AreWorded};
ghost use Rattle.flat_cubes.specs.Satisfying.{Satisfies};
ghost use Rattle.flat_cubes.specs.Straight.{AreNamesApart};
ghost use Rattle.cube_search.specs.Answers.{AreOnlyIn};
ghost use Rattle.cube_search.specs.Entries.{number_entries, string_entries, text_entries, truth_entries, word_by, word_of};
ghost use Rattle.cube_search.specs.Models.{IsNamedBy, all_words};

use crate::found::FoundRuns;
use flat_cubes::{Flat, Variable};
use machine_core::Run;
use std::alloc::{AllocError, Global};
use sv_terms::{Model, Name, Value};
use sv_word::Word;

fn word_of(alloc: Global, run: &Option<Run<u32>>) -> Result<Word, AllocError>
    ensures { IfOk result (λ word. word ≡ word_of run.now) }
{
    match run {
        None => Ok(Word::new(alloc)),
        Some(run) => run.word.copy(alloc),
    }
}

fn word_at(alloc: Global, runs: &[Option<Run<u32>>], place: usize) -> Result<Word, AllocError>
    ensures { IfOk result (λ word. word ≡ word_by runs.now place) }
{
    if place < runs.len() {
        word_of(alloc, &runs[place])
    } else {
        Ok(Word::new(alloc))
    }
}

// Gives each of the names the word of the run at this place.
fn set_texts(
    alloc: Global,
    model: &mut Model,
    names: &[Name],
    runs: &[Option<Run<u32>>],
    place: usize,
) -> Result<(), AllocError>
    ensures { OnOk result (model.new ≡ insert_all (pointwise nat_eq) model.old (text_entries (word_by runs.now place) names.now)) }
{
    for name in names {
        let word = word_at(alloc, runs, place)?;
        model.set(name.copy(alloc)?, Value::Text(word))?;
    }
    Ok(())
}

fn set_strings(
    alloc: Global,
    model: &mut Model,
    variables: &[Variable],
    runs: &[Option<Run<u32>>],
) -> Result<(), AllocError>
    ensures { OnOk result (model.new ≡ insert_all (pointwise nat_eq) model.old (string_entries runs.now 0 variables.now)) }
{
    for v in 0..variables.len() {
        set_texts(alloc, model, variables[v].names.as_slice(), runs, v)?;
    }
    Ok(())
}

fn set_numbers(
    alloc: Global,
    model: &mut Model,
    names: &[Name],
    numbers: &[i128],
) -> Result<(), AllocError>
    requires { length numbers.now ≡ length names.now }
    ensures { OnOk result (model.new ≡ insert_all (pointwise nat_eq) model.old (number_entries names.now numbers.now)) }
{
    for i in 0..names.len() {
        model.set(names[i].copy(alloc)?, Value::Number(numbers[i]))?;
    }
    Ok(())
}

fn set_truths(alloc: Global, model: &mut Model, truths: &[(Name, bool)]) -> Result<(), AllocError>
    ensures { OnOk result (model.new ≡ insert_all (pointwise nat_eq) model.old (truth_entries truths.now)) }
{
    for truth in truths {
        model.set(truth.0.copy(alloc)?, Value::Truth(truth.1))?;
    }
    Ok(())
}

/// The values of the constants: of the strings by the words of the runs, of the integers by the numbers, and
/// of the truths as the cube has them. No other name has a value.
///
/// Linear in the text of the names and of the words, a word once for each of its variable's names.
pub fn model_of(alloc: Global, flat: &Flat, found: &FoundRuns) -> Result<Model, AllocError>
    requires apart { AreNamesApart flat.now }
    requires satisfies { Satisfies flat.now (all_words (length flat.now.variables) found.now.runs) found.now.integers }
    ensures named { IfOk result (IsNamedBy flat.now found.now) }
    ensures worded { IfOk result AreWorded }
    ensures only { IfOk result (AreOnlyIn flat.now) }
{
    let mut model = Model::new(alloc);
    set_strings(
        alloc,
        &mut model,
        flat.variables.as_slice(),
        found.runs.as_slice(),
    )?;
    set_numbers(
        alloc,
        &mut model,
        flat.integers.as_slice(),
        found.integers.as_slice(),
    )?;
    set_truths(alloc, &mut model, flat.truths.as_slice())?;
    Ok(model)
}
