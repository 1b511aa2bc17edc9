//! A verdict on live assertions, with a value for each declared constant.
ghost use Rattle.std.specs.Prelude.{◌≡◌, ◌≤◌, IfOk, IsTrue, None, OnOk, [], ◌∷◌, ◌++◌, nat_eq};
ghost use Rattle.std.specs.List.{AllByRecursion};
ghost use Rattle.std.specs.Map.{lookup};
ghost use Rattle.std.specs.Cmp.Lexicographic.{pointwise};
ghost use Rattle.decide.specs.Completeness.{IsComplete, MustDecide};
ghost use Rattle.decide.specs.Verdicts.{RightVerdict};
ghost use Rattle.sort_check.specs.WellFormed.{IsTermOf, is_well_formed};
ghost use Rattle.sv_terms.specs.declared.sort.Sort.TheVariants as sort;
ghost use Rattle.smt_session.specs.Models.{model_of};
ghost use Rattle.smt_session.specs.Verdicts.{IsVerdictFor};

use assertion_parts::value_for;
use decide::{Verdict, check};
use par_phase::Free;
use sort_check::{constants_have_values, entries_are_well_formed};
use std::alloc::{AllocError, Global};
use std::thread::Threads;
use sv_terms::{Entry, Model, Name, Term};
use term_weight::Declarations;

// One more symbol: its value, where it is a constant.
fn add(
    alloc: Global,
    model: &mut Model,
    words: &Model,
    name: &Name,
    entry: &Entry,
) -> Result<(), AllocError>
    requires { lookup (pointwise nat_eq name.now) model.old ≡ None }
    ensures { OnOk result (model.new ≡ model.old ++ model_of words.now ((name.now, entry.now) ∷ [])) }
{
    match entry {
        Entry::Constant(sort) => {
            let value = value_for(alloc, words, name, *sort)?;
            model.set(name.copy(alloc)?, value)
        }
        _ => Ok(()),
    }
}

// A value for each declared constant, in order.
fn model(alloc: Global, symbols: &Declarations, words: &Model) -> Result<Model, AllocError>
    requires { IsTrue (is_well_formed symbols.now) }
    ensures { IfOk result (λ m. m ≡ model_of words.now symbols.now) }
{
    let mut model = Model::new(alloc);
    for at in 0..symbols.len() {
        if let Some((name, entry)) = symbols.at(at) {
            add(alloc, &mut model, words, name, entry)?;
        }
    }
    Ok(model)
}

/// The verdict on the live assertions: what `decide` answers, and beyond that linear in the symbols.
/// Its model has a value for each declared constant.
pub fn verdict_of<R: Threads + Sync>(
    rt: &R,
    alloc: Global,
    symbols: &Declarations,
    live: &[Term],
    workers: u32,
) -> Result<Verdict, AllocError>
    requires workers { 1 ≤ workers }
    requires well_formed { IsTrue (is_well_formed symbols.now) }
    requires terms { AllByRecursion (IsTermOf symbols.now sort.Bool) live.now }
    ensures right { IfOk result (RightVerdict live.now) }
    ensures complete { MustDecide live.now → IfOk result (IsComplete live.now) }
    ensures covers { IfOk result (IsVerdictFor symbols.now live.now) }
{
    constants_have_values();
    entries_are_well_formed();
    match check(rt, alloc, live, workers, &Free)? {
        Verdict::Sat(values) => Ok(Verdict::Sat(model(alloc, symbols, &values)?)),
        Verdict::Unsat(refutation) => Ok(Verdict::Unsat(refutation)),
        Verdict::Unknown(open) => Ok(Verdict::Unknown(open)),
    }
}
