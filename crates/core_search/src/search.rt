//! The search for a core.
ghost use Rattle.std.specs.Prelude.{◌≡◌, ◌<◌, ◌≤◌, ◌+◌, ◌++◌, [], ◌∷◌, length, IfOk, IsTrue, MatchOption, List, slice_get, Some};
ghost use Rattle.std.specs.List.{AllByRecursion};
ghost use Rattle.sv_terms.specs.Sorting.{sort_of};
ghost use Rattle.sv_terms.specs.TransducerSizes.{has_formed};
ghost use Rattle.sv_terms.specs.Truth.{HasNoValues, clear_of};
ghost use Rattle.sv_terms.specs.declared.sort.Sort.TheVariants as sort;
ghost use Rattle.assertion_parts.specs.Constants.{ConstantsHaveOneSort};
ghost use Rattle.decide.specs.Completeness.{IsComplete, MustDecide};
ghost use Rattle.decide.specs.Verdicts.{RightVerdict};
ghost use Rattle.core_search.specs.Cores.{IsCoreFrom, all_stay, staying, IsReasonToStay};
ghost use Rattle.core_search.specs.Searches.{Stands, Leads, IsBound, all_out, between, AreTerms};

use crate::staying::staying_terms;
use decide::{Verdict, check};
use par_phase::Free;
use std::alloc::{AllocError, Global};
use std::thread::Threads;
use sv_list::Items;
use sv_terms::{Name, Term};

/// How far the names were tried, and which terms are left out.
#[derive(Drop)]
pub struct Search {
    pub outs: Items<bool>,
    pub tried: usize,
}

/// The terms that are left out with the names up to a place, and the verdict on the others.
#[derive(Drop)]
pub struct Bound {
    pub outs: Items<bool>,
    pub to: usize,
    pub answer: Verdict,
}

// No term is left out of so many.
fn none_out(alloc: Global, count: usize) -> Result<Items<bool>, AllocError>
    ensures { IfOk result (λ outs. outs ≡ all_stay count) }
{
    Ok(Items::from_vec(vec![in alloc; false; count]?))
}

// The places of these names are left out too.
fn leave_out(
    alloc: Global,
    outs: &Items<bool>,
    names: &[(Name, usize)],
    low: usize,
    high: usize,
) -> Result<Items<bool>, AllocError>
    requires order { low ≤ high }
    requires within { high ≤ length names.now }
    ensures { IfOk result (λ all. all ≡ all_out (between low high names.now) outs.now) }
{
    let mut all = Items::from_slice(alloc, outs.as_slice())?;
    for at in low..high {
        let place = names[at].1;
        if place < all.len() {
            all.set(place, true);
        }
    }
    Ok(all)
}

// The verdict on the terms that stay.
fn verdict_on<R: Threads + Sync>(
    rt: &R,
    alloc: Global,
    terms: &[Term],
    outs: &Items<bool>,
    workers: u32,
) -> Result<Verdict, AllocError>
    requires workers { 1 ≤ workers }
    requires terms { AreTerms terms.now }
    ensures right { IfOk result (RightVerdict (staying outs.now terms.now)) }
    ensures complete { MustDecide (staying outs.now terms.now) → IfOk result (IsComplete (staying outs.now terms.now)) }
{
    let stay = staying_terms(alloc, terms, outs.as_slice())?;
    check(rt, alloc, stay.as_slice(), workers, &Free)
}

// Names go in blocks of 1, 2, 4 and more, up to the first block that may not go.
fn gallop<R: Threads + Sync>(
    rt: &R,
    alloc: Global,
    terms: &[Term],
    names: &[(Name, usize)],
    search: &mut Search,
    workers: u32,
) -> Result<Option<Bound>, AllocError>
    requires workers { 1 ≤ workers }
    requires terms { AreTerms terms.now }
    requires stands { Stands terms.now names.now search.old }
    ensures leads { IfOk result (λ bound. Leads terms.now names.now search.old search.new) }
    ensures bound { IfOk result (λ bound. MatchOption bound (search.new.tried ≡ length names.now) (IsBound terms.now names.now search.new)) }
{
    let mut step = 1;
    'rising: while search.tried < names.len() {
        let to = if step < names.len() - search.tried {
            search.tried + step
        } else {
            names.len()
        };
        let outs = leave_out(alloc, &search.outs, names, search.tried, to)?;
        match verdict_on(rt, alloc, terms, &outs, workers)? {
            Verdict::Unsat(_) => {
                search.outs = outs;
                search.tried = to;
                step = step.saturating_add(step);
            }
            answer => return Ok(Some(Bound { outs, to, answer })),
        }
    }
    Ok(None)
}

// Names go by halves of what is before the bound, up to the one that may not go.
fn narrow<R: Threads + Sync>(
    rt: &R,
    alloc: Global,
    terms: &[Term],
    names: &[(Name, usize)],
    search: &mut Search,
    bound: Bound,
    workers: u32,
) -> Result<Verdict, AllocError>
    requires workers { 1 ≤ workers }
    requires terms { AreTerms terms.now }
    requires stands { Stands terms.now names.now search.old }
    requires bound { IsBound terms.now names.now search.old bound }
    ensures leads { IfOk result (λ answer. Leads terms.now names.now search.old search.new) }
    ensures within { IfOk result (λ answer. search.new.tried < length names.now) }
    ensures reason { IfOk result (λ answer. IsReasonToStay (staying (all_out (between search.new.tried (search.new.tried + 1) names.now) search.new.outs) terms.now) answer) }
{
    let mut bound = bound;
    'halves: while bound.to - search.tried > 1 {
        let to = search.tried + (bound.to - search.tried) / 2;
        let outs = leave_out(alloc, &search.outs, names, search.tried, to)?;
        match verdict_on(rt, alloc, terms, &outs, workers)? {
            Verdict::Unsat(_) => {
                search.outs = outs;
                search.tried = to;
            }
            answer => bound = Bound { outs, to, answer },
        }
    }
    let Bound { answer, .. } = bound;
    Ok(answer)
}

/// A core of terms of sort Bool that have no values, in which each name has one sort and whose
/// transducers are formed: which of the named ones stay, where each name in turn is left out if the rest
/// is `unsat`.
///
/// Each name comes with the place of its term; of the first `named` terms those that have a name are left
/// out, and all others stay. `workers` do the cubes of a check.
///
/// It takes the checks of the terms that stay, of which each is a copy. The only error is want of memory.
pub fn find_core<R: Threads + Sync>(
    rt: &R,
    alloc: Global,
    terms: &[Term],
    named: usize,
    names: &[(Name, usize)],
    workers: u32,
) -> Result<Items<(Name, Verdict)>, AllocError>
    requires workers { 1 ≤ workers }
    requires terms { AreTerms terms.now }
    requires refuted { HasNoValues (clear_of terms.now) }
    ensures { IfOk result (IsCoreFrom terms.now (all_stay named) names.now) }
{
    let mut list = Items::new(alloc);
    let mut search = Search {
        outs: none_out(alloc, named)?,
        tried: 0,
    };
    'names: loop {
        let Some(bound) = gallop(rt, alloc, terms, names, &mut search, workers)? else {
            return Ok(list);
        };
        let answer = narrow(rt, alloc, terms, names, &mut search, bound, workers)?;
        list.push((names[search.tried].0.copy(alloc)?, answer))?;
        search.tried += 1;
    }
}
