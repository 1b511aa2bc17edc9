// What whole terms mean, by one walk.
ghost use Rattle.std.specs.Prelude.{◌≡◌, ◌∷◌, [], map};
ghost use Rattle.std.specs.List.{list_all};
ghost use Rattle.smt_names.specs.Faults.{Answers, made_of};
ghost use Rattle.smt_names.specs.Form.{seen, forms};
ghost use Rattle.term_weight.specs.Bodies as bodies;
ghost use Rattle.term_draft.specs.Drafts as drafts;
ghost use Rattle.term_weight.specs.Sizes as sizes;
ghost use Rattle.term_walk.specs.Meant as meaning;
ghost use Rattle.term_walk.specs.Walks as walks;

use crate::binding::{bind, constants};
use crate::walk::{Walk, read, read_all};
use sexpr_reader::Sexpr;
use smt_names::CheckFault;
use std::alloc::Global;
use sv_list::Items;
use sv_terms::{Body, Name, Sort};
use term_draft::{TermDraft, build_at};
use term_weight::Declarations;

/// The sorts of what terms mean, or their first fault, Size included. None is built.
pub fn settle_sorts(
    alloc: Global,
    symbols: &Declarations,
    terms: &[Sexpr],
) -> Result<Items<Sort>, CheckFault>
    ensures { Answers (meaning.settled_sorts symbols.now [] (forms (map seen terms.now))) result }
{
    let mut walk = Walk::new(alloc);
    let places = read_all(alloc, &mut walk, symbols, terms)?;
    if walk.is_past {
        return Err(CheckFault::Size);
    }
    fitting_sorts(alloc, &walk.draft, places.as_slice())
}

/// What one term means, or its first fault, Size included; of parameters bound around it each stands
/// as a constant.
pub fn settle_one(
    alloc: Global,
    symbols: &Declarations,
    parameters: &[(Name, Sort)],
    term: &Sexpr,
) -> Result<Body, CheckFault>
    ensures { Answers (meaning.settled symbols.now (meaning.as_constants bodies.parameter_name parameters.now) (forms (seen term.now ∷ []))) (made_of (λ x. x ∷ []) result) }
{
    let mut walk = Walk::new(alloc);
    let bound = constants(alloc, &mut walk, parameters, true)?;
    bind(alloc, &mut walk.scope, bound.as_slice())?;
    let place = read(alloc, &mut walk, symbols, term)?;
    if walk.is_past {
        return Err(CheckFault::Size);
    }
    if !walk.draft.fits(place) {
        return Err(CheckFault::Size);
    }
    Ok(build_at(alloc, &walk.draft, place)?)
}

/// Whether none at these places is too large.
fn all_fit(draft: &TermDraft<'_>, places: &[usize]) -> bool
    ensures { result ≡ list_all sizes.fits (drafts.at_places draft.now places.now) }
{
    for place in places {
        if !draft.fits(*place) {
            return false;
        }
    }
    true
}

/// The sorts of what stands at these places, or Size.
fn fitting_sorts(
    alloc: Global,
    draft: &TermDraft<'_>,
    places: &[usize],
) -> Result<Items<Sort>, CheckFault>
    ensures { Answers (made_of (map bodies.body_sort) (walks.fitting (drafts.at_places draft.now places.now))) result }
{
    if !all_fit(draft, places) {
        return Err(CheckFault::Size);
    }
    Ok(draft.sorts(alloc, places)?)
}
