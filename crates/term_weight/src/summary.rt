// What a macro's body weighs at arguments of any weights.
ghost use Rattle.std.specs.Prelude.{◌≡◌, None, IfOk};
ghost use Rattle.term_weight.specs.Places as by_name;
ghost use Rattle.term_weight.specs.Summaries as sums;
ghost use Rattle.term_weight.specs.Weights as weighing;

use crate::places::NamePlaces;
use crate::share::Share;
use crate::tally::{MacroSummary, tally_of};
use crate::weigh::weigh_regex;
use crate::weight::{Factor, Weight, holds};
use std::alloc::{AllocError, Global};
use sv_terms::{Body, Name, Sort, Term};

/// What is kept of a macro's body, so that a call of it is weighed in time linear in its arguments.
pub enum Summary {
    /// The same weight whatever the arguments are.
    Same(Weight),
    /// The parameter at a place, of this sort.
    Parameter(usize, Sort),
    /// A function of this sort, of parts that come to this.
    Term(Sort, MacroSummary),
}

// A drop by hand is one call where a derived one is a call for each vector inside.
impl Drop for Summary {
    fn drop(self) {
        match self {
            Self::Same(_) => {}
            Self::Parameter(_, _) => {}
            Self::Term(_, _) => {}
        }
    }
}

/// A function of parts that come to this.
fn of_total(sort: Sort, total: Share) -> Weight
    ensures { result ≡ sums.of_total sort total }
{
    Weight {
        sort,
        factor: holds(total.is_unknown),
        is_language: false,
        nodes: total.nodes,
        nesting: total.nesting,
    }
}

fn function(
    alloc: Global,
    parameters: usize,
    places: &NamePlaces,
    sort: Sort,
    term: &Term,
) -> Result<Summary, AllocError>
    ensures tells { IfOk result (λ x. sums.TellsWeight places.now parameters x (λ ws. sums.of_total sort (sums.share 0 (sums.part places.now ws term.now)))) }
    ensures alone { IfOk result (λ x. sums.parameter_of x ≡ None) }
{
    let tally = tally_of(alloc, parameters, places, term)?;
    Ok(Summary::Term(sort, tally))
}

#[tactic(auto, using(crate::proofs::Layers::names))]
fn of_term(
    alloc: Global,
    parameters: usize,
    places: &NamePlaces,
    term: &Term,
) -> Result<Summary, AllocError>
    ensures tells { IfOk result (λ x. sums.TellsWeight places.now parameters x (λ ws. weighing.weighed (by_name.weight_found places.now ws) term.now)) }
    ensures alone { IfOk result (λ x. sums.parameter_of x ≡ by_name.named_by (λ n. by_name.shown n places.now) (by_name.name_alone term.now)) }
{
    match term {
        Term::Truth(_) => Ok(Summary::Same(Weight::leaf(Sort::Bool, Factor::Known))),
        Term::Number(_) => Ok(Summary::Same(Weight::leaf(Sort::Int, Factor::Known))),
        Term::Text(_) => Ok(Summary::Same(Weight::leaf(Sort::String, Factor::Literal))),
        Term::Constant(name, sort) => match places.get(name) {
            Some(place) => Ok(Summary::Parameter(place, *sort)),
            None => Ok(Summary::Same(Weight::leaf(*sort, Factor::Unknown))),
        },
        Term::Apply(op, _) => function(alloc, parameters, places, op.sort(), term),
        Term::InRe(_, _) => function(alloc, parameters, places, Sort::Bool, term),
        Term::Related(_, _, _) => function(alloc, parameters, places, Sort::Bool, term),
        Term::Opaque(sort) => Ok(Summary::Same(Weight::opaque(*sort))),
    }
}

impl Summary {
    /// What is kept of the body of a macro with these parameters. Time is linear in both, memory in
    /// the parameters.
    pub fn of(
        alloc: Global,
        parameters: &[(Name, Sort)],
        body: &Body,
    ) -> Result<Summary, AllocError>
        ensures { IfOk result (λ x. sums.Summarises x parameters.now body.now) }
    {
        match body {
            Body::Term(term) => {
                let places = NamePlaces::of(alloc, parameters)?;
                of_term(alloc, parameters.len(), &places, term)
            }
            Body::Language(regex) => Ok(Summary::Same(weigh_regex(alloc, regex)?)),
        }
    }

    /// The parameter that the body is, where it is one alone.
    pub fn parameter(&self) -> Option<usize>
        ensures { result ≡ sums.parameter_of self.now }
    {
        match self {
            Summary::Same(_) => None,
            Summary::Parameter(place, _) => Some(*place),
            Summary::Term(_, _) => None,
        }
    }

    /// The weight of a call with arguments of these weights. Linear in the parameters.
    pub fn weight(&self, weights: &[Weight]) -> Weight
        ensures { result ≡ sums.weight_at self.now weights.now }
    {
        match self {
            Summary::Same(weight) => *weight,
            Summary::Parameter(place, sort) => match weights.get(*place) {
                Some(weight) => weight.as_term(),
                None => Weight::leaf(*sort, Factor::Unknown),
            },
            Summary::Term(sort, tally) => of_total(*sort, tally.total(weights)),
        }
    }
}
