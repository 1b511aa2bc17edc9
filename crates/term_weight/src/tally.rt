// What a term with parameters comes to, whatever the arguments are.
ghost use Rattle.std.specs.Prelude.{◌≡◌, map, IfOk, OnOk, not};
ghost use Rattle.term_weight.specs.Summaries as sums;
ghost use Rattle.term_weight.specs.Summaries.{Gains};
ghost use Rattle.term_weight.specs.Weights as weighing;

use crate::capacity::room;
use crate::places::NamePlaces;
use crate::share::{Share, Uses};
use crate::weigh::weigh_regex;
use crate::weight::{Factor, Weight};
use std::alloc::{AllocError, Global};
use sv_list::Items;
use sv_terms::{Name, Op, Regex, Sort, Term};

/// What stands in a term whatever the arguments are, and how its parameters are used, each at its
/// place.
#[derive(Drop)]
pub struct MacroSummary {
    pub own: Share,
    pub uses: Items<Uses>,
}

impl MacroSummary {
    /// No node yet, and so many parameters.
    fn empty(alloc: Global, parameters: usize) -> Result<MacroSummary, AllocError>
        ensures { IfOk result (λ t. t ≡ sums.empty parameters) }
    {
        let mut uses = room(alloc, parameters)?;
        for _ in 0..parameters {
            uses.push(Uses::none())?;
        }
        Ok(MacroSummary {
            own: Share::nothing(),
            uses,
        })
    }

    /// Adds what stands there whatever the arguments are.
    fn raise(&mut self, share: Share)
        ensures { self.new ≡ sums.raised share self.old }
    {
        self.own = self.own.plus(share);
    }

    /// The parameter at a place stands once more, that deep.
    #[tactic(auto, using(crate::proofs::Sharing::changing))]
    fn use_at(&mut self, place: usize, depth: u32)
        ensures { self.new ≡ sums.changed (sums.used_at depth) place self.old }
    {
        match self.uses.get(place) {
            Some(uses) => {
                let uses = uses.with(depth);
                self.uses.set(place, uses)
            }
            None => (),
        }
    }

    /// The parameter at a place stands right under a length.
    #[tactic(auto, using(crate::proofs::Sharing::changing))]
    fn measure_at(&mut self, place: usize)
        ensures { self.new ≡ sums.changed sums.measured place self.old }
    {
        match self.uses.get(place) {
            Some(uses) => {
                let uses = uses.measured_use();
                self.uses.set(place, uses)
            }
            None => (),
        }
    }

    /// What all comes to with arguments of these weights. Linear in the parameters.
    pub fn total(&self, weights: &[Weight]) -> Share
        ensures { result ≡ sums.share_of_call self.now weights.now }
    {
        let mut sum = Share::nothing();
        for (i, uses) in self.uses.as_slice().iter().enumerate() {
            sum = sum.plus(uses.share(argument(weights, i)));
        }
        self.own.plus(sum)
    }
}

/// What stands for the parameter at a place; a missing argument weighs as a constant.
fn argument(weights: &[Weight], place: usize) -> Weight
    ensures { result ≡ sums.argument weights.now place }
{
    match weights.get(place) {
        Some(weight) => weight.as_term(),
        None => Weight::opaque(Sort::Bool),
    }
}

/// A part without parts.
#[inline(never)]
fn leaf(tally: &mut MacroSummary, places: &NamePlaces, depth: u32, factor: Factor)
    ensures { Gains places.now tally.old tally.new (λ ws. sums.share depth (weighing.leaf Sort.Bool factor)) }
{
    tally.raise(Share::of(Weight::leaf(Sort::Bool, factor), depth))
}

/// A parameter, or a constant.
#[inline(never)]
fn tally_name(tally: &mut MacroSummary, places: &NamePlaces, depth: u32, name: &Name)
    ensures { Gains places.now tally.old tally.new (λ ws. sums.share depth (sums.part_named places.now ws name.now)) }
{
    match places.get(name) {
        Some(place) => tally.use_at(place, depth),
        None => leaf(tally, places, depth, Factor::Unknown),
    }
}

/// A length of this is an unknown, but of a literal.
fn measure(tally: &mut MacroSummary, places: &NamePlaces, term: &Term)
    ensures { Gains places.now tally.old tally.new (λ ws. sums.unknown_if (not (weighing.is_literal (sums.part places.now ws term.now).factor))) }
{
    match term {
        Term::Text(_) => (),
        Term::Constant(name, _) => match places.get(name) {
            Some(place) => tally.measure_at(place),
            None => tally.raise(Share::unknown()),
        },
        Term::Truth(_) => tally.raise(Share::unknown()),
        Term::Number(_) => tally.raise(Share::unknown()),
        Term::Apply(_, _) => tally.raise(Share::unknown()),
        Term::InRe(_, _) => tally.raise(Share::unknown()),
        Term::Related(_, _, _) => tally.raise(Share::unknown()),
        Term::Opaque(_) => tally.raise(Share::unknown()),
    }
}

/// An unknown that is none of the parts: a length, but of a literal.
#[inline(never)]
fn measure_all(tally: &mut MacroSummary, places: &NamePlaces, op: Op, terms: &[Term])
    ensures { Gains places.now tally.old tally.new (λ ws. sums.unknown_if (sums.is_measure op (map (λ x. x.factor) (map (sums.part places.now ws) terms.now)))) }
{
    match op {
        Op::Length => match terms {
            [term] => measure(tally, places, term),
            _ => tally.raise(Share::unknown()),
        },
        _ => (),
    }
}

/// A regular expression, that deep.
#[inline(never)]
fn tally_regex(
    alloc: Global,
    tally: &mut MacroSummary,
    places: &NamePlaces,
    depth: u32,
    regex: &Regex,
) -> Result<(), AllocError>
    ensures { OnOk result (Gains places.now tally.old tally.new (λ ws. sums.share depth (weighing.regex_weight regex.now))) }
{
    let weight = weigh_regex(alloc, regex)?;
    Ok(tally.raise(Share::of(weight, depth)))
}

/// Adds a term, that deep, in time linear in its size.
#[cycle(tally_term)]
fn tally_term(
    alloc: Global,
    tally: &mut MacroSummary,
    places: &NamePlaces,
    depth: u32,
    term: &Term,
) -> Result<(), AllocError>
    ensures { OnOk result (Gains places.now tally.old tally.new (λ ws. sums.share depth (sums.part places.now ws term.now))) }
{
    match term {
        Term::Truth(_) => Ok(leaf(tally, places, depth, Factor::Known)),
        Term::Number(_) => Ok(leaf(tally, places, depth, Factor::Known)),
        Term::Text(_) => Ok(leaf(tally, places, depth, Factor::Literal)),
        Term::Constant(name, _) => Ok(tally_name(tally, places, depth, name)),
        Term::Apply(op, terms) => {
            let terms = terms.as_slice();
            leaf(tally, places, depth, Factor::Known);
            tally_all(alloc, tally, places, depth.saturating_add(1), terms)?;
            Ok(measure_all(tally, places, *op, terms))
        }
        Term::InRe(word, regex) => {
            let below = depth.saturating_add(1);
            leaf(tally, places, depth, Factor::Known);
            tally_term(alloc, tally, places, below, word.get())?;
            tally_regex(alloc, tally, places, below, regex)
        }
        Term::Related(_, read, written) => {
            let below = depth.saturating_add(1);
            leaf(tally, places, depth, Factor::Known);
            tally_term(alloc, tally, places, below, read.get())?;
            tally_term(alloc, tally, places, below, written.get())
        }
        Term::Opaque(_) => Ok(leaf(tally, places, depth, Factor::Unknown)),
    }
}

#[cycle(tally_term)]
fn tally_all(
    alloc: Global,
    tally: &mut MacroSummary,
    places: &NamePlaces,
    depth: u32,
    terms: &[Term],
) -> Result<(), AllocError>
    ensures { OnOk result (Gains places.now tally.old tally.new (λ ws. sums.shares depth (map (sums.part places.now ws) terms.now))) }
{
    for term in terms {
        tally_term(alloc, tally, places, depth, term)?;
    }
    Ok(())
}

/// What a term over these parameters comes to, in time linear in both.
pub(crate) fn tally_of(
    alloc: Global,
    parameters: usize,
    places: &NamePlaces,
    term: &Term,
) -> Result<MacroSummary, AllocError>
    ensures { IfOk result (λ t. Gains places.now (sums.empty parameters) t (λ ws. sums.share 0 (sums.part places.now ws term.now))) }
{
    let mut all = MacroSummary::empty(alloc, parameters)?;
    tally_term(alloc, &mut all, places, 0, term)?;
    Ok(all)
}
