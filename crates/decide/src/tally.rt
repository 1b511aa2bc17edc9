//! What the answers for the cubes come to.
ghost use Rattle.std.specs.Prelude.{◌≡◌, ◌||◌, nat_lt, ◌++◌, ◌∷◌, [], ◌+◌, ◌<◌, ◌^◌, List, length, map, Ok, Some, OnOk};
ghost use Rattle.cube_search.specs.declared.answer.CubeAnswer.{CubeAnswer as AnyAnswer};
ghost use Rattle.cube_search.specs.declared.answer.CubeAnswer.TheVariants as answer;
ghost use Rattle.sv_terms.specs.declared.term.Term.{Term as AnyTerm};
ghost use Rattle.decide.specs.Folds.{add, or_else};
ghost use Rattle.assertion_parts.specs.Firsts.{first_of};
ghost use Rattle.decide.specs.Passing.{passed};
ghost use Rattle.decide.specs.Tallies.{IsTallyOf, IsTallyWith, batch, verdict_of};
ghost use Rattle.std.specs.Option.{is_some};

use crate::verdict::{Open, Verdict};
use cube_search::{CubeAnswer, OpenReason, Refutation, Shown};
use std::alloc::{AllocError, Global};
use sv_list::Items;
use sv_terms::{Model, Term};

/// How many cubes are done at once.
pub const BATCH: usize = 64;

/// What the answers for the cubes so far come to.
pub struct CubeTally {
    /// The first assertion with an opaque part.
    pub opaque: Option<Term>,
    /// The number of cubes that were answered.
    pub count: u64,
    /// The first model, where no assertion has an opaque part. It ends the search.
    pub model: Option<Model>,
    /// The open cubes by their numbers, counted from 0, each with its reason.
    pub open_cubes: Items<(u64, OpenReason)>,
    /// How many leaves of the others were closed, and by what.
    pub refuted: Refutation,
}

// A drop by hand is one call where a derived one is a call for each vector inside.
impl Drop for CubeTally {
    fn drop(self) {
        let Self {
            opaque: _,
            count: _,
            model: _,
            open_cubes: _,
            refuted: _,
        } = self;
    }
}

/// The counts added up, up to 2^64 - 1.
fn add(a: &Refutation, b: &Refutation) -> Refutation
    ensures { result ≡ add a.now b.now }
{
    Refutation {
        empty: a.empty.saturating_add(b.empty),
        trees: a.trees.saturating_add(b.trees),
        boxes: a.boxes.saturating_add(b.boxes),
    }
}

impl CubeTally {
    /// The tally of no answer.
    pub fn new(alloc: Global, opaque: Option<Term>) -> CubeTally
        ensures { (terms : List AnyTerm) → opaque ≡ first_of terms → IsTallyOf terms [] result }
    {
        CubeTally {
            opaque,
            count: 0,
            model: None,
            open_cubes: Items::new(alloc),
            refuted: Refutation {
                empty: 0,
                trees: 0,
                boxes: 0,
            },
        }
    }

    /// Puts the answer for the next cube to the others.
    pub fn add(&mut self, alloc: Global, next: CubeAnswer) -> Result<(), AllocError>
        requires { self.old.count + 1 < 2 ^ 64 }
        ensures tallied { OnOk result (IsTallyWith (next ∷ []) self.old self.new) }
        ensures count { OnOk result (self.new.count ≡ self.old.count + 1) }
    {
        match next {
            CubeAnswer::Sat(model) => self.add_model(alloc, model),
            CubeAnswer::Unsat(refutation) => {
                self.refuted = add(&self.refuted, &refutation);
                self.count += 1;
                Ok(())
            }
            CubeAnswer::Open(reason) => self.push(reason),
        }
    }

    /// A cube with a model. Where an assertion is opaque the cube is open.
    fn add_model(&mut self, alloc: Global, model: Model) -> Result<(), AllocError>
        requires { self.old.count + 1 < 2 ^ 64 }
        ensures tallied { OnOk result (IsTallyWith (answer.Sat model ∷ []) self.old self.new) }
        ensures count { OnOk result (self.new.count ≡ self.old.count + 1) }
    {
        match &self.opaque {
            Some(term) => {
                let reason = OpenReason::Fragment(Shown::Opaque(term.copy(alloc)?));
                self.push(reason)
            }
            None => {
                self.keep(model);
                Ok(())
            }
        }
    }

    /// The next cubes, so many, need no work: they have no values.
    pub fn pass(&mut self, cubes: u64)
        requires { self.old.count + cubes < 2 ^ 64 }
        ensures { IsTallyWith (passed cubes) self.old self.new }
    {
        self.count += cubes;
    }

    /// Keeps the model, unless there is one.
    fn keep(&mut self, model: Model)
        requires { self.old.count + 1 < 2 ^ 64 }
        ensures { self.new ≡ record self.old { count = self.old.count + 1; model = or_else self.old.model (Some model) } }
    {
        if self.model.is_none() {
            self.model = Some(model);
        }
        self.count += 1;
    }

    fn push(&mut self, reason: OpenReason) -> Result<(), AllocError>
        requires { self.old.count + 1 < 2 ^ 64 }
        ensures { OnOk result (self.new ≡ record self.old { count = self.old.count + 1; open_cubes = self.old.open_cubes ++ (self.old.count, reason) ∷ [] }) }
    {
        self.open_cubes.push((self.count, reason))?;
        self.count += 1;
        Ok(())
    }

    /// Whether the search ends with a batch of so many jobs: no cubes are left, or there is a model.
    pub fn ends(&self, jobs: usize) -> bool
        ensures { result ≡ (nat_lt jobs batch || is_some self.now.model) }
    {
        jobs < BATCH || self.model.is_some()
    }

    /// The verdict that the answers come to.
    pub fn into_verdict(self) -> Verdict
        ensures { result ≡ verdict_of self }
    {
        let CubeTally {
            opaque: _,
            count: _,
            model,
            open_cubes,
            refuted,
        } = self;
        if let Some(model) = model {
            return Verdict::Sat(model);
        }
        if open_cubes.is_empty() {
            Verdict::Unsat(refuted)
        } else {
            Verdict::Unknown(Open::Cubes(open_cubes))
        }
    }
}

/// Puts the answers to the tally, in their order.
pub fn tally_all(
    alloc: Global,
    tally: &mut CubeTally,
    outcomes: Vec<Result<CubeAnswer, AllocError>>,
) -> Result<(), AllocError>
    requires { tally.old.count + length outcomes.items < 2 ^ 64 }
    ensures { OnOk result ((answers : List AnyAnswer) × (outcomes.items ≡ map Ok answers) × IsTallyWith answers tally.old tally.new) }
{
    for outcome in outcomes {
        tally.add(alloc, outcome?)?;
    }
    Ok(())
}
