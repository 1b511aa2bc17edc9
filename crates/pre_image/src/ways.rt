//! Paths of a target on a written word, by what they cost in all.
ghost use Rattle.std.specs.Prelude.{◌≡◌, ℕ, ◌+◌, ◌*◌, ◌<◌, ◌^◌, ◌↔◌, [], ◌∷◌, ◌++◌, List, length, IfOk, OnOk, MatchOption, Any, IsTrue};
ghost use Rattle.machine_core.specs.declared.machine.Move.{Move};
ghost use Rattle.machine_core.specs.Edges.{edges_top};
ghost use Rattle.pre_image.specs.Leading.{Goes};
ghost use Rattle.pre_image.specs.Lifts.{EndsAs, GoesOnAt, IsRest, IsTried, IsWay, IsNextStep};

use crate::leading::{moves_along, spell_word};
use machine_core::{Cost, Explicit, Machine, Move};
use std::alloc::{AllocError, Global};
use sv_list::{Copied, Items};

/// The states of a path behind the first one, and the cost of each step.
#[derive(Drop)]
pub struct CostedPath {
    pub states: Items<u32>,
    pub costs: Items<Cost>,
}

impl CostedPath {
    /// The path of no step.
    pub fn new(alloc: Global) -> CostedPath
        ensures states { result.states ≡ [] }
        ensures costs { result.costs ≡ [] }
    {
        CostedPath {
            states: Items::new(alloc),
            costs: Items::new(alloc),
        }
    }

    /// Adds a step to the state `to`.
    fn push(&mut self, to: u32, cost: Cost) -> Result<(), AllocError>
        ensures states { OnOk result (self.new.states ≡ self.old.states ++ to ∷ []) }
        ensures costs { OnOk result (self.new.costs ≡ self.old.costs ++ cost ∷ []) }
    {
        self.states.push(to)?;
        self.costs.push(cost)
    }

    /// Adds the steps of a path from where this one ends.
    pub fn append(&mut self, more: CostedPath) -> Result<(), AllocError>
        ensures states { OnOk result (self.new.states ≡ self.old.states ++ more.states) }
        ensures costs { OnOk result (self.new.costs ≡ self.old.costs ++ more.costs) }
    {
        let CostedPath { states, costs } = more;
        self.states.append(states)?;
        self.costs.append(costs)
    }
}

/// A step to the state `to`, and what is left to be paid behind it.
#[derive(Drop)]
pub struct NextStep {
    pub cost: Cost,
    pub to: u32,
    pub left: Cost,
}

/// What is left of `whole` without `part`; none exactly where `part` is greater at some register.
pub fn subtract(alloc: Global, whole: &Cost, part: &Cost) -> Result<Option<Cost>, AllocError>
    requires { length part.now ≡ length whole.now }
    ensures { IfOk result (λ o. MatchOption o ((rest : List ℕ) → IsRest whole.now part.now rest → ⊥) (IsRest whole.now part.now)) }
{
    let mut rest = Cost::new(alloc);
    let taken = part.as_slice();
    for (i, x) in whole.as_slice().iter().enumerate() {
        match x.checked_sub(taken[i]) {
            None => return Ok(None),
            Some(left) => rest.push(left)?,
        }
    }
    Ok(Some(rest))
}

// Whether the lead ends in this state at this cost.
fn ends_as(lead: &Move<u32>, to: u32, cost: &Cost) -> bool
    ensures { IsTrue result ↔ EndsAs to cost.now lead.now }
{
    lead.to == to && lead.cost.as_slice() == cost.as_slice()
}

// Whether one of the leads ends in this state at this cost.
fn has_lead(leads: &[Move<u32>], to: u32, cost: &Cost) -> bool
    ensures { IsTrue result ↔ Any (EndsAs to cost.now) leads.now }
{
    for lead in leads {
        if ends_as(lead, to, cost) {
            return true;
        }
    }
    false
}

/// Whether the target has a path on the word from the one state to the other, at this cost.
pub fn goes(
    alloc: Global,
    target: &Explicit,
    from: u32,
    word: &[u32],
    to: u32,
    cost: &Cost,
) -> Result<bool, AllocError>
    requires from { from < target.now.states }
    requires fits { edges_top target.now.edges * length word.now < 2 ^ 64 }
    ensures { IfOk result (λ b. IsTrue b ↔ Goes target.now from word.now cost.now to) }
{
    let nexts = spell_word(alloc, word)?;
    let leads = moves_along(alloc, target, from, 0, 0, nexts.as_slice())?;
    let found = has_lead(leads.as_slice(), to, cost);
    Ok(found)
}

// The step, where the target goes on behind it on the rest of the word at what is left of the cost.
fn try_step(
    alloc: Global,
    target: &Explicit,
    step: &Move<u32>,
    rest: &[u32],
    to: u32,
    cost: &Cost,
) -> Result<Option<NextStep>, AllocError>
    requires at { step.now.to < target.now.states }
    requires width { length step.now.cost ≡ target.now.registers }
    requires whole { length cost.now ≡ target.now.registers }
    requires fits { edges_top target.now.edges * length rest.now < 2 ^ 64 }
    ensures { IfOk result (λ o. MatchOption o ((left : List ℕ) → GoesOnAt target.now step.now rest.now to cost.now left → ⊥) (IsTried target.now step.now rest.now to cost.now)) }
{
    let left = match subtract(alloc, cost, &step.cost)? {
        None => return Ok(None),
        Some(left) => left,
    };
    if !goes(alloc, target, step.to, rest, to, &left)? {
        return Ok(None);
    }
    let paid = step.cost.copy(alloc)?;
    Ok(Some(NextStep {
        cost: paid,
        to: step.to,
        left,
    }))
}

// A step of the target from the state `at` on the character, behind which it goes on on the rest of
// the word, as it does on the whole.
fn next_step(
    alloc: Global,
    target: &Explicit,
    at: u32,
    c: u32,
    rest: &[u32],
    to: u32,
    cost: &Cost,
) -> Result<NextStep, AllocError>
    requires at { at < target.now.states }
    requires width { length cost.now ≡ target.now.registers }
    requires fits { edges_top target.now.edges * length rest.now < 2 ^ 64 }
    requires goes { Goes target.now at (c ∷ rest.now) cost.now to }
    ensures { IfOk result (λ n. IsNextStep target.now at c rest.now to cost.now n.cost n.to n.left) }
{
    let steps = target.moves(alloc, &at)?;
    for step in steps.as_slice() {
        if !step.on.holds(c) {
            continue;
        }
        let found = try_step(alloc, target, step, rest, to, cost)?;
        if let Some(next) = found {
            return Ok(next);
        }
    }
    unreachable!()
}

/// A path of the target on the word from the one state to the other that costs just this.
pub fn way_on(
    alloc: Global,
    target: &Explicit,
    from: u32,
    word: &[u32],
    to: u32,
    cost: &Cost,
) -> Result<CostedPath, AllocError>
    requires from { from < target.now.states }
    requires width { length cost.now ≡ target.now.registers }
    requires fits { edges_top target.now.edges * length word.now < 2 ^ 64 }
    requires goes { Goes target.now from word.now cost.now to }
    ensures { IfOk result (λ w. IsWay target.now from word.now to cost.now w.states w.costs) }
{
    let mut way = CostedPath::new(alloc);
    let mut at = from;
    let mut left = cost.copy(alloc)?;
    for i in 0..word.len() {
        let next = next_step(alloc, target, at, word[i], &word[i + 1..], to, &left)?;
        way.push(next.to, next.cost)?;
        at = next.to;
        left = next.left;
    }
    Ok(way)
}
