ghost use Rattle.std.specs.Prelude.{◌≡◌, ℕ, ◌+◌, ◌*◌, ◌<◌, ◌≤◌, ◌^◌, ◌↔◌, ◌⊎◌, length, slice_get, Some, IfOk, OnOk, All, Any, Contains, List};
ghost use Rattle.sv_word.specs.Ranges.{IsInhabited};
ghost use Rattle.machine_core.specs.Costs.{add_costs, CanAdd};
ghost use Rattle.machine_core.specs.Moves.{Moves};
ghost use Rattle.machine_core.specs.Places.{IsIndex, pick};
ghost use Rattle.machine_core.specs.Language.{RunsFrom};
ghost use Rattle.machine_core.specs.Edges.{EndsAt, StepsBy, edges_top, ends_top};
ghost use Rattle.pre_image.specs.Leading.{Passes, EndsInPair, Goes};
ghost use Rattle.sv_terms.specs.Transduction.{IsFormed};
ghost use Rattle.sv_terms.specs.TransducerSizes.{items_size};
ghost use Rattle.sv_terms.specs.declared.transducer.TransEdge.{TransEdge};
ghost use Rattle.pre_image.specs.Spelling.{spelling};
ghost use Rattle.std.specs.Coded.{le_prop};
ghost use Rattle.pre_image.specs.FormedProps.{items_prop, word_prop};
ghost use Rattle.pre_image.specs.PreImages.{IsPair, PreEnds, PreSteps, pre_top};
ghost use Rattle.pre_image.specs.Indexed.{IsIndexed, edge_source, end_state};
ghost use Rattle.pre_image.specs.PreLaws.{pre_first, pre_step_is_state, pre_step_character, pre_step_cost, pre_end_cost, pairs_at_most};
ghost use Rattle.sv_word.specs.Words.{greatest_character};

use crate::leading::{moves_along, spell, spell_word};
use machine_core::{Cost, Explicit, Index, Machine, Move};
use std::alloc::{AllocError, Global};
use sv_list::{Copied, Items};
use sv_terms::{TransEdge, Transducer};
use sv_word::Word;

/// The words for which a transducer may write a word of the target, each at what that word costs
/// there, by a machine that is explored state by state.
///
/// A state is a pair of one of the transducer and one of the target, so at most so many are reached as
/// the product of both numbers. What leaves a pair is found without a look at the transducer's other
/// edges and ends.
#[derive(Drop)]
pub struct Pre<'a> {
    pub through: &'a Transducer,
    pub target: &'a Explicit,
    edge_places: Index,
    end_places: Index,
    ghost formed: { IsFormed through.now } by { Prim.hlevel (le_prop, word_prop, items_prop) },
    ghost fits: { pre_top through.now target.now < 2 ^ 64 },
    ghost indexed: { IsIndexed through.now edge_places end_places },
}

impl<'a> Pre<'a> {
    /// The pre-image of `target` under `through`. The costs fit where the target's greatest edge cost,
    /// times the most characters that an edge or an end of the transducer writes, and the target's
    /// greatest end cost add up below 2^64. Time and memory are linear in the transducer.
    pub fn of(
        alloc: Global,
        through: &'a Transducer,
        target: &'a Explicit,
    ) -> Result<Self, AllocError>
        requires formed { IsFormed through.now }
        requires fits { pre_top through.now target.now < 2 ^ 64 }
        ensures through { IfOk result (λ pre. pre.through.now ≡ through.now) }
        ensures target { IfOk result (λ pre. pre.target.now ≡ target.now) }
    {
        let edge_places = edges_by_state(alloc, through)?;
        let end_places = ends_by_state(alloc, through)?;
        Ok(Pre {
            through,
            target,
            edge_places,
            end_places,
        })
    }
}

impl<'a> Machine for Pre<'a> {
    type St = (u32, u32);

    ghost width = { λ p. p.target.now.registers };

    ghost is_state = { λ p. IsPair p.through.now p.target.now };

    ghost first = { λ p. (p.through.now.start, 0) };

    ghost ends_with = { λ p. PreEnds p.through.now p.target.now };

    ghost steps_to = { λ p. PreSteps p.through.now p.target.now };

    ghost top = { λ p. pre_top p.through.now p.target.now };

    ghost size = { λ p. p.through.now.states * p.target.now.states };

    ghost first_is_state = { λ p. pre_first p.through.now p.target.now p.formed };

    ghost step_is_state = { λ p s t c cost h step. pre_step_is_state p.through.now p.target.now p.formed s t c cost h step };

    ghost step_character = { λ p s t c cost h step. pre_step_character p.through.now p.target.now p.formed s t c cost step };

    ghost step_cost = { λ p s t c cost h step. pre_step_cost p.through.now p.target.now s t c cost h step };

    ghost end_cost = { λ p s cost h end. pre_end_cost p.through.now p.target.now s cost h end };

    ghost states_at_most = { λ p. pairs_at_most p.through.now p.target.now };

    fn registers(&self) -> usize {
        self.target.registers()
    }

    fn start(&self, _alloc: Global) -> Result<(u32, u32), AllocError> {
        Ok((self.through.start, 0))
    }

    fn ends(&self, alloc: Global, at: &(u32, u32)) -> Result<Items<Cost>, AllocError> {
        let ends = self.through.ends.as_slice();
        costs_of(alloc, self.target, at, ends, self.end_places.row(at.0))
    }

    fn moves(&self, alloc: Global, at: &(u32, u32)) -> Result<Items<Move<(u32, u32)>>, AllocError> {
        let edges = self.through.edges.as_slice();
        moves_of(alloc, self.target, at, edges, self.edge_places.row(at.0))
    }
}

// The places of the transducer's edges, by the state that they leave.
fn edges_by_state(alloc: Global, through: &Transducer) -> Result<Index, AllocError>
    requires { IsFormed through.now }
    ensures rows { IfOk result (λ rows. length rows ≡ through.now.states) }
    ensures found { IfOk result (IsIndex edge_source through.now.edges) }
{
    let mut rows = Index::new(alloc, through.states)?;
    for (place, edge) in through.edges.as_slice().iter().enumerate() {
        rows.add(edge.from, place)?;
    }
    Ok(rows)
}

// The places of the transducer's ends, by their states.
fn ends_by_state(alloc: Global, through: &Transducer) -> Result<Index, AllocError>
    requires { IsFormed through.now }
    ensures rows { IfOk result (λ rows. length rows ≡ through.now.states) }
    ensures found { IfOk result (IsIndex end_state through.now.ends) }
{
    let mut rows = Index::new(alloc, through.states)?;
    for (place, end) in through.ends.as_slice().iter().enumerate() {
        rows.add(end.0, place)?;
    }
    Ok(rows)
}

// The costs at which a word may end in this pair of states by the ends at these places.
fn costs_of(
    alloc: Global,
    target: &Explicit,
    at: &(u32, u32),
    ends: &[(u32, Word)],
    places: &[usize],
) -> Result<Items<Cost>, AllocError>
    requires within { (i p : ℕ) → slice_get places.now i ≡ Some p → p < length ends.now }
    requires at { at.now.1 < target.now.states }
    requires fits { (e : ℕ × List ℕ) → Contains ends.now e → edges_top target.now.edges * length e.1 + ends_top target.now.ends < 2 ^ 64 }
    ensures { IfOk result (λ all. (cost : List ℕ) → Any (λ e. e ≡ cost) all ↔ Any (EndsInPair target.now at.now cost) (pick ends.now places.now)) }
{
    let mut all = Items::new(alloc);
    for place in places {
        let end = &ends[*place];
        add_end(alloc, &mut all, target, at, end)?;
    }
    Ok(all)
}

// The moves from this pair of states by the edges at these places.
fn moves_of(
    alloc: Global,
    target: &Explicit,
    at: &(u32, u32),
    edges: &[TransEdge],
    places: &[usize],
) -> Result<Items<Move<(u32, u32)>>, AllocError>
    requires within { (i p : ℕ) → slice_get places.now i ≡ Some p → p < length edges.now }
    requires at { at.now.1 < target.now.states }
    requires high { (e : TransEdge) → Contains edges.now e → e.hi ≤ greatest_character }
    requires fits { (e : TransEdge) → Contains edges.now e → edges_top target.now.edges * items_size e.items < 2 ^ 64 }
    ensures exact { IfOk result (λ all. (c : ℕ) (cost : List ℕ) (to : ℕ × ℕ) →
        Any (Moves c cost to) all ↔ Any (Passes target.now at.now c cost to) (pick edges.now places.now)) }
    ensures inhabited { IfOk result (All (λ m. IsInhabited m.on)) }
{
    let mut all = Items::new(alloc);
    for place in places {
        let edge = &edges[*place];
        add_edge(alloc, &mut all, target, at, edge)?;
    }
    Ok(all)
}

// Adds the costs at which a word may end in this pair of states by this end.
fn add_end(
    alloc: Global,
    all: &mut Items<Cost>,
    target: &Explicit,
    at: &(u32, u32),
    end: &(u32, Word),
) -> Result<(), AllocError>
    requires at { at.now.1 < target.now.states }
    requires fits { edges_top target.now.edges * length end.now.1 + ends_top target.now.ends < 2 ^ 64 }
    ensures { OnOk result ((cost : List ℕ) → Any (λ e. e ≡ cost) all.new ↔ (Any (λ e. e ≡ cost) all.old ⊎ EndsInPair target.now at.now cost end.now)) }
{
    if end.0 != at.0 {
        return Ok(());
    }
    add_ends(alloc, all, target, at.1, end.1.as_slice())?;
    Ok(())
}

// Adds the moves of this edge from this pair of states.
fn add_edge(
    alloc: Global,
    all: &mut Items<Move<(u32, u32)>>,
    target: &Explicit,
    at: &(u32, u32),
    edge: &TransEdge,
) -> Result<(), AllocError>
    requires at { at.now.1 < target.now.states }
    requires high { edge.now.hi ≤ greatest_character }
    requires fits { edges_top target.now.edges * items_size edge.now.items < 2 ^ 64 }
    requires old { All (λ m. IsInhabited m.on) all.old }
    ensures exact { OnOk result ((c : ℕ) (cost : List ℕ) (to : ℕ × ℕ) → Any (Moves c cost to) all.new ↔
        (Any (Moves c cost to) all.old ⊎ Passes target.now at.now c cost to edge.now)) }
    ensures inhabited { OnOk result (All (λ m. IsInhabited m.on) all.new) }
{
    if edge.from != at.0 {
        return Ok(());
    }
    if edge.lo > edge.hi {
        return Ok(());
    }
    add_moves(alloc, all, target, at.1, edge)?;
    Ok(())
}

// Adds the costs at which the target reads the word from its state `at` to an end.
fn add_ends(
    alloc: Global,
    all: &mut Items<Cost>,
    target: &Explicit,
    at: u32,
    word: &[u32],
) -> Result<(), AllocError>
    requires at { at < target.now.states }
    requires fits { edges_top target.now.edges * length word.now + ends_top target.now.ends < 2 ^ 64 }
    ensures { OnOk result ((cost : List ℕ) → Any (λ e. e ≡ cost) all.new ↔
        (Any (λ e. e ≡ cost) all.old ⊎ RunsFrom (EndsAt target.now.ends) (StepsBy target.now.edges) at word.now cost)) }
{
    let nexts = spell_word(alloc, word)?;
    let leads = moves_along(alloc, target, at, 0, 0, nexts.as_slice())?;
    for lead in leads.as_slice() {
        let ends = target.ends(alloc, &lead.to)?;
        add_sums(alloc, all, &lead.cost, ends.as_slice())?;
    }
    Ok(())
}

// Adds the sums of a cost with these.
fn add_sums(
    alloc: Global,
    all: &mut Items<Cost>,
    first: &Cost,
    others: &[Cost],
) -> Result<(), AllocError>
    requires { (k : List ℕ) → Contains others.now k → CanAdd first.now k }
    ensures { OnOk result ((cost : List ℕ) → Any (λ e. e ≡ cost) all.new ↔
        (Any (λ e. e ≡ cost) all.old ⊎ Any (λ k. add_costs first.now k ≡ cost) others.now)) }
{
    for other in others {
        all.push(first.add(alloc, other)?)?;
    }
    Ok(())
}

// Adds the moves of this edge, which is read for some character, where the target is in the state `at`.
fn add_moves(
    alloc: Global,
    all: &mut Items<Move<(u32, u32)>>,
    target: &Explicit,
    at: u32,
    edge: &TransEdge,
) -> Result<(), AllocError>
    requires at { at < target.now.states }
    requires order { edge.now.lo ≤ edge.now.hi }
    requires high { edge.now.hi ≤ greatest_character }
    requires fits { edges_top target.now.edges * items_size edge.now.items < 2 ^ 64 }
    requires old { All (λ m. IsInhabited m.on) all.old }
    ensures exact { OnOk result ((c : ℕ) (cost : List ℕ) (to : ℕ × ℕ) → Any (Moves c cost to) all.new ↔
        (Any (Moves c cost to) all.old ⊎ ((edge.now.to ≡ to.0) × (edge.now.lo ≤ c) × (c ≤ edge.now.hi) × Goes target.now at (spelling c edge.now.items) cost to.1))) }
    ensures inhabited { OnOk result (All (λ m. IsInhabited m.on) all.new) }
{
    let nexts = spell(alloc, edge.items.as_slice())?;
    let leads = moves_along(alloc, target, at, edge.lo, edge.hi, nexts.as_slice())?;
    for lead in leads.as_slice() {
        let on = lead.on.copy(alloc)?;
        let cost = lead.cost.copy(alloc)?;
        all.push(Move {
            on,
            cost,
            to: (edge.to, lead.to),
        })?;
    }
    Ok(())
}
