//! What a transducer wrote in a step of a run, or at its end, with the target's way along it.
ghost use Rattle.std.specs.Prelude.{◌≡◌, ◌*◌, ◌<◌, ◌≤◌, ◌^◌, [], ◌++◌, length, IfOk, OnOk, MatchOption};
ghost use Rattle.machine_core.specs.Edges.{EndsAt, StepsBy, edges_top};
ghost use Rattle.machine_core.specs.Language.{RunsFrom};
ghost use Rattle.pre_image.specs.Leading.{EndsInPair, Passes};
ghost use Rattle.sv_terms.specs.TransducerSizes.{items_size};
ghost use Rattle.pre_image.specs.PreImages.{PreEnds, PreSteps};
ghost use Rattle.pre_image.specs.Parts.{EndsByPath, IsEdgePart, IsFinalPart, IsEndPart, IsClosingPart, IsStepPart, IsLastPart};
ghost use Rattle.sv_word.specs.Words.{greatest_character};

use crate::pre::Pre;
use crate::ways::{CostedPath, goes, subtract, way_on};
use machine_core::{Cost, End, Explicit};
use std::alloc::{AllocError, Global};
use sv_list::Copied;
use sv_terms::TransEdge;
use sv_word::Word;
use transducer_core::text_at;

/// A written word, and a way of the target along it.
#[derive(Drop)]
pub struct SpelledWord {
    pub word: Word,
    pub way: CostedPath,
}

impl SpelledWord {
    /// No character, and the path of no step.
    pub fn new(alloc: Global) -> SpelledWord
        ensures word { result.word ≡ [] }
        ensures states { result.way.states ≡ [] }
        ensures costs { result.way.costs ≡ [] }
    {
        SpelledWord {
            word: Word::new(alloc),
            way: CostedPath::new(alloc),
        }
    }

    /// Adds what is written from where this ends.
    pub fn append(&mut self, more: SpelledWord) -> Result<(), AllocError>
        ensures word { OnOk result (self.new.word ≡ self.old.word ++ more.word) }
        ensures states { OnOk result (self.new.way.states ≡ self.old.way.states ++ more.way.states) }
        ensures costs { OnOk result (self.new.way.costs ≡ self.old.way.costs ++ more.way.costs) }
    {
        let SpelledWord { word, way } = more;
        self.word.append(&word)?;
        self.way.append(way)
    }
}

/// The same at the end of a run, with the target's end cost.
#[derive(Drop)]
pub struct LastPart {
    pub word: Word,
    pub way: CostedPath,
    pub last: Cost,
}

// What this edge wrote in the step, if it may have made it.
fn edge_part(
    alloc: Global,
    target: &Explicit,
    edge: &TransEdge,
    from: &(u32, u32),
    c: u32,
    cost: &Cost,
    to: &(u32, u32),
) -> Result<Option<SpelledWord>, AllocError>
    requires from { from.now.1 < target.now.states }
    requires width { length cost.now ≡ target.now.registers }
    requires character { c ≤ greatest_character }
    requires fits { edges_top target.now.edges * items_size edge.now.items < 2 ^ 64 }
    ensures { IfOk result (λ o. MatchOption o (Passes target.now from.now c cost.now to.now edge.now → ⊥) (IsEdgePart target.now edge.now from.now c cost.now to.now)) }
{
    if edge.from != from.0 {
        return Ok(None);
    }
    if edge.to != to.0 {
        return Ok(None);
    }
    if c < edge.lo {
        return Ok(None);
    }
    if c > edge.hi {
        return Ok(None);
    }
    let word = match text_at(alloc, edge.items.as_slice(), c)? {
        None => return Ok(None),
        Some(word) => word,
    };
    let may = goes(alloc, target, from.1, word.as_slice(), to.1, cost)?;
    if !may {
        return Ok(None);
    }
    let way = way_on(alloc, target, from.1, word.as_slice(), to.1, cost)?;
    Ok(Some(SpelledWord { word, way }))
}

/// What the transducer wrote in the step, with the target's way.
pub fn step_part(
    alloc: Global,
    pre: &Pre,
    from: &(u32, u32),
    c: u32,
    cost: &Cost,
    to: &(u32, u32),
) -> Result<SpelledWord, AllocError>
    requires from { from.now.1 < pre.now.target.now.states }
    requires width { length cost.now ≡ pre.now.target.now.registers }
    requires character { c ≤ greatest_character }
    requires step { PreSteps pre.now.through.now pre.now.target.now from.now c cost.now to.now }
    ensures { IfOk result (IsStepPart pre.now.through.now pre.now.target.now from.now c cost.now to.now) }
{
    for edge in pre.through.edges.as_slice() {
        let found = edge_part(alloc, pre.target, edge, from, c, cost, to)?;
        if let Some(part) = found {
            return Ok(part);
        }
    }
    unreachable!()
}

// The way of the target along the word to this end, if it costs so much.
fn final_part(
    alloc: Global,
    target: &Explicit,
    at: u32,
    word: &Word,
    end: &End,
    cost: &Cost,
) -> Result<Option<LastPart>, AllocError>
    requires at { at < target.now.states }
    requires width { length cost.now ≡ target.now.registers }
    requires end { length end.now.cost ≡ target.now.registers }
    requires fits { edges_top target.now.edges * length word.now < 2 ^ 64 }
    ensures { IfOk result (λ o. MatchOption o (EndsByPath target.now at word.now cost.now end.now → ⊥) (IsFinalPart target.now at word.now end.now cost.now)) }
{
    let left = match subtract(alloc, cost, &end.cost)? {
        None => return Ok(None),
        Some(left) => left,
    };
    let may = goes(alloc, target, at, word.as_slice(), end.at, &left)?;
    if !may {
        return Ok(None);
    }
    let way = way_on(alloc, target, at, word.as_slice(), end.at, &left)?;
    let word = word.copy(alloc)?;
    let last = end.cost.copy(alloc)?;
    Ok(Some(LastPart { word, way, last }))
}

// The way of the target along the word to one of its ends, if one costs so much.
fn end_part(
    alloc: Global,
    target: &Explicit,
    at: u32,
    word: &Word,
    cost: &Cost,
) -> Result<Option<LastPart>, AllocError>
    requires at { at < target.now.states }
    requires width { length cost.now ≡ target.now.registers }
    requires fits { edges_top target.now.edges * length word.now < 2 ^ 64 }
    ensures { IfOk result (λ o. MatchOption o (RunsFrom (EndsAt target.now.ends) (StepsBy target.now.edges) at word.now cost.now → ⊥) (IsEndPart target.now at word.now cost.now)) }
{
    for end in target.finals() {
        let found = final_part(alloc, target, at, word, end, cost)?;
        if let Some(part) = found {
            return Ok(Some(part));
        }
    }
    Ok(None)
}

// The same for what this end of the transducer writes, if it is one of the state.
fn closing_part(
    alloc: Global,
    target: &Explicit,
    at: &(u32, u32),
    end: &(u32, Word),
    cost: &Cost,
) -> Result<Option<LastPart>, AllocError>
    requires at { at.now.1 < target.now.states }
    requires width { length cost.now ≡ target.now.registers }
    requires fits { edges_top target.now.edges * length end.now.1 < 2 ^ 64 }
    ensures { IfOk result (λ o. MatchOption o (EndsInPair target.now at.now cost.now end.now → ⊥) (IsClosingPart target.now at.now end.now cost.now)) }
{
    if end.0 != at.0 {
        return Ok(None);
    }
    end_part(alloc, target, at.1, &end.1, cost)
}

/// What the transducer wrote at the end, with the target's way.
pub fn last_part(
    alloc: Global,
    pre: &Pre,
    at: &(u32, u32),
    cost: &Cost,
) -> Result<LastPart, AllocError>
    requires at { at.now.1 < pre.now.target.now.states }
    requires width { length cost.now ≡ pre.now.target.now.registers }
    requires end { PreEnds pre.now.through.now pre.now.target.now at.now cost.now }
    ensures { IfOk result (IsLastPart pre.now.through.now pre.now.target.now at.now cost.now) }
{
    for end in pre.through.ends.as_slice() {
        let found = closing_part(alloc, pre.target, at, end, cost)?;
        if let Some(part) = found {
            return Ok(part);
        }
    }
    unreachable!()
}
