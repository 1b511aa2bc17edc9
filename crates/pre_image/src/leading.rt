//! Where a target may be once it went along what a transducer writes.
ghost use Rattle.std.specs.Prelude.{◌≡◌, ⊤, ℕ, ◌++◌, ◌*◌, ◌<◌, ◌≤◌, ◌^◌, ◌↔◌, ◌⊎◌, ◌&&◌, ◌||◌, List, [], ◌∷◌, length, IfOk, OnOk, Any, Contains, MatchOption};
ghost use Rattle.sv_word.specs.Ranges.{in_pair, in_ranges, IsInhabited};
ghost use Rattle.machine_core.specs.declared.machine.Move.{Move};
ghost use Rattle.machine_core.specs.Moves.{Moves};
ghost use Rattle.machine_core.specs.Edges.{edges_top};
ghost use Rattle.pre_image.specs.Spelling.{moved_to, spelling};
ghost use Rattle.pre_image.specs.Moved.{AreCharacters};
ghost use Rattle.pre_image.specs.Leading.{next_of, spelled, GoesOn, Led, IsLead, AreLeads};
ghost use Rattle.machine_core.specs.Costs.{CanAdd};
ghost use Rattle.sv_word.specs.Words.{greatest_character};

use crate::letter::Letter;
use machine_core::{Cost, Explicit, Machine, Move, join_moves};
use std::alloc::{AllocError, Global};
use sv_list::{Copied, Items};
use sv_terms::Item;
use sv_word::{GREATEST_CHARACTER, Ranges};

// What a word has next, in order.
fn push_word(nexts: &mut Items<Letter>, word: &[u32]) -> Result<(), AllocError>
    ensures { OnOk result ((c : ℕ) → spelled nexts.new c ≡ spelled nexts.old c ++ word.now) }
{
    for d in word {
        nexts.push(Letter::Fixed(*d))?;
    }
    Ok(())
}

/// What a word is written by, character by character.
pub fn spell_word(alloc: Global, word: &[u32]) -> Result<Items<Letter>, AllocError>
    ensures { IfOk result (λ nexts. (c : ℕ) → spelled nexts c ≡ word.now) }
{
    let mut nexts = Items::new(alloc);
    push_word(&mut nexts, word)?;
    Ok(nexts)
}

// What an item writes, in order.
fn push_item(nexts: &mut Items<Letter>, item: &Item) -> Result<(), AllocError>
    ensures { OnOk result ((c : ℕ) → spelled nexts.new c ≡ spelled nexts.old c ++ spelling c (item.now ∷ [])) }
{
    match item {
        Item::Text(word) => {
            push_word(nexts, word.as_slice())?;
            Ok(())
        }
        Item::Shift(by) => {
            nexts.push(Letter::Moved(*by))?;
            Ok(())
        }
    }
}

/// What items write, letter by letter.
pub fn spell(alloc: Global, items: &[Item]) -> Result<Items<Letter>, AllocError>
    ensures { IfOk result (λ nexts. (c : ℕ) → spelled nexts c ≡ spelling c items.now) }
{
    let mut nexts = Items::new(alloc);
    for item in items {
        push_item(&mut nexts, item)?;
    }
    Ok(nexts)
}

// The characters that are in the pair once they are moved by this number.
fn move_back(alloc: Global, pair: (u32, u32), by: i32) -> Result<Ranges, AllocError>
    requires { pair.1 ≤ greatest_character }
    ensures { IfOk result (λ r. (c : ℕ) → c ≤ greatest_character → in_ranges r c ≡ in_pair pair (moved_to by c)) }
{
    let steps = by.unsigned_abs();
    if by < 0 {
        let least = pair.0.saturating_add(steps);
        let greatest = pair.1.saturating_add(steps).min(GREATEST_CHARACTER);
        return Ranges::of(alloc, least, greatest);
    }
    if pair.1 < steps {
        return Ok(Ranges::none(alloc));
    }
    Ranges::of(alloc, pair.0.saturating_sub(steps), pair.1 - steps)
}

// The characters that some pair has once they are moved by this number. Halves are joined, so that of scattered characters
// each is copied as often as their number can be halved.
#[cycle(move_all_back)]
fn move_all_back(alloc: Global, pairs: &[(u32, u32)], by: i32) -> Result<Ranges, AllocError>
    requires { AreCharacters pairs.now }
    ensures { IfOk result (λ r. (c : ℕ) → c ≤ greatest_character → in_ranges r c ≡ in_ranges pairs.now (moved_to by c)) }
{
    match pairs {
        [] => Ok(Ranges::none(alloc)),
        [pair] => move_back(alloc, *pair, by),
        _ => {
            let (front, rest) = pairs.split_at(pairs.len() / 2);
            let first = move_all_back(alloc, front, by)?;
            let others = move_all_back(alloc, rest, by)?;
            first.join(alloc, &others)
        }
    }
}

// The characters of a lead that are read by a move once they are moved by this number.
fn meet_moved(alloc: Global, lead: &Ranges, step: &Ranges, by: i32) -> Result<Ranges, AllocError>
    ensures { IfOk result (λ r. (c : ℕ) → in_ranges r c ≡ (in_ranges lead.now c && in_ranges step.now (moved_to by c))) }
{
    let _lead = lead.as_slice();
    let moved = move_all_back(alloc, step.as_slice(), by)?;
    lead.meet(alloc, &moved)
}

// The characters of a lead for which a move reads what is written next.
fn characters(
    alloc: Global,
    lead: &Ranges,
    step: &Ranges,
    next: Letter,
) -> Result<Ranges, AllocError>
    ensures { IfOk result (λ r. (c : ℕ) → in_ranges r c ≡ (in_ranges lead.now c && in_ranges step.now (next_of next c))) }
{
    match next {
        Letter::Moved(0) => {
            let _lead = lead.as_slice();
            lead.meet(alloc, step)
        }
        Letter::Moved(by) => meet_moved(alloc, lead, step, by),
        Letter::Fixed(d) => {
            if step.holds(d) {
                return lead.copy(alloc);
            }
            Ok(Ranges::none(alloc))
        }
    }
}

// The lead, gone on by this move; none where that is for no character.
fn follow(
    alloc: Global,
    lead: &Move<u32>,
    step: &Move<u32>,
    next: Letter,
) -> Result<Option<Move<u32>>, AllocError>
    requires { CanAdd lead.now.cost step.now.cost }
    ensures exact { IfOk result (λ o. (c : ℕ) (cost : List ℕ) (to : ℕ) → GoesOn next lead.now c cost to step.now ↔ MatchOption o ⊥ (Moves c cost to)) }
    ensures inhabited { IfOk result (λ o. MatchOption o ⊤ (λ m. IsInhabited m.on)) }
{
    let on = characters(alloc, &lead.on, &step.on, next)?;
    if on.is_empty() {
        return Ok(None);
    }
    let cost = lead.cost.add(alloc, &step.cost)?;
    Ok(Some(Move {
        on,
        cost,
        to: step.to,
    }))
}

// Adds a lead, where there is one.
fn push_some(leads: &mut Items<Move<u32>>, lead: Option<Move<u32>>) -> Result<(), AllocError>
    requires old { (l : Move ℕ) → Contains leads.old l → IsInhabited l.on }
    requires some { MatchOption lead ⊤ (λ m. IsInhabited m.on) }
    ensures exact { OnOk result ((c : ℕ) (cost : List ℕ) (to : ℕ) →
        Any (Moves c cost to) leads.new ↔ (Any (Moves c cost to) leads.old ⊎ MatchOption lead ⊥ (Moves c cost to))) }
    ensures inhabited { OnOk result ((l : Move ℕ) → Contains leads.new l → IsInhabited l.on) }
{
    match lead {
        None => Ok(()),
        Some(further) => leads.push(further),
    }
}

// Adds the lead, gone on by each of these moves.
fn follow_all(
    alloc: Global,
    leads: &mut Items<Move<u32>>,
    lead: &Move<u32>,
    steps: &[Move<u32>],
    next: Letter,
) -> Result<(), AllocError>
    requires add { (s : Move ℕ) → Contains steps.now s → CanAdd lead.now.cost s.cost }
    requires old { (l : Move ℕ) → Contains leads.old l → IsInhabited l.on }
    ensures exact { OnOk result ((c : ℕ) (cost : List ℕ) (to : ℕ) →
        Any (Moves c cost to) leads.new ↔ (Any (Moves c cost to) leads.old ⊎ Any (GoesOn next lead.now c cost to) steps.now)) }
    ensures inhabited { OnOk result ((l : Move ℕ) → Contains leads.new l → IsInhabited l.on) }
{
    for step in steps {
        let further = follow(alloc, lead, step, next)?;
        push_some(leads, further)?;
    }
    Ok(())
}

// The leads, gone on by the target's steps on what is written next; those that end in one state at one cost are one,
// for the characters of all of them.
fn go_on(
    alloc: Global,
    target: &Explicit,
    leads: &[Move<u32>],
    next: Letter,
) -> Result<Items<Move<u32>>, AllocError>
    requires { (l : Move ℕ) → Contains leads.now l → IsLead target.now l }
    ensures exact { IfOk result (λ all. (c : ℕ) (cost : List ℕ) (to : ℕ) → Any (Moves c cost to) all ↔ Any (Led target.now next c cost to) leads.now) }
    ensures inhabited { IfOk result (λ all. (l : Move ℕ) → Contains all l → IsInhabited l.on) }
{
    let mut all = Items::new(alloc);
    for lead in leads {
        let steps = target.moves(alloc, &lead.to)?;
        follow_all(alloc, &mut all, lead, steps.as_slice(), next)?;
    }
    join_moves(alloc, all)
}

// The one lead where nothing is written.
fn first_leads(
    alloc: Global,
    target: &Explicit,
    from: u32,
    low: u32,
    high: u32,
) -> Result<Items<Move<u32>>, AllocError>
    requires order { low ≤ high }
    requires high { high ≤ greatest_character }
    ensures { IfOk result (AreLeads target.now from low high (spelled [])) }
{
    let on = Ranges::of(alloc, low, high)?;
    let cost = Cost::zeros(alloc, target.registers())?;
    let mut leads = Items::new(alloc);
    leads.push(Move { on, cost, to: from })?;
    Ok(leads)
}

/// Where the target may be, from the state `from` on, once it went along what is written for a
/// character from `low` to `high`, and at which costs: a move for each way.
pub fn moves_along(
    alloc: Global,
    target: &Explicit,
    from: u32,
    low: u32,
    high: u32,
    nexts: &[Letter],
) -> Result<Items<Move<u32>>, AllocError>
    requires from { from < target.now.states }
    requires order { low ≤ high }
    requires high { high ≤ greatest_character }
    requires fits { edges_top target.now.edges * length nexts.now < 2 ^ 64 }
    ensures { IfOk result (AreLeads target.now from low high (spelled nexts.now)) }
{
    let mut leads = first_leads(alloc, target, from, low, high)?;
    for next in nexts {
        leads = go_on(alloc, target, leads.as_slice(), *next)?;
    }
    Ok(leads)
}
