//! Whether a product reads no word, by few of its places: those that stand for all others.
ghost use Rattle.std.specs.Prelude.{◌≡◌, ◌<◌, ℕ, List, All, IsTrue, IfOk, OnOk, Ok, true, Some, length, map, slice_get};
ghost use Rattle.machine_core.specs.Language.{RunsFrom};
ghost use Rattle.machine_meet.specs.Products.{AreStates, MeetEnds, MeetSteps, meet_width};
ghost use Rattle.sv_terms.specs.Language.{InFirstOnly, Word};
ghost use Rattle.regex_machine.specs.Antichains.{AddsPlaces, ArePlaces, HasOneFor, IsSettled, StandFor, StandsFor, state_of_side};
ghost use Rattle.regex_machine.specs.Joined.{WordsOf, HaveNoRegisters};
ghost use Rattle.regex_machine.specs.OtherSides.{ends_of_side, first_of_side, steps_of_side};

use crate::joining::outsides;
use crate::sides::MeetSide;
use machine_core::{Explicit, Machine, Move};
use machine_meet::Meet;
use std::alloc::{AllocError, Global};
use sv_list::{Copied, Items};

// Where the sides of a product are, at a place of a word.
type Place = Items<Items<u32>>;

// Whether the states of a side may stand for these others: the same ones, or, where words are barred, some of them.
fn stands_for(barred: bool, states: &[u32], others: &[u32]) -> bool
    ensures { IsTrue result → StandsFor barred states.now others.now }
{
    if barred {
        return states.iter().all(|state| others.contains(state));
    }
    states == others
}

// Whether a place may stand for another one, side by side.
fn stand_for(sides: &[MeetSide], place: &[Items<u32>], other: &[Items<u32>]) -> bool
    ensures { IsTrue result → StandFor sides.now place.now other.now }
{
    if place.len() != sides.len() || other.len() != sides.len() {
        return false;
    }
    for at in 0..sides.len() {
        if !stands_for(sides[at].others, place[at].as_slice(), other[at].as_slice()) {
            return false;
        }
    }
    true
}

// The numbers of places by the state of their last side, whose words aren't barred: a place can stand only for one of the
// same state.
#[derive(Drop)]
struct PlacesByState {
    numbers: Vec<Vec<usize>>,
}

// The state of the last side.
fn last_state(place: &[Items<u32>]) -> Option<usize> {
    match place {
        [.., last] => last.as_slice().first().map(|state| *state as usize),
        [] => None,
    }
}

impl PlacesByState {
    fn new(alloc: Global, states: u32) -> Result<PlacesByState, AllocError> {
        let mut numbers = Vec::new(alloc);
        for _ in 0..states {
            numbers.push(Vec::new(alloc))?;
        }
        Ok(PlacesByState { numbers })
    }

    fn add(&mut self, place: &[Items<u32>], number: usize) -> Result<(), AllocError> {
        let Some(state) = last_state(place) else {
            return Ok(());
        };
        if let Some(numbers) = self.numbers.get_mut(state) {
            numbers.push(number)?;
        }
        Ok(())
    }

    // Whether one of the places is known to stand for this one.
    fn has_one_for(&self, sides: &[MeetSide], places: &[Place], place: &[Items<u32>]) -> bool
        ensures { IsTrue result → HasOneFor sides.now places.now place.now }
    {
        let Some(numbers) = last_state(place).and_then(|state| self.numbers.get(state)) else {
            return false;
        };
        for number in numbers {
            if let Some(other) = places.get(*number) {
                if stand_for(sides, other.as_slice(), place) {
                    return true;
                }
            }
        }
        false
    }
}

// Adds the place, unless one of those that are there stands for it.
fn add_place(
    alloc: Global,
    sides: &[MeetSide],
    places: &mut Items<Place>,
    by_state: &mut PlacesByState,
    place: &Place,
) -> Result<(), AllocError>
    requires place { AreStates state_of_side sides.now place.now }
    requires states { ArePlaces sides.now places.old }
    ensures more { OnOk result (AddsPlaces places.old places.new) }
    ensures states { OnOk result (ArePlaces sides.now places.new) }
    ensures one { OnOk result (HasOneFor sides.now places.new place.now) }
{
    if by_state.has_one_for(sides, places.as_slice(), place.as_slice()) {
        return Ok(());
    }
    by_state.add(place.as_slice(), places.len())?;
    let own = place.copy(alloc)?;
    places.push(own)?;
    Ok(())
}

// How many states the sides have at a place, together.
fn size(place: &[Items<u32>]) -> usize {
    place
        .iter()
        .fold(0, |sum: usize, states| sum.saturating_add(states.len()))
}

// The numbers of the steps, each after the size of the place to which it leads, by that size.
fn by_size(alloc: Global, steps: &[Move<Place>]) -> Result<Vec<(usize, usize)>, AllocError> {
    let mut order = Vec::new(alloc);
    for (number, step) in steps.iter().enumerate() {
        order.push((size(step.to.as_slice()), number))?;
    }
    order.sort_unstable();
    Ok(order)
}

// Adds the places to which steps lead, those of fewer states first, since these may stand for the others.
fn add_by_size(
    alloc: Global,
    sides: &[MeetSide],
    places: &mut Items<Place>,
    by_state: &mut PlacesByState,
    steps: &[Move<Place>],
) -> Result<(), AllocError>
    requires targets { All (λ step. AreStates state_of_side sides.now step.to) steps.now }
    requires states { ArePlaces sides.now places.old }
    ensures more { OnOk result (AddsPlaces places.old places.new) }
    ensures states { OnOk result (ArePlaces sides.now places.new) }
{
    for (_, number) in by_size(alloc, steps)? {
        if let Some(step) = steps.get(number) {
            add_place(alloc, sides, places, by_state, &step.to)?;
        }
    }
    Ok(())
}

// Adds the places to which steps lead, unless one stands for them.
fn add_targets(
    alloc: Global,
    sides: &[MeetSide],
    places: &mut Items<Place>,
    by_state: &mut PlacesByState,
    steps: &[Move<Place>],
) -> Result<(), AllocError>
    requires targets { All (λ step. AreStates state_of_side sides.now step.to) steps.now }
    requires states { ArePlaces sides.now places.old }
    ensures more { OnOk result (AddsPlaces places.old places.new) }
    ensures states { OnOk result (ArePlaces sides.now places.new) }
    ensures each { OnOk result (All (λ step. HasOneFor sides.now places.new step.to) steps.now) }
{
    add_by_size(alloc, sides, places, by_state, steps)?;
    for step in steps {
        add_place(alloc, sides, places, by_state, &step.to)?;
    }
    Ok(())
}

// Whether no word ends at the place of this number. Then those are added to which its steps lead, unless one stands for
// them.
fn settle(
    alloc: Global,
    meet: &Meet<MeetSide>,
    places: &mut Items<Place>,
    by_state: &mut PlacesByState,
    at: usize,
) -> Result<bool, AllocError>
    requires at { at < length places.old }
    requires states { ArePlaces meet.now.parts.now places.old }
    ensures more { OnOk result (AddsPlaces places.old places.new) }
    ensures states { OnOk result (ArePlaces meet.now.parts.now places.new) }
    ensures settled { result ≡ Ok true → (s : List (List ℕ)) → slice_get places.old at ≡ Some s → IsSettled meet.now.parts.now (meet_width (λ d. 0) meet.now.parts.now) places.new s }
{
    let place = places.as_slice()[at].copy(alloc)?;
    if !meet.ends(alloc, &place)?.is_empty() {
        return Ok(false);
    }
    let steps = meet.moves(alloc, &place)?;
    add_targets(alloc, meet.parts, places, by_state, steps.as_slice())?;
    Ok(true)
}

// Whether it is known that the product reads no word: each place that is reached has one that stands for it, of at most so
// many, and at none of these a word ends.
fn reads_nothing(
    alloc: Global,
    meet: &Meet<MeetSide>,
    states: u32,
    limit: usize,
) -> Result<bool, AllocError>
    ensures { IfOk result (λ none. IsTrue none → (w : Word) (cost : List ℕ) → RunsFrom (MeetEnds ends_of_side (meet_width (λ d. 0) meet.now.parts.now) meet.now.parts.now) (MeetSteps steps_of_side (meet_width (λ d. 0) meet.now.parts.now) meet.now.parts.now) (map first_of_side meet.now.parts.now) w cost → ⊥) }
{
    let mut by_state = PlacesByState::new(alloc, states)?;
    let mut places = Items::new(alloc);
    let start = meet.start(alloc)?;
    by_state.add(start.as_slice(), 0)?;
    places.push(start)?;
    let mut at = 0;
    while at < places.len() && at < limit {
        if !settle(alloc, meet, &mut places, &mut by_state, at)? {
            return Ok(false);
        }
        at += 1;
    }
    Ok(at == places.len())
}

/// Whether it is known that no word is in the first part alone: by at most so many places of the product of the first
/// part and the others' sets of states, of which a place with fewer states in its sets stands for one with more. False
/// where a word is found first, or where more places are needed. Each place costs a product's step, and a look at the
/// places of the same state of the first part.
pub fn none_in_first_only(
    alloc: Global,
    parts: &[Explicit],
    limit: usize,
) -> Result<bool, AllocError>
    requires { HaveNoRegisters parts.now }
    ensures { IfOk result (λ none. IsTrue none → (w : Word) → InFirstOnly WordsOf parts.now w → ⊥) }
{
    if parts.is_empty() {
        return Ok(false);
    }
    let mut sides = outsides(alloc, parts)?;
    let first = MeetSide::within(&parts[0]);
    sides.push(first)?;
    let list = sides.as_slice();
    let meet = Meet::of(list);
    reads_nothing(alloc, &meet, parts[0].states(), limit)
}
