//! Places of layers in a table.
ghost use Rattle.std.specs.Prelude.{◌≡◌, ◌+◌, ◌*◌, ◌<◌, ◌≤◌, ◌^◌, true, false, length, map, IfOk, MatchOption};
ghost use Rattle.search_hits.specs.Regions.{greatest_states};
ghost use Rattle.box_layers.specs.Layers.{AreWithinGreatest};
ghost use Rattle.box_search.specs.declared.places.TheConstants.{MOST_PLACES};
ghost use Rattle.box_search.specs.Places.{number_of, numbers_below, HasPlace, place_of};

use box_layers::Layer;
use machine_core::Explicit;
use std::alloc::{AllocError, Global};
use sv_list::Items;

// No table has more places: 32 MB.
const MOST_PLACES: u64 = 4_194_304;

/// A block for each machine, in it a row for each state of the largest one, and in that a place for each
/// totals up to the greatest ones.
#[derive(Drop)]
pub struct TotalPlaces {
    /// The greatest total of each register.
    pub uppers: Items<u64>,
    /// How many totals there are.
    pub points: u64,
    pub states: u64,
    pub machines: u64,
    pub ghost counted: { points ≡ numbers_below uppers },
    pub ghost few: { points * (states * machines) ≤ MOST_PLACES },
}

impl TotalPlaces {
    /// The places of all layers, if the table isn't too large; else none at all.
    pub fn of(
        alloc: Global,
        machines: &[Explicit],
        sides: &[(u64, u64)],
    ) -> Result<TotalPlaces, AllocError>
        ensures all { IfOk result (λ places. 0 < greatest_states machines.now → numbers_below (map (λ s. s.1) sides.now) * (greatest_states machines.now * (length machines.now + 1)) ≤ MOST_PLACES
            → (places.uppers ≡ map (λ s. s.1) sides.now) × (places.states ≡ greatest_states machines.now) × (places.machines ≡ length machines.now + 1)) }
        ensures none { IfOk result (λ places. MOST_PLACES < numbers_below (map (λ s. s.1) sides.now) * (greatest_states machines.now * (length machines.now + 1)) → places.states ≡ 0) }
    {
        let uppers = greatest_totals(alloc, sides)?;
        let states = greatest_states(machines);
        Ok(places_of(alloc, uppers, states, machines.len() as u64 + 1))
    }

    /// The place of a layer; `None` exactly where it has none. Linear in the registers.
    pub fn place(&self, layer: &Layer) -> Option<usize>
        ensures { MatchOption result
            (HasPlace self.now.uppers self.now.states self.now.machines layer.now → ⊥)
            (λ p. HasPlace self.now.uppers self.now.states self.now.machines layer.now × (p ≡ place_of self.now.uppers self.now.states layer.now) × (p < MOST_PLACES)) }
    {
        let state = u64::from(layer.state);
        if state >= self.states {
            return None;
        }
        if layer.machine >= self.machines {
            return None;
        }
        let Some(totals) = number(layer.spent.as_slice(), self.uppers.as_slice()) else {
            return None;
        };
        let row = digits(state, self.states, layer.machine);
        Some(digits(totals, self.points, row) as usize)
    }
}

// The upper ends of the sides.
fn greatest_totals(alloc: Global, sides: &[(u64, u64)]) -> Result<Items<u64>, AllocError>
    ensures { IfOk result (λ uppers. uppers ≡ map (λ s. s.1) sides.now) }
{
    let mut uppers = Items::new(alloc);
    for side in sides {
        uppers.push(side.1)?;
    }
    Ok(uppers)
}

// The places of all layers, of so many blocks; none where there are too many.
fn places_of(alloc: Global, uppers: Items<u64>, states: u64, machines: u64) -> TotalPlaces
    ensures all { 0 < states * machines → numbers_below uppers * (states * machines) ≤ MOST_PLACES → (result.uppers ≡ uppers) × (result.states ≡ states) × (result.machines ≡ machines) }
    ensures none { MOST_PLACES < numbers_below uppers * (states * machines) → result.states ≡ 0 }
{
    let Some(points) = points_of(uppers.as_slice()) else {
        return no_places(alloc);
    };
    if !are_few(points, states, machines) {
        return no_places(alloc);
    }
    TotalPlaces {
        uppers,
        points,
        states,
        machines,
    }
}

// No place at all.
fn no_places(alloc: Global) -> TotalPlaces
    ensures { result.states ≡ 0 }
{
    TotalPlaces {
        uppers: Items::new(alloc),
        points: 1,
        states: 0,
        machines: 0,
    }
}

// Whether a table may have so many places.
fn are_few(points: u64, states: u64, machines: u64) -> bool
    ensures few { result ≡ true → points * (states * machines) ≤ MOST_PLACES }
    ensures many { result ≡ false → 0 < points → MOST_PLACES < points * (states * machines) }
{
    let Some(rows) = states.checked_mul(machines) else {
        return false;
    };
    match points.checked_mul(rows) {
        Some(places) => places <= MOST_PLACES,
        None => false,
    }
}

/// The greatest number of states.
pub fn greatest_states(machines: &[Explicit]) -> u64
    ensures { result ≡ greatest_states machines.now }
{
    let mut greatest = 0;
    for machine in machines {
        greatest = u64::from(machine.states()).max(greatest);
    }
    greatest
}

// How many totals there are, where a `u64` counts them.
fn points_of(uppers: &[u64]) -> Option<u64>
    ensures { MatchOption result (2 ^ 64 ≤ numbers_below uppers.now) (λ n. n ≡ numbers_below uppers.now) }
{
    let mut points = 1u64;
    let mut at = uppers.len();
    while at > 0 {
        at -= 1;
        let Some(base) = uppers[at].checked_add(1) else {
            return None;
        };
        let Some(more) = base.checked_mul(points) else {
            return None;
        };
        points = more;
    }
    Some(points)
}

// A digit below `base`, and what stands above it.
fn digits(low: u64, base: u64, high: u64) -> u64
    requires { low + base * high < 2 ^ 64 }
    ensures { result ≡ low + base * high }
{
    low + base * high
}

// The number of the totals; `None` exactly where one is above its greatest.
fn number(totals: &[u64], uppers: &[u64]) -> Option<u64>
    requires { numbers_below uppers.now < 2 ^ 64 }
    ensures { MatchOption result (AreWithinGreatest totals.now uppers.now → ⊥) (λ n. AreWithinGreatest totals.now uppers.now × (n ≡ number_of totals.now uppers.now)) }
{
    if totals.len() != uppers.len() {
        return None;
    }
    let mut number = 0;
    let mut at = totals.len();
    while at > 0 {
        at -= 1;
        if totals[at] > uppers[at] {
            return None;
        }
        number = digits(totals[at], uppers[at] + 1, number);
    }
    Some(number)
}
