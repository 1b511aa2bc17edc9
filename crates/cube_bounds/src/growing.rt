//! How long the words of the variables may become.
ghost use Rattle.std.specs.Prelude.{◌≡◌, ◌≤◌, ◌+◌, ◌/◌, ◌∷◌, ◌-ℤ◌, pos, ℕ, List, map, get_or, slice_set, IfOk};
ghost use Rattle.std.specs.List.{sum_by};
ghost use Rattle.cube_bounds.specs.Growth.{growth_by, growth_of, grown, longest_word};
ghost use Rattle.sv_terms.specs.CutOff.{cut_off};
ghost use Rattle.sv_terms.specs.TransducerSizes.{edges_most, ends_most, items_size};
ghost use Rattle.sv_terms.specs.declared.transducer.Item.{Item as AnyItem};

use crate::counting::number_at;
use flat_cubes::{By, Definition, Flat};
use std::alloc::{AllocError, Global};
use sv_list::Items;
use sv_terms::{Item, MOST_CHARACTERS, TransEdge};
use sv_word::Word;

// How many characters an item writes.
fn item_size(item: &Item) -> u64
    ensures { (rest : List AnyItem) → items_size (item.now ∷ rest) ≡ result + items_size rest }
{
    match item {
        Item::Text(word) => word.len() as u64,
        Item::Shift(_) => 1,
    }
}

fn items_size(items: &[Item]) -> u64
    ensures { result ≡ cut_off (items_size items.now) }
{
    let mut total = 0u64;
    for i in (0..items.len()).rev() {
        total = item_size(&items[i]).saturating_add(total);
    }
    total
}

fn edges_most(edges: &[TransEdge]) -> u64
    ensures { result ≡ cut_off (edges_most edges.now) }
{
    let mut most = 0u64;
    for i in (0..edges.len()).rev() {
        most = items_size(edges[i].items.as_slice()).max(most);
    }
    most
}

fn ends_most(ends: &[(u32, Word)]) -> u64
    ensures { result ≡ cut_off (ends_most ends.now) }
{
    let mut most = 0u64;
    for i in (0..ends.len()).rev() {
        most = (ends[i].1.len() as u64).max(most);
    }
    most
}

// The sum of the numbers at these places.
fn join_all(numbers: &[u64], places: &[u32]) -> u64
    ensures { (ms : List ℕ) → numbers.now ≡ map cut_off ms → result ≡ cut_off (sum_by (λ v. get_or ms v 1) places.now) }
{
    let mut total = 0u64;
    for i in (0..places.len()).rev() {
        total = number_at(numbers, places[i]).saturating_add(total);
    }
    total
}

fn growth_by(numbers: &[u64], by: &By) -> u64
    ensures { (ms : List ℕ) → numbers.now ≡ map cut_off ms → result ≡ cut_off (growth_by ms by.now) }
{
    match by {
        By::Concat(places) => join_all(numbers, places.as_slice()),
        By::First(pattern, new, at) => number_at(numbers, *at)
            .saturating_add(pattern.len() as u64)
            .saturating_add(new.len() as u64),
        By::All(pattern, new, at) => number_at(numbers, *at)
            .saturating_add(pattern.len() as u64)
            .saturating_mul((new.len() as u64).max(1)),
        By::Through(transducer, at) => {
            let growth = number_at(numbers, *at);
            let edge = edges_most(transducer.edges.as_slice());
            let end = ends_most(transducer.ends.as_slice());
            growth.max(growth.saturating_mul(edge).saturating_add(end))
        }
    }
}

// One definition.
fn grow(numbers: &mut Items<u64>, definition: &Definition)
    ensures { (ms : List ℕ) → numbers.old ≡ map cut_off ms → numbers.new ≡ map cut_off (slice_set ms definition.now.variable (growth_by ms definition.now.by)) }
{
    let growth = growth_by(numbers.as_slice(), &definition.by);
    let at = definition.variable as usize;
    if at < numbers.len() {
        numbers.set(at, growth);
    }
}

fn grow_all(numbers: &mut Items<u64>, definitions: &[Definition])
    ensures { (ms : List ℕ) → numbers.old ≡ map cut_off ms → numbers.new ≡ map cut_off (grown ms definitions.now) }
{
    for definition in definitions {
        grow(numbers, definition);
    }
}

/// The growths of all variables: one pass over the definitions, the first one first.
pub fn all_growths(alloc: Global, flat: &Flat) -> Result<Items<u64>, AllocError>
    ensures { IfOk result (λ ns. ns ≡ map cut_off (growth_of flat.now)) }
{
    let mut numbers = Items::from_vec(vec![in alloc; 1; flat.variables.len()]?);
    grow_all(&mut numbers, flat.definitions.as_slice());
    Ok(numbers)
}

/// The most characters of all source words for which no word is too long, by the greatest growth; -1
/// where there is none.
#[tactic(auto, using(crate::proofs::Grown::reach_cut))]
pub fn reach_of(growth: u64) -> i64
    requires { 1 ≤ growth }
    ensures { (g : ℕ) → growth ≡ cut_off g → result ≡ pos (longest_word / g) -ℤ pos 1 }
{
    (MOST_CHARACTERS / growth) as i64 - 1
}
