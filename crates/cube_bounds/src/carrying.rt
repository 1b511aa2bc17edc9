//! How many states the machines of the variables have at most, carried back over the definitions.
ghost use Rattle.std.specs.Prelude.{◌≡◌, ℕ, ◌*◌, ◌<◌, List, length, map, get_or, slice_set};
ghost use Rattle.sv_terms.specs.CutOff.{cut_off};
ghost use Rattle.flat_cubes.specs.Using.{used};
ghost use Rattle.cube_bounds.specs.Bounds.{carried, carried_all, through_states, times_all};
ghost use Rattle.flat_cubes.specs.Straight.{AreBelow, HaveVariablesBelow, HasVariablesBelow};

use flat_cubes::{By, Definition};
use sv_list::Items;

// The number at this place times another, 2^64 - 1 where it is more.
fn multiply(numbers: &mut Items<u64>, at: u32, by: u64)
    ensures { at < length numbers.old → numbers.new ≡ slice_set numbers.old at (cut_off (get_or numbers.old at 1 * by)) }
{
    let place = at as usize;
    if place < numbers.len() {
        let product = numbers.as_slice()[place].saturating_mul(by);
        numbers.set(place, product);
    }
}

/// The numbers at these places times another, for each occurrence of a place.
#[tactic(auto, using(crate::proofs::Multiplied::multiplied))]
pub fn multiply_all(numbers: &mut Items<u64>, places: &[u32], by: u64)
    ensures { (k : ℕ) (ms : List ℕ) → by ≡ cut_off k → numbers.old ≡ map cut_off ms → AreBelow (length ms) places.now → numbers.new ≡ map cut_off (times_all k places.now ms) }
{
    for i in (0..places.len()).rev() {
        multiply(numbers, places[i], by);
    }
}

// The states of the transducer of a definition, 1 where it has none.
fn through_states(by: &By) -> u64
    ensures { result ≡ cut_off (through_states by.now) }
{
    match by {
        By::Concat(_) => 1,
        By::First(pattern, _, _) => (pattern.len() as u64).max(1).saturating_add(1),
        By::All(pattern, _, _) => (pattern.len() as u64).max(1),
        By::Through(transducer, _) => transducer.states as u64,
    }
}

// The numbers times k at the variables that a definition uses.
fn multiply_used(numbers: &mut Items<u64>, by: &By, k: u64)
    ensures { (n : ℕ) (ms : List ℕ) → k ≡ cut_off n → numbers.old ≡ map cut_off ms → AreBelow (length ms) (used by.now) → numbers.new ≡ map cut_off (times_all n (used by.now) ms) }
{
    match by {
        By::Concat(places) => multiply_all(numbers, places.as_slice(), k),
        By::First(_, _, place) => multiply_all(numbers, &[*place], k),
        By::All(_, _, place) => multiply_all(numbers, &[*place], k),
        By::Through(_, place) => multiply_all(numbers, &[*place], k),
    }
}

// One definition.
#[tactic(auto, using(crate::proofs::Multiplied::carried_once))]
fn carry(numbers: &mut Items<u64>, definition: &Definition)
    ensures { (ms : List ℕ) → numbers.old ≡ map cut_off ms → HasVariablesBelow (length ms) definition.now → numbers.new ≡ map cut_off (carried definition.now ms) }
{
    let at = definition.variable as usize;
    if at < numbers.len() {
        let k = through_states(&definition.by).saturating_mul(numbers.as_slice()[at]);
        multiply_used(numbers, &definition.by, k);
    }
}

/// The numbers of states of all variables, once their own bounds are given: one pass over the
/// definitions, the last one first.
pub fn carry_all(numbers: &mut Items<u64>, definitions: &[Definition])
    ensures { (ms : List ℕ) → numbers.old ≡ map cut_off ms → HaveVariablesBelow (length ms) definitions.now → numbers.new ≡ map cut_off (carried_all definitions.now ms) }
{
    for i in (0..definitions.len()).rev() {
        carry(numbers, &definitions[i]);
    }
}
