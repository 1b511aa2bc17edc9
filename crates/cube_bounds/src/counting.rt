//! How many states the machine of a variable alone has at most, and those of all variables.
ghost use Rattle.std.specs.Prelude.{◌≡◌, true, false, map, get_or, IfOk};
ghost use Rattle.cube_bounds.specs.Bounds.{greatest, own_bound, part_bound, product_by, states_of};
ghost use Rattle.flat_cubes.specs.Straight.{IsStraight};
ghost use Rattle.sv_terms.specs.CutOff.{cut_off};

use crate::carrying::carry_all;
use flat_cubes::{Flat, Own, Variable};
use std::alloc::{AllocError, Global};
use sv_list::Items;
use sv_terms::{bound, power_of_two};

/// The number at this place, 1 where there is none.
pub fn number_at(numbers: &[u64], at: u32) -> u64
    ensures { result ≡ get_or numbers.now at 1 }
{
    let place = at as usize;
    if place < numbers.len() {
        numbers[place]
    } else {
        1
    }
}

// Of a part that is to hold.
#[tactic(auto, using(crate::proofs::Owned::lengths))]
fn holding_states(own: &Own) -> u64
    ensures { result ≡ cut_off (part_bound (own.now, true)) }
{
    match own {
        Own::Word(word) => (word.len() as u64).saturating_add(1),
        Own::InRe(regex) => bound(regex),
        Own::Prefix(word) => (word.len() as u64).saturating_add(1),
        Own::Suffix(word) => (word.len() as u64).saturating_add(1),
        Own::Contains(word) => (word.len() as u64).saturating_add(1),
        Own::Digit => 2,
    }
}

// Of a part that isn't to hold.
#[tactic(auto, using(crate::proofs::Owned::lengths))]
fn failing_states(own: &Own) -> u64
    ensures { result ≡ cut_off (part_bound (own.now, false)) }
{
    match own {
        Own::Word(word) => (word.len() as u64).saturating_add(2),
        Own::InRe(regex) => power_of_two(bound(regex)),
        Own::Prefix(word) => (word.len() as u64).saturating_add(2),
        Own::Suffix(word) => (word.len() as u64).saturating_add(1),
        Own::Contains(word) => (word.len() as u64).saturating_add(1),
        Own::Digit => 3,
    }
}

fn part_states(part: &(Own, bool)) -> u64
    ensures { result ≡ cut_off (part_bound part.now) }
{
    if part.1 {
        holding_states(&part.0)
    } else {
        failing_states(&part.0)
    }
}

/// The product over the parts of a variable.
pub fn own_states(parts: &[(Own, bool)]) -> u64
    ensures { result ≡ cut_off (product_by part_bound parts.now) }
{
    let mut states = 1u64;
    for i in (0..parts.len()).rev() {
        states = part_states(&parts[i]).saturating_mul(states);
    }
    states
}

// The same for each variable.
fn all_own(alloc: Global, variables: &[Variable]) -> Result<Items<u64>, AllocError>
    ensures { IfOk result (λ ns. ns ≡ map cut_off (map own_bound variables.now)) }
{
    let mut numbers = Items::new(alloc);
    for variable in variables {
        numbers.push(own_states(variable.parts.as_slice()))?;
    }
    Ok(numbers)
}

/// The numbers of states of all variables: their own, carried back over the definitions.
pub fn all_states(alloc: Global, flat: &Flat) -> Result<Items<u64>, AllocError>
    requires { IsStraight flat.now }
    ensures { IfOk result (λ ns. ns ≡ map cut_off (states_of flat.now)) }
{
    let mut numbers = all_own(alloc, flat.variables.as_slice())?;
    carry_all(&mut numbers, flat.definitions.as_slice());
    Ok(numbers)
}

/// The greatest of numbers, at least 1.
pub fn most(numbers: &[u64]) -> u64
    ensures { result ≡ greatest 1 numbers.now }
{
    let mut most = 1u64;
    for i in (0..numbers.len()).rev() {
        most = numbers[i].max(most);
    }
    most
}
