//! The ways to cut the machines of all concatenations, and the variables that aren't defined.
ghost use Rattle.std.specs.Prelude.{◌≡◌, ◌^◌, ◌-◌, ℕ, List, map, get_or};
ghost use Rattle.sv_terms.specs.CutOff.{cut_off};
ghost use Rattle.cube_bounds.specs.Bounds.{product_by, sources, splits_by};
ghost use Rattle.flat_cubes.specs.Straight.{IsStraight};

use crate::counting::number_at;
use flat_cubes::{By, Definition, Flat};

// So many factors that are this number.
fn power(n: u64, k: usize) -> u64
    ensures { (m : ℕ) → n ≡ cut_off m → result ≡ cut_off (m ^ k) }
{
    let mut power = 1u64;
    for i in 0..k {
        power = power.saturating_mul(n);
    }
    power
}

fn splits_by(numbers: &[u64], definition: &Definition) -> u64
    ensures { (ms : List ℕ) → numbers.now ≡ map cut_off ms → result ≡ cut_off (splits_by (get_or ms definition.now.variable 1) definition.now.by) }
{
    match &definition.by {
        By::Concat(places) => power(
            number_at(numbers, definition.variable),
            places.len().saturating_sub(1),
        ),
        By::First(_, _, _) => 1,
        By::All(_, _, _) => 1,
        By::Through(_, _) => 1,
    }
}

/// The product of the ways to cut the machine of each definition, given the numbers of states of all
/// variables.
pub fn all_splits(numbers: &[u64], definitions: &[Definition]) -> u64
    ensures { (ms : List ℕ) → numbers.now ≡ map cut_off ms → result ≡ cut_off (product_by (λ d. splits_by (get_or ms d.variable 1) d.by) definitions.now) }
{
    let mut splits = 1u64;
    for i in (0..definitions.len()).rev() {
        splits = splits_by(numbers, &definitions[i]).saturating_mul(splits);
    }
    splits
}

/// The variables that aren't defined: no variable has two definitions.
#[tactic(auto, using(crate::proofs::Splits::sources_cut))]
pub fn all_sources(flat: &Flat) -> u64
    requires { IsStraight flat.now }
    ensures { result ≡ cut_off (sources flat.now) }
{
    flat.variables.len().saturating_sub(flat.definitions.len()) as u64
}
