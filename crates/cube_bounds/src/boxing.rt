//! The box of the registers and the integer constants, and how many points it has.
ghost use Rattle.std.specs.Prelude.{◌≡◌, ℕ, Option, IfOk};
ghost use Rattle.std.specs.Option.{option_map};
ghost use Rattle.cube_bounds.specs.Sides.{integer_side, points_of, register_side, sides, times, values_between};
ghost use Rattle.flat_cubes.specs.Straight.{IsStraight};
ghost use Rattle.sv_terms.specs.CutOff.{cut_off};

use crate::bounding::{ValueRange, all_spans};
use flat_cubes::Flat;
use std::alloc::{AllocError, Global};
use sv_list::Items;

// A length isn't below 0.
fn register_side(span: &ValueRange) -> Option<(i128, i128)>
    ensures { result ≡ register_side span.now }
{
    match span.most {
        None => None,
        Some(most) => Some((0, most)),
    }
}

fn integer_side(span: &ValueRange) -> Option<(i128, i128)>
    ensures { result ≡ integer_side span.now }
{
    match span.least {
        None => None,
        Some(least) => match span.most {
            None => None,
            Some(most) => Some((least, most)),
        },
    }
}

/// The bounds of each register, then of each integer constant.
pub fn all_sides(alloc: Global, flat: &Flat) -> Result<Items<Option<(i128, i128)>>, AllocError>
    requires { IsStraight flat.now }
    ensures { IfOk result (λ ss. ss ≡ sides flat.now) }
{
    let spans = all_spans(alloc, flat)?;
    let count = flat.integers.len();
    let integers = &spans.as_slice()[..count];
    let registers = &spans.as_slice()[count..];
    let mut sides = Items::new(alloc);
    for span in registers {
        sides.push(register_side(span))?;
    }
    for whole in integers {
        sides.push(integer_side(whole))?;
    }
    Ok(sides)
}

// The number of values from one bound to the other, at least 1.
fn values_between(least: i128, most: i128) -> u64
    ensures { result ≡ cut_off (values_between (least, most)) }
{
    if most < least {
        1
    } else {
        most.abs_diff(least).saturating_add(1).min(u64::MAX as u128) as u64
    }
}

// One side more.
#[tactic(auto, using(crate::proofs::Boxed::timed))]
fn times(side: &Option<(i128, i128)>, points: Option<u64>) -> Option<u64>
    ensures { (n : Option ℕ) → points ≡ option_map cut_off n → result ≡ option_map cut_off (times side.now n) }
{
    match side {
        None => None,
        Some(bounds) => match points {
            None => None,
            Some(n) => Some(values_between(bounds.0, bounds.1).saturating_mul(n)),
        },
    }
}

/// The number of points of the box, where each quantity has a side.
pub fn all_points(sides: &[Option<(i128, i128)>]) -> Option<u64>
    ensures { result ≡ option_map cut_off (points_of sides.now) }
{
    let mut points = Some(1u64);
    for i in (0..sides.len()).rev() {
        points = times(&sides[i], points);
    }
    points
}
