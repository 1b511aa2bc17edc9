//! The values near 0, as a region.
ghost use Rattle.std.specs.Prelude.{◌≡◌, ◌↔◌, ◌<◌, ◌≤◌, ◌+◌, ◌-◌, ◌*◌, ◌^◌, IsTrue, IfOk, min, replicate};
ghost use Rattle.std.specs.List.{AllByRecursion};
ghost use Rattle.sv_linear.specs.Rows.{RowFits, terms_weight};
ghost use Rattle.sv_terms.specs.CutOff.{cut_off};
ghost use Rattle.cube_bounds.specs.Bounds.{sources, states};
ghost use Rattle.cube_bounds.specs.Measuring.{AreNumbersOf};
ghost use Rattle.flat_cubes.specs.Straight.{IsStraight};
ghost use Rattle.flat_cubes.specs.declared.flat.Flat.{Flat as AnyFlat};
ghost use Rattle.cube_region.specs.Bounding.{IsNearRegion, near_bounds};
ghost use Rattle.cube_region.specs.Regions.{IsNearOwed, IsNearSide, near_amount, quantities};

use cube_bounds::{Numbers, is_little};
use flat_cubes::Flat;
use search_hits::Region;
use std::alloc::{AllocError, Global};
use sv_linear::Row;
use sv_list::Items;
use sv_terms::MOST_POINTS;

// So many factors `base`, or `MOST_POINTS + 1` where they come to more.
fn power(base: u64, count: usize) -> u64
    requires { base ≤ MOST_POINTS + 1 }
    ensures { result ≡ min (base ^ count) (MOST_POINTS + 1) }
{
    let mut power = 1u64;
    for i in 0..count {
        power = (power * base).min(MOST_POINTS + 1);
    }
    power
}

// The greatest number of which so many factors come to at most `MOST_POINTS`; without a factor the last one tried.
fn near_side(count: usize) -> u64
    ensures greatest { 0 < count → IsNearSide count result }
    ensures within { result ^ count ≤ MOST_POINTS }
    ensures some { 1 ≤ result }
    ensures few { result ≤ MOST_POINTS }
{
    for side in 1..MOST_POINTS {
        if power(side + 1, count) > MOST_POINTS {
            return side;
        }
    }
    MOST_POINTS
}

// The greatest amount of a near value of the unknown.
fn near_amount(flat: &Flat, side: u64, unknown: u32) -> u128
    requires { 1 ≤ side }
    ensures { result ≡ near_amount flat.now side unknown }
{
    if flat.integers.len() <= unknown as usize {
        u128::from(side - 1)
    } else {
        u128::from(side / 2)
    }
}

// The sum over the terms of a row, 2^128 - 1 where it is more.
fn weight(flat: &Flat, side: u64, terms: &[(u32, i128)]) -> u128
    requires { 1 ≤ side }
    ensures { result ≡ min (terms_weight (near_amount flat.now side) terms.now) (2 ^ 128 - 1) }
{
    let mut total = 0u128;
    for i in (0..terms.len()).rev() {
        let amount = near_amount(flat, side, terms[i].0);
        total = terms[i]
            .1
            .unsigned_abs()
            .saturating_mul(amount)
            .saturating_add(total);
    }
    total
}

fn row_fits(flat: &Flat, side: u64, row: &Row) -> bool
    requires { 1 ≤ side }
    ensures { IsTrue result ↔ RowFits (near_amount flat.now side) row.now }
{
    let total = weight(flat, side, row.form.coefficients.as_slice());
    row.form.constant.unsigned_abs().saturating_add(total) < 1 << 127
}

// Whether every row fits the near values.
fn all_fit(flat: &Flat, side: u64, rows: &[Row]) -> bool
    requires { 1 ≤ side }
    ensures { IsTrue result ↔ AllByRecursion (RowFits (near_amount flat.now side)) rows.now }
{
    rows.iter().all(|row| row_fits(flat, side, row))
}

// The states times the points of the near values times the sources, 2^64 - 1 where that is more.
fn near_work(numbers: &Numbers, side: u64, count: usize) -> u64
    requires within { side ^ count ≤ MOST_POINTS }
    requires few { side ≤ MOST_POINTS }
    ensures { (flat : AnyFlat) → AreNumbersOf flat numbers.now → count ≡ quantities flat → result ≡ cut_off (states flat * side ^ quantities flat * sources flat) }
{
    numbers
        .states
        .saturating_mul(power(side, count))
        .saturating_mul(numbers.sources)
}

// Whether the near values are searched: that is little work, within the reach, and every row fits them.
fn is_near_owed(flat: &Flat, numbers: &Numbers, side: u64, count: usize) -> bool
    requires numbers { AreNumbersOf flat.now numbers.now }
    requires count { count ≡ quantities flat.now }
    requires within { side ^ count ≤ MOST_POINTS }
    requires some { 1 ≤ side }
    requires few { side ≤ MOST_POINTS }
    ensures { IsTrue result ↔ IsNearOwed flat.now side }
{
    let work = near_work(numbers, side, count);
    is_little(work, numbers.reach) && all_fit(flat, side, flat.rows.as_slice())
}

fn totals_below(alloc: Global, side: u64, count: usize) -> Result<Items<(u64, u64)>, AllocError>
    requires { 1 ≤ side }
    ensures { IfOk result (λ all. all ≡ replicate count (0, side - 1)) }
{
    Ok(Items::from_vec(vec![in alloc; (0, side - 1); count]?))
}

fn numbers_near(alloc: Global, side: u64, count: usize) -> Result<Items<(i128, i128)>, AllocError>
    requires { 1 ≤ side }
    ensures { IfOk result (λ all. all ≡ replicate count (near_bounds side)) }
{
    let least = -i128::from((side - 1) / 2);
    let most = i128::from(side / 2);
    Ok(Items::from_vec(vec![in alloc; (least, most); count]?))
}

/// The values near 0, or none where their search is too much work or a row doesn't fit them.
pub fn near_region(alloc: Global, flat: &Flat, numbers: &Numbers) -> Result<Region, AllocError>
    requires straight { IsStraight flat.now }
    requires numbers { AreNumbersOf flat.now numbers.now }
    ensures { IfOk result (IsNearRegion flat.now) }
{
    let count = flat.registers.len() + flat.integers.len();
    let side = near_side(count);
    let owed = is_near_owed(flat, numbers, side, count);
    Ok(Region {
        empty: !owed,
        registers: totals_below(alloc, side, flat.registers.len())?,
        integers: numbers_near(alloc, side, flat.integers.len())?,
    })
}
