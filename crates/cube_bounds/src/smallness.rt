//! Whether the box is small enough to be searched.
ghost use Rattle.std.specs.Prelude.{◌≡◌, ◌↔◌, ◌≤◌, ◌-◌, ◌^◌, ◌++◌, ℕ, IsTrue, length, min};
ghost use Rattle.std.specs.List.{AllByRecursion};
ghost use Rattle.std.specs.Option.{option_map};
ghost use Rattle.cube_bounds.specs.Bounds.{sources, states};
ghost use Rattle.cube_bounds.specs.Growth.{reach};
ghost use Rattle.cube_bounds.specs.Sides.{CanSearch, IsSmall, amount_among, amount_of, points, side_amount, sides};
ghost use Rattle.flat_cubes.specs.declared.flat.Flat.{Flat as AnyFlat};
ghost use Rattle.sv_linear.specs.Rows.{RowFits, terms_weight};
ghost use Rattle.sv_terms.specs.CutOff.{cut_off};

use crate::work::is_little;
use flat_cubes::Flat;
use sv_linear::Row;
use sv_terms::MOST_POINTS;

// Whether a region of so many points may be searched, by the other numbers of the cube.
fn can_search(most_states: u64, points: u64, free: u64, limit: i64) -> bool
    ensures { (flat : AnyFlat) (n : ℕ) → most_states ≡ cut_off (states flat) → points ≡ cut_off n → free ≡ cut_off (sources flat) → limit ≡ reach flat → (IsTrue result ↔ CanSearch flat n) }
{
    is_little(
        most_states.saturating_mul(points).saturating_mul(free),
        limit,
    )
}

// The greatest amount of a value of this side, 0 where there is none.
fn side_amount(side: &Option<(i128, i128)>) -> u128
    ensures { result ≡ side_amount side.now }
{
    match side {
        None => 0,
        Some(bounds) => {
            if bounds.1 < bounds.0 {
                0
            } else {
                bounds.0.unsigned_abs().max(bounds.1.unsigned_abs())
            }
        }
    }
}

// The greatest amount of an unknown of the rows.
fn amount_among(
    integers: &[Option<(i128, i128)>],
    registers: &[Option<(i128, i128)>],
    unknown: u32,
) -> u128
    ensures { result ≡ amount_among (integers.now ++ registers.now) unknown }
{
    let at = unknown as usize;
    if at < integers.len() {
        return side_amount(&integers[at]);
    }
    let behind = at - integers.len();
    if behind < registers.len() {
        return side_amount(&registers[behind]);
    }
    0
}

// The sum over the terms of a row, 2^128 - 1 where it is more.
fn weight(
    integers: &[Option<(i128, i128)>],
    registers: &[Option<(i128, i128)>],
    terms: &[(u32, i128)],
) -> u128
    ensures { result ≡ min (terms_weight (amount_among (integers.now ++ registers.now)) terms.now) (2 ^ 128 - 1) }
{
    let mut total = 0u128;
    for i in (0..terms.len()).rev() {
        let amount = amount_among(integers, registers, terms[i].0);
        total = terms[i]
            .1
            .unsigned_abs()
            .saturating_mul(amount)
            .saturating_add(total);
    }
    total
}

fn row_fits(
    integers: &[Option<(i128, i128)>],
    registers: &[Option<(i128, i128)>],
    row: &Row,
) -> bool
    ensures { IsTrue result ↔ RowFits (amount_among (integers.now ++ registers.now)) row.now }
{
    let total = weight(integers, registers, row.form.coefficients.as_slice());
    row.form.constant.unsigned_abs().saturating_add(total) < 1 << 127
}

// Whether every row fits the box of these sides.
fn all_fit(
    integers: &[Option<(i128, i128)>],
    registers: &[Option<(i128, i128)>],
    rows: &[Row],
) -> bool
    ensures { IsTrue result ↔ AllByRecursion (RowFits (amount_among (integers.now ++ registers.now))) rows.now }
{
    rows.iter().all(|row| row_fits(integers, registers, row))
}

// Whether every row fits the box of these sides, which are those of the cube.
fn rows_fit(flat: &Flat, box_sides: &[Option<(i128, i128)>]) -> bool
    requires sides { box_sides.now ≡ sides flat.now }
    requires long { length flat.now.registers ≤ length box_sides.now }
    ensures { IsTrue result ↔ AllByRecursion (RowFits (amount_of flat.now)) flat.now.rows }
{
    let count = flat.registers.len();
    let registers = &box_sides[..count];
    let integers = &box_sides[count..];
    all_fit(integers, registers, flat.rows.as_slice())
}

/// Whether the box of these sides, with so many points, is small, by the other numbers of the cube.
pub fn is_small(
    flat: &Flat,
    most_states: u64,
    free: u64,
    limit: i64,
    count: Option<u64>,
    box_sides: &[Option<(i128, i128)>],
) -> bool
    requires states { most_states ≡ cut_off (states flat.now) }
    requires sources { free ≡ cut_off (sources flat.now) }
    requires reach { limit ≡ reach flat.now }
    requires points { count ≡ option_map cut_off (points flat.now) }
    requires sides { box_sides.now ≡ sides flat.now }
    ensures { IsTrue result ↔ IsSmall flat.now }
{
    match count {
        None => false,
        Some(points) => {
            points <= MOST_POINTS
                && can_search(most_states, points, free, limit)
                && rows_fit(flat, box_sides)
        }
    }
}
