//! Points of boxes that meet rows.
ghost use Rattle.std.specs.Prelude.{◌≡◌, ℕ, ℤ, ◌+◌, ◌*◌, ◌*ℤ◌, ◌^◌, ◌<◌, ◌≤◌, ◌≤ℤ◌, ◌<ℤ◌, ◌+ℤ◌, List, length, map, slice_get, slice_set, Some, All, IfOk, MatchOption, true, false, unsigned_abs};
ghost use Rattle.sv_linear.specs.Terms.{terms_value};
ghost use Rattle.sv_linear.specs.Rows.{MeetsRow, terms_weight};
ghost use Rattle.search_hits.specs.Regions.{IsWithin, AreWithin, greatest_amount, amounts};
ghost use Rattle.search_hits.specs.Boxes.{IsSide, HoldsOne, AreAt, FitsSides, value_at, MeetAll, IsBox, IsPointFound};

use std::alloc::{AllocError, Global};
use sv_linear::{Form, Row, RowKind};
use sv_list::Items;

fn product(coefficient: i128, value: i128) -> i128
    requires { unsigned_abs coefficient * unsigned_abs value < 2 ^ 127 }
    ensures { result ≡ coefficient *ℤ value }
{
    coefficient * value
}

// The least and the greatest product of the coefficient and a number of the side.
fn products(coefficient: i128, low: i128, high: i128) -> (i128, i128)
    requires side { low ≤ℤ high }
    requires fits { unsigned_abs coefficient * greatest_amount (low, high) < 2 ^ 127 }
    ensures between { (v : ℤ) → IsWithin (low, high) v → (result.0 ≤ℤ (coefficient *ℤ v)) × ((coefficient *ℤ v) ≤ℤ result.1) }
    ensures point { low ≡ high → result.0 ≡ result.1 }
    ensures least { unsigned_abs result.0 ≤ unsigned_abs coefficient * greatest_amount (low, high) }
    ensures greatest { unsigned_abs result.1 ≤ unsigned_abs coefficient * greatest_amount (low, high) }
{
    let at_low = product(coefficient, low);
    let at_high = product(coefficient, high);
    if coefficient < 0 {
        (at_high, at_low)
    } else {
        (at_low, at_high)
    }
}

// The sum of two numbers.
fn plus(left: i128, right: i128) -> i128
    requires { unsigned_abs left + unsigned_abs right < 2 ^ 127 }
    ensures { result ≡ left +ℤ right }
{
    left + right
}

fn side_at(sides: &[(i128, i128)], at: usize) -> (i128, i128)
    requires { at < length sides.now }
    ensures { slice_get sides.now at ≡ Some result }
{
    sides[at]
}

// The least and the greatest value that the form may have in the box.
fn bounds(form: &Form, sides: &[(i128, i128)]) -> (i128, i128)
    requires some { All IsSide sides.now }
    requires unknowns { All (λ t. t.0 < length sides.now) form.now.coefficients }
    requires fits { unsigned_abs form.now.constant + terms_weight (amounts sides.now) form.now.coefficients < 2 ^ 127 }
    ensures between { (x : ℕ → ℤ) → AreAt sides.now x
        → (result.0 ≤ℤ (terms_value x form.now.coefficients +ℤ form.now.constant)) × ((terms_value x form.now.coefficients +ℤ form.now.constant) ≤ℤ result.1) }
    ensures point { All HoldsOne sides.now → result.0 ≡ result.1 }
{
    let mut least = form.constant;
    let mut greatest = form.constant;
    for (unknown, coefficient) in form.coefficients.as_slice() {
        let (low, high) = side_at(sides, *unknown as usize);
        let (at_least, at_most) = products(*coefficient, low, high);
        least = plus(least, at_least);
        greatest = plus(greatest, at_most);
    }
    (least, greatest)
}

// Whether the row's bounds in the box let it be met.
fn may_be_met(row: &Row, sides: &[(i128, i128)]) -> bool
    requires some { All IsSide sides.now }
    requires unknowns { All (λ t. t.0 < length sides.now) row.now.form.coefficients }
    requires fits { FitsSides sides.now row.now }
    ensures fails { result ≡ false → (xs : List ℤ) → AreWithin sides.now xs → MeetsRow (value_at xs) row.now → ⊥ }
    ensures point { result ≡ true → All HoldsOne sides.now → (xs : List ℤ) → AreWithin sides.now xs → MeetsRow (value_at xs) row.now }
{
    let (least, greatest) = bounds(&row.form, sides);
    match row.kind {
        RowKind::Le => least <= 0,
        RowKind::Eq => least <= 0 && greatest >= 0,
    }
}

// Whether the bounds of each row in the box let it be met.
fn may_meet(rows: &[Row], sides: &[(i128, i128)]) -> bool
    requires { IsBox rows.now sides.now }
    ensures fails { result ≡ false → (xs : List ℤ) → AreWithin sides.now xs → MeetAll rows.now xs → ⊥ }
    ensures point { result ≡ true → All HoldsOne sides.now → (xs : List ℤ) → AreWithin sides.now xs → MeetAll rows.now xs }
{
    for row in rows {
        if !may_be_met(row, sides) {
            return false;
        }
    }
    true
}

// The place of the first side that holds more than one number.
fn first_wide(sides: &[(i128, i128)]) -> Option<usize>
    requires { All IsSide sides.now }
    ensures { MatchOption result (All HoldsOne sides.now) (λ i. (s : ℤ × ℤ) × (slice_get sides.now i ≡ Some s) × (s.0 <ℤ s.1)) }
{
    let mut at = 0;
    while at < sides.len() {
        if sides[at].0 < sides[at].1 {
            return Some(at);
        }
        at += 1;
    }
    None
}

// A number near the middle, below the greater one.
fn middle(low: i128, high: i128) -> i128
    requires { low <ℤ high }
    ensures low { low ≤ℤ result }
    ensures high { result <ℤ high }
{
    if low < 0 && high >= 0 {
        -1
    } else {
        low + (high - low) / 2
    }
}

// The lower end of each side.
fn lower_ends(alloc: Global, sides: &[(i128, i128)]) -> Result<Items<i128>, AllocError>
    ensures { IfOk result (λ xs. xs ≡ map (λ s. s.0) sides.now) }
{
    let mut ends = Items::new(alloc);
    for (low, _high) in sides {
        ends.push(*low)?;
    }
    Ok(ends)
}

// The box with the side from `low` to `high` at this place.
fn with_side(
    alloc: Global,
    sides: &[(i128, i128)],
    at: usize,
    low: i128,
    high: i128,
) -> Result<Items<(i128, i128)>, AllocError>
    requires { at < length sides.now }
    ensures { IfOk result (λ box. box ≡ slice_set sides.now at (low, high)) }
{
    let mut narrower = Items::from_slice(alloc, sides)?;
    narrower.set(at, (low, high));
    Ok(narrower)
}

/// A point of the box that meets the rows; `None` exactly where no point of it does.
///
/// A box in which the bounds of a row keep it from being met is passed over as a whole, and another one
/// is halved: of the numbers of points and of such boxes it takes the lesser, twice at most.
pub fn find(
    alloc: Global,
    rows: &[Row],
    sides: &[(i128, i128)],
) -> Result<Option<Items<i128>>, AllocError>
    requires { IsBox rows.now sides.now }
    ensures { IfOk result (IsPointFound rows.now sides.now) }
{
    if !may_meet(rows, sides) {
        return Ok(None);
    }
    let Some(at) = first_wide(sides) else {
        return Ok(Some(lower_ends(alloc, sides)?));
    };
    let (low, high) = side_at(sides, at);
    let half = middle(low, high);
    let below = with_side(alloc, sides, at, low, half)?;
    if let Some(point) = find(alloc, rows, below.as_slice())? {
        return Ok(Some(point));
    }
    let above = with_side(alloc, sides, at, half + 1, high)?;
    find(alloc, rows, above.as_slice())
}
