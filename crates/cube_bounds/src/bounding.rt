//! The bounds of the unknowns that stand in the rows.
ghost use Rattle.std.specs.Prelude.{◌≡◌, ◌≢◌, ◌+◌, ◌<◌, ◌^◌, ℕ, List, [], ◌∷◌, length, pos, unsigned_abs, int_lt, true, IfOk};
ghost use Rattle.std.specs.Int.{int_max, int_min};
ghost use Rattle.std.specs.List.{AllByRecursion};
ghost use Rattle.cube_bounds.specs.Sides.{of_both, lower_by, rounded_down, rounded_up, span_by, spans_in, upper_by};
ghost use Rattle.flat_cubes.specs.Straight.{IsStraight};
ghost use Rattle.sv_linear.specs.declared.row.Row.{Row as AnyRow};

use flat_cubes::Flat;
use std::alloc::{AllocError, Global};
use sv_linear::{Row, RowKind};
use sv_list::Items;

/// The least and the greatest value of an unknown, where the rows give them.
#[derive(Clone, Copy)]
pub struct ValueRange {
    pub least: Option<i128>,
    pub most: Option<i128>,
}

// A number over one above 0, rounded down.
fn round_down(z: i128, d: i128) -> i128
    requires above { int_lt (pos 0) d ≡ true }
    ensures { result ≡ rounded_down z d }
{
    z.div_euclid(d)
}

// The same, rounded up.
#[tactic(auto, using(crate::proofs::Rounded::negated_fits))]
fn round_up(z: i128, d: i128) -> i128
    requires above { int_lt (pos 0) d ≡ true }
    requires symmetric { unsigned_abs z < 2 ^ 127 }
    ensures { result ≡ rounded_up z d }
{
    -round_down(-z, d)
}

// The greatest value of an unknown whose number is a, and c the constant of its row.
fn upper_by(kind: RowKind, a: i128, c: i128) -> Option<i128>
    requires not_zero { a ≢ pos 0 }
    requires factor { unsigned_abs a < 2 ^ 127 }
    requires constant { unsigned_abs c < 2 ^ 127 }
    ensures { result ≡ upper_by kind a c }
{
    match kind {
        RowKind::Le => { if 0 < a { Some(round_down(-c, a)) } else { None } }
        RowKind::Eq => {
            if 0 < a {
                Some(round_down(-c, a))
            } else {
                Some(round_down(c, -a))
            }
        }
    }
}

// The least value.
fn lower_by(kind: RowKind, a: i128, c: i128) -> Option<i128>
    requires not_zero { a ≢ pos 0 }
    requires factor { unsigned_abs a < 2 ^ 127 }
    requires constant { unsigned_abs c < 2 ^ 127 }
    ensures { result ≡ lower_by kind a c }
{
    match kind {
        RowKind::Le => { if 0 < a { None } else { Some(round_up(c, -a)) } }
        RowKind::Eq => {
            if 0 < a {
                Some(round_up(-c, a))
            } else {
                Some(round_up(c, -a))
            }
        }
    }
}

// Of two bounds, each of which may be absent.
fn lesser_bound(a: Option<i128>, b: Option<i128>) -> Option<i128>
    ensures { result ≡ of_both int_min a b }
{
    match a {
        None => b,
        Some(m) => match b {
            None => Some(m),
            Some(n) => Some(m.min(n)),
        },
    }
}

fn greater_bound(a: Option<i128>, b: Option<i128>) -> Option<i128>
    ensures { result ≡ of_both int_max a b }
{
    match a {
        None => b,
        Some(m) => match b {
            None => Some(m),
            Some(n) => Some(m.max(n)),
        },
    }
}

// The span of an unknown that is the only one of one more row, with the number a and the constant c.
fn narrow_span(span: &ValueRange, kind: RowKind, a: i128, c: i128) -> ValueRange
    requires not_zero { a ≢ pos 0 }
    requires factor { unsigned_abs a < 2 ^ 127 }
    requires constant { unsigned_abs c < 2 ^ 127 }
    ensures { result ≡ span_by kind a c span.now }
{
    ValueRange {
        least: greater_bound(lower_by(kind, a, c), span.least),
        most: lesser_bound(upper_by(kind, a, c), span.most),
    }
}

// The spans of all unknowns with one row more.
#[tactic(auto, using(crate::proofs::Rounded::ofs))]
fn narrow(spans: &mut Items<ValueRange>, row: &Row)
    requires constant { unsigned_abs row.now.form.constant < 2 ^ 127 }
    requires coefficients { AllByRecursion (λ t. unsigned_abs t.1 < 2 ^ 127) row.now.form.coefficients }
    ensures { (n : ℕ) (rs : List AnyRow) → spans.old ≡ spans_in rs n → spans.new ≡ spans_in (row.now ∷ rs) n }
{
    let coefficients = row.form.coefficients.as_slice();
    if coefficients.len() == 1 {
        let at = coefficients[0].0 as usize;
        if at < spans.len() {
            let span = narrow_span(
                &spans.as_slice()[at],
                row.kind,
                coefficients[0].1,
                row.form.constant,
            );
            spans.set(at, span);
        }
    }
}

// The spans of so many unknowns that nothing is said of.
fn open_spans(alloc: Global, count: usize) -> Result<Items<ValueRange>, AllocError>
    ensures { IfOk result (λ ss. ss ≡ spans_in [] count) }
{
    let open = ValueRange {
        least: None,
        most: None,
    };
    Ok(Items::from_vec(vec![in alloc; open; count]?))
}

/// The bounds of each unknown of the rows that stand in a row without another, the integer constants
/// first: one pass over the rows.
pub fn all_spans(alloc: Global, flat: &Flat) -> Result<Items<ValueRange>, AllocError>
    requires { IsStraight flat.now }
    ensures spans { IfOk result (λ ss. ss ≡ spans_in flat.now.rows (length flat.now.integers + length flat.now.registers)) }
    ensures count { IfOk result (λ ss. length ss ≡ length flat.now.integers + length flat.now.registers) }
{
    let mut spans = open_spans(alloc, flat.integers.len() + flat.registers.len())?;
    let rows = flat.rows.as_slice();
    for i in (0..rows.len()).rev() {
        narrow(&mut spans, &rows[i]);
    }
    Ok(spans)
}
