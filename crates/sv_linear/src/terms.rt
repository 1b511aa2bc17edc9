ghost use Rattle.std.specs.Prelude.{◌≡◌, ℕ, ℤ, pos, ◌+ℤ◌, ◌*ℤ◌, ◌≤ℤ◌, ◌+◌, ◌<◌, ◌≤◌, ◌^◌, IfOk, IfErr, map, unsigned_abs};
ghost use Rattle.sv_linear.specs.Terms.{AscendsWithin, terms_value, coefficient};
ghost use Rattle.sv_linear.specs.Meeting.{least_unknown, front_coefficient, behind};
ghost use Rattle.sv_linear.specs.Combining.{FitsFrom, IsFirstUnknown};
ghost use Rattle.sv_linear.specs.Divisors.{IsContent};
ghost use Rattle.sv_linear.specs.Quotients.{divided_term};

use crate::column::Column;
use crate::fault::CombineFault;
use crate::number::{combine_numbers, divide_number, gcd_unsigned};
use std::alloc::Global;
use sv_list::Items;

/// The coefficient of an unknown, 0 where it has none.
pub(crate) fn coefficient_at(terms: &[(u32, i128)], unknown: u32) -> i128
    requires { AscendsWithin 0 (2 ^ 32) terms.now }
    ensures { result ≡ coefficient unknown terms.now }
{
    match terms.binary_search_by_key(&unknown, |term| term.0) {
        Ok(at) => terms[at].1,
        Err(_) => 0,
    }
}

/// p times a and q times b added up, or the first unknown at which a product or the sum isn't a number of 128 bits or
/// is below `least`.
pub(crate) fn merge(
    alloc: Global,
    p: i128,
    a: &[(u32, i128)],
    q: i128,
    b: &[(u32, i128)],
    least: i128,
) -> Result<Vec<(u32, i128)>, CombineFault>
    requires left { AscendsWithin 0 (2 ^ 32) a.now }
    requires right { AscendsWithin 0 (2 ^ 32) b.now }
    requires least { least ≤ℤ pos 0 }
    ensures value { IfOk result (λ r. (x : ℕ → ℤ) → terms_value x r.items ≡ p *ℤ terms_value x a.now +ℤ q *ℤ terms_value x b.now) }
    ensures ascending { IfOk result (λ r. AscendsWithin 0 (2 ^ 32) r.items) }
    ensures fits { IfOk result (λ _. (u : ℕ) → FitsFrom least p (coefficient u a.now) q (coefficient u b.now)) }
    ensures past { IfErr result (IsFirstUnknown (λ u. FitsFrom least p (coefficient u a.now) q (coefficient u b.now))) }
{
    let mut sums = Vec::with_capacity(alloc, a.len() + b.len())?;
    let mut left = a;
    let mut right = b;
    while let Some(unknown) = next_unknown(left, right) {
        let (left_here, left_rest) = split_at_unknown(left, unknown);
        let (right_here, right_rest) = split_at_unknown(right, unknown);
        let Some(sum) = combine_numbers(p, left_here, q, right_here, least) else {
            return Err(CombineFault::Outside(Column::Unknown(unknown)));
        };
        if sum != 0 {
            sums.push((unknown, sum))?;
        }
        left = left_rest;
        right = right_rest;
    }
    Ok(sums)
}

/// The terms, without the room that is left over where it is more than they take, as where terms cancelled.
pub(crate) fn fit_capacity(mut terms: Vec<(u32, i128)>) -> Items<(u32, i128)>
    ensures { result ≡ terms.items }
{
    if terms.len() < terms.capacity() / 2 {
        terms.shrink_to_fit();
    }
    Items::from_vec(terms)
}

fn next_unknown(a: &[(u32, i128)], b: &[(u32, i128)]) -> Option<u32>
    ensures { result ≡ least_unknown a.now b.now }
{
    match (a.first(), b.first()) {
        (None, None) => None,
        (None, Some(right)) => Some(right.0),
        (Some(left), None) => Some(left.0),
        (Some(left), Some(right)) => Some(left.0.min(right.0)),
    }
}

/// The coefficient of the first term, if that is the unknown's, and the terms behind it.
fn split_at_unknown(terms: &[(u32, i128)], unknown: u32) -> (i128, &[(u32, i128)])
    ensures here { result.0 ≡ front_coefficient unknown terms.now }
    ensures rest { result.1.now ≡ behind unknown terms.now }
{
    match terms {
        [term, rest @ ..] if term.0 == unknown => (term.1, rest),
        _ => (0, terms),
    }
}

/// The greatest common divisor of a constant and all coefficients.
pub(crate) fn content_of(terms: &[(u32, i128)], constant: i128) -> u128
    ensures { IsContent constant terms.now result }
{
    let mut divisor = constant.unsigned_abs();
    for (_, coefficient) in terms {
        divisor = gcd_unsigned(divisor, coefficient.unsigned_abs());
    }
    divisor
}

/// Divides each coefficient, in place.
pub(crate) fn divide_terms(terms: &mut [(u32, i128)], by: u128)
    requires { 2 ≤ by }
    ensures { terms.new ≡ map (divided_term by) terms.old }
{
    for term in terms.iter_mut() {
        term.1 = divide_number(term.1, by);
    }
}
