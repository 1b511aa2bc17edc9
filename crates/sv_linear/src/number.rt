ghost use Rattle.std.specs.Prelude.{◌≡◌, ℤ, ◌+ℤ◌, ◌*ℤ◌, ◌<◌, ◌≤◌, SomeIff, unsigned_abs};
ghost use Rattle.std.specs.Int.{IsGcd};
ghost use Rattle.sv_linear.specs.Combining.{FitsFrom, IsFrom};
ghost use Rattle.sv_linear.specs.Quotients.{quotient};

/// The greatest common divisor, 0 for two zeros: Euclid's algorithm, of at most about 180 steps.
pub fn gcd(a: i128, b: i128) -> u128
    ensures { IsGcd (unsigned_abs a) (unsigned_abs b) result }
{
    gcd_unsigned(a.unsigned_abs(), b.unsigned_abs())
}

pub(crate) fn gcd_unsigned(a: u128, b: u128) -> u128
    ensures { IsGcd a b result }
{
    // Most of the numbers of a form are behind those that leave it no divisor.
    if a == 1 {
        return 1;
    }
    let mut x = a;
    let mut y = b;
    while y != 0 {
        let rest = x % y;
        x = y;
        y = rest;
    }
    x
}

/// p times a and q times b added up, where both products and the sum are numbers of 128 bits and
/// none is below `least`.
pub(crate) fn combine_numbers(p: i128, a: i128, q: i128, b: i128, least: i128) -> Option<i128>
    ensures { SomeIff result (FitsFrom least p a q b) (p *ℤ a +ℤ q *ℤ b) }
{
    let left = product_from(p, a, least)?;
    let right = product_from(q, b, least)?;
    let sum = sum_from(left, right, least)?;
    Some(sum)
}

fn product_from(a: i128, b: i128, least: i128) -> Option<i128>
    ensures { SomeIff result (IsFrom least (a *ℤ b)) (a *ℤ b) }
{
    let product = a.checked_mul(b)?;
    if product < least { None } else { Some(product) }
}

fn sum_from(a: i128, b: i128, least: i128) -> Option<i128>
    ensures { SomeIff result (IsFrom least (a +ℤ b)) (a +ℤ b) }
{
    let sum = a.checked_add(b)?;
    if sum < least { None } else { Some(sum) }
}

/// The quotient by a number above 1, which no number of 128 bits is too large for.
pub(crate) fn divide_number(number: i128, by: u128) -> i128
    requires { 2 ≤ by }
    ensures { result ≡ quotient number by }
{
    let size = (number.unsigned_abs() / by) as i128;
    if number < 0 { -size } else { size }
}
