//! What rows of one unknown say of a length.
ghost use Rattle.std.specs.Prelude.{◌≡◌, pos, neg_ℤ, IfSome};
ghost use Rattle.length_parts.specs.Rewriting.{IsBoundBy, IsRegisterOf};

use crate::bound::LengthBound;
use flat_cubes::Flat;
use sv_linear::RowKind;

/// A greater bound stays a row.
const MOST_LENGTH: i128 = 64;

/// The number as one of 32 bits, where it is from 0 to the greatest bound.
fn small(z: i128) -> Option<u32>
    ensures { IfSome result (λ n. z ≡ pos n) }
{
    if 0 <= z && z <= MOST_LENGTH {
        Some(z as u32)
    } else {
        None
    }
}

/// The bound of a row that says the length and a constant add up to 0 or less.
fn most_by(kind: RowKind, constant: i128) -> Option<LengthBound>
    ensures { IfSome result (IsBoundBy kind (pos 1) constant) }
{
    if constant > 0 || constant < -MOST_LENGTH {
        return None;
    }
    let most = small(-constant)?;
    match kind {
        RowKind::Le => Some(LengthBound::AtMost(most)),
        RowKind::Eq => Some(LengthBound::Exactly(most)),
    }
}

/// The bound of a row that says a constant without the length is 0 or less.
fn least_by(kind: RowKind, constant: i128) -> Option<LengthBound>
    ensures { IfSome result (IsBoundBy kind (neg_ℤ (pos 1)) constant) }
{
    let least = small(constant)?;
    match kind {
        RowKind::Le => Some(LengthBound::AtLeast(least)),
        RowKind::Eq => Some(LengthBound::Exactly(least)),
    }
}

/// The bound of a row with this coefficient of a length, and no other. `None` where the coefficient is neither 1 nor -1
/// or the bound isn't small.
pub fn bound_by(kind: RowKind, coefficient: i128, constant: i128) -> Option<LengthBound>
    ensures { IfSome result (IsBoundBy kind coefficient constant) }
{
    if coefficient == 1 {
        return most_by(kind, constant);
    }
    if coefficient == -1 {
        return least_by(kind, constant);
    }
    None
}

/// Whether some definition is of the variable.
fn is_defined(flat: &Flat, variable: u32) -> bool {
    for definition in flat.definitions.as_slice() {
        if definition.variable == variable {
            return true;
        }
    }
    false
}

/// The variable whose length is the unknown, where it has no definition.
pub fn source_of(flat: &Flat, unknown: u32) -> Option<u32>
    ensures { IfSome result (IsRegisterOf flat.now unknown) }
{
    let integers = flat.integers.len();
    if (unknown as usize) < integers {
        return None;
    }
    let at = unknown as usize - integers;
    if at >= flat.registers.len() {
        return None;
    }
    let variable = flat.registers.as_slice()[at];
    if variable as usize >= flat.variables.len() || is_defined(flat, variable) {
        return None;
    }
    Some(variable)
}
