//! Literals that hold an atom and its negation.
ghost use Rattle.std.specs.Prelude.{◌≡◌, IfOk, true};
ghost use Rattle.bool_cubes.specs.Contradictions.{ContradictionsAreFalse, IsContradictory};

use crate::digest::digest;
use literal_forms::Literal;
use std::alloc::{AllocError, Global};

/// Literals among which an atom stands and its negation are never all true.
pub fn contradictions_are_false()
    ensures { ContradictionsAreFalse }
{}

/// Whether one of two literals is the negation of the other. A place behind the last one has none.
fn are_opposite(literals: &[Literal], first: usize, second: usize) -> bool
    ensures { result ≡ true → IsContradictory literals.now }
{
    if first >= literals.len() || second >= literals.len() {
        return false;
    }
    let left = &literals[first];
    let right = &literals[second];
    left.positive != right.positive && left.atom.same(&right.atom)
}

/// Whether an atom stands among the literals, and its negation, as far as is found: by digests of how they are
/// written. Takes the time of these, and of sorting them.
pub fn is_contradictory(alloc: Global, literals: &[Literal]) -> Result<bool, AllocError>
    ensures { IfOk result (λ found. found ≡ true → IsContradictory literals.now) }
{
    let mut digests = Vec::new(alloc);
    for place in 0..literals.len() {
        digests.push((digest(&literals[place].atom), place))?;
    }
    digests.sort()?;
    for i in 1..digests.len() {
        let (left, first) = digests[i - 1];
        let (right, second) = digests[i];
        if left == right && are_opposite(literals, first, second) {
            return Ok(true);
        }
    }
    Ok(false)
}
