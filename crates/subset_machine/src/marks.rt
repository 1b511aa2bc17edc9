//! The characters cut into intervals.
ghost use Rattle.std.specs.Prelude.{Contains, IfOk};
ghost use Rattle.subset_machine.specs.declared.leaving.EdgeRange.{EdgeRange};
ghost use Rattle.subset_machine.specs.Legs.{IsRange, AreBorders, AreUniformIntervals};

use crate::leaving::EdgeRange;
use std::alloc::{AllocError, Global};
use sv_word::GREATEST_CHARACTER;

/// Intervals of characters in order, each with its first and its last one, on which none of the ranges
/// begins or stops. For n ranges there are at most 2n + 1, found by one sort in time n log n.
pub fn cut(alloc: Global, legs: &[EdgeRange]) -> Result<Vec<(u32, u32)>, AllocError>
    requires { (s : EdgeRange) → Contains legs.now s → IsRange s }
    ensures { IfOk result (λ v. AreUniformIntervals legs.now v.items) }
{
    let borders = sorted_borders(alloc, legs)?;
    let mut marks = Vec::new(alloc);
    let mut from = 0;
    for border in borders.as_slice() {
        if from < *border {
            marks.push((from, *border - 1))?;
            from = *border;
        }
    }
    Ok(marks)
}

// Where ranges begin and stop, in order, and the end of the characters.
fn sorted_borders(alloc: Global, legs: &[EdgeRange]) -> Result<Vec<u32>, AllocError>
    requires { (s : EdgeRange) → Contains legs.now s → IsRange s }
    ensures { IfOk result (λ v. AreBorders legs.now v.items) }
{
    let mut borders = Vec::with_capacity(alloc, legs.len())?;
    for leg in legs {
        borders.push(leg.low)?;
        borders.push(leg.high + 1)?;
    }
    borders.push(GREATEST_CHARACTER + 1)?;
    borders.sort_unstable();
    Ok(borders)
}
