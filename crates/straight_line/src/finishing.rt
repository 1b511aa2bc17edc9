//! The flat cube of what was met.
ghost use Rattle.std.specs.Prelude.{◌<◌, ◌^◌, length, IfOk};
ghost use Rattle.flat_cubes.specs.Drafted.{HoldsDraft};
ghost use Rattle.flat_cubes.specs.Flattening.{IsFinished};
ghost use Rattle.flat_cubes.specs.Met.{DraftView as Met};
ghost use Rattle.straight_line.specs.Readiness.{IsReady};

use crate::rowing::settle_rows;
use crate::wording::settle_words;
use flat_cubes::{Flat, FlatDraft, FlatFault};
use std::alloc::Global;

/// The flat cube of what was met; or the first thing in this order for which that isn't as of a straight cube: a
/// variable with two definitions, a cycle, too many registers or integer constants. Linear up to a logarithm.
pub fn finish(alloc: Global, draft: FlatDraft) -> Result<Flat, FlatFault>
    requires { IsReady draft }
    ensures finished { (d : Met) → HoldsDraft draft d → IsFinished d result }
    ensures few { IfOk result (λ flat. length flat.variables < 2 ^ 32) }
{
    let FlatDraft {
        names,
        parts,
        definitions,
        equalities,
        quantities,
        rows,
        truths,
        broken,
    } = draft;
    let words = settle_words(alloc, names, parts, definitions, equalities.as_slice())?;
    let settled = settle_rows(alloc, words.of.as_slice(), quantities, rows.as_slice())?;
    Ok(Flat {
        variables: words.variables,
        definitions: words.definitions,
        rows: settled.rows,
        registers: settled.registers,
        integers: settled.integers,
        truths,
        broken,
    })
}
