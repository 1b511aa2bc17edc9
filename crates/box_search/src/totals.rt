//! The totals behind the last machine with which numbers meet the rows.
ghost use Rattle.std.specs.Prelude.{◌≡◌, ◌≤◌, ◌<◌, ◌^◌, ◌∷◌, ℕ, [], false, None, length, IfOk};
ghost use Rattle.box_layers.specs.Layers.{AreGoodTotals};
ghost use Rattle.total_marks.specs.Marks.{HasBit};

use box_layers::Layers;
use std::alloc::{AllocError, Global};
use total_marks::has_bit;

// Whether the total is marked, and some numbers meet the rows with it.
fn is_good(alloc: Global, layers: &Layers, words: &[u64], total: u64) -> Result<bool, AllocError>
    requires { length layers.now.region.now.registers ≡ 1 }
    ensures { IfOk result (λ good. good ≡ false → HasBit words.now total → AreGoodTotals layers.now.rows.now layers.now.region.now (total ∷ []) → ⊥) }
{
    if !has_bit(words, total) {
        return Ok(false);
    }
    layers.has_numbers(alloc, &[total])
}

/// The first marked total of the side with which some numbers meet the rows; `None` where there is none.
pub fn first_good(
    alloc: Global,
    layers: &Layers,
    words: &[u64],
    low: u64,
    high: u64,
) -> Result<Option<u64>, AllocError>
    requires one { length layers.now.region.now.registers ≡ 1 }
    requires high { high < 2 ^ 62 }
    ensures { IfOk result (λ o. o ≡ None → (total : ℕ) → low ≤ total → total ≤ high → HasBit words.now total → AreGoodTotals layers.now.rows.now layers.now.region.now (total ∷ []) → ⊥) }
{
    for total in low..high + 1 {
        if is_good(alloc, layers, words, total)? {
            return Ok(Some(total));
        }
    }
    Ok(None)
}
