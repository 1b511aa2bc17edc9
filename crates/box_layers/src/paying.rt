ghost use Rattle.std.specs.Prelude.{◌≡◌, ◌+◌, ◌≤◌, length, map, IfOk, MatchOption};
ghost use Rattle.machine_core.specs.Costs.{add_costs};
ghost use Rattle.box_layers.specs.Layers.{AreWithinGreatest};

use std::alloc::{AllocError, Global};
use sv_list::Items;

// The sum; `None` exactly where it is above `most`.
fn sum_within(before: u64, cost: u64, most: u64) -> Option<u64>
    ensures { MatchOption result (before + cost ≤ most → ⊥) (λ sum. (sum ≡ before + cost) × (sum ≤ most)) }
{
    if cost > most || before > most - cost {
        return None;
    }
    Some(before + cost)
}

/// What is spent with this cost more; `None` exactly where it is above a side at some register.
pub fn pay(
    alloc: Global,
    spent: &[u64],
    cost: &[u64],
    sides: &[(u64, u64)],
) -> Result<Option<Items<u64>>, AllocError>
    requires cost { length cost.now ≡ length spent.now }
    requires sides { length sides.now ≡ length spent.now }
    ensures { IfOk result (λ o. MatchOption o (AreWithinGreatest (add_costs spent.now cost.now) (map (λ s. s.1) sides.now) → ⊥)
        (λ sum. (sum ≡ add_costs spent.now cost.now) × AreWithinGreatest sum (map (λ s. s.1) sides.now))) }
{
    let mut sum = Items::new(alloc);
    for (register, before) in spent.iter().enumerate() {
        let Some(after) = sum_within(*before, cost[register], sides[register].1) else {
            return Ok(None);
        };
        sum.push(after)?;
    }
    Ok(Some(sum))
}
