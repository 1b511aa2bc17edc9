//! The end costs of machines, added up.
ghost use Rattle.std.specs.Prelude.{◌≡◌, ℕ, ◌<◌, ◌^◌, List, IfOk, OnOk, Contains};
ghost use Rattle.machine_core.specs.Costs.{CanAdd};
ghost use Rattle.machine_meet.specs.Joins.{AddsSums, AreSums};
ghost use Rattle.machine_meet.specs.Products.{AreStates, AreEndCosts, summed};

use machine_core::{Cost, Machine};
use std::alloc::{AllocError, Global};
use sv_list::Items;

fn sum_each(
    alloc: Global,
    head: &Cost,
    tails: &[Cost],
    all: &mut Items<Cost>,
) -> Result<(), AllocError>
    requires { (t : List ℕ) → Contains tails.now t → CanAdd head.now t }
    ensures { OnOk result (AddsSums head.now tails.now all.old all.new) }
{
    for tail in tails {
        all.push(head.add(alloc, tail)?)?;
    }
    Ok(())
}

fn sum_all(alloc: Global, heads: &[Cost], tails: &[Cost]) -> Result<Items<Cost>, AllocError>
    requires { (h t : List ℕ) → Contains heads.now h → Contains tails.now t → CanAdd h t }
    ensures { IfOk result (AreSums heads.now tails.now) }
{
    let mut all = Items::new(alloc);
    for head in heads {
        sum_each(alloc, head, tails, &mut all)?;
    }
    Ok(all)
}

// The sums of the parts' end costs, from the last part on, until none is left.
pub fn end_product<P: Machine>(
    alloc: Global,
    width: usize,
    parts: &[P],
    at: &[P::St],
) -> Result<Items<Cost>, AllocError>
    requires states { AreStates P.is_state parts.now at.now }
    requires width { (p : P) → Contains parts.now p → P.width p ≡ width }
    requires fits { summed P.top parts.now < 2 ^ 64 }
    ensures { IfOk result (AreEndCosts P.ends_with width parts.now at.now) }
{
    let mut all = Items::new(alloc);
    all.push(Cost::zeros(alloc, width)?)?;
    let mut i = parts.len();
    while i > 0 {
        i -= 1;
        let heads = parts[i].ends(alloc, &at[i])?;
        all = sum_all(alloc, heads.as_slice(), all.as_slice())?;
        if all.is_empty() {
            return Ok(all);
        }
    }
    Ok(all)
}
