//! The columns of rows that aren't 0.
ghost use Rattle.std.specs.Prelude.{◌≡◌, ℕ, ◌<◌, ◌^◌, ◌||◌, true, false, length, get_or, replicate, slice_set, IfOk};
ghost use Rattle.sv_linear.specs.Terms.{AscendsWithin};
ghost use Rattle.straight_line.specs.Columns.{has_entry, has_term};

use std::alloc::{AllocError, Global};
use sv_linear::Row;
use sv_list::Items;

/// Which of so many unknowns have a coefficient that isn't 0 in some row. Linear in the unknowns and the rows.
#[tactic(auto, using(crate::proofs::Marks::columns_none, crate::proofs::Marks::columns_more, crate::proofs::Marks::columns_all))]
pub fn columns_of(alloc: Global, unknowns: usize, rows: &[Row]) -> Result<Items<bool>, AllocError>
    ensures count { IfOk result (λ used. length used ≡ unknowns) }
    ensures exact { IfOk result (λ used. (u : ℕ) → u < unknowns → get_or used u false ≡ has_entry rows.now u) }
{
    let mut used = mark_unused(alloc, unknowns)?;
    for row in rows {
        let terms = row.form.coefficients.as_slice();
        mark(&mut used, terms);
    }
    Ok(used)
}

fn mark_unused(alloc: Global, unknowns: usize) -> Result<Items<bool>, AllocError>
    ensures { IfOk result (λ used. used ≡ replicate unknowns false) }
{
    Ok(Items::from_vec(vec![in alloc; false; unknowns]?))
}

/// Marks the unknowns of terms.
fn mark(used: &mut Items<bool>, terms: &[(u32, i128)])
    requires { AscendsWithin 0 (2 ^ 32) terms.now }
    ensures count { length used.new ≡ length used.old }
    ensures exact { (u : ℕ) → u < length used.old → get_or used.new u false ≡ (get_or used.old u false || has_term u terms.now) }
{
    for (unknown, _) in terms {
        put(used, *unknown as usize);
    }
}

fn put(used: &mut Items<bool>, at: usize)
    ensures { used.new ≡ slice_set used.old at true }
{
    if at >= used.len() {
        return;
    }
    used.set(at, true);
}
