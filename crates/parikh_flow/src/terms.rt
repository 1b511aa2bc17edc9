//! Terms for the edges and ends of machines.
ghost use Rattle.std.specs.Prelude.{◌≡◌, ◌+◌, ◌<◌, ◌^◌, pos, [], ◌∷◌, length, map, All, replicate, slice_index, IfOk, OnOk};
ghost use Rattle.sv_linear.specs.Terms.{AscendsWithin};
ghost use Rattle.parikh_flow.specs.Rows.{edge_cost, end_cost};
ghost use Rattle.parikh_flow.specs.Building.{numbered, AreTermsAdded};

use machine_core::{Cost, Edge, End};
use std::alloc::{AllocError, Global};
use sv_linear::Form;
use sv_list::Items;

// Adds the term of an unknown above all that the form has, unless its coefficient is 0.
fn push_term(form: &mut Form, unknown: u32, coefficient: i128) -> Result<(), AllocError>
    requires { AscendsWithin 0 unknown form.old.coefficients }
    ensures added { OnOk result (AreTermsAdded ((unknown, coefficient) ∷ []) form.old form.new) }
    ensures ascends { OnOk result (AscendsWithin 0 (unknown + 1) form.new.coefficients) }
{
    if coefficient == 0 {
        return Ok(());
    }
    form.push(unknown, coefficient)?;
    Ok(())
}

/// Adds terms with these coefficients, for the unknowns from `base` on. Linear in them.
pub fn push_terms(form: &mut Form, base: u32, coefficients: &[i128]) -> Result<(), AllocError>
    requires room { base + length coefficients.now < 2 ^ 32 }
    requires ascends { AscendsWithin 0 base form.old.coefficients }
    ensures added { OnOk result (AreTermsAdded (numbered base coefficients.now) form.old form.new) }
    ensures ascends { OnOk result (AscendsWithin 0 (base + length coefficients.now) form.new.coefficients) }
{
    let mut unknown = base;
    for coefficient in coefficients {
        push_term(form, unknown, *coefficient)?;
        unknown += 1;
    }
    Ok(())
}

// What a step or an end costs at the register.
fn cost_at(cost: &Cost, register: usize) -> u64
    requires { register < length cost.now }
    ensures value { result ≡ slice_index cost.now register }
    ensures fits { result < 2 ^ 64 }
{
    cost.as_slice()[register]
}

/// What each edge costs at the register.
pub fn edge_costs(alloc: Global, edges: &[Edge], register: usize) -> Result<Items<i128>, AllocError>
    requires { All (λ e. register < length e.cost) edges.now }
    ensures costs { IfOk result (λ costs. costs ≡ map (edge_cost register) edges.now) }
    ensures fit { IfOk result (λ _. All (λ e. slice_index e.cost register < 2 ^ 64) edges.now) }
{
    let mut costs = Items::new(alloc);
    for edge in edges {
        costs.push(i128::from(cost_at(&edge.cost, register)))?;
    }
    Ok(costs)
}

/// What each end costs at the register.
pub fn end_costs(alloc: Global, ends: &[End], register: usize) -> Result<Items<i128>, AllocError>
    requires { All (λ e. register < length e.cost) ends.now }
    ensures costs { IfOk result (λ costs. costs ≡ map (end_cost register) ends.now) }
    ensures fit { IfOk result (λ _. All (λ e. slice_index e.cost register < 2 ^ 64) ends.now) }
{
    let mut costs = Items::new(alloc);
    for end in ends {
        costs.push(i128::from(cost_at(&end.cost, register)))?;
    }
    Ok(costs)
}

/// So many ones.
pub fn ones(alloc: Global, count: usize) -> Result<Items<i128>, AllocError>
    ensures { IfOk result (λ list. list ≡ replicate count (pos 1)) }
{
    Ok(Items::from_vec(vec![in alloc; 1; count]?))
}
