//! Runs for the counts in a solution.
ghost use Rattle.std.specs.Prelude.{◌≡◌, ℕ, ◌+◌, ◌<◌, ◌≤◌, ◌^◌, pos, length, IfOk, slice_index};
ghost use Rattle.farkas_check.specs.Cuts.{values_of};
ghost use Rattle.parikh_flow.specs.Counts.{size_of};
ghost use Rattle.parikh_flow.specs.Rows.{unknowns_after};
ghost use Rattle.parikh_flow.specs.Solutions.{HasFlowAt, HaveFlowsAt};
ghost use Rattle.leaf_solve.specs.Steps.{HasShortFlowAt, HaveShortFlowsAt};

use machine_core::{Explicit, Run};
use parikh_flow::{FlowFault, apart_is_not_joined, run_of, runs_have_flows};
use std::alloc::{AllocError, Global};
use sv_list::Items;

// The value at a place, which is a count.
fn count_at(point: &[i128], at: usize) -> u64
    requires at { at < length point.now }
    requires count { (n : ℕ) × (values_of point.now at ≡ pos n) × (n < 2 ^ 64) }
    ensures { values_of point.now at ≡ pos result }
{
    point[at] as u64
}

// The values from `base` on, which are counts.
fn counts_at(
    alloc: Global,
    point: &[i128],
    base: usize,
    size: usize,
) -> Result<Items<u64>, AllocError>
    requires room { base + size ≤ length point.now }
    requires counts { (k : ℕ) → k < size → (n : ℕ) × (values_of point.now (base + k) ≡ pos n) × (n < 2 ^ 64) }
    ensures size { IfOk result (λ counts. length counts ≡ size) }
    ensures values { IfOk result (λ counts. (k : ℕ) → k < size → values_of point.now (base + k) ≡ pos (slice_index counts k)) }
{
    let _values = point.len();
    let mut counts = Items::new(alloc);
    for k in 0..size {
        counts.push(count_at(point, base + k))?;
    }
    Ok(counts)
}

// How many counts a machine has.
fn size_of(machine: &Explicit) -> usize
    requires { size_of machine.now < 2 ^ 64 }
    ensures { result ≡ size_of machine.now }
{
    machine.edges().len() + machine.finals().len()
}

// A run of the machine whose counts are the values from `base` on.
fn run_at(
    alloc: Global,
    machine: &Explicit,
    base: usize,
    point: &[i128],
) -> Result<Run<u32>, AllocError>
    requires room { base + size_of machine.now ≤ length point.now }
    requires flow { HasShortFlowAt (values_of point.now) base machine.now }
    ensures { IfOk result (HasFlowAt (values_of point.now) base machine.now) }
{
    runs_have_flows(machine);
    apart_is_not_joined(machine);
    let _values = point.len();
    let counts = counts_at(alloc, point, base, size_of(machine))?;
    match run_of(alloc, machine, counts.as_slice()) {
        Ok(run) => Ok(run),
        // The counts are those of some run, so they are joined.
        Err(FlowFault::Apart(_)) => unreachable!(),
        Err(FlowFault::Memory(error)) => Err(error),
    }
}

/// A run of each machine, whose counts are the values from `base` on: first those of the first machine.
/// Linear in the values and in the runs.
pub fn runs_at(
    alloc: Global,
    machines: &[Explicit],
    base: usize,
    point: &[i128],
) -> Result<Items<Run<u32>>, AllocError>
    requires room { unknowns_after base machines.now ≡ length point.now }
    requires flows { HaveShortFlowsAt (values_of point.now) base machines.now }
    ensures { IfOk result (HaveFlowsAt (values_of point.now) base machines.now) }
{
    let _values = point.len();
    let mut runs = Items::new(alloc);
    let mut next = base;
    for machine in machines {
        runs.push(run_at(alloc, machine, next, point)?)?;
        next += size_of(machine);
    }
    Ok(runs)
}
