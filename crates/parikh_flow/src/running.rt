ghost use Rattle.std.specs.Prelude.{◌≡◌, ℕ, ◌<◌, ◌≤◌, ◌↔◌, true, false, List, length, slice_get, slice_index, Some, IfOk, Err, Contains};
ghost use Rattle.std.specs.List.Sorted.{IsStrictlyIncreasing};
ghost use Rattle.machine_core.specs.Graphs.{IsRunOf};
ghost use Rattle.parikh_flow.specs.declared.flow_fault.FlowFault.TheVariants.{Apart};
ghost use Rattle.parikh_flow.specs.Counts.{total_count};
ghost use Rattle.parikh_flow.specs.Balance.{AreBalanced, one_at};
ghost use Rattle.parikh_flow.specs.Flows.{IsFlow};
ghost use Rattle.parikh_flow.specs.Nets.{AreApart};
ghost use Rattle.parikh_flow.specs.Tours.{IsMet};

use crate::flow_fault::FlowFault;
use crate::tour::tour_of;
use machine_core::{Explicit, Run};
use std::alloc::{AllocError, Global};
use sv_list::Items;

/// A run of the machine that uses each edge and each end as often as the counts say: those of the edges
/// come first, in the order of `edges`, and then those of the ends, in the order of `finals`.
///
/// `Apart` comes exactly where the used edges aren't all reached from the start over used edges. By
/// Hierholzer's algorithm, linear in the sum of the counts and in the machine.
pub fn run_of(alloc: Global, machine: &Explicit, counts: &[u64]) -> Result<Run<u32>, FlowFault>
    requires balanced { AreBalanced machine.now counts.now }
    requires few { total_count counts.now ≤ 4194304 }
    ensures run { IfOk result (IsRunOf machine.now) }
    ensures flow { IfOk result (λ run. IsFlow machine.now run counts.now) }
    ensures apart { (set : List ℕ) → result ≡ Err (Apart set) → AreApart machine.now counts.now set }
{
    let edges = machine.edges();
    let (of_edges, of_ends) = counts.split_at(edges.len());
    let last = count_used(of_ends);
    let end = &machine.finals()[last];
    let walked = tour_of(alloc, machine, of_edges)?;
    if is_spent(walked.left.as_slice()) {
        Ok(Run::along(alloc, machine, walked.back.as_slice(), &end.cost)?)
    } else {
        let set = unmet_states(alloc, machine, walked.back.as_slice())?;
        Err(FlowFault::Apart(set))
    }
}

// The place of the count that is 1, where the others are 0.
fn count_used(counts: &[u64]) -> usize
    requires { total_count counts.now ≡ 1 }
    ensures within { result < length counts.now }
    ensures used { (k : ℕ) → slice_index counts.now k ≡ one_at k result }
{
    let mut i = 0;
    while counts[i] == 0 {
        i += 1;
    }
    i
}

// Whether all counts are 0.
fn is_spent(left: &[u64]) -> bool
    ensures spent { result ≡ true → (p : ℕ) → slice_index left.now p ≡ 0 }
    ensures more { result ≡ false → (p : ℕ) × (p < length left.now) × (0 < slice_index left.now p) }
{
    for count in left {
        if *count > 0 {
            return false;
        }
    }
    true
}

// The states, ascending, that aren't the start and that none of the edges at these places leads to.
fn unmet_states(alloc: Global, machine: &Explicit, back: &[usize]) -> Result<Items<u32>, AllocError>
    requires { (i p : ℕ) → slice_get back.now i ≡ Some p → p < length machine.now.edges }
    ensures ascending { IfOk result IsStrictlyIncreasing }
    ensures members { IfOk result (λ set. (s : ℕ) → Contains set s ↔ ((s < machine.now.states) × (IsMet machine.now.edges back.now s → ⊥))) }
{
    let met = marks(alloc, machine, back)?;
    unmarked_states(alloc, met.as_slice(), machine.states())
}

// A mark for each state, set at the start and where one of the edges at these places leads.
fn marks(alloc: Global, machine: &Explicit, back: &[usize]) -> Result<Items<bool>, AllocError>
    requires { (i p : ℕ) → slice_get back.now i ≡ Some p → p < length machine.now.edges }
    ensures size { IfOk result (λ met. length met ≡ machine.now.states) }
    ensures met { IfOk result (λ met. (s : ℕ) → s < machine.now.states → (slice_get met s ≡ Some true) ↔ IsMet machine.now.edges back.now s) }
{
    let mut met = Items::from_vec(vec![in alloc; false; machine.states() as usize]?);
    met.set(0, true);
    let edges = machine.edges();
    for place in back {
        met.set(edges[*place].to as usize, true);
    }
    Ok(met)
}

// The places of the marks that aren't set, ascending.
pub fn unmarked_states(alloc: Global, marks: &[bool], states: u32) -> Result<Items<u32>, AllocError>
    requires { length marks.now ≡ states }
    ensures ascending { IfOk result IsStrictlyIncreasing }
    ensures members { IfOk result (λ set. (s : ℕ) → Contains set s ↔ ((s < states) × (slice_get marks.now s ≡ Some true → ⊥))) }
{
    let mut set = Items::new(alloc);
    for state in 0..states {
        if !marks[state as usize] {
            set.push(state)?;
        }
    }
    Ok(set)
}
