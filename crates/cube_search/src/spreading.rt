//! Runs of a leaf, by the numbers of their variables.
ghost use Rattle.std.specs.Prelude.{◌≡◌, [], ◌∷◌, None, Some, IfOk, MatchOption};
ghost use Rattle.std.specs.Vec.Iter.{into_iter_items};
ghost use Rattle.machine_core.specs.declared.graph.Graph.{Graph};
ghost use Rattle.search_hits.specs.Hits.{AreRunsOf};
ghost use Rattle.backward.specs.Leaves.{machines_of};
ghost use Rattle.cube_search.specs.Spreads.{IsSpread};

use crate::found::FoundRuns;
use backward::{LeafState, Shared};
use machine_core::{Explicit, Run};
use search_hits::Hit;
use std::alloc::{AllocError, Global};
use std::vec::IntoIter;
use sv_list::Items;

// The next run, where the variable has a machine.
fn next_run(machine: &Option<Shared<Explicit>>, left: &mut IntoIter<Run<u32>>) -> Option<Run<u32>>
    ensures carried { machine.now ≡ None → (result ≡ None) × (into_iter_items left.new ≡ into_iter_items left.old) }
    ensures standing { (m : Graph) → machine.now ≡ Some m → MatchOption result (into_iter_items left.old ≡ []) (λ run. into_iter_items left.old ≡ run ∷ into_iter_items left.new) }
{
    match machine {
        None => None,
        Some(_) => left.next(),
    }
}

/// The runs of a family's machines, in their order, put to the numbers of the variables, and the numbers with
/// them. The runs are moved: linear in the number of variables.
pub fn spread(alloc: Global, state: &LeafState, hit: Hit) -> Result<FoundRuns, AllocError>
    requires { AreRunsOf (machines_of state.now.machines) hit.runs }
    ensures integers { IfOk result (λ found. found.integers ≡ hit.integers) }
    ensures runs { IfOk result (λ found. IsSpread state.now.machines hit.runs found.runs) }
{
    let Hit { runs, integers } = hit;
    let mut left = runs.into_vec().into_iter();
    let mut spread = Items::new(alloc);
    for machine in state.machines.as_slice() {
        let run = next_run(machine, &mut left);
        spread.push(run)?;
    }
    Ok(FoundRuns {
        runs: spread,
        integers,
    })
}
