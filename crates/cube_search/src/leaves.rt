//! Leaves answered: families in which only source variables have machines.
ghost use Rattle.std.specs.Prelude.{◌≡◌, ℕ, Ok, Err, None, IfOk, IfSome, OnOk};
ghost use Rattle.trim_search.specs.declared.build_fault.BuildFault.TheVariants.{States};
ghost use Rattle.backward.specs.States.{IsState};
ghost use Rattle.cube_search.specs.Searches.{AreFoundRuns, IsSearch};
ghost use Rattle.cube_search.specs.Tallies.{IsTally, Keeps, IsCovered};

use crate::asking::answer_machines;
use crate::found::FoundRuns;
use crate::searching::Search;
use crate::settling::settle;
use crate::spreading::spread;
use crate::tally::LeafTally;
use crate::trimming::{lift_runs, machines_of, trim_family};
use backward::{LeafState, families_become_leaves};
use cube_bounds::states_are_solved;
use search_hits::Hit;
use std::alloc::Global;
use trim_search::BuildFault;

/// Answers the leaf, and puts the answer to the tally unless it is a hit. Only memory may be wanting.
#[inline(never)]
pub fn answer_leaf(
    search: &Search,
    alloc: Global,
    state: &LeafState,
    tally: &mut LeafTally,
) -> Result<Option<FoundRuns>, BuildFault>
    requires search { IsSearch search.now }
    requires state { IsState search.now.flat.now 0 state.now }
    requires tally { IsTally search.now.flat.now tally.old }
    ensures tally { OnOk result (IsTally search.now.flat.now tally.new) }
    ensures kept { OnOk result (Keeps tally.old tally.new) }
    ensures covered { result ≡ Ok None → IsCovered search.now.flat.now search.now.region 0 state.now.machines tally.new }
    ensures found { IfOk result (λ o. IfSome o (AreFoundRuns search.now.flat.now 0 state.now.machines)) }
    ensures allowed { (n : ℕ) → result ≡ Err (States n) → ⊥ }
{
    families_become_leaves(state);
    states_are_solved();
    let trims = trim_family(alloc, state)?;
    let machines = machines_of(alloc, trims.as_slice())?;
    let answer = answer_machines(
        alloc,
        search.flat,
        &search.region,
        search.small,
        search.reach,
        machines.as_slice(),
    )?;
    match settle(tally, machines, answer) {
        None => Ok(None),
        Some(hit) => {
            let Hit { runs, integers } = hit;
            let runs = lift_runs(alloc, trims.as_slice(), runs.as_slice())?;
            let found = spread(alloc, state, Hit { runs, integers })?;
            Ok(Some(found))
        }
    }
}
