//! The machines of a leaf, cut down to what lies on runs.
ghost use Rattle.std.specs.Prelude.{◌≡◌, map, IfOk};
ghost use Rattle.std.specs.List.{AllZip};
ghost use Rattle.machine_core.specs.Graphs.{IsRunOf};
ghost use Rattle.backward.specs.Leaves.{machines_of};
ghost use Rattle.cube_search.specs.Leaves.{AreLifted, IsTrim, machine_of};

use backward::LeafState;
use machine_core::{Explicit, Run};
use std::alloc::{AllocError, Global};
use sv_list::{Copied, Items};
use trim_search::{Built, trim_named};

/// Each machine of the family without what lies on no run, in the order of their variables, with the
/// state that each of its states was. Linear in the machines.
pub fn trim_family(alloc: Global, state: &LeafState) -> Result<Items<Built<u32>>, AllocError>
    ensures { IfOk result (AllZip IsTrim (machines_of state.now.machines)) }
{
    let mut trims = Items::new(alloc);
    for machine in state.machines.as_slice() {
        if let Some(machine) = machine {
            trims.push(trim_named(alloc, machine.get())?)?;
        }
    }
    Ok(trims)
}

/// The machines that were cut down. Linear in them.
pub fn machines_of(alloc: Global, trims: &[Built<u32>]) -> Result<Items<Explicit>, AllocError>
    ensures { IfOk result (λ all. all ≡ map machine_of trims.now) }
{
    let mut all = Items::new(alloc);
    for trim in trims {
        all.push(trim.machine.copy(alloc)?)?;
    }
    Ok(all)
}

/// The runs over the states that the machines had before they were cut down. Linear in the runs.
pub fn lift_runs(
    alloc: Global,
    trims: &[Built<u32>],
    runs: &[Run<u32>],
) -> Result<Items<Run<u32>>, AllocError>
    requires { AllZip IsRunOf (map machine_of trims.now) runs.now }
    ensures { IfOk result (AreLifted trims.now runs.now) }
{
    let mut lifted = Items::new(alloc);
    for place in 0..runs.len() {
        lifted.push(trims[place].lift(alloc, &runs[place])?)?;
    }
    Ok(lifted)
}
