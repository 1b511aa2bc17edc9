//! A shortest run of each machine.
ghost use Rattle.std.specs.Prelude.{◌≤◌, ◌^◌, length, IfOk};
ghost use Rattle.leaf_solve.specs.Steps.{IsShortest};

use machine_core::{Explicit, Run};
use std::alloc::{AllocError, Global};
use sv_list::Items;
use trim_search::shortest;

/// What machines have for shortest runs.
#[derive(Drop)]
pub enum Shortest {
    /// This machine, the first such, has no run.
    Empty(u32),
    /// One run of each machine.
    Runs(Items<Run<u32>>),
}

/// A shortest run of each machine, or the first machine that has none. Linear in the machines.
pub fn shortest_runs(alloc: Global, machines: &[Explicit]) -> Result<Shortest, AllocError>
    requires { length machines.now ≤ 2 ^ 32 }
    ensures { IfOk result (IsShortest machines.now) }
{
    let mut runs = Items::new(alloc);
    let mut place = 0usize;
    for machine in machines {
        let Some(run) = shortest(alloc, machine)? else {
            return Ok(Shortest::Empty(place as u32));
        };
        runs.push(run)?;
        place += 1;
    }
    Ok(Shortest::Runs(runs))
}
