ghost use Rattle.std.specs.Prelude.{◌≡◌, []};
ghost use Rattle.machine_core.specs.Language.{RunsFrom};
ghost use Rattle.regex_machine.specs.Built.{Builds};

use machine_core::{Explicit, Machine};
use std::alloc::Global;
use trim_search::{BuildFault, materialise, trim};

/// A machine without registers, as one with listed edges that has its words and a state for each state that is
/// reached and leads to an end, beside its first. `States` where more than `limit` are reached. What leads to no end is
/// left out, since a product of many machines with such states has one for each choice of those that are in them.
pub fn list_states<M: Machine>(
    alloc: Global,
    machine: &M,
    limit: u64,
) -> Result<Explicit, BuildFault>
    requires { M.width machine.now ≡ 0 }
    ensures { Builds (λ w. RunsFrom (M.ends_with machine.now) (M.steps_to machine.now) (M.first machine.now) w []) (M.size machine.now) limit result }
{
    let reached = materialise(alloc, machine, limit)?.machine;
    Ok(trim(alloc, &reached)?)
}
