ghost use Rattle.std.specs.Prelude.{◌≡◌, ℕ, ◌<◌, ◌≤◌, ◌↔◌, List, IfOk};
ghost use Rattle.machine_core.specs.declared.run.Run.{Run};
ghost use Rattle.machine_core.specs.Graphs.{Accepts, IsRunOf, graph_top, GraphRunsWithin, GraphPathsWithin};
ghost use Rattle.trim_search.specs.Lifted.{IsLift};
ghost use Rattle.trim_search.specs.Useful.{IsOnRun};

use crate::build_fault::BuildFault;
use crate::built::Built;
use crate::explore::explore_with;
use crate::numbering::Dense;
use crate::rests::mark_rests;
use crate::useful::Useful;
use machine_core::Explicit;
use std::alloc::{AllocError, Global};

/// The machine without what lies on no run: the same language and the same start, and each state but
/// the start is on some run. Linear in the machine.
pub fn trim(alloc: Global, machine: &Explicit) -> Result<Explicit, AllocError>
    ensures language { IfOk result (λ m. (word cost : List ℕ) → Accepts m word cost ↔ Accepts machine.now word cost) }
    ensures registers { IfOk result (λ m. m.registers ≡ machine.now.registers) }
    ensures used { IfOk result (λ m. (s : ℕ) → 0 < s → s < m.states → IsOnRun m s) }
    ensures states { IfOk result (λ m. m.states ≤ machine.now.states) }
    ensures top { IfOk result (λ m. graph_top m ≤ graph_top machine.now) }
    ensures runs_within { IfOk result (λ m. (register slope base : ℕ) → GraphRunsWithin machine.now register slope base → GraphRunsWithin m register slope base) }
    ensures paths_within { IfOk result (λ m. (register slope base : ℕ) → GraphPathsWithin machine.now register slope base → GraphPathsWithin m register slope base) }
{
    let built = trim_named(alloc, machine)?;
    Ok(built.machine)
}

/// The same, with the state of the machine that each state of the answer was: [`Built::lift`] takes a
/// run back to a run of the machine itself. Linear in the machine.
pub fn trim_named(alloc: Global, machine: &Explicit) -> Result<Built<u32>, AllocError>
    ensures language { IfOk result (λ b. (word cost : List ℕ) → Accepts b.machine word cost ↔ Accepts machine.now word cost) }
    ensures registers { IfOk result (λ b. b.machine.registers ≡ machine.now.registers) }
    ensures used { IfOk result (λ b. (s : ℕ) → 0 < s → s < b.machine.states → IsOnRun b.machine s) }
    ensures states { IfOk result (λ b. b.machine.states ≤ machine.now.states) }
    ensures top { IfOk result (λ b. graph_top b.machine ≤ graph_top machine.now) }
    ensures runs_within { IfOk result (λ b. (register slope base : ℕ) → GraphRunsWithin machine.now register slope base → GraphRunsWithin b.machine register slope base) }
    ensures paths_within { IfOk result (λ b. (register slope base : ℕ) → GraphPathsWithin machine.now register slope base → GraphPathsWithin b.machine register slope base) }
    ensures lifts { IfOk result (λ b. (run lifted : Run ℕ) → IsRunOf b.machine run → IsLift b.names run lifted → IsRunOf machine.now lifted) }
{
    let marks = mark_rests(alloc, machine)?;
    let useful = Useful {
        machine,
        marks: marks.as_slice(),
    };
    match explore_with(alloc, &useful, Dense::new(alloc), u64::MAX) {
        Ok(built) => Ok(built),
        // There are fewer states than this limit.
        Err(BuildFault::States(_)) => unreachable!(),
        Err(BuildFault::Memory(e)) => Err(e),
    }
}
