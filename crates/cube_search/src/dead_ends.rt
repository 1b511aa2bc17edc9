//! Machines that read nothing, on the way to a leaf.
ghost use Rattle.std.specs.Prelude.{◌≡◌, ℕ, [], IfSome};
ghost use Rattle.machine_core.specs.declared.graph.Graph.{Graph};
ghost use Rattle.backward.specs.Families.{HasMachine};
ghost use Rattle.cube_search.specs.DeadEnds.{is_dead_end};

use backward::{LeafState, Shared};
use machine_core::Explicit;

// Whether there is a machine, and it has no end.
fn is_dead(machine: &Option<Shared<Explicit>>) -> bool
    ensures { result ≡ is_dead_end machine.now }
{
    match machine {
        None => false,
        Some(machine) => machine.get().finals().is_empty(),
    }
}

/// The first variable whose machine has no end, so that the family reads nothing; none where each has one. Linear in the
/// machines' number.
pub fn dead_end(family: &LeafState) -> Option<usize>
    ensures { IfSome result (λ v. (m : Graph) × HasMachine family.now.machines v m × (m.ends ≡ [])) }
{
    let machines = family.machines.as_slice();
    for v in 0..machines.len() {
        if is_dead(&machines[v]) {
            return Some(v);
        }
    }
    None
}
