//! The first family of a flat cube.
ghost use Rattle.std.specs.Prelude.{◌≡◌, ◌<◌, ℕ, cond, nat_eq, map, length, Err, IfOk, Some, Contains};
ghost use Rattle.machine_core.specs.declared.graph.Graph.{Graph};
ghost use Rattle.cube_bounds.specs.Bounds.{states};
ghost use Rattle.flat_cubes.specs.Straight.{HasFormed, IsStraight};
ghost use Rattle.flat_cubes.specs.declared.flat.Flat.{Flat as AnyFlat};
ghost use Rattle.trim_search.specs.declared.build_fault.BuildFault.TheVariants.{States};
ghost use Rattle.backward.specs.Chains.{width};
ghost use Rattle.backward.specs.States.{AreOwnMachines, IsState};

use crate::leaf_state::{FamilyOrigin, LeafState};
use crate::shared::Shared;
use cube_bounds::{growth_is_solved, states_are_solved};
use flat_cubes::Flat;
use machine_core::{Cost, Explicit};
use part_machines::{MOST_STATES, Machines, bounds_are_positive, own_machine};
use std::alloc::{AllocError, Global};
use sv_list::Items;
use trim_search::BuildFault;

impl LeafState {
    /// The family of these machines, one per variable in their order. They have the same number of
    /// registers. Linear in their number.
    ///
    /// Where they are those of the variables' own parts of a flat cube, it is the first family of that
    /// cube.
    pub fn of(
        alloc: Global,
        registers: usize,
        machines: Items<Explicit>,
    ) -> Result<LeafState, AllocError>
        requires { (m : Graph) → Contains machines m → m.registers ≡ registers }
        ensures registers { IfOk result (λ s. s.registers ≡ registers) }
        ensures machines { IfOk result (λ s. s.machines ≡ map Some machines) }
        ensures first { IfOk result (λ s. (flat : AnyFlat) → IsStraight flat → registers ≡ width flat → AreOwnMachines flat machines → IsState flat (length flat.definitions) s) }
    {
        growth_is_solved();
        let machines = all_some(alloc, machines)?;
        Ok(LeafState {
            registers,
            machines,
            made: FamilyOrigin::First,
        })
    }
}

// Each machine as one that is there.
fn all_some(
    alloc: Global,
    machines: Items<Explicit>,
) -> Result<Items<Option<Shared<Explicit>>>, AllocError>
    ensures { IfOk result (λ all. all ≡ map Some machines) }
{
    let mut all = Items::new(alloc);
    for machine in machines.into_vec() {
        let machine = Shared::new(alloc, machine)?;
        all.push(Some(machine))?;
    }
    Ok(all)
}

// What a character of the variable costs: one at each of its registers, and nothing at the others.
fn character_cost(alloc: Global, registers: &[u32], v: usize) -> Result<Cost, AllocError>
    ensures { IfOk result (λ k. k ≡ map (λ z. cond (nat_eq z v) 1 0) registers.now) }
{
    let mut cost = Cost::new(alloc);
    for register in registers {
        let counts = *register as usize == v;
        cost.push(u64::from(counts))?;
    }
    Ok(cost)
}

/// The first family of a flat cube: each variable's machine reads exactly the words that meet its parts,
/// each with its length at the registers of the variable. Its transducers are formed.
/// Each machine is made as [`own_machine`](part_machines::own_machine) says, and those of regular expressions
/// are asked of `kept`.
///
/// `States` comes only where the cube's text allows a machine more than
/// [`MOST_STATES`](part_machines::MOST_STATES) states.
pub fn first_state(alloc: Global, flat: &Flat, kept: &Machines) -> Result<LeafState, BuildFault>
    requires straight { IsStraight flat.now }
    requires formed { HasFormed flat.now }
    ensures state { IfOk result (λ s. IsState flat.now (length flat.now.definitions) s) }
    ensures refused { (n : ℕ) → result ≡ Err (States n) → MOST_STATES < states flat.now }
{
    states_are_solved();
    bounds_are_positive();
    let registers = flat.registers.as_slice();
    let variables = flat.variables.as_slice();
    let mut machines = Items::new(alloc);
    for v in 0..variables.len() {
        let each = character_cost(alloc, registers, v)?;
        let machine = own_machine(alloc, variables[v].parts.as_slice(), &each, kept)?;
        machines.push(machine)?;
    }
    Ok(LeafState::of(alloc, registers.len(), machines)?)
}
