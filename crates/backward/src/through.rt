//! A machine carried through a transducer.
ghost use Rattle.std.specs.Prelude.{◌≡◌, ℕ, ◌+◌, ◌*◌, ◌<◌, ◌^◌, Err, IfOk};
ghost use Rattle.machine_core.specs.declared.graph.Graph.{Graph};
ghost use Rattle.sv_terms.specs.Transduction.{Pairs, IsFormed, WritesWithin};
ghost use Rattle.pre_image.specs.PreImages.{pre_top};
ghost use Rattle.trim_search.specs.declared.build_fault.BuildFault.TheVariants.{States};
ghost use Rattle.backward.specs.PreBuilt.{IsPreKept};
ghost use Rattle.backward.specs.Made.{IsPassed};
ghost use Rattle.backward.specs.Carried.{CanPass, IsCarriedThrough};

use crate::family::{machine_at, share_copy, share_without};
use crate::leaf_state::{FamilyOrigin, LeafState};
use crate::meeting::meet_slice;
use machine_core::Explicit;
use pre_image::{Pre, pre_costs_are_bounded, pre_is_exact};
use std::alloc::Global;
use sv_terms::Transducer;
use trim_search::{BuildFault, Built, lifted_runs_are_runs, materialise};

/// A pre-image that was explored, with the pair of states of each state.
pub struct PreBuilt {
    pub built: Built<(u32, u32)>,
}

// A drop by hand is one call where a derived one is a call for each vector inside.
impl Drop for PreBuilt {
    fn drop(self) {
        let Self { built: _ } = self;
    }
}

// The pre-image of a machine, with one state for each pair of states that is reached.
fn pre_image(
    alloc: Global,
    through: &Transducer,
    target: &Explicit,
    limit: u64,
) -> Result<PreBuilt, BuildFault>
    requires formed { IsFormed through.now }
    requires fits { pre_top through.now target.now < 2 ^ 64 }
    ensures kept { IfOk result (IsPreKept through.now target.now) }
    ensures refused { (n : ℕ) → result ≡ Err (States n) → limit < 2 ^ 32 }
{
    let pre = Pre::of(alloc, through, target)?;
    pre_is_exact(&pre);
    pre_costs_are_bounded(&pre);
    let built = materialise(alloc, &pre, limit)?;
    lifted_runs_are_runs(&pre, &built);
    Ok(PreBuilt { built })
}

/// The family in which the machine of `x`, which is defined from `v` through the transducer, is
/// carried to `v`: its pre-image under the transducer is met with the machine of `v`. The transducer is
/// kept, since runs are taken back by it.
///
/// Both are explored at once. That takes at most the product of the three numbers of states. `States` comes
/// where one of them reaches more than `limit`, and never for a limit of 2^32 or more.
pub fn carry_through(
    alloc: Global,
    state: &LeafState,
    x: u32,
    v: u32,
    through: Transducer,
    limit: u64,
) -> Result<LeafState, BuildFault>
    requires { (m k : Graph) × CanPass state.now.machines x m v k through }
    ensures registers { IfOk result (λ s. s.registers ≡ state.now.registers) }
    ensures carried { IfOk result (λ s. (m k : Graph) (slope base : ℕ) → CanPass state.now.machines x m v k through → WritesWithin through (λ n. slope * n + base) →
        IsCarriedThrough (Pairs through) through.states slope base state.now.registers state.now.machines x m v s.machines) }
    ensures made { IfOk result (IsPassed state.now.machines x v through) }
    ensures refused { (n : ℕ) → result ≡ Err (States n) → limit < 2 ^ 32 }
{
    let target = machine_at(state.machines.as_slice(), x);
    let reader = machine_at(state.machines.as_slice(), v);
    let before = pre_image(alloc, &through, target, limit)?;
    let meeting = meet_slice(alloc, reader, &before.built.machine, 0, None, limit)?;
    let met = share_copy(alloc, &meeting.small.machine)?;
    let mut machines = share_without(alloc, state.machines.as_slice(), x)?;
    machines.set(v as usize, Some(met));
    Ok(LeafState {
        registers: state.registers,
        machines,
        made: FamilyOrigin::Through(through, before, meeting),
    })
}
