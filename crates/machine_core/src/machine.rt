ghost use Rattle.std.specs.Prelude.{◌≡◌, ℕ, ◌≤◌, ◌↔◌, List, IfOk, All, Any};
ghost use Rattle.sv_word.specs.Ranges.{IsInhabited};
ghost use Rattle.machine_core.specs.Costs.{IsCost};
ghost use Rattle.machine_core.specs.Counts.{AreAtMost};
ghost use Rattle.machine_core.specs.Moves.{Moves};
ghost use Rattle.sv_word.specs.Words.{greatest_character};

use crate::cost::Cost;
use crate::state::State;
use std::alloc::{AllocError, Global};
use sv_list::{Copied, Items};
use sv_word::Ranges;

/// A step to state `to` on each character of `on`, at one number of `cost` for each register.
#[derive(Drop)]
pub struct Move<T> {
    pub on: Ranges,
    pub cost: Cost,
    pub to: T,
}

impl<T: Copied> Copied for Move<T> {
    fn copy(&self, alloc: Global) -> Result<Self, AllocError> {
        Ok(Move {
            on: self.on.copy(alloc)?,
            cost: self.cost.copy(alloc)?,
            to: self.to.copy(alloc)?,
        })
    }
}

/// A machine over words with costs, which tells what leaves a state when it is asked.
///
/// Its meaning is a first state and two relations on states and single characters, so the same
/// state gives the same answers. It bounds the number of its states and the costs of its steps and
/// ends. Whoever explores it pays for the states that it reaches alone.
pub trait Machine {
    type St: State;

    // the number of registers
    ghost width: { Self → ℕ };

    // the states; what is reached from the first one is among them
    ghost is_state: { Self → Self.St → Type 0 };

    ghost first: { Self → Self.St };

    // a word may end in this state at this cost
    ghost ends_with: { Self → Self.St → List ℕ → Type 0 };

    // a step leads from this state, on this character, at this cost, to that state
    ghost steps_to: { Self → Self.St → ℕ → List ℕ → Self.St → Type 0 };

    // no step and no end costs more at a register
    ghost top: { Self → ℕ };

    // there are no more states
    ghost size: { Self → ℕ };

    /// The number of registers.
    fn registers(&self) -> usize
        ensures { result ≡ width self.now };

    /// The first state.
    fn start(&self, alloc: Global) -> Result<Self::St, AllocError>
        ensures { IfOk result (λ s. s ≡ first self.now) };

    /// The costs at which a word may end in this state; none where it may not.
    fn ends(&self, alloc: Global, at: &Self::St) -> Result<Items<Cost>, AllocError>
        requires { is_state self.now at.now }
        ensures { IfOk result (λ costs. (cost : List ℕ) → ends_with self.now at.now cost ↔ Any (λ e. e ≡ cost) costs) };

    /// The steps that leave this state. The `on` of none of them is empty.
    fn moves(&self, alloc: Global, at: &Self::St) -> Result<Items<Move<Self::St>>, AllocError>
        requires { is_state self.now at.now }
        ensures exact { IfOk result (λ moves. (c : ℕ) (cost : List ℕ) (to : Self.St) →
            steps_to self.now at.now c cost to ↔ Any (Moves c cost to) moves) }
        ensures inhabited { IfOk result (All (λ m. IsInhabited m.on)) };

    ghost first_is_state: { (m : Self) → is_state m (first m) };

    ghost step_is_state: { (m : Self) (s t : Self.St) (c : ℕ) (cost : List ℕ) →
        is_state m s → steps_to m s c cost t → is_state m t };

    ghost step_character: { (m : Self) (s t : Self.St) (c : ℕ) (cost : List ℕ) →
        is_state m s → steps_to m s c cost t → c ≤ greatest_character };

    ghost step_cost: { (m : Self) (s t : Self.St) (c : ℕ) (cost : List ℕ) →
        is_state m s → steps_to m s c cost t → IsCost (width m) (top m) cost };

    ghost end_cost: { (m : Self) (s : Self.St) (cost : List ℕ) →
        is_state m s → ends_with m s cost → IsCost (width m) (top m) cost };

    ghost states_at_most: { (m : Self) → AreAtMost (is_state m) (size m) };
}
