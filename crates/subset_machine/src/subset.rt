ghost use Rattle.std.specs.Prelude.{◌≡◌, ◌≢◌, ℕ, ◌≤◌, ◌<◌, ◌^◌, ◌↔◌, [], ◌∷◌, List, IfOk, IsTrue, All, AllPairs, Any, Contains};
ghost use Rattle.sv_word.specs.Ranges.{IsInhabited};
ghost use Rattle.machine_core.specs.Moves.{Moves};
ghost use Rattle.subset_machine.specs.Subsets.{IsStateSet, EndsInSome, SubsetEnds, SubsetSteps, SubsetAccepts, HasSignedWord};
ghost use Rattle.subset_machine.specs.StateSets.{sets_at_most};
ghost use Rattle.subset_machine.specs.SubsetLaws.{first-states, next-states, step-cost, end-cost};
ghost use Rattle.sv_word.specs.Words.{greatest_character};

use crate::groups::{group, moves_of};
use crate::leaving::{places_of, take_apart};
use crate::marks::cut;
use crate::targets::hits_of;
use machine_core::{Cost, Explicit, Machine, Move};
use std::alloc::{AllocError, Global};
use sv_list::Items;

/// The words of a machine, or all other words, by a machine whose states are lists of states.
///
/// A state is a list of states of the machine, ascending and without repeats, that starts as the
/// start alone. On a character the list of all states that its states step to follows. The empty list,
/// from which no word is the machine's, follows only where `negated`, and each word may end in it.
/// So it is deterministic and has no registers; negated, a list follows on every character. Of n
/// states there are at most 2^n lists.
///
/// `ends` takes time linear in the list. `moves` joins the characters that lead to one list, so that
/// there is one move for each list that follows. It takes time n log n for the n ranges of the edges
/// that leave the list's states, and h log h for the pairs of an interval between two borders of these
/// ranges and an edge that leads on from it.
#[derive(Drop)]
pub struct Subset<'a> {
    pub machine: &'a Explicit,
    pub negated: bool,
    ghost plain: { machine.now.registers ≡ 0 },
}

impl<'a> Subset<'a> {
    /// The words of the machine, or where `negated` all other words over the characters from 0 to
    /// 0x2FFFF. The machine has no registers. Constant time.
    pub fn of(machine: &'a Explicit, negated: bool) -> Self
        requires { machine.now.registers ≡ 0 }
        ensures machine { result.machine.now ≡ machine.now }
        ensures negated { result.negated ≡ negated }
        ensures language { (word cost : List ℕ) → SubsetAccepts negated machine.now word cost ↔ (HasSignedWord negated machine.now word × (cost ≡ [])) }
        ensures deterministic { (list next other cost more : List ℕ) (c : ℕ)
            → SubsetSteps negated machine.now.edges list c cost next
            → SubsetSteps negated machine.now.edges list c more other → next ≡ other }
        ensures complete { IsTrue negated → (list : List ℕ) (c : ℕ) → c ≤ greatest_character
            → (next : List ℕ) × SubsetSteps negated machine.now.edges list c [] next }
    {
        Subset { machine, negated }
    }
}

// Whether a word may end in one of these states.
fn may_end(machine: &Explicit, list: &[u32]) -> bool
    requires plain { machine.now.registers ≡ 0 }
    requires below { (s : ℕ) → Contains list.now s → s < machine.now.states }
    ensures { IsTrue result ↔ EndsInSome machine.now.ends list.now }
{
    for s in list {
        if !machine.ends_at(*s).is_empty() {
            return true;
        }
    }
    false
}

impl<'a> Machine for Subset<'a> {
    type St = Items<u32>;

    ghost width = { λ m. 0 };

    ghost is_state = { λ m. IsStateSet m.machine.now.states };

    ghost first = { λ m. 0 ∷ [] };

    ghost ends_with = { λ m. SubsetEnds m.negated m.machine.now.ends };

    ghost steps_to = { λ m. SubsetSteps m.negated m.machine.now.edges };

    ghost top = { λ m. 0 };

    ghost size = { λ m. 2 ^ m.machine.now.states };

    ghost first_is_state = { λ m. first-states m.machine.now.states m.machine.now.started };

    ghost step_is_state = { λ m s t c cost h step. next-states m.machine.now m.negated s c cost t step };

    ghost step_character = { λ m s t c cost h step. step.0 };

    ghost step_cost = { λ m s t c cost h step. step-cost m.negated m.machine.now.edges s c cost t step };

    ghost end_cost = { λ m s cost h end. end-cost m.negated m.machine.now.ends s cost end };

    ghost states_at_most = { λ m. sets_at_most m.machine.now.states };

    fn registers(&self) -> usize {
        0
    }

    fn start(&self, alloc: Global) -> Result<Items<u32>, AllocError> {
        Items::from_slice(alloc, &[0])
    }

    fn ends(&self, alloc: Global, at: &Items<u32>) -> Result<Items<Cost>, AllocError> {
        let mut costs = Items::new(alloc);
        if may_end(self.machine, at.as_slice()) != self.negated {
            costs.push(Cost::new(alloc))?;
        }
        Ok(costs)
    }

    /// The steps that leave this list, one for each list that follows.
    fn moves(&self, alloc: Global, at: &Items<u32>) -> Result<Items<Move<Items<u32>>>, AllocError>
        requires { IsStateSet self.now.machine.now.states at.now }
        ensures exact { IfOk result (λ moves. (c : ℕ) (cost to : List ℕ) →
            SubsetSteps self.now.negated self.now.machine.now.edges at.now c cost to ↔ Any (Moves c cost to) moves) }
        ensures inhabited { IfOk result (All (λ m. IsInhabited m.on)) }
        ensures joined { IfOk result (AllPairs (λ m n. m.to ≢ n.to)) }
    {
        let places = places_of(alloc, self.machine, at.as_slice())?;
        let legs = take_apart(alloc, self.machine.edges(), places.as_slice())?;
        let marks = cut(alloc, legs.as_slice())?;
        let hits = hits_of(alloc, legs.as_slice(), marks.as_slice())?;
        let groups = group(alloc, marks.as_slice(), hits.as_slice(), self.negated)?;
        moves_of(alloc, groups)
    }
}
