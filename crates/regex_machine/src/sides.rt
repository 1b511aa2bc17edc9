ghost use Rattle.std.specs.Prelude.{◌≡◌, [], ◌∷◌, true, false};
ghost use Rattle.regex_machine.specs.Sided.{IsSideState, SideEnds, SideSteps, side_size, IsMeetSide, side-first, side-state, side-character, side-cost, side-end, side-states};

use crate::stepping::{ends_if, may_end};
use machine_core::{Cost, Explicit, Machine, Move};
use machine_meet::to_lists;
use std::alloc::{AllocError, Global};
use subset_machine::Subset;
use sv_list::Items;

/// The words of a machine, or all others, by a machine that is explored state by state.
///
/// Its states are lists of states: of one for the words of the machine, and for the others the lists of
/// the subset construction. So both kinds can be met with each other.
#[derive(Drop)]
pub struct MeetSide<'a> {
    pub part: &'a Explicit,
    /// Whether the words are those that aren't the part's.
    pub others: bool,
    ghost plain: { part.now.registers ≡ 0 },
}

impl<'a> MeetSide<'a> {
    /// The words of the part.
    pub fn within(part: &'a Explicit) -> Self
        requires { part.now.registers ≡ 0 }
        ensures { IsMeetSide false part.now result.others result.part.now }
    {
        MeetSide {
            part,
            others: false,
        }
    }

    /// The words that aren't the part's.
    pub fn outside(part: &'a Explicit) -> Self
        requires { part.now.registers ≡ 0 }
        ensures { IsMeetSide true part.now result.others result.part.now }
    {
        // Its clause says which words these are.
        let _others = Subset::of(part, true);
        MeetSide { part, others: true }
    }
}

impl<'a> Machine for MeetSide<'a> {
    type St = Items<u32>;

    ghost width = { λ m. 0 };

    ghost is_state = { λ m. IsSideState m.others m.part.now };

    ghost first = { λ m. 0 ∷ [] };

    ghost ends_with = { λ m. SideEnds m.others m.part.now };

    ghost steps_to = { λ m. SideSteps m.others m.part.now };

    ghost top = { λ m. 0 };

    ghost size = { λ m. side_size m.others m.part.now };

    ghost first_is_state = { λ m. side-first m.others m.part.now };

    ghost step_is_state = { λ m s t c cost h step. side-state m.others m.part.now s c cost t step };

    ghost step_character = { λ m s t c cost h step. side-character m.others m.part.now s c cost t step };

    ghost step_cost = { λ m s t c cost h step. side-cost m.others m.part.now s c cost t step };

    ghost end_cost = { λ m s cost h end. side-end m.others m.part.now s cost end };

    ghost states_at_most = { λ m. side-states m.others m.part.now };

    fn registers(&self) -> usize {
        0
    }

    fn start(&self, alloc: Global) -> Result<Items<u32>, AllocError> {
        Items::from_slice(alloc, &[0])
    }

    fn ends(&self, alloc: Global, at: &Items<u32>) -> Result<Items<Cost>, AllocError> {
        let others = self.others;
        if others {
            let subset = Subset::of(self.part, true);
            return subset.ends(alloc, at);
        }
        let list = at.as_slice();
        let may = may_end(self.part, list[0]);
        ends_if(alloc, may)
    }

    fn moves(&self, alloc: Global, at: &Items<u32>) -> Result<Items<Move<Items<u32>>>, AllocError> {
        let others = self.others;
        if others {
            let subset = Subset::of(self.part, true);
            return subset.moves(alloc, at);
        }
        let list = at.as_slice();
        let steps = self.part.moves(alloc, &list[0])?;
        to_lists(alloc, steps)
    }
}
