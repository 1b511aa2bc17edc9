ghost use Rattle.std.specs.Prelude.{◌≡◌, ◌<◌, ◌^◌, [], map, Contains};
ghost use Rattle.machine_meet.specs.Products.{AreStates, MeetEnds, MeetSteps, meet_width, summed, multiplied, MeetsAll};
ghost use Rattle.machine_meet.specs.ProductLaws.{first-states, step-states, step-character, meet_end-cost, meet_step-cost, states-at_most};

use crate::product::product;
use crate::sums::end_product;
use machine_core::{Cost, Machine, Move};
use std::alloc::{AllocError, Global};
use sv_list::Items;

/// The machines that read a word together, as one machine that is explored state by state.
///
/// A state is a list with one state of each part, in the order of the parts. Without parts it has
/// every word and no registers. There are at most as many states as the numbers of the parts' states
/// make multiplied.
///
/// The moves begin as the last part's own. Each move of a part before it is intersected once with each
/// move of the parts after it that reads a character of it, and no others are tried: the intervals of both
/// are sorted, and searched for those that begin within one of the other side. For n intervals, of
/// which k pairs overlap, that is n log n and k log k for each part, and the intersections. Where no
/// move is left no further part is asked, so a part with few moves is best put last.
#[derive(Drop)]
pub struct Meet<'a, P: Machine> {
    pub parts: &'a [P],
    ghost agree: { (p : P) → Contains parts.now p → P.width p ≡ meet_width P.width parts.now },
    ghost fits: { summed P.top parts.now < 2 ^ 64 },
}

impl<'a, P: Machine> Meet<'a, P> {
    /// The product of these machines, which have the same number of registers and whose greatest
    /// costs add up below 2^64. Constant time.
    pub fn of(parts: &'a [P]) -> Self
        requires agree { (p : P) → Contains parts.now p → P.width p ≡ meet_width P.width parts.now }
        requires fits { summed P.top parts.now < 2 ^ 64 }
        ensures parts { result.parts.now ≡ parts.now }
        ensures language { MeetsAll P.ends_with P.steps_to P.first (meet_width P.width parts.now) parts.now }
    {
        Meet { parts }
    }
}

impl<'a, P: Machine> Machine for Meet<'a, P> {
    type St = Items<P::St>;

    ghost width = { λ m. meet_width P.width m.parts.now };

    ghost is_state = { λ m. AreStates P.is_state m.parts.now };

    ghost first = { λ m. map P.first m.parts.now };

    ghost ends_with = { λ m. MeetEnds P.ends_with (meet_width P.width m.parts.now) m.parts.now };

    ghost steps_to = { λ m. MeetSteps P.steps_to (meet_width P.width m.parts.now) m.parts.now };

    ghost top = { λ m. summed P.top m.parts.now };

    ghost size = { λ m. multiplied P.size m.parts.now };

    ghost first_is_state = { λ m. first-states P.is_state P.first P.first_is_state m.parts.now };

    ghost step_is_state = { λ m s t c cost h step. step-states P.is_state P.steps_to (meet_width P.width m.parts.now) P.step_is_state m.parts.now s t c cost h step };

    ghost step_character = { λ m s t c cost h step. step-character P.is_state P.steps_to (meet_width P.width m.parts.now) P.step_character m.parts.now s t c cost h step };

    ghost step_cost = { λ m s t c cost h step. meet_step-cost P.is_state P.width P.top P.steps_to P.step_cost (meet_width P.width m.parts.now) m.parts.now m.agree s t c cost h step };

    ghost end_cost = { λ m s cost h end. meet_end-cost P.is_state P.width P.top P.ends_with P.end_cost (meet_width P.width m.parts.now) m.parts.now m.agree s cost h end };

    ghost states_at_most = { λ m. states-at_most P.is_state P.size P.states_at_most m.parts.now };

    fn registers(&self) -> usize {
        match self.parts {
            [] => 0,
            [part, ..] => part.registers(),
        }
    }

    fn start(&self, alloc: Global) -> Result<Items<P::St>, AllocError> {
        let mut first = Items::new(alloc);
        for part in self.parts {
            first.push(part.start(alloc)?)?;
        }
        Ok(first)
    }

    fn ends(&self, alloc: Global, at: &Items<P::St>) -> Result<Items<Cost>, AllocError> {
        end_product(alloc, self.registers(), self.parts, at.as_slice())
    }

    fn moves(
        &self,
        alloc: Global,
        at: &Items<P::St>,
    ) -> Result<Items<Move<Items<P::St>>>, AllocError> {
        product(alloc, self.registers(), self.parts, at.as_slice())
    }
}
