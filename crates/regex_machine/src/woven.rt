ghost use Rattle.std.specs.Prelude.{◌≡◌, ◌<◌, ◌↔◌, [], length, Some, slice_get};
ghost use Rattle.machine_core.specs.Counts.{at_most-below};
ghost use Rattle.machine_core.specs.Language.{RunsFrom};
ghost use Rattle.sv_terms.specs.Language.{Word};
ghost use Rattle.regex_machine.specs.Laws.{no-cost};
ghost use Rattle.regex_machine.specs.Onwards.{AreClosed, ReadsOn};
ghost use Rattle.regex_machine.specs.Woven.{WovenEnds, WovenSteps, woven-state, woven-character, woven-cost};
ghost use Rattle.regex_machine.specs.declared.onward.Onward.{Onward};

use crate::onward::Onward;
use crate::stepping::ends_if;
use machine_core::{Cost, Machine, Move};
use std::alloc::{AllocError, Global};
use sv_list::{Copied, Items};

/// The states that were made for an expression, as a machine that is explored from one of them.
#[derive(Drop)]
pub struct Woven<'a> {
    pub states: &'a [Onward],
    pub start: u32,
    ghost closed: { AreClosed states.now },
    ghost started: { start < length states.now },
}

impl<'a> Woven<'a> {
    /// What is read from this state on.
    pub fn of(states: &'a [Onward], start: u32) -> Self
        requires closed { AreClosed states.now }
        requires started { start < length states.now }
        ensures states { result.states.now ≡ states.now }
        ensures read { (o : Onward) (w : Word) → slice_get states.now start ≡ Some o
            → RunsFrom (WovenEnds result.states.now) (WovenSteps result.states.now) result.start w [] ↔ ReadsOn states.now o w }
    {
        Woven { states, start }
    }
}

impl<'a> Machine for Woven<'a> {
    type St = u32;

    ghost width = { λ m. 0 };

    ghost is_state = { λ m s. s < length m.states.now };

    ghost first = { λ m. m.start };

    ghost ends_with = { λ m. WovenEnds m.states.now };

    ghost steps_to = { λ m. WovenSteps m.states.now };

    ghost top = { λ m. 0 };

    ghost size = { λ m. length m.states.now };

    ghost first_is_state = { λ m. m.started };

    ghost step_is_state = { λ m s t c cost h step. woven-state m.states.now m.closed s c cost t step };

    ghost step_character = { λ m s t c cost h step. woven-character m.states.now m.closed s c cost t step };

    ghost step_cost = { λ m s t c cost h step. woven-cost m.states.now m.closed s c cost t step };

    ghost end_cost = { λ m s cost h end. no-cost cost end.2 };

    ghost states_at_most = { λ m. at_most-below (length m.states.now) };

    fn registers(&self) -> usize {
        0
    }

    fn start(&self, _alloc: Global) -> Result<u32, AllocError> {
        Ok(self.start)
    }

    fn ends(&self, alloc: Global, at: &u32) -> Result<Items<Cost>, AllocError> {
        let states = self.states;
        let onward = &states[*at as usize];
        ends_if(alloc, onward.may_end)
    }

    fn moves(&self, alloc: Global, at: &u32) -> Result<Items<Move<u32>>, AllocError> {
        let states = self.states;
        let onward = &states[*at as usize];
        onward.moves.copy(alloc)
    }
}
