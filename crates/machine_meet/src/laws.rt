//! Laws of products, each stated by a function that does nothing.
ghost use Rattle.std.specs.Prelude.{ℕ, List};
ghost use Rattle.machine_core.specs.RunBounds.{RunsWithin, PathsWithin};
ghost use Rattle.machine_meet.specs.Products.{AreStates, MeetEnds, MeetSteps, meet_width, EachWithin, total};

use crate::meet::Meet;
use machine_core::Machine;

/// What bounds the runs of each part, one slope and one base for each by its place, added up, bounds
/// those of the product, and so it is with paths.
pub fn costs_of_meets_are_bounded<P: Machine>(meet: &Meet<P>)
    ensures runs { (register : ℕ) (slopes bases : List ℕ)
        → EachWithin (λ p slope base. RunsWithin (P.is_state p) (P.ends_with p) (P.steps_to p) register slope base) meet.now.parts.now slopes bases
        → RunsWithin (AreStates P.is_state meet.now.parts.now)
        (MeetEnds P.ends_with (meet_width P.width meet.now.parts.now) meet.now.parts.now)
        (MeetSteps P.steps_to (meet_width P.width meet.now.parts.now) meet.now.parts.now)
        register (total slopes) (total bases) }
    ensures paths { (register : ℕ) (slopes bases : List ℕ)
        → EachWithin (λ p slope base. PathsWithin (P.is_state p) (P.width p) (P.steps_to p) register slope base) meet.now.parts.now slopes bases
        → PathsWithin (AreStates P.is_state meet.now.parts.now) (meet_width P.width meet.now.parts.now)
        (MeetSteps P.steps_to (meet_width P.width meet.now.parts.now) meet.now.parts.now)
        register (total slopes) (total bases) }
{}
