//! What is told of an answer `unknown`.
ghost use Rattle.std.specs.Prelude.{◌≡◌};
ghost use Rattle.smt_session.specs.Verdicts.{cause_of, of_evidence, of_reason};

use cube_search::OpenReason;
use decide::Open;
use lia_branch::Evidence;
use reply_text::{Cause, CubeCause};

fn of_evidence(evidence: &Evidence) -> CubeCause
    ensures { result ≡ of_evidence evidence.now }
{
    match evidence {
        Evidence::Branches(_) => CubeCause::Branches,
        Evidence::PastRow { .. } => CubeCause::NumberRow,
        Evidence::PastSum(_, _) => CubeCause::NumberSum,
    }
}

fn of_reason(reason: &OpenReason) -> CubeCause
    ensures { result ≡ of_reason reason.now }
{
    match reason {
        OpenReason::Fragment(_) => CubeCause::Fragment,
        OpenReason::Wide(_) => CubeCause::Wide,
        OpenReason::States(_) => CubeCause::States,
        OpenReason::Splits(_) => CubeCause::Splits,
        OpenReason::Growth(_) => CubeCause::Length,
        OpenReason::Length(_, _) => CubeCause::Length,
        OpenReason::Arithmetic(_, _, evidence) => of_evidence(evidence),
    }
}

/// What is told of this reason.
pub fn cause_of(why: &Open) -> Cause
    ensures { result ≡ cause_of why.now }
{
    match why {
        Open::TooManyCubes(_) => Cause::Cubes,
        Open::PastForm { .. } => Cause::NumberForm,
        Open::Cubes(cubes) => match cubes.as_slice() {
            [] => Cause::Cubes,
            [cube, ..] => Cause::Cube(cube.0, of_reason(&cube.1)),
        },
    }
}
