ghost use Rattle.std.specs.Prelude.{◌≡◌, ◌+◌, ◌<◌, length, get_or, MatchResult};
ghost use Rattle.farkas_check.specs.Systems.{no_constraint};
ghost use Rattle.farkas_check.specs.Branches.{constraint_of_branch, constraints_above};

use crate::branch::Branch;

/// The branches above a node, the nearest first.
#[derive(Drop)]
pub enum Above<'a> {
    Top,
    More(Branch<'a>, &'a Above<'a>),
}

/// The branch at a place, counted from the root, or how far the place lies past the nearest one.
pub fn find_branch<'a>(above: &'a Above<'a>, place: usize) -> Result<&'a Branch<'a>, usize>
    ensures { MatchResult result (λ b. (place < length (constraints_above above.now)) × (constraint_of_branch b.now ≡ get_or (constraints_above above.now) place no_constraint)) (λ left. left + length (constraints_above above.now) ≡ place) }
{
    match above {
        Above::Top => Err(place),
        Above::More(branch, rest) => match find_branch(rest, place) {
            Ok(found) => Ok(found),
            Err(0) => Ok(branch),
            Err(left) => Err(left - 1),
        },
    }
}
