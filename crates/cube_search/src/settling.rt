//! The answers for leaves put to the tally, and what the tally comes to.
ghost use Rattle.std.specs.Prelude.{◌≡◌};
ghost use Rattle.cube_search.specs.LeafTallies.{first_some, hit_of, left_of, one_more, settled};

use crate::answer::CubeAnswer;
use crate::tally::{GivenUpLeaf, LeafTally, LongLeaf};
use leaf_solve::{Closing, LeafAnswer};
use machine_core::Explicit;
use search_hits::Hit;
use sv_list::Items;

/// The tally with the answer for a leaf of these machines, unless that is a hit. The first leaf that is
/// too long is kept, the first on which the solver gave up, and how many are closed.
pub fn settle(tally: &mut LeafTally, machines: Items<Explicit>, answer: LeafAnswer) -> Option<Hit>
    ensures hit { result ≡ hit_of answer }
    ensures given { tally.new.given ≡ (settled machines answer tally.old).given }
    ensures long { tally.new.long ≡ (settled machines answer tally.old).long }
    ensures closed { tally.new.closed ≡ (settled machines answer tally.old).closed }
{
    match answer {
        LeafAnswer::Sat(hit) => Some(hit),
        LeafAnswer::Closed(closing) => {
            close(tally, &closing);
            None
        }
        LeafAnswer::Long(shown) => {
            keep_long(tally, LongLeaf { machines, shown });
            None
        }
        LeafAnswer::Open(system, evidence) => {
            let given = GivenUpLeaf {
                machines,
                system,
                evidence,
            };
            keep_given(tally, given);
            None
        }
    }
}

/// What is answered for the cube where no leaf has a hit: a leaf on which the solver gave up, else one that is too
/// long, else that nothing satisfies the cube.
pub fn open_answer(tally: LeafTally) -> CubeAnswer
    ensures { result ≡ left_of tally }
{
    let LeafTally {
        given,
        long,
        closed,
    } = tally;
    if let Some(given) = given {
        return CubeAnswer::Open(given.into_reason());
    }
    if let Some(long) = long {
        return CubeAnswer::Open(long.into_reason());
    }
    CubeAnswer::Unsat(closed)
}

// Keeps a leaf that is too long, if it is the first.
fn keep_long(tally: &mut LeafTally, long: LongLeaf)
    ensures given { tally.new.given ≡ tally.old.given }
    ensures long { tally.new.long ≡ first_some tally.old.long long }
    ensures closed { tally.new.closed ≡ tally.old.closed }
{
    if tally.long.is_none() {
        tally.long = Some(long);
    }
}

// Keeps a leaf on which the solver gave up, if it is the first.
fn keep_given(tally: &mut LeafTally, given: GivenUpLeaf)
    ensures given { tally.new.given ≡ first_some tally.old.given given }
    ensures long { tally.new.long ≡ tally.old.long }
    ensures closed { tally.new.closed ≡ tally.old.closed }
{
    if tally.given.is_none() {
        tally.given = Some(given);
    }
}

// Counts a closed leaf.
fn close(tally: &mut LeafTally, closing: &Closing)
    ensures given { tally.new.given ≡ tally.old.given }
    ensures long { tally.new.long ≡ tally.old.long }
    ensures closed { tally.new.closed ≡ one_more closing.now tally.old.closed }
{
    match closing {
        Closing::Empty(_) => tally.closed.empty = tally.closed.empty.saturating_add(1),
        Closing::Tree(_, _) => tally.closed.trees = tally.closed.trees.saturating_add(1),
        Closing::Box => tally.closed.boxes = tally.closed.boxes.saturating_add(1),
    }
}
