//! What lists of cuts of a concatenation come to together.
ghost use Rattle.std.specs.Prelude.{◌≡◌, Ok, None, IfOk, IfSome};
ghost use Rattle.cube_search.specs.Conflicts.{below_of, Goes, IsGathered};

use crate::below::Below;
use crate::names::{add_names, is_named};
use std::alloc::AllocError;
use sv_list::Items;

/// What the lists of cuts so far come to.
pub struct Gathered {
    /// The pieces, and what the refutations of the lists so far name.
    pub names: Items<bool>,
    /// Whether each list so far leads nowhere or is refuted.
    pub all: bool,
}

impl Drop for Gathered {
    fn drop(self) {
        let Self { names: _, all: _ } = self;
    }
}

impl Gathered {
    /// What all lists come to.
    pub fn into_below(self) -> Below
        ensures { result ≡ below_of self }
    {
        let Self { names, all } = self;
        if all {
            return Below::Refuted(names);
        }
        Below::Left
    }
}

/// Takes in what is below the lists that have one more cut, between these two pieces; the answer for all lists, where
/// that is one: runs, or a refutation that names neither of the two, since none of what it stands on depends on this cut.
pub fn gather(
    gathered: &mut Gathered,
    below: Below,
    before: u32,
    behind: u32,
) -> Result<Option<Below>, AllocError>
    ensures answer { IfOk result (λ o. IfSome o (λ b. (b ≡ below) × Goes before behind b)) }
    ensures gathered { result ≡ Ok None → IsGathered below gathered.old gathered.new }
{
    match below {
        Below::Found(found) => Ok(Some(Below::Found(found))),
        Below::Refuted(names) => {
            if !is_named(names.as_slice(), before) && !is_named(names.as_slice(), behind) {
                return Ok(Some(Below::Refuted(names)));
            }
            add_names(&mut gathered.names, names.as_slice())?;
            Ok(None)
        }
        Below::Left => {
            gathered.all = false;
            Ok(None)
        }
    }
}
