ghost use Rattle.std.specs.Prelude.{◌≡◌};
ghost use Rattle.cube_search.specs.Conflicts.{of_leaf};

use crate::found::FoundRuns;
use sv_list::Items;

/// What is below a family.
#[derive(Drop)]
pub enum Below {
    /// Runs that satisfy the cube.
    Found(FoundRuns),
    /// Whatever the machines of these variables read, marked by their numbers, doesn't obey the definitions that are
    /// left.
    Refuted(Items<bool>),
    /// Nothing satisfies the cube that the tally doesn't account for.
    Left,
}

impl Below {
    /// What is below a leaf, of what was found in it.
    pub fn of_leaf(found: Option<FoundRuns>) -> Below
        ensures { result ≡ of_leaf found }
    {
        match found {
            None => Below::Left,
            Some(found) => Below::Found(found),
        }
    }
}
