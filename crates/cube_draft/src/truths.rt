ghost use Rattle.std.specs.Prelude.{◌≡◌, [], ◌∷◌, ◌++◌, None, IfOk, OnOk, nat_eq};
ghost use Rattle.std.specs.Map.{lookup};
ghost use Rattle.std.specs.Cmp.Lexicographic.{pointwise};

use indexmap::IndexMap;
use std::alloc::{AllocError, Global};
use std::marker::Model;
use sv_list::Items;
use sv_terms::Name;

/// Bool constants with their values.
///
/// Contracts see the list of pairs in the order in which they came; no name stands twice.
#[derive(Drop)]
pub struct Truths {
    entries: IndexMap<Name, bool>,
}

impl Model for Truths {
    ghost use Rattle.std.specs.Prelude.{Bool, List, ℕ};

    ghost Value = { List (List ℕ × Bool) };

    ghost view = { λ m. m.entries.entries };
}

impl Truths {
    /// No constants. Takes no memory.
    pub fn new(alloc: Global) -> Truths
        ensures { result ≡ [] }
    {
        Truths {
            entries: IndexMap::new(alloc),
        }
    }

    /// The value of a constant. Time is linear in the name, by its hash.
    pub fn get(&self, name: &Name) -> Option<bool>
        ensures { result ≡ lookup (pointwise nat_eq name.now) self.now }
    {
        self.entries.get(name).copied()
    }

    /// Gives a new constant its value. Time is linear in the name, but for the moves of a growing map.
    #[tactic(auto, using(crate::proofs::Declaring::declaring))]
    pub fn declare(&mut self, name: Name, value: bool) -> Result<(), AllocError>
        requires { lookup (pointwise nat_eq name) self.old ≡ None }
        ensures { OnOk result (self.new ≡ self.old ++ (name, value) ∷ []) }
    {
        match self.entries.insert(name, value) {
            Ok(_) => Ok(()),
            Err(_) => Err(AllocError),
        }
    }

    /// The pairs as a list, in their order.
    pub fn into_items(self, alloc: Global) -> Result<Items<(Name, bool)>, AllocError>
        ensures { IfOk result (λ all. all ≡ self) }
    {
        let Truths { entries } = self;
        let all = entries.into_iter().collect(alloc)?;
        Ok(Items::from_vec(all))
    }
}
