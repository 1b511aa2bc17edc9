ghost use Rattle.std.specs.Prelude.{◌≡◌, [], ◌∷◌, ◌++◌, ◌-◌, length, take, IfOk, OnOk};
ghost use Rattle.term_weight.specs.Bodies as bodies;
ghost use Rattle.term_walk.specs.Meant as meaning;

use std::alloc::{AllocError, Global};
use std::marker::Model;
use sv_list::Items;
use sv_terms::Name;
use term_weight::NamePlaces;

/// A name that is bound, the place of what it stands for, and what it hides.
#[derive(Drop)]
pub struct Binding {
    pub name: Name,
    pub place: usize,
    pub hides: Option<usize>,
}

/// The names that `let`, quantifiers and a macro's parameters bind, each with the place of what it
/// stands for; the latest hides those before it.
///
/// Contracts see pairs of a name and its place, the latest last.
#[derive(Drop)]
pub struct Scope {
    bindings: Items<Binding>,
    /// What each name stands for now.
    places: NamePlaces,
}

impl Model for Scope {
    ghost use Rattle.std.specs.Prelude.{List, ℕ};
    ghost use Rattle.term_walk.specs.Scopes.{bound_pairs, IsNameIndex};

    ghost Value = { List (List ℕ × ℕ) };

    ghost view = { λ s. bound_pairs s.bindings };

    ghost invariant = { λ s. IsNameIndex s.bindings s.places };
}

impl Scope {
    /// No names.
    #[tactic(auto, using(crate::proofs::Scoping::scoping))]
    pub fn new(alloc: Global) -> Scope
        ensures { result ≡ [] }
    {
        Scope {
            bindings: Items::new(alloc),
            places: NamePlaces::new(alloc),
        }
    }

    /// How many bindings are in force.
    #[tactic(auto, using(crate::proofs::Scoping::scoping))]
    pub fn len(&self) -> usize
        ensures { result ≡ length self.now }
    {
        self.bindings.len()
    }

    /// The place of what the name stands for. Time is linear in the name, by its hash.
    #[tactic(auto, using(crate::proofs::Scoping::scoping))]
    pub fn latest(&self, name: &Name) -> Option<usize>
        ensures { result ≡ meaning.latest name.now self.now }
    {
        self.places.get(name)
    }

    /// Binds the name.
    #[tactic(auto, using(crate::proofs::Scoping::scoping))]
    pub fn bind(&mut self, alloc: Global, name: Name, place: usize) -> Result<(), AllocError>
        ensures { OnOk result (self.new ≡ self.old ++ (name, place) ∷ []) }
    {
        let hides = self.places.get(&name);
        let key = name.copy(alloc)?;
        let before = self.bindings.len();
        self.bindings.push(Binding { name, place, hides })?;
        match self.places.set(key, Some(place)) {
            Ok(()) => Ok(()),
            Err(error) => {
                self.bindings.truncate(before);
                Err(error)
            }
        }
    }

    /// Leaves the latest binding.
    #[tactic(auto, using(crate::proofs::Scoping::scoping))]
    fn undo(&mut self)
        ensures { self.new ≡ take (length self.old - 1) self.old }
    {
        match self.bindings.pop() {
            Some(
                Binding {
                    name,
                    place: _,
                    hides,
                },
            ) => match self.places.set(name, hides) {
                Ok(()) => {}
                Err(_) => {}
            },
            None => {}
        }
    }

    /// Leaves the bindings behind the first `n`, in time linear in their names.
    #[tactic(auto, using(crate::proofs::Scoping::leaving))]
    pub fn leave(&mut self, n: usize)
        ensures { self.new ≡ take n self.old }
    {
        while self.len() > n {
            self.undo();
        }
    }
}

/// The name under which a parameter stands in the body of a macro: behind a backslash, which no
/// symbol has. Linear.
pub fn parameter_name(alloc: Global, name: &Name) -> Result<Name, AllocError>
    ensures { IfOk result (λ n. n ≡ bodies.parameter_name name.now) }
{
    let mut bytes = Vec::new(alloc);
    bytes.push(b'\\').map_err(|_| AllocError)?;
    bytes
        .extend_from_slice(name.as_bytes())
        .map_err(|_| AllocError)?;
    Name::of(alloc, bytes.as_slice())
}
