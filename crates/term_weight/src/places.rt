ghost use Rattle.std.specs.Prelude.{◌≡◌, [], None, Some, cond, IfOk, OnOk, OnErr};
ghost use Rattle.term_weight.specs.Places as by_name;
ghost use Rattle.smt_names.specs.Signature.{Name as AnyName, same_name};
ghost use Rattle.term_weight.specs.Weights as w;

use indexmap::IndexMap;
use std::alloc::{AllocError, Global};
use std::marker::Model;
use sv_terms::{Name, Sort};

/// Places by names: of the parameters of a macro, or of what the names in a scope stand for.
///
/// Contracts see pairs of a name and its place, if it has one.
pub struct NamePlaces {
    index: IndexMap<Name, Option<usize>>,
}

// A drop by hand is one call where a derived one is a call for each vector inside.
impl Drop for NamePlaces {
    fn drop(self) {
        let Self { index: _ } = self;
    }
}

impl Model for NamePlaces {
    ghost use Rattle.std.specs.Prelude.{List, ℕ, Option};

    ghost Value = { List (List ℕ × Option ℕ) };

    ghost view = { λ m. m.index.entries };
}

impl NamePlaces {
    /// No places.
    pub fn new(alloc: Global) -> NamePlaces
        ensures { result ≡ [] }
    {
        NamePlaces {
            index: IndexMap::new(alloc),
        }
    }

    /// The place of this name. Time is linear in the name, by its hash.
    #[tactic(auto, using(crate::proofs::Placing::shows))]
    pub fn get(&self, name: &Name) -> Option<usize>
        ensures { result ≡ by_name.shown name.now self.now }
    {
        match self.index.get(name) {
            Some(place) => *place,
            None => None,
        }
    }

    /// Gives the name this place, or none.
    #[tactic(auto, using(crate::proofs::Placing::shows))]
    pub fn set(&mut self, name: Name, place: Option<usize>) -> Result<(), AllocError>
        ensures set { OnOk result ((n : AnyName) → by_name.shown n self.new ≡ cond (same_name name n) place (by_name.shown n self.old)) }
        ensures err { OnErr result (self.new ≡ self.old) }
        ensures absent { OnErr result (by_name.shown name self.old ≡ None) }
    {
        match self.index.insert(name, place) {
            Ok(_) => Ok(()),
            Err(_) => Err(AllocError),
        }
    }

    /// The places of these parameters among them; of equal names the first counts. Linear in the
    /// names.
    #[tactic(auto, using(crate::proofs::Placing::placing))]
    pub fn of(alloc: Global, parameters: &[(Name, Sort)]) -> Result<NamePlaces, AllocError>
        ensures { IfOk result (λ m. (n : AnyName) → by_name.shown n m ≡ w.place_of n parameters.now) }
    {
        let mut places = NamePlaces::new(alloc);
        let mut i = parameters.len();
        while i > 0 {
            i -= 1;
            places.set(parameters[i].0.copy(alloc)?, Some(i))?;
        }
        Ok(places)
    }
}
