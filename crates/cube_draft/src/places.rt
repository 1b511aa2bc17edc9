ghost use Rattle.std.specs.Prelude.{◌≡◌, [], ◌∷◌, ◌++◌, None, OnOk};
ghost use Rattle.std.specs.Map.{lookup};
ghost use Rattle.std.specs.Ordering.{int_eq};
ghost use Rattle.std.specs.Cmp.Lexicographic.{pointwise};

use crate::code::Code;
use indexmap::IndexMap;
use std::alloc::{AllocError, Global};
use std::marker::Model;

/// Numbers by codes: the places of terms, or the numbers of unknowns.
///
/// Contracts see the list of pairs of a code and its number, in the order in which they came; no code
/// stands twice.
#[derive(Drop)]
pub struct CodeNumbers {
    entries: IndexMap<Code, u32>,
}

impl Model for CodeNumbers {
    ghost use Rattle.std.specs.Prelude.{List, ℕ, ℤ};

    ghost Value = { List (List ℤ × ℕ) };

    ghost view = { λ m. m.entries.entries };
}

impl CodeNumbers {
    /// No codes. Takes no memory.
    pub fn new(alloc: Global) -> CodeNumbers
        ensures { result ≡ [] }
    {
        CodeNumbers {
            entries: IndexMap::new(alloc),
        }
    }

    /// The number of a code. Time is linear in the code, by its hash.
    pub fn get(&self, code: &Code) -> Option<u32>
        ensures { result ≡ lookup (pointwise int_eq code.now) self.now }
    {
        self.entries.get(code).copied()
    }

    /// Gives a new code its number. Time is linear in the code, but for the moves of a growing map.
    #[tactic(auto, using(crate::proofs::Declaring::declaring))]
    pub fn declare(&mut self, code: Code, number: u32) -> Result<(), AllocError>
        requires { lookup (pointwise int_eq code) self.old ≡ None }
        ensures { OnOk result (self.new ≡ self.old ++ (code, number) ∷ []) }
    {
        match self.entries.insert(code, number) {
            Ok(_) => Ok(()),
            Err(_) => Err(AllocError),
        }
    }
}
