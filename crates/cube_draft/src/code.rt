use std::hash::{Hash, Hasher};
use std::marker::Model;
use sv_list::Items;

/// The code of a term or of an unknown, as a key of a map. Contracts see the list of its numbers.
#[derive(Drop)]
pub struct Code {
    numbers: Items<i128>,
}

impl Model for Code {
    ghost use Rattle.std.specs.Prelude.{List, ℤ};

    ghost Value = { List ℤ };

    ghost view = { λ c. c.numbers };
}

impl Code {
    ghost use Rattle.std.specs.Prelude.{◌≡◌};

    pub fn new(numbers: Items<i128>) -> Code
        ensures { result ≡ numbers }
    {
        Code { numbers }
    }
}

impl PartialEq for Code {
    ghost use Rattle.std.specs.Cmp.{int_eq_equiv, partial_equiv_from_equiv};
    ghost use Rattle.std.specs.Cmp.Lexicographic.{lists_equiv, pointwise};
    ghost use Rattle.std.specs.Ordering.{int_eq};

    ghost eq = { pointwise int_eq };

    ghost laws = { partial_equiv_from_equiv (lists_equiv int_eq_equiv) };

    fn eq(&self, other: &Code) -> bool {
        self.numbers.as_slice() == other.numbers.as_slice()
    }
}

impl Eq for Code {
    ghost use Rattle.std.specs.Cmp.{int_eq_equiv};
    ghost use Rattle.std.specs.Cmp.Lexicographic.{lists_equiv};

    ghost laws = { lists_equiv int_eq_equiv };
}

impl Hash for Code {
    ghost use Rattle.std.specs.Hash as fed;
    ghost use Rattle.std.specs.Cmp.Rules.{comparing, hashing};
    ghost use Rattle.std.proofs.Common.{rules};

    ghost hash_input = { fed.slice fed.i128 };

    ghost respects_eq = { Prim.search (hashing, comparing, rules) };

    fn hash<H: Hasher>(&self, state: &mut H) {
        self.numbers.as_slice().hash(state);
    }
}
