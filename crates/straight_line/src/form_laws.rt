//! Laws of what flat cubes are made of. Each is a function without a body, whose clause is the law.
ghost use Rattle.straight_line.specs.FormLaws.{NamesAreApart, NamesAreSorted, TransducersAreFormed};

/// The transducers of a flat cube are formed where those of its cube's literals are.
#[tactic(auto, using(crate::proofs::Formed::transducers_formed))]
pub fn transducers_are_formed()
    ensures { TransducersAreFormed }
{}

/// No name stands twice in a flat cube where each name of its cube's literals has one sort.
#[tactic(auto, using(crate::proofs::Called::names_apart))]
pub fn names_are_apart()
    ensures { NamesAreApart }
{}

/// The names of a flat cube have the sorts that they have in its cube's literals, where each name has one: those of
/// variables String, of integer constants Int, of truths Bool.
pub fn names_are_sorted()
    ensures { NamesAreSorted }
{}
