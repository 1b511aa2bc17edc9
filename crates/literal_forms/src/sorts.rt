//! The sort of a term, by its head.
ghost use Rattle.std.specs.Prelude.{◌≡◌};
ghost use Rattle.literal_forms.specs.Shapes.{head_sort, seen};

use sv_terms::{Sort, Term};

/// The sort of a term whose functions stand at arguments of their ranks, by its head.
#[tactic(auto, using(crate::proofs::Heads::heads))]
pub fn head_sort(term: &Term) -> Sort
    ensures { result ≡ head_sort (seen term.now) }
{
    term.sort()
}
