//! Terms of sort String that have a written form.
ghost use Rattle.std.specs.Prelude.{◌≡◌, drop, map};
ghost use Rattle.literal_forms.specs.Linear.{are_strings, is_string};
ghost use Rattle.literal_forms.specs.Shapes.{seen, shapes};
ghost use Rattle.cube_draft.specs.Strings.{build_of, is_replaced, is_text};

use literal_forms::{Build as Built, Role, role_of};
use sv_terms::{Op, Sort, Term};

/// Which occurrences of a word are replaced.
#[derive(Clone, Copy)]
pub enum Occurrences {
    First,
    All,
}

/// What a function builds a string term of.
#[derive(Clone, Copy)]
pub enum PlaceBuild {
    /// Pieces.
    Concat,
    /// A word with a literal for these occurrences of another.
    Replace(Occurrences),
    Nothing,
}

/// What a function builds a string term of. Constant time.
pub fn build_of(op: Op) -> PlaceBuild
    ensures { result ≡ build_of op }
{
    match role_of(op) {
        Role::Built(Built::Concat) => PlaceBuild::Concat,
        Role::Built(Built::First) => PlaceBuild::Replace(Occurrences::First),
        Role::Built(Built::All) => PlaceBuild::Replace(Occurrences::All),
        Role::Connective
        | Role::Equality
        | Role::Distinct
        | Role::Order(_)
        | Role::Joined(_)
        | Role::Length
        | Role::Test(_) => PlaceBuild::Nothing,
    }
}

/// Whether a term is a literal of sort String.
#[tactic(auto, using(literal_forms::specs::Mirrors::mirrors))]
pub fn is_text(term: &Term) -> bool
    ensures { result ≡ is_text (seen term.now) }
{
    match term {
        Term::Text(_) => true,
        _ => false,
    }
}

/// Whether a term of sort String has a written form: a literal, a constant, a concatenation, or a
/// replacement of a literal by a literal. Linear in the term.
#[cycle(strings)]
#[tactic(auto, using(literal_forms::specs::Mirrors::mirrors, crate::proofs::Forms::string_arms))]
pub fn is_string(term: &Term) -> bool
    ensures { result ≡ is_string (seen term.now) }
{
    match term {
        Term::Text(_) => true,
        Term::Constant(_, sort) => *sort == Sort::String,
        Term::Apply(op, terms) => match build_of(*op) {
            PlaceBuild::Concat => !terms.is_empty() && are_strings(terms.as_slice(), 0),
            PlaceBuild::Replace(_) => is_replacement(terms.as_slice()),
            PlaceBuild::Nothing => false,
        },
        _ => false,
    }
}

// Whether these are such a term, a literal and a literal.
#[cycle(strings)]
#[tactic(auto, using(crate::proofs::Forms::replaced_not, crate::proofs::Forms::replaced_three))]
fn is_replacement(terms: &[Term]) -> bool
    ensures { result ≡ is_replaced (shapes (map seen terms.now)) }
{
    if terms.len() != 3 {
        return false;
    }
    is_text(&terms[1]) && is_text(&terms[2]) && is_string(&terms[0])
}

// Whether each term from a place on does.
#[cycle(strings)]
#[tactic(auto, using(crate::proofs::Forms::strings_here, crate::proofs::Forms::strings_not, crate::proofs::Forms::strings_end))]
fn are_strings(terms: &[Term], from: usize) -> bool
    ensures { result ≡ are_strings (shapes (map seen (drop from terms.now))) }
{
    for i in from..terms.len() {
        if !is_string(&terms[i]) {
            return false;
        }
    }
    true
}
