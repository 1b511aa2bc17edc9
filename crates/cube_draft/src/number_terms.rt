//! Terms of sort Int that have a written form.
ghost use Rattle.std.specs.Prelude.{◌≡◌, ◌<◌, length, map};
ghost use Rattle.literal_forms.specs.Linear.{is_linear};
ghost use Rattle.literal_forms.specs.Shapes.{seen, shapes};
ghost use Rattle.cube_draft.specs.Numbers.{joined_from, joined_of, joining_of, linearity_of, one_of, read_of};

use crate::string_terms::{is_string, is_text};
use literal_forms::{Joint, Role, role_of};
use sv_terms::{Op, Sort, Term};

/// Whether a term of sort Int has a written form, and whether an unknown stands in it.
#[derive(Clone, Copy)]
pub enum Linearity {
    /// No unknown stands in it.
    Constant,
    /// An unknown stands in it.
    Variable,
    /// It has no written form.
    Other,
}

/// How a function of sort Int joins what its arguments are.
#[derive(Clone, Copy)]
pub enum Joining {
    Sum,
    Product,
    Length,
    Nothing,
}

/// How a function of sort Int joins what its arguments are. Constant time.
pub fn joining_of(op: Op) -> Joining
    ensures { result ≡ joining_of op }
{
    match role_of(op) {
        Role::Joined(Joint::Sum) | Role::Joined(Joint::Difference) => Joining::Sum,
        Role::Joined(Joint::Product) => Joining::Product,
        Role::Length => Joining::Length,
        Role::Connective
        | Role::Equality
        | Role::Distinct
        | Role::Order(_)
        | Role::Built(_)
        | Role::Test(_) => Joining::Nothing,
    }
}

impl Linearity {
    fn add(self, other: Linearity) -> Linearity
        ensures { result ≡ joined_of Joining.Sum self other }
    {
        match self {
            Linearity::Constant => other,
            Linearity::Variable => match other {
                Linearity::Constant | Linearity::Variable => Linearity::Variable,
                Linearity::Other => Linearity::Other,
            },
            Linearity::Other => Linearity::Other,
        }
    }

    // Of a product one factor at most has an unknown.
    fn multiply(self, other: Linearity) -> Linearity
        ensures { result ≡ joined_of Joining.Product self other }
    {
        match self {
            Linearity::Constant => other,
            Linearity::Variable => match other {
                Linearity::Constant => Linearity::Variable,
                Linearity::Variable | Linearity::Other => Linearity::Other,
            },
            Linearity::Other => Linearity::Other,
        }
    }

    fn join(self, joining: Joining, other: Linearity) -> Linearity
        ensures { result ≡ joined_of joining self other }
    {
        match joining {
            Joining::Sum => self.add(other),
            Joining::Product => self.multiply(other),
            Joining::Length | Joining::Nothing => Linearity::Other,
        }
    }
}

/// What a term of sort Int is: a number, a constant, a length, a sum, a difference, or a product of
/// which one factor at most has an unknown. Linear in the term.
#[cycle(linearity)]
#[tactic(auto, using(literal_forms::specs::Mirrors::mirrors, crate::proofs::Forms::applied_kind))]
fn linear_kind(term: &Term) -> Linearity
    ensures { result ≡ linearity_of (seen term.now) }
{
    match term {
        Term::Number(_) => Linearity::Constant,
        Term::Constant(_, sort) => {
            if *sort == Sort::Int {
                Linearity::Variable
            } else {
                Linearity::Other
            }
        }
        Term::Apply(op, terms) => apply_joining(joining_of(*op), terms.as_slice()),
        _ => Linearity::Other,
    }
}

/// Whether a term of sort Int has a written form. Linear in the term.
#[tactic(auto, using(crate::proofs::Forms::other_kind, crate::proofs::Forms::written_kind))]
pub fn is_linear(term: &Term) -> bool
    ensures { result ≡ is_linear (seen term.now) }
{
    match linear_kind(term) {
        Linearity::Other => false,
        _ => true,
    }
}

#[cycle(linearity)]
#[tactic(auto, using(crate::proofs::Forms::length_not))]
fn apply_joining(joining: Joining, terms: &[Term]) -> Linearity
    ensures { result ≡ read_of joining (shapes (map seen terms.now)) }
{
    if terms.is_empty() {
        return Linearity::Other;
    }
    match joining {
        Joining::Length => {
            if terms.len() == 1 {
                length(&terms[0])
            } else {
                Linearity::Other
            }
        }
        Joining::Sum | Joining::Product => join_all(joining, terms),
        Joining::Nothing => Linearity::Other,
    }
}

// The length of a literal is a number.
fn length(term: &Term) -> Linearity
    ensures { result ≡ one_of (seen term.now) }
{
    if is_text(term) {
        Linearity::Constant
    } else if is_string(term) {
        Linearity::Variable
    } else {
        Linearity::Other
    }
}

// What terms, at least one, are joined from the left.
#[cycle(linearity)]
#[tactic(auto, using(crate::proofs::Forms::joined_first, crate::proofs::Forms::joined_step, crate::proofs::Forms::joined_end))]
fn join_all(joining: Joining, terms: &[Term]) -> Linearity
    requires { 0 < length terms.now }
    ensures { result ≡ joined_from joining (shapes (map seen terms.now)) }
{
    let mut all = linear_kind(&terms[0]);
    for i in 1..terms.len() {
        all = all.join(joining, linear_kind(&terms[i]));
    }
    all
}
