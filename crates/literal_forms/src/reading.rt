//! How functions are read in linear forms.
ghost use Rattle.std.specs.Prelude.{◌≡◌};
ghost use Rattle.literal_forms.specs.Linear.{reading_of};
ghost use Rattle.literal_forms.specs.Past.{relation_of};

use crate::roles::{Joint, Role, role_of};
use sv_terms::Op;

/// The form of a function: joined of those of its arguments, a length, or an unknown as a whole.
#[derive(Clone, Copy)]
pub enum Reading {
    Joined(Joint),
    Length,
    Whole,
}

/// Whether a function compares two terms.
#[derive(Clone, Copy)]
pub enum Relation {
    Equality,
    Order,
    Neither,
}

pub fn read(op: Op) -> Reading
    ensures { result ≡ reading_of op }
{
    match role_of(op) {
        Role::Joined(joint) => Reading::Joined(joint),
        Role::Length => Reading::Length,
        Role::Connective
        | Role::Equality
        | Role::Distinct
        | Role::Order(_)
        | Role::Built(_)
        | Role::Test(_) => Reading::Whole,
    }
}

pub fn relate(op: Op) -> Relation
    ensures { result ≡ relation_of op }
{
    match role_of(op) {
        Role::Equality => Relation::Equality,
        Role::Order(_) => Relation::Order,
        Role::Connective
        | Role::Distinct
        | Role::Joined(_)
        | Role::Length
        | Role::Built(_)
        | Role::Test(_) => Relation::Neither,
    }
}
