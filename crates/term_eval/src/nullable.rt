//! Whether the empty word is in a regular expression.
ghost use Rattle.std.specs.Prelude.{IsTrue, ◌↔◌, []};
ghost use Rattle.sv_terms.specs.Language.{In, InAllOf, InOneOf};

use sv_terms::Regex;

/// Whether the empty word is in it.
#[cycle(is_nullable)]
#[tactic(auto, using(crate::proofs::Nullables::nullables))]
pub(crate) fn is_nullable(regex: &Regex) -> bool
    ensures { IsTrue result ↔ In regex.now [] }
{
    match regex {
        Regex::Empty => false,
        Regex::All => true,
        Regex::AnyChar => false,
        Regex::Text(text) => text.len() == 0,
        Regex::Range(_, _) => false,
        Regex::Concat(rs) => all_nullable(rs.as_slice()),
        Regex::Union(rs) => one_nullable(rs.as_slice()),
        Regex::Inter(rs) => all_nullable(rs.as_slice()),
        Regex::Diff(rs) => match rs.as_slice() {
            [] => false,
            [r, rest @ ..] => is_nullable(r) && !one_nullable(rest),
        },
        Regex::Star(_) => true,
        Regex::Plus(r) => is_nullable(r.get()),
        Regex::Opt(_) => true,
        Regex::Comp(r) => !is_nullable(r.get()),
        Regex::Loop(r, i, j) => *i <= *j && (*i == 0 || is_nullable(r.get())),
    }
}

#[cycle(is_nullable)]
#[tactic(auto, using(crate::proofs::Nullables::nullables))]
fn all_nullable(rs: &[Regex]) -> bool
    ensures { IsTrue result ↔ InAllOf In rs.now [] }
{
    for r in rs {
        if !is_nullable(r) {
            return false;
        }
    }
    true
}

#[cycle(is_nullable)]
#[tactic(auto, using(crate::proofs::Nullables::nullables))]
fn one_nullable(rs: &[Regex]) -> bool
    ensures { IsTrue result ↔ InOneOf In rs.now [] }
{
    for r in rs {
        if is_nullable(r) {
            return true;
        }
    }
    false
}
