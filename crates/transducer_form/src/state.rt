// States by their names, in a transducer's description.
ghost use Rattle.std.specs.Prelude.{◌≡◌, ◌≤◌, true, not, ◌∷◌, ◌++◌, [], length, map, IfOk};
ghost use Rattle.smt_names.specs.Faults.{Answers, made_of};
ghost use Rattle.smt_names.specs.Form.{forms, seen};
ghost use Rattle.smt_names.specs.Signature.{stands_in};
ghost use Rattle.smt_names.specs.Tokens as t;
ghost use Rattle.sv_terms.specs.declared.limits.TheConstants.{MOST_TRANSDUCER_STATES};
ghost use Rattle.transducer_form.specs.Descriptions as d;

use indexmap::IndexSet;
use sexpr_reader::Sexpr;
use smt_names::CheckFault;
use smt_names::token::symbol;
use std::alloc::{AllocError, Global};
use sv_terms::Name;

/// Adds the name, if it is new.
fn is_new(names: &mut IndexSet<Name>, name: Name) -> Result<bool, AllocError>
    ensures answer { IfOk result (λ new. new ≡ not (stands_in names.old.keys name)) }
    ensures added { IfOk result (λ new. new ≡ true → names.new.keys ≡ names.old.keys ++ name ∷ []) }
{
    match names.insert(name) {
        Ok(new) => Ok(new),
        Err(_) => Err(AllocError),
    }
}

/// The names of the states in their order. Linear in them.
#[tactic(auto, using(crate::proofs::States::listing))]
pub(crate) fn state_names(alloc: Global, states: &[Sexpr]) -> Result<IndexSet<Name>, CheckFault>
    ensures { Answers (d.states_behind [] (forms (map seen states.now))) (made_of (λ names. names.keys) result) }
{
    let mut names: IndexSet<Name> = IndexSet::new(alloc);
    for state in states {
        let Some(text) = symbol(state) else {
            return Err(CheckFault::Shape);
        };
        let name = Name::of(alloc, text)?;
        if !is_new(&mut names, name)? {
            return Err(CheckFault::Transducer);
        }
    }
    Ok(names)
}

/// The number of a state: its place among those listed. Time is linear in its name, by its hash.
pub(crate) fn state(alloc: Global, states: &IndexSet<Name>, part: &Sexpr) -> Result<u32, CheckFault>
    requires { length states.now.keys ≤ MOST_TRANSDUCER_STATES }
    ensures { Answers (d.state_at states.now.keys (t.symbol (seen part.now))) result }
{
    match symbol(part) {
        Some(text) => {
            let name = Name::of(alloc, text)?;
            match states.get_index_of(&name) {
                Some(place) => Ok(place as u32),
                None => Err(CheckFault::Transducer),
            }
        }
        None => Err(CheckFault::Shape),
    }
}
