// What a transducer writes at the end of a word, in its description.
ghost use Rattle.std.specs.Prelude.{◌≤◌, length, map};
ghost use Rattle.smt_names.specs.Faults.{Answers};
ghost use Rattle.smt_names.specs.Form.{forms, seen};
ghost use Rattle.sv_terms.specs.declared.limits.TheConstants.{MOST_TRANSDUCER_STATES};
ghost use Rattle.transducer_form.specs.Descriptions as d;

use crate::state::state;
use crate::text::word;
use indexmap::IndexSet;
use sexpr_reader::Sexpr;
use smt_names::CheckFault;
use smt_names::token::{list_items, pair};
use std::alloc::Global;
use sv_list::Items;
use sv_terms::Name;
use sv_word::Word;

/// The words of literals, one after another. Linear.
#[tactic(auto, using(crate::proofs::Joined::joining))]
fn join_words(alloc: Global, parts: &[Sexpr]) -> Result<Word, CheckFault>
    ensures { Answers (d.words_joined (forms (map seen parts.now))) result }
{
    let mut all = Word::new(alloc);
    for part in parts {
        let more = word(alloc, part)?;
        all.append(&more)?;
    }
    Ok(all)
}

/// A state, and what is written there at the end.
fn end(alloc: Global, states: &IndexSet<Name>, part: &Sexpr) -> Result<(u32, Word), CheckFault>
    requires { length states.now.keys ≤ MOST_TRANSDUCER_STATES }
    ensures { Answers (d.end_of states.now.keys (seen part.now)) result }
{
    match pair(part) {
        Some((at, words)) => {
            let at = state(alloc, states, at)?;
            match list_items(words) {
                Some(words) => Ok((at, join_words(alloc, words)?)),
                None => Err(CheckFault::Shape),
            }
        }
        None => Err(CheckFault::Shape),
    }
}

/// All ends, in their order. Linear.
#[tactic(auto, using(crate::proofs::Joined::listing))]
pub(crate) fn ends(
    alloc: Global,
    states: &IndexSet<Name>,
    parts: &[Sexpr],
) -> Result<Items<(u32, Word)>, CheckFault>
    requires { length states.now.keys ≤ MOST_TRANSDUCER_STATES }
    ensures { Answers (d.each (d.end_of states.now.keys) (forms (map seen parts.now))) result }
{
    let mut all = Items::new(alloc);
    for part in parts {
        all.push(end(alloc, states, part)?)?;
    }
    Ok(all)
}
