// The transducer that a description describes.
ghost use Rattle.std.specs.Prelude.{◌≤◌, length, map};
ghost use Rattle.smt_names.specs.Faults.{Answers};
ghost use Rattle.smt_names.specs.Form.{forms, seen};
ghost use Rattle.transducer_form.specs.Descriptions as d;
ghost use Rattle.transducer_form.specs.Written as w;

use crate::description::{Description, edge_parts};
use crate::ending::ends;
use crate::item::items;
use crate::state::{state, state_names};
use crate::text::character;
use indexmap::IndexSet;
use sexpr_reader::Sexpr;
use smt_names::CheckFault;
use std::alloc::Global;
use sv_list::Items;
use sv_terms::{
    MOST_TRANSDUCER_EDGES, MOST_TRANSDUCER_ENDS, MOST_TRANSDUCER_STATES, Name, TransEdge,
    Transducer,
};

/// An edge between the states of these names. Linear.
fn edge(alloc: Global, states: &IndexSet<Name>, part: &Sexpr) -> Result<TransEdge, CheckFault>
    requires { length states.now.keys ≤ MOST_TRANSDUCER_STATES }
    ensures { Answers (d.edge_of states.now.keys (seen part.now)) result }
{
    match edge_parts(part) {
        Some(parts) => {
            let from = state(alloc, states, parts.from)?;
            let lo = character(alloc, parts.low)?;
            let hi = character(alloc, parts.high)?;
            let to = state(alloc, states, parts.to)?;
            if lo > hi {
                return Err(CheckFault::Transducer);
            }
            let items = items(alloc, parts.items)?;
            Ok(TransEdge {
                from,
                lo,
                hi,
                items,
                to,
            })
        }
        None => Err(CheckFault::Shape),
    }
}

/// All edges, in their order. Linear.
#[tactic(auto, using(crate::proofs::Joined::listing))]
fn edges(
    alloc: Global,
    states: &IndexSet<Name>,
    parts: &[Sexpr],
) -> Result<Items<TransEdge>, CheckFault>
    requires { length states.now.keys ≤ MOST_TRANSDUCER_STATES }
    ensures { Answers (d.each (d.edge_of states.now.keys) (forms (map seen parts.now))) result }
{
    let mut all = Items::new(alloc);
    for part in parts {
        all.push(edge(alloc, states, part)?)?;
    }
    Ok(all)
}

/// The transducer over states of these names.
fn build_over(
    alloc: Global,
    description: &Description<'_>,
    states: &IndexSet<Name>,
) -> Result<Transducer, CheckFault>
    requires names { length states.now.keys ≤ MOST_TRANSDUCER_STATES }
    requires few { length description.now.states.now ≤ MOST_TRANSDUCER_STATES }
    ensures { Answers (d.described_over (w.description_seen description.now) states.now.keys) result }
{
    let start = state(alloc, states, description.start)?;
    let edges = edges(alloc, states, description.edges)?;
    let ends = ends(alloc, states, description.ends)?;
    Ok(Transducer {
        states: description.states.len() as u32,
        start,
        edges,
        ends,
    })
}

/// The transducer that a description describes, or the fault Transducer: a state that stands twice
/// or isn't listed, a literal that isn't one character or stands above the other, a number above
/// 196,607, no state, more than 256 states, 4,096 edges or 4,096 ends. Linear in the text.
pub fn build_transducer(
    alloc: Global,
    description: &Description<'_>,
) -> Result<Transducer, CheckFault>
    ensures { Answers (d.described (w.description_seen description.now)) result }
{
    if description.states.len() > MOST_TRANSDUCER_STATES {
        return Err(CheckFault::Transducer);
    }
    if description.edges.len() > MOST_TRANSDUCER_EDGES {
        return Err(CheckFault::Transducer);
    }
    if description.ends.len() > MOST_TRANSDUCER_ENDS {
        return Err(CheckFault::Transducer);
    }
    let states = state_names(alloc, description.states)?;
    build_over(alloc, description, &states)
}
