//! What is known of every cube that doesn't hold an atom and its negation: literals that stand in each of them, and
//! nodes of which each cube contradicts these.
ghost use Rattle.std.specs.Prelude.{◌≡◌, ℕ, ◌<◌, IfOk, List, None, OnOk, true, length, replicate};
ghost use Rattle.bool_cubes.specs.Held.{AreDead, AreHeld, AreMust, IsDead, IsKnown, IsMust};
ghost use Rattle.bool_cubes.specs.Nodes.{IsPlan, tree_at};
ghost use Rattle.bool_cubes.specs.declared.node.NodeKind.TheVariants as kind;
ghost use Rattle.literal_forms.specs.declared.literal.Literal.{Literal as AnyLiteral};

use crate::digest::digest;
use crate::marks::{is_refused, is_set, keep};
use crate::node::{CubeNode, NodeKind};
use crate::past::no_marks;
use std::alloc::{AllocError, Global};
use sv_list::Items;

/// How often what follows from the literals is asked for, at the most.
const ROUNDS: usize = 64;

/// What holds of each cube of a root that doesn't contradict itself.
#[derive(Drop)]
pub struct Known {
    /// Of each node a number, the same for literals whose atoms are written alike.
    pub names: Vec<usize>,
    /// By the number of an atom, the place of a literal that stands in each such cube.
    pub forced: Items<Option<usize>>,
    /// Of each node whether all its cubes contradict these literals.
    pub dead: Items<bool>,
}

/// A number for each node, the same for literals whose atoms are written alike. Takes the time of their digests,
/// and of sorting these.
fn names(alloc: Global, nodes: &[CubeNode]) -> Result<Vec<usize>, AllocError> {
    let mut digests = Vec::new(alloc);
    for place in 0..nodes.len() {
        if let NodeKind::One(literal) = &nodes[place].kind {
            digests.push((digest(&literal.atom), place))?;
        }
    }
    digests.sort()?;
    let mut names = vec![in alloc; 0; nodes.len()]?;
    let mut name: usize = 0;
    let mut last = None;
    for (digest, place) in digests {
        if last.is_some() && last != Some(digest) {
            name = name.saturating_add(1);
        }
        last = Some(digest);
        if let Some(slot) = names.get_mut(place) {
            *slot = name;
        }
    }
    Ok(names)
}

/// Whether each cube of a node contradicts what is marked, from what is known of the nodes before it.
fn is_dead(
    nodes: &[CubeNode],
    names: &[usize],
    marks: &[Option<usize>],
    dead: &[bool],
    at: usize,
) -> bool
    requires plan { IsPlan nodes.now }
    requires at { at < length nodes.now }
    ensures { result ≡ true → (ls : List AnyLiteral) → AreHeld nodes.now ls marks.now → AreDead nodes.now ls dead.now → IsDead ls (tree_at nodes.now at) }
{
    match &nodes[at].kind {
        NodeKind::Always => false,
        NodeKind::Never => true,
        NodeKind::One(literal) => is_refused(nodes, names, marks, at, literal),
        NodeKind::Both(first, second) => is_set(dead, *first) || is_set(dead, *second),
        NodeKind::Either(first, second) => is_set(dead, *first) && is_set(dead, *second),
    }
}

/// Of each node whether all its cubes contradict what is marked. Linear.
fn all_dead(
    alloc: Global,
    nodes: &[CubeNode],
    names: &[usize],
    marks: &[Option<usize>],
) -> Result<Items<bool>, AllocError>
    requires plan { IsPlan nodes.now }
    ensures { IfOk result (λ dead. (ls : List AnyLiteral) → AreHeld nodes.now ls marks.now → AreDead nodes.now ls dead) }
{
    let mut dead = Items::new(alloc);
    dead.reserve(nodes.len())?;
    for at in 0..nodes.len() {
        let none = is_dead(nodes, names, marks, dead.as_slice(), at);
        dead.push(none)?;
    }
    Ok(dead)
}

/// Of a node of which each such cube has a part: marks its literal, or the nodes of which they have parts too.
/// Whether a literal is marked that wasn't.
fn spread(nodes: &[CubeNode], known: &mut Known, must: &mut Items<bool>, at: usize) -> bool
    requires plan { IsPlan nodes.now }
    requires at { at < length nodes.now }
    requires size { length must.old ≡ length nodes.now }
    ensures size { length must.new ≡ length must.old }
    ensures known { (root : ℕ) → IsKnown nodes.now root known.old → AreMust nodes.now root must.old → IsMust (tree_at nodes.now root) (tree_at nodes.now at) → IsKnown nodes.now root known.new × AreMust nodes.now root must.new }
{
    match &nodes[at].kind {
        NodeKind::Always => false,
        NodeKind::Never => false,
        NodeKind::One(_) => keep(known.names.as_slice(), at, &mut known.forced),
        NodeKind::Both(first, second) => {
            must.set(*first, true);
            must.set(*second, true);
            false
        }
        NodeKind::Either(first, second) => {
            if is_set(known.dead.as_slice(), *first) {
                must.set(*second, true);
            } else if is_set(known.dead.as_slice(), *second) {
                must.set(*first, true);
            }
            false
        }
    }
}

/// Marks the literals that stand in each such cube by what is known of them so far. Whether there is a new one. Linear.
fn force(
    alloc: Global,
    nodes: &[CubeNode],
    root: usize,
    known: &mut Known,
) -> Result<bool, AllocError>
    requires plan { IsPlan nodes.now }
    requires root { root < length nodes.now }
    requires known { IsKnown nodes.now root known.old }
    ensures { OnOk result (IsKnown nodes.now root known.new) }
{
    let mut must = no_marks(alloc, nodes.len())?;
    must.set(root, true);
    let mut more = false;
    let mut i = root + 1;
    while i > 0 {
        i -= 1;
        if is_set(must.as_slice(), i) {
            let new = spread(nodes, known, &mut must, i);
            more = more || new;
        }
    }
    Ok(more)
}

/// So many marks of which none is set.
fn no_places(alloc: Global, count: usize) -> Result<Items<Option<usize>>, AllocError>
    ensures { IfOk result (λ m. m ≡ replicate count None) }
{
    Ok(Items::from_vec(vec![in alloc; None; count]?))
}

/// What is known of the cubes of a root. Each round takes linear time, and there is one more only where a literal is
/// new, 64 at the most.
#[tactic(auto, using(crate::proofs::Holding::known_none, crate::proofs::Holding::known_dead))]
pub fn known_of(alloc: Global, nodes: &[CubeNode], root: usize) -> Result<Known, AllocError>
    requires plan { IsPlan nodes.now }
    requires root { root < length nodes.now }
    ensures { IfOk result (λ known. IsKnown nodes.now root known) }
{
    let names = names(alloc, nodes)?;
    let forced = no_places(alloc, nodes.len())?;
    let dead = Items::new(alloc);
    let mut known = Known {
        names,
        forced,
        dead,
    };
    for _ in 0..ROUNDS {
        let more = force(alloc, nodes, root, &mut known)?;
        known.dead = all_dead(
            alloc,
            nodes,
            known.names.as_slice(),
            known.forced.as_slice(),
        )?;
        if !more {
            return Ok(known);
        }
    }
    Ok(known)
}
