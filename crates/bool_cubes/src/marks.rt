//! Literals that are held, marked by the number of their atom.
ghost use Rattle.std.specs.Prelude.{◌≡◌, ◌⊎◌, ℕ, ◌<◌, ◌++◌, ◌∷◌, [], List, Some, true, length, slice_get, slice_set};
ghost use Rattle.bool_cubes.specs.Contradictions.{IsContradictory};
ghost use Rattle.bool_cubes.specs.Held.{AreHeld, IsOpposed};
ghost use Rattle.bool_cubes.specs.Nodes.{IsPlan, tree_at};
ghost use Rattle.bool_cubes.specs.Trees.{one};
ghost use Rattle.literal_forms.specs.declared.literal.Literal.{Literal as AnyLiteral};

use crate::node::{CubeNode, NodeKind};
use literal_forms::Literal;
use sv_list::Items;

/// Whether a place is marked.
pub fn is_set(marks: &[bool], at: usize) -> bool
    ensures { result ≡ true → slice_get marks.now at ≡ Some true }
{
    match marks.get(at) {
        Some(mark) => *mark,
        None => false,
    }
}

/// Whether the node at this place is the negation of the literal.
fn is_negation(nodes: &[CubeNode], place: usize, literal: &Literal) -> bool
    requires plan { IsPlan nodes.now }
    ensures { result ≡ true → IsOpposed (tree_at nodes.now place) literal.now }
{
    if place >= nodes.len() {
        return false;
    }
    match &nodes[place].kind {
        NodeKind::One(other) => {
            other.positive != literal.positive && other.atom.same(&literal.atom)
        }
        NodeKind::Always | NodeKind::Never => false,
        NodeKind::Both(_, _) | NodeKind::Either(_, _) => false,
    }
}

/// Whether the negation of this node's literal is marked.
pub fn is_refused(
    nodes: &[CubeNode],
    names: &[usize],
    marks: &[Option<usize>],
    at: usize,
    literal: &Literal,
) -> bool
    requires plan { IsPlan nodes.now }
    ensures { result ≡ true → (ls : List AnyLiteral) → AreHeld nodes.now ls marks.now → IsContradictory (ls ++ literal.now ∷ []) }
{
    let Some(name) = names.get(at) else {
        return false;
    };
    if *name >= marks.len() {
        return false;
    }
    match marks[*name] {
        None => false,
        Some(place) => is_negation(nodes, place, literal),
    }
}

/// Marks the literal of this node where its atom has no mark yet.
pub fn keep(names: &[usize], at: usize, marks: &mut Items<Option<usize>>) -> bool
    ensures { (marks.new ≡ marks.old) ⊎ ((i : ℕ) × (i < length marks.old) × (marks.new ≡ slice_set marks.old i (Some at))) }
{
    let Some(name) = names.get(at) else {
        return false;
    };
    if *name >= marks.len() || marks.as_slice()[*name].is_some() {
        return false;
    }
    marks.set(*name, Some(at));
    true
}

/// Holds the literal of this node too. Whether its negation is held.
pub fn hold(
    nodes: &[CubeNode],
    names: &[usize],
    at: usize,
    literal: &Literal,
    marks: &mut Items<Option<usize>>,
) -> bool
    requires plan { IsPlan nodes.now }
    requires literal { tree_at nodes.now at ≡ one literal.now }
    ensures refused { result ≡ true → (ls : List AnyLiteral) → AreHeld nodes.now ls marks.old → IsContradictory (ls ++ literal.now ∷ []) }
    ensures held { (ls : List AnyLiteral) → AreHeld nodes.now ls marks.old → AreHeld nodes.now (ls ++ literal.now ∷ []) marks.new }
{
    if is_refused(nodes, names, marks.as_slice(), at, literal) {
        return true;
    }
    keep(names, at, marks);
    false
}
