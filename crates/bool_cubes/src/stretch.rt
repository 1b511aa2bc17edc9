//! Stretches of cubes that hold an atom and its negation: those that share the choices by which they hold both.
ghost use Rattle.std.specs.Prelude.{◌≡◌, ℕ, ◌+◌, ◌<◌, ◌≤◌, ◌++◌, IfOk, List, length};
ghost use Rattle.bool_cubes.specs.Contradictions.{IsContradictory};
ghost use Rattle.bool_cubes.specs.Cubes.{count};
ghost use Rattle.bool_cubes.specs.Held.{AreDead, AreHeld, IsKnown};
ghost use Rattle.bool_cubes.specs.Jumps.{HasJumps};
ghost use Rattle.bool_cubes.specs.Nodes.{IsPlan, tree_at};
ghost use Rattle.bool_cubes.specs.Picking.{cube_at};
ghost use Rattle.bool_cubes.specs.Refusing.{most_numbered};
ghost use Rattle.literal_forms.specs.declared.literal.Literal.{Literal as AnyLiteral};

use crate::jumps::Jump;
use crate::known::Known;
use crate::marks::{hold, is_set};
use crate::node::{CubeNode, NodeKind};
use std::alloc::{AllocError, Global};
use sv_list::Items;

/// How many cubes from this number on hold an atom and its negation, with the literals that are held; where it is
/// none, those of the first cube are held too. Costs the literals of the cube up to the one that is contradicted.
fn scan(
    nodes: &[CubeNode],
    jumps: &[Jump],
    known: &Known,
    root: usize,
    number: u64,
    marks: &mut Items<Option<usize>>,
) -> u64
    requires plan { IsPlan nodes.now }
    requires jumps { HasJumps nodes.now jumps.now }
    requires root { root < length nodes.now }
    requires number { number < count (tree_at nodes.now root) }
    requires most { count (tree_at nodes.now root) ≤ most_numbered }
    ensures within { number + result ≤ count (tree_at nodes.now root) }
    ensures held { result ≡ 0 → (ls : List AnyLiteral) → AreHeld nodes.now ls marks.old → AreHeld nodes.now (ls ++ cube_at (tree_at nodes.now root) number) marks.new }
    ensures stretch { (ls : List AnyLiteral) → AreHeld nodes.now ls marks.old → AreDead nodes.now ls known.now.dead → (d : ℕ) → d < result → IsContradictory (ls ++ cube_at (tree_at nodes.now root) (number + d)) }
{
    let mut at = root;
    let mut left = number;
    loop {
        let node = &nodes[at];
        if is_set(known.dead.as_slice(), at) {
            return node.cubes - left;
        }
        match &node.kind {
            NodeKind::Always => return 0,
            NodeKind::Never => return 0,
            NodeKind::One(literal) => {
                if hold(nodes, known.names.as_slice(), at, literal, marks) {
                    return 1;
                }
                return 0;
            }
            NodeKind::Both(first, second) => {
                let cubes = nodes[*second].cubes;
                let ahead = scan(nodes, jumps, known, *first, left / cubes, marks);
                if ahead > 0 {
                    return ahead * cubes - left % cubes;
                }
                left %= cubes;
                at = *second;
            }
            NodeKind::Either(first, second) => {
                let jump = jumps[at];
                let cubes = nodes[*first].cubes;
                if jump.steps > 0 && jump.cubes <= left {
                    left -= jump.cubes;
                    at = jump.to;
                } else if left < cubes {
                    at = *first;
                } else {
                    left -= cubes;
                    at = *second;
                }
            }
        }
    }
}

/// How many cubes from this number on hold an atom and its negation, those of one stretch. Takes memory and time linear
/// in the nodes.
fn stretch(
    alloc: Global,
    nodes: &[CubeNode],
    jumps: &[Jump],
    known: &Known,
    root: usize,
    number: u64,
) -> Result<u64, AllocError>
    requires plan { IsPlan nodes.now }
    requires jumps { HasJumps nodes.now jumps.now }
    requires known { IsKnown nodes.now root known.now }
    requires root { root < length nodes.now }
    requires number { number < count (tree_at nodes.now root) }
    requires most { count (tree_at nodes.now root) ≤ most_numbered }
    ensures within { IfOk result (λ cubes. number + cubes ≤ count (tree_at nodes.now root)) }
    ensures stretch { IfOk result (λ cubes. (d : ℕ) → d < cubes → IsContradictory (cube_at (tree_at nodes.now root) (number + d))) }
{
    let mut marks = Items::from_slice(alloc, known.forced.as_slice())?;
    Ok(scan(nodes, jumps, known, root, number, &mut marks))
}

/// The same of all stretches, one after another.
#[tactic(auto, using(crate::proofs::Ahead::none_ahead, crate::proofs::Ahead::root_cubes))]
pub fn stretches(
    alloc: Global,
    nodes: &[CubeNode],
    jumps: &[Jump],
    known: &Known,
    root: usize,
    number: u64,
) -> Result<u64, AllocError>
    requires plan { IsPlan nodes.now }
    requires jumps { HasJumps nodes.now jumps.now }
    requires known { IsKnown nodes.now root known.now }
    requires root { root < length nodes.now }
    requires number { number ≤ count (tree_at nodes.now root) }
    requires most { count (tree_at nodes.now root) ≤ most_numbered }
    ensures within { IfOk result (λ cubes. number + cubes ≤ count (tree_at nodes.now root)) }
    ensures stretch { IfOk result (λ cubes. (d : ℕ) → d < cubes → IsContradictory (cube_at (tree_at nodes.now root) (number + d))) }
{
    let all = nodes[root].cubes;
    let mut ahead = 0;
    while number + ahead < all {
        let more = stretch(alloc, nodes, jumps, known, root, number + ahead)?;
        if more == 0 {
            return Ok(ahead);
        }
        ahead += more;
    }
    Ok(ahead)
}
