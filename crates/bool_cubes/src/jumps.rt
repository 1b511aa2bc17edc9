//! Jumps past alternatives, so that a cube isn't sought one alternative after another.
//!
//! Jumps are of 1, 3, 7, 15 .. steps, as the digits of a number in the skew binary system: a node's is one step and
//! the next two jumps where these are equal, and one step where they aren't. So a node has one jump only, and each
//! node of a chain is reached by jumps and single steps about as many as twice the logarithm of its length.
ghost use Rattle.std.specs.Prelude.{◌≡◌, ◌<◌, IfOk, length};
ghost use Rattle.bool_cubes.specs.Jumps.{AreJumps, HasJumps, IsJump};
ghost use Rattle.bool_cubes.specs.Nodes.{IsPlan};

use crate::node::{CubeNode, NodeKind};
use std::alloc::{AllocError, Global};
use sv_list::Items;
use sv_terms::MOST_CUBES;

/// From a node to an earlier one, by so many steps past so many cubes.
#[derive(Clone, Copy)]
pub struct Jump {
    pub to: usize,
    pub cubes: u64,
    pub steps: usize,
}

/// The jumps of all nodes. Takes time and memory linear in them.
#[tactic(auto, using(crate::proofs::Jumped::jumps_none, crate::proofs::Jumped::jumps_more))]
pub fn all(alloc: Global, nodes: &[CubeNode]) -> Result<Items<Jump>, AllocError>
    requires { IsPlan nodes.now }
    ensures { IfOk result (λ js. HasJumps nodes.now js) }
{
    let mut jumps = Items::new(alloc);
    jumps.reserve(nodes.len())?;
    for at in 0..nodes.len() {
        let jump = from_node(nodes, jumps.as_slice(), at);
        jumps.push(jump)?;
    }
    Ok(jumps)
}

/// The jump of a node behind those of the nodes before it.
fn from_node(nodes: &[CubeNode], jumps: &[Jump], at: usize) -> Jump
    requires plan { IsPlan nodes.now }
    requires at { at < length nodes.now }
    requires jumps { AreJumps nodes.now jumps.now }
    requires before { length jumps.now ≡ at }
    ensures { IsJump nodes.now at result }
{
    let step = step(nodes, at);
    if step.steps == 0 {
        return step;
    }
    let next = jumps[step.to];
    let far = jumps[next.to];
    let cubes = step.cubes + next.cubes + far.cubes;
    if next.steps == far.steps && next.steps > 0 && cubes <= MOST_CUBES {
        return Jump {
            to: far.to,
            cubes,
            steps: step.steps + next.steps + far.steps,
        };
    }
    step
}

/// One step: to the second of two alternatives, past the cubes of the first, or to the first where the second has
/// none. So `(or p (or q r))` is one chain, as is `(or p q r)`. There is no step past too many cubes, nor from a node
/// without alternatives.
fn step(nodes: &[CubeNode], at: usize) -> Jump
    requires plan { IsPlan nodes.now }
    requires at { at < length nodes.now }
    ensures { IsJump nodes.now at result }
{
    let NodeKind::Either(first, second) = &nodes[at].kind else {
        return no_step(at);
    };
    if nodes[*second].cubes == 0 {
        return Jump {
            to: *first,
            cubes: 0,
            steps: 1,
        };
    }
    let cubes = nodes[*first].cubes;
    if cubes > MOST_CUBES {
        return no_step(at);
    }
    Jump {
        to: *second,
        cubes,
        steps: 1,
    }
}

fn no_step(at: usize) -> Jump
    ensures to { result.to ≡ at }
    ensures cubes { result.cubes ≡ 0 }
    ensures steps { result.steps ≡ 0 }
{
    Jump {
        to: at,
        cubes: 0,
        steps: 0,
    }
}
