//! Whether the forms of atoms stay within 128 bits.
ghost use Rattle.std.specs.Prelude.{◌≡◌, ◌<◌, IfOk, false, length, replicate};
ghost use Rattle.bool_cubes.specs.Marked.{marked, own_steps};
ghost use Rattle.bool_cubes.specs.Nodes.{IsOfEarlier, IsPlan, tree_at};
ghost use Rattle.bool_cubes.specs.Past.{tree_steps};
ghost use Rattle.literal_forms.specs.Past.{IsPlainExactly};

use crate::node::{CubeNode, NodeKind};
use literal_forms::check_atom;
use std::alloc::{AllocError, Global};
use sv_linear::FormFault;
use sv_list::Items;

/// Whether no step of the atoms of a node's tree leaves 128 bits. Each node is looked at once.
#[tactic(auto, using(crate::proofs::Walked::walk_init, crate::proofs::Walked::earlier))]
pub fn tree(alloc: Global, nodes: &[CubeNode], root: usize) -> Result<(), FormFault>
    requires plan { IsPlan nodes.now }
    requires root { root < length nodes.now }
    ensures { IsPlainExactly (tree_steps (tree_at nodes.now root)) result }
{
    let mut i = root + 1;
    let mut marks = no_marks(alloc, i)?;
    marks.set(root, true);
    while i > 0 {
        i -= 1;
        if marks.as_slice()[i] {
            let kind = &nodes[i].kind;
            node(alloc, kind)?;
            mark(kind, &mut marks);
        }
    }
    Ok(())
}

/// Marks of so many nodes, of which none is set.
pub fn no_marks(alloc: Global, count: usize) -> Result<Items<bool>, AllocError>
    ensures { IfOk result (λ m. m ≡ replicate count false) }
{
    Ok(Items::from_vec(vec![in alloc; false; count]?))
}

/// Whether no step of a node's own atom leaves 128 bits.
fn node(alloc: Global, kind: &NodeKind) -> Result<(), FormFault>
    ensures { IsPlainExactly (own_steps kind.now) result }
{
    match kind {
        NodeKind::One(literal) => check_atom(alloc, &literal.atom),
        NodeKind::Always | NodeKind::Never => Ok(()),
        NodeKind::Both(_, _) | NodeKind::Either(_, _) => Ok(()),
    }
}

/// Marks the nodes that a node is made of.
fn mark(kind: &NodeKind, marks: &mut Items<bool>)
    requires { IsOfEarlier (length marks.old) kind.now }
    ensures { marks.new ≡ marked kind.now marks.old }
{
    match kind {
        NodeKind::Both(left, right) => {
            marks.set(*left, true);
            marks.set(*right, true);
        }
        NodeKind::Either(left, right) => {
            marks.set(*left, true);
            marks.set(*right, true);
        }
        NodeKind::Always => {}
        NodeKind::Never => {}
        NodeKind::One(_) => {}
    }
}
