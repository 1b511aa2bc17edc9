ghost use Rattle.std.specs.Prelude.{IsTrue, ◌↔◌};
ghost use Rattle.farkas_check.specs.Systems.{HasNoSolution};
ghost use Rattle.farkas_check.specs.Branches.{node_rows};
ghost use Rattle.farkas_check.specs.Closings.{Closes, ClosesRows};
ghost use Rattle.farkas_check.specs.Fitting.{SumsFit, RowsFit};

use crate::above::Above;
use crate::branch::{Branch, contains};
use crate::leaf::Leaf;
use crate::rules::{is_divisor, is_farkas};
use crate::system::System;
use crate::tree::Tree;

/// Whether the tree closes the system: no leaf is open, each node meets its rule, and no sum leaves 128 bits.
///
/// A sum leaves 128 bits where a product of a multiplier and a coefficient, a partial sum over the
/// multipliers in their order, or the constant of a branch's row does. Where the tree closes the system, no
/// whole numbers meet its rows and join its nets. Takes no memory; the call stack grows with the depth of
/// the tree.
pub fn closes(system: &System, tree: &Tree) -> bool
    ensures exact { IsTrue result ↔ (Closes system.now tree.now × SumsFit system.now tree.now) }
    ensures sound { Closes system.now tree.now → HasNoSolution system.now }
{
    closes_below(tree, system, &Above::Top)
}

fn closes_below(tree: &Tree, system: &System, above: &Above) -> bool
    ensures { IsTrue result ↔ (ClosesRows system.now.nets (node_rows system.now above.now) tree.now × RowsFit system.now.nets (node_rows system.now above.now) tree.now) }
{
    match tree {
        Tree::Split {
            unknown,
            at,
            low,
            high,
        } => {
            let Some(minus) = at.checked_neg() else {
                return false;
            };
            let Some(next) = at.checked_add(1) else {
                return false;
            };
            let below = Branch::AtMost {
                unknown: *unknown,
                constant: minus,
            };
            let beyond = Branch::AtLeast {
                unknown: *unknown,
                constant: next,
            };
            closes_below(low.get(), system, &Above::More(below, &*above))
                && closes_below(high.get(), system, &Above::More(beyond, &*above))
        }
        Tree::SetSplit {
            net,
            states,
            none,
            some,
        } => {
            let Some(cut) = system.nets.get(*net as usize) else {
                return false;
            };
            let set = states.as_slice();
            if contains(set, cut.start) {
                return false;
            }
            let out = Branch::NoneOut { net: cut, set };
            let entering = Branch::SomeIn { net: cut, set };
            closes_below(none.get(), system, &Above::More(out, &*above))
                && closes_below(some.get(), system, &Above::More(entering, &*above))
        }
        Tree::Farkas { multipliers } => is_farkas(&Leaf {
            rows: system.rows.as_slice(),
            above: &*above,
            multipliers: multipliers.as_slice(),
        }),
        Tree::Divisor {
            multipliers,
            divisor,
        } => is_divisor(
            &Leaf {
                rows: system.rows.as_slice(),
                above: &*above,
                multipliers: multipliers.as_slice(),
            },
            *divisor,
        ),
        Tree::Open => false,
    }
}
