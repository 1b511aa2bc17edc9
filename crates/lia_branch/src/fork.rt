use crate::branch_rows::{none_out_row, some_in_row};
use farkas_check::{System, Tree};
use lia_quick::{at_least_row, at_most_row};
use std::alloc::{AllocError, Global};
use sv_linear::Row;
use sv_list::{Boxed, Items};

/// A split that is due at a node.
#[derive(Drop)]
pub(crate) enum Fork {
    /// The unknown is at most `at`, or at least `at + 1`.
    Unknown { unknown: u32, at: i128 },
    /// No edge of the net out of the states is used, or some edge that enters them from outside is.
    Set { net: u32, states: Items<u32> },
}

impl Fork {
    ghost use Rattle.std.specs.Prelude.{◌≡◌, IfOk};
    ghost use Rattle.farkas_check.specs.Systems.{Constraint};
    ghost use Rattle.sv_linear.specs.Rows.{IsRowWithin};
    ghost use Rattle.lia_branch.specs.Nodes.{IsRowOf};
    ghost use Rattle.lia_branch.specs.Forks.{fork_tree, AreForkSides, IsForkWithin};

    /// The tree that splits so.
    pub(crate) fn tree(self, alloc: Global, first: Tree, second: Tree) -> Result<Tree, AllocError>
        ensures { IfOk result (λ t. t ≡ fork_tree self first second) }
    {
        let first = Boxed::new(alloc, first)?;
        let second = Boxed::new(alloc, second)?;
        match self {
            Fork::Unknown { unknown, at } => Ok(Tree::Split {
                unknown,
                at,
                low: first,
                high: second,
            }),
            Fork::Set { net, states } => Ok(Tree::SetSplit {
                net,
                states,
                none: first,
                some: second,
            }),
        }
    }

    /// The row of the first side.
    pub(crate) fn first_row(&self, alloc: Global, system: &System) -> Result<Row, AllocError>
        requires { IsForkWithin system.now self.now }
        ensures row { (first second : Constraint) → AreForkSides system.now.nets self.now first second → IfOk result (IsRowOf first) }
        ensures within { IfOk result (IsRowWithin system.now.unknowns) }
    {
        match self {
            Fork::Unknown { unknown, at } => at_most_row(alloc, *unknown, *at),
            Fork::Set { net, states } => none_out_row(
                alloc,
                system.unknowns,
                &system.nets.as_slice()[*net as usize],
                states.as_slice(),
            ),
        }
    }

    /// The row of the second side.
    pub(crate) fn second_row(&self, alloc: Global, system: &System) -> Result<Row, AllocError>
        requires { IsForkWithin system.now self.now }
        ensures row { (first second : Constraint) → AreForkSides system.now.nets self.now first second → IfOk result (IsRowOf second) }
        ensures within { IfOk result (IsRowWithin system.now.unknowns) }
    {
        match self {
            Fork::Unknown { unknown, at } => at_least_row(alloc, *unknown, *at + 1),
            Fork::Set { net, states } => some_in_row(
                alloc,
                system.unknowns,
                &system.nets.as_slice()[*net as usize],
                states.as_slice(),
            ),
        }
    }
}
