//! Trees over one system: each rule met, and just not met.
use crate::systems::{Entries, rows_of};
use farkas_check::{Net, NetEdge, System, Tree, closes};
use std::alloc::{AllocError, Global};
use std::test::Fail;
use sv_linear::RowKind;
use sv_list::{Boxed, Items};

const MAX: i128 = i128::MAX;

/// The rows over x and y. The rows of branches come behind them.
const ROWS: [Entries; 12] = [
    (RowKind::Le, 1, -2, 0),
    (RowKind::Le, 0, 1, 0),
    (RowKind::Eq, -1, 2, -2),
    (RowKind::Eq, -3, 3, 0),
    (RowKind::Le, -5, 1, 0),
    (RowKind::Le, 1, 0, MAX),
    (RowKind::Le, 1, 0, -MAX),
    (RowKind::Le, MAX, 0, 0),
    (RowKind::Le, 1, 0, 0),
    (RowKind::Eq, 0, 0, 0),
    (RowKind::Le, -1, 2, 0),
    (RowKind::Le, 1, 0, -1),
];

/// An edge that x counts, and a loop at a state that no edge enters from outside, which y counts.
const EDGES: [NetEdge; 2] = [
    NetEdge {
        from: 0,
        to: 1,
        unknown: 0,
    },
    NetEdge {
        from: 2,
        to: 2,
        unknown: 1,
    },
];

fn nets_of_edges(alloc: Global) -> Result<Items<Net>, AllocError> {
    let edges = Items::from_slice(alloc, EDGES.as_slice())?;
    let mut nets = Items::new(alloc);
    nets.push(Net {
        states: 3,
        start: 0,
        edges,
    })?;
    Ok(nets)
}

fn system_of(alloc: Global) -> Result<System, Fail> {
    let rows = rows_of(alloc, ROWS.as_slice())?;
    let nets = nets_of_edges(alloc)?;
    Ok(System {
        unknowns: 2,
        rows,
        nets,
    })
}

/// Whether the tree that was made closes the system.
fn is_closed(alloc: Global, tree: Result<Tree, AllocError>) -> Result<bool, Fail> {
    let system = system_of(alloc)?;
    let tree = tree?;
    Ok(closes(&system, &tree))
}

/// A sum of rows, and a divisor of it where one is given.
fn leaf(
    alloc: Global,
    divisor: Option<i128>,
    multipliers: &[(u32, i128)],
) -> Result<Tree, AllocError> {
    let multipliers = Items::from_slice(alloc, multipliers)?;
    match divisor {
        None => Ok(Tree::Farkas { multipliers }),
        Some(divisor) => Ok(Tree::Divisor {
            multipliers,
            divisor,
        }),
    }
}

fn split(alloc: Global, unknown: u32, at: i128, low: Tree, high: Tree) -> Result<Tree, AllocError> {
    Ok(Tree::Split {
        unknown,
        at,
        low: Boxed::new(alloc, low)?,
        high: Boxed::new(alloc, high)?,
    })
}

/// Divisors and multipliers, and whether they close the system.
const LEAVES: [(Option<i128>, [(u32, i128); 2], bool); 21] = [
    (None, [(0, 1), (1, 2)], true),
    (None, [(0, 1), (1, 1)], false),
    (None, [(1, 3), (3, -1)], true),
    (None, [(3, 1), (4, -3)], false),
    (None, [(1, 2), (0, 1)], false),
    (None, [(8, 1), (8, 0)], false),
    (None, [(8, 1), (12, 0)], false),
    (None, [(0, 0), (1, 0)], false),
    (None, [(5, 1), (6, 1)], true),
    (None, [(5, 2), (6, 2)], false),
    (None, [(2, 0), (7, 1)], true),
    (None, [(7, 1), (8, 1)], false),
    (Some(2), [(2, 1), (9, 1)], true),
    (Some(1), [(2, 1), (9, 1)], false),
    (Some(3), [(2, 1), (9, 1)], false),
    (Some(2), [(2, 2), (9, 1)], false),
    (Some(-2), [(2, 1), (9, 1)], false),
    (Some(0), [(2, 1), (9, 1)], false),
    (Some(2), [(1, 2), (2, 1)], false),
    (Some(2), [(2, 1), (3, 2)], true),
    (Some(2), [(3, 2), (2, 1)], false),
];

#[test]
fn leaves(rt: HostRuntime) -> Result<(), Fail> {
    for (divisor, multipliers, closed) in LEAVES.as_slice() {
        let tree = leaf(rt.alloc(), *divisor, multipliers.as_slice());
        assert!(rt; is_closed(rt.alloc(), tree)? == *closed);
    }
    Ok(())
}

/// The row with the multiplier 1 and twice the bound of the split, or an open leaf.
fn beside(alloc: Global, row: Option<u32>) -> Result<Tree, AllocError> {
    match row {
        Some(row) => leaf(alloc, None, &[(row, 1), (12, 2)]),
        None => Ok(Tree::Open),
    }
}

/// A split with a leaf on each side, by these rows.
fn split_by(
    alloc: Global,
    unknown: u32,
    at: i128,
    low: u32,
    high: Option<u32>,
) -> Result<Tree, AllocError> {
    let low = beside(alloc, Some(low))?;
    let high = beside(alloc, high)?;
    split(alloc, unknown, at, low, high)
}

/// Twice x is 1, but either x is at most 0, or it is at least 1.
#[test]
fn splits(rt: HostRuntime) -> Result<(), Fail> {
    for (unknown, at, low, high, closed) in [
        (0, 0, 0, Some(10), true),
        (0, 1, 0, Some(10), false),
        (0, -1, 0, Some(10), false),
        (1, 0, 0, Some(10), false),
        (2, 0, 0, Some(10), false),
        (0, 0, 0, Some(0), false),
        (0, 0, 10, Some(10), false),
        (0, MAX, 0, Some(10), false),
        (0, i128::MIN, 0, Some(10), false),
        (0, 0, 0, None, false),
    ] {
        let tree = split_by(rt.alloc(), unknown, at, low, high);
        assert!(rt; is_closed(rt.alloc(), tree)? == closed);
    }
    Ok(())
}

/// A split by whether the states of the net are used.
fn set_split(alloc: Global, net: u32, states: &[u32]) -> Result<Tree, AllocError> {
    let none = leaf(alloc, None, &[(11, 1), (12, 1)])?;
    let some = leaf(alloc, None, &[(12, 1)])?;
    Ok(Tree::SetSplit {
        net,
        states: Items::from_slice(alloc, states)?,
        none: Boxed::new(alloc, none)?,
        some: Boxed::new(alloc, some)?,
    })
}

/// The loop is used, but no edge enters it.
#[test]
fn set_splits(rt: HostRuntime) -> Result<(), Fail> {
    for (net, states, closed) in [
        (0, [2, 2], true),
        (0, [0, 2], false),
        (0, [1, 1], false),
        (0, [2, 1], false),
        (1, [2, 2], false),
    ] {
        let tree = set_split(rt.alloc(), net, &states);
        assert!(rt; is_closed(rt.alloc(), tree)? == closed);
    }
    Ok(())
}

/// The tree and a leaf beside one another, the tree on the low side at even depths.
fn lean(alloc: Global, tree: Tree, depth: u32) -> Result<Tree, AllocError> {
    let other = leaf(alloc, None, &[(8, 1)])?;
    if depth % 2 == 0 {
        split(alloc, 0, i128::from(depth), tree, other)
    } else {
        split(alloc, 0, i128::from(depth), other, tree)
    }
}

/// A tree of 2,000 splits, each below the next one.
fn deep_tree(alloc: Global) -> Result<Tree, AllocError> {
    let mut tree = leaf(alloc, None, &[(8, 1), (12, 0), (2011, 0)])?;
    for depth in 0..2000u32 {
        tree = lean(alloc, tree, depth)?;
    }
    Ok(tree)
}

#[test]
fn a_deep_tree(rt: HostRuntime) -> Result<(), Fail> {
    assert!(rt; is_closed(rt.alloc(), deep_tree(rt.alloc()))?);
    Ok(())
}
