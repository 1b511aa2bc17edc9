ghost use Rattle.std.specs.Prelude.{◌≡◌, pos, negsuc, neg_ℤ, nat_eq, ◌&&◌, not};
ghost use Rattle.farkas_check.specs.Closings.{contains_number, edges_out, edges_in};
ghost use Rattle.sv_linear.specs.Terms.{coefficient};

use crate::net::{Net, NetEdge};

/// A row that a branch of a tree adds, at most 0.
#[derive(Drop)]
pub enum Branch<'a> {
    /// The unknown is at most some number: its negation is the constant.
    AtMost { unknown: u32, constant: i128 },
    /// The unknown is at least the constant.
    AtLeast { unknown: u32, constant: i128 },
    /// No edge of the net out of the set is used.
    NoneOut { net: &'a Net, set: &'a [u32] },
    /// Some edge of the net into the set, from outside, is used.
    SomeIn { net: &'a Net, set: &'a [u32] },
}

impl Branch<'_> {
    ghost use Rattle.std.specs.Prelude.{◌≡◌};
    ghost use Rattle.farkas_check.specs.Branches.{constraint_of_branch};
    ghost use Rattle.farkas_check.specs.Closings.{coefficient_of};

    /// The constant of the row.
    pub fn constant(&self) -> i128
        ensures { result ≡ (constraint_of_branch self.now).constant }
    {
        match self {
            Branch::AtMost { constant, .. } => *constant,
            Branch::AtLeast { constant, .. } => *constant,
            Branch::NoneOut { .. } => 0,
            Branch::SomeIn { .. } => 1,
        }
    }

    /// The coefficient of the unknown in the row. Linear in the edges and the set where the row is of a net.
    pub fn coefficient(&self, unknown: u32) -> i128
        ensures { result ≡ coefficient_of unknown (constraint_of_branch self.now) }
    {
        match self {
            Branch::AtMost { unknown: own, .. } => if *own == unknown { 1 } else { 0 },
            Branch::AtLeast { unknown: own, .. } => if *own == unknown { -1 } else { 0 },
            Branch::NoneOut { net, set } => count_out(net.edges.as_slice(), set, unknown) as i128,
            Branch::SomeIn { net, set } => -(count_in(net.edges.as_slice(), set, unknown) as i128),
        }
    }
}

pub(crate) fn contains(set: &[u32], state: u32) -> bool
    ensures { result ≡ contains_number state set.now }
{
    for member in set {
        if *member == state {
            return true;
        }
    }
    false
}

/// How many edges of this unknown lead out of a state of the set.
fn count_out(edges: &[NetEdge], set: &[u32], unknown: u32) -> u64
    ensures { coefficient unknown (edges_out set.now edges.now (pos 1)) ≡ pos result }
{
    let mut count = 0;
    for edge in edges {
        if leads_out(*edge, set, unknown) {
            count += 1;
        }
    }
    count
}

/// How many edges of this unknown enter the set from outside.
fn count_in(edges: &[NetEdge], set: &[u32], unknown: u32) -> u64
    ensures { coefficient unknown (edges_in set.now edges.now (negsuc 0)) ≡ neg_ℤ (pos result) }
{
    let mut count = 0;
    for edge in edges {
        if leads_in(*edge, set, unknown) {
            count += 1;
        }
    }
    count
}

fn leads_out(edge: NetEdge, set: &[u32], unknown: u32) -> bool
    ensures { result ≡ (nat_eq edge.unknown unknown && contains_number edge.«from» set.now) }
{
    edge.unknown == unknown && contains(set, edge.from)
}

fn leads_in(edge: NetEdge, set: &[u32], unknown: u32) -> bool
    ensures { result ≡ (nat_eq edge.unknown unknown && (contains_number edge.to set.now && not (contains_number edge.«from» set.now))) }
{
    edge.unknown == unknown && (contains(set, edge.to) && !contains(set, edge.from))
}
