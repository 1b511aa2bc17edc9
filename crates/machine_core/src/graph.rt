ghost use Rattle.std.specs.Prelude.{◌<◌};
ghost use Rattle.machine_core.specs.Edges.{AreEdgesAndEnds};

use crate::edge::Edge;
use crate::end::End;
use sv_list::Items;

/// What contracts see of an [`Explicit`](crate::Explicit): the number of states, of which 0 is the
/// start, and the edges and ends in the order in which they were added.
#[derive(Drop)]
pub struct Graph {
    pub states: u32,
    pub registers: usize,
    pub edges: Items<Edge>,
    pub ends: Items<End>,
    pub ghost started: { 0 < states },
    pub ghost formed: { AreEdgesAndEnds states registers edges ends },
}
