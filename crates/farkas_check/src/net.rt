use sv_list::Items;

/// An edge between two states, taken as often as the value of its unknown says.
#[derive(Clone, Copy)]
pub struct NetEdge {
    pub from: u32,
    pub to: u32,
    pub unknown: u32,
}

/// A graph whose used edges are to be reached from its start.
///
/// States are numbered from 0. Edges may be alike, and may share an unknown.
#[derive(Drop)]
pub struct Net {
    pub states: u32,
    pub start: u32,
    pub edges: Items<NetEdge>,
}
