use literal_forms::Literal;

/// How a node's tree is made of those of earlier nodes, which are named by their places.
#[derive(Drop)]
pub enum NodeKind {
    Always,
    Never,
    One(Literal),
    Both(usize, usize),
    Either(usize, usize),
}

/// A node, with the number of its tree's cubes, 2^64 - 1 where they are more.
#[derive(Drop)]
pub struct CubeNode {
    pub kind: NodeKind,
    pub cubes: u64,
}

/// The nodes of a formula and of its negation.
#[derive(Clone, Copy)]
pub struct NodePair {
    pub holding: usize,
    pub failing: usize,
}

impl NodePair {
    ghost use Rattle.std.specs.Prelude.{◌≡◌};

    /// The sides of the negation.
    pub fn negation(self) -> NodePair
        ensures holding { result.holding ≡ self.failing }
        ensures failing { result.failing ≡ self.holding }
    {
        NodePair {
            holding: self.failing,
            failing: self.holding,
        }
    }
}
