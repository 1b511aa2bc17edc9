/// How the parts of a list are put together.
#[derive(Clone, Copy)]
pub enum JoinKind {
    /// One word of each, in their order.
    Turn,
    /// A word of one at least.
    One,
    /// A word of all.
    All,
}
