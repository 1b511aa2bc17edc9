use farkas_check::{System, Tree};

/// What shows that no runs and no whole numbers meet the rows.
#[derive(Drop)]
pub enum Closing {
    /// This machine has no run.
    Empty(u32),
    /// The tree closes the system without the row for reach.
    Tree(System, Tree),
    /// The region would hold every solution of the rows, and holds none.
    Box,
}
