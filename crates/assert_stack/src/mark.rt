/// How many symbols, assertions and names of assertions there were when a level was pushed.
#[derive(Clone, Copy, Drop)]
pub struct Mark {
    pub symbols: usize,
    pub assertions: usize,
    pub names: usize,
}
