use machine_core::Explicit;
use search_hits::Region;
use sv_linear::Row;

/// Machines, rows over whole numbers and what runs cost, where to look for hits, and how many characters
/// a hit may have.
#[derive(Clone, Copy)]
pub struct Question<'a> {
    pub machines: &'a [Explicit],
    pub integers: u32,
    pub rows: &'a [Row],
    pub region: &'a Region,
    pub small: bool,
    pub reach: u64,
}
