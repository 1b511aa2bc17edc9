use crate::net::Net;
use sv_linear::Row;
use sv_list::Items;

/// Rows that whole numbers are to meet, and nets that they are to join.
///
/// `unknowns` is the number of unknowns; rows and edges name them from 0 on.
#[derive(Drop)]
pub struct System {
    pub unknowns: u32,
    pub rows: Items<Row>,
    pub nets: Items<Net>,
}
