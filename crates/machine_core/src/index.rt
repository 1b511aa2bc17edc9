ghost use Rattle.std.specs.Prelude.{◌≡◌, ◌<◌, [], length, replicate, slice_get, Some, IfOk, OnOk, OnErr};
ghost use Rattle.machine_core.specs.Places.{add_to};

use std::alloc::{AllocError, Global};
use std::marker::Model;
use sv_list::{Copied, Items};

/// Places in a list, by the row that each belongs to. Contracts see the rows. Memory is linear in the
/// rows and places.
#[derive(Drop)]
pub struct Index {
    rows: Vec<Items<usize>>,
}

impl Model for Index {
    ghost use Rattle.std.specs.Prelude.{List, ℕ};

    ghost Value = { List (List ℕ) };

    ghost view = { λ i. i.rows.items };
}

impl Index {
    /// So many empty rows. Linear in them.
    pub fn new(alloc: Global, rows: u32) -> Result<Index, AllocError>
        ensures { IfOk result (λ i. i ≡ replicate rows []) }
    {
        let mut list = Vec::with_capacity(alloc, rows as usize)?;
        for _row in 0..rows {
            list.push(Items::new(alloc))?;
        }
        Ok(Index { rows: list })
    }

    /// The places of a row, in the order in which they were added. Constant time.
    pub fn row(&self, at: u32) -> &[usize]
        requires { at < length self.now }
        ensures { slice_get self.now at ≡ Some result.now }
    {
        self.rows[at as usize].as_slice()
    }

    /// Adds a place at the end of a row. Amortised constant time.
    pub fn add(&mut self, at: u32, place: usize) -> Result<(), AllocError>
        requires { at < length self.old }
        ensures ok { OnOk result (self.new ≡ add_to at place self.old) }
        ensures err { OnErr result (self.new ≡ self.old) }
    {
        self.rows[at as usize].push(place)
    }
}

impl Copied for Index {
    fn copy(&self, alloc: Global) -> Result<Self, AllocError> {
        let mut rows = Vec::with_capacity(alloc, self.rows.len())?;
        for row in self.rows.as_slice() {
            rows.push(row.copy(alloc)?)?;
        }
        Ok(Index { rows })
    }
}
