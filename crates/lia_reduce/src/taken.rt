use crate::elimination::{Elimination, RowSum};
use crate::weights::Weights;
use farkas_check::System;
use std::alloc::{AllocError, Global};
use sv_list::Items;

/// How often rows of a system are taken for a leaf, and sums of its elimination.
#[derive(Drop)]
pub(crate) struct Taken {
    rows: Weights,
    /// The sums are still to be put onto the rows that they are made of.
    sums: Weights,
}

impl Taken {
    /// Nothing is taken; all is taken up to multiples of the divisor where there is one.
    pub fn new(
        alloc: Global,
        system: &System,
        elimination: &Elimination,
        divisor: Option<i128>,
    ) -> Result<Taken, AllocError> {
        Ok(Taken {
            rows: Weights::new(alloc, system.rows.len(), divisor)?,
            sums: Weights::new(alloc, elimination.sums().len(), divisor)?,
        })
    }

    /// Takes nothing.
    pub fn clear(&mut self) {
        self.rows.clear();
        self.sums.clear();
    }

    /// Takes the row of a sum and the sums that were added to it so often more; false where a number leaves 128 bits.
    pub fn add(&mut self, sum: &RowSum, times: i128) -> bool {
        self.rows.add(sum.row, times) && self.sums.add_each(sum.steps.as_slice(), times)
    }

    /// Takes each of these rows so often more, `times` over; false where a number leaves 128 bits.
    pub fn add_rows(&mut self, rows: &[(u32, i128)], times: i128) -> bool {
        self.rows.add_rows(rows, times)
    }

    /// How often each row is taken once no sum is, and then these branches; `None` where a number leaves 128 bits.
    pub fn multipliers(
        &mut self,
        alloc: Global,
        elimination: &Elimination,
        branches: Items<(u32, i128)>,
    ) -> Result<Option<Items<(u32, i128)>>, AllocError> {
        if !elimination.unfold(&mut self.sums, &mut self.rows) {
            return Ok(None);
        }
        let mut list = self.rows.entries(alloc)?;
        list.append(branches)?;
        Ok(Some(list))
    }
}
