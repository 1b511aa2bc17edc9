use crate::lifting::{Reduction, lift_multipliers, push_branch};
use crate::taken::Taken;
use std::alloc::{AllocError, Global};
use sv_list::Items;

/// A row for whose sum others are taken is unfolded once so many leaves name it, for all that follow.
const MANY: u32 = 8;

/// A row of the reduced system, as leaves name it.
#[derive(Drop)]
struct Named {
    leaves: u32,
    /// How often each row of the whole system is taken for it, once it is unfolded.
    unfolded: Option<Items<(u32, i128)>>,
}

/// Takes the leaves of a search in the reduced system to the whole one, with memory that they share.
#[derive(Drop)]
pub struct Lifter {
    named: Vec<Named>,
    /// What is taken of the whole system.
    taken: Taken,
}

impl Lifter {
    /// No leaf is lifted yet. Costs: the rows of both systems.
    pub fn new(alloc: Global, reduction: Reduction) -> Result<Lifter, AllocError> {
        let mut named = Vec::new(alloc);
        for _ in 0..reduction.reduced.sums.len() {
            named.push(Named {
                leaves: 0,
                unfolded: None,
            })?;
        }
        Ok(Lifter {
            named,
            taken: Taken::new(alloc, reduction.system, reduction.elimination, None)?,
        })
    }

    /// The multipliers of a leaf over the rows of the whole system, and then over those of the branches above it, or
    /// `None` where a number leaves 128 bits.
    pub fn lift(
        &mut self,
        alloc: Global,
        reduction: Reduction,
        multipliers: &[(u32, i128)],
    ) -> Result<Option<Items<(u32, i128)>>, AllocError> {
        self.taken.clear();
        let mut branches = Items::new(alloc);
        for (at, times) in multipliers {
            let is_taken = if (*at as usize) < self.named.len() {
                self.take(alloc, reduction, *at, *times)?
            } else {
                push_branch(&mut branches, reduction, *at, *times)?
            };
            if !is_taken {
                return Ok(None);
            }
        }
        self.taken
            .multipliers(alloc, reduction.elimination, branches)
    }

    /// Takes a row of the reduced system so often; false where a number leaves 128 bits.
    fn take(
        &mut self,
        alloc: Global,
        reduction: Reduction,
        row: u32,
        times: i128,
    ) -> Result<bool, AllocError> {
        let at = row as usize;
        let Some(sum) = reduction.reduced.sums.get(at) else {
            return Ok(false);
        };
        if at >= self.named.len() {
            return Ok(false);
        }
        let leaves = self.named[at].leaves.saturating_add(1);
        self.named[at].leaves = leaves;
        if leaves == MANY && !sum.steps.is_empty() {
            self.named[at].unfolded = lift_multipliers(alloc, reduction, &[(row, 1)], None)?;
        }
        match &self.named[at].unfolded {
            Some(rows) => Ok(self.taken.add_rows(rows.as_slice(), times)),
            None => Ok(self.taken.add(sum, times)),
        }
    }
}
