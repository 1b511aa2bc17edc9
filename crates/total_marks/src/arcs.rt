use crate::covering::charge;
use machine_core::Explicit;
use std::alloc::{AllocError, Global};

/// An edge of a machine, or the way from one of its ends to the start of the next machine, between rows of marks.
#[derive(Clone, Copy)]
pub(crate) struct Arc {
    pub from: usize,
    pub to: usize,
    pub cost: u64,
    // the next arc from the same row, and the next one to the same row: its place and 1, or 0
    after_from: usize,
    after_to: usize,
}

/// All arcs, found by the rows that they lead from and by those that they lead to.
pub struct Arcs {
    arcs: Vec<Arc>,
    first_from: Vec<usize>,
    first_to: Vec<usize>,
}

// A drop by hand is one call where a derived one is a call for each vector inside.
impl Drop for Arcs {
    fn drop(self) {
        let Self {
            arcs: _,
            first_from: _,
            first_to: _,
        } = self;
    }
}

// What stands at the row, where `new` stands from now on.
fn replace_row(first: &mut Vec<usize>, row: usize, new: usize) -> usize {
    let Some(place) = first.get_mut(row) else {
        return 0;
    };
    let old = *place;
    *place = new;
    old
}

impl Arcs {
    /// The arcs of the machines, each of which has `states` of the `rows`. Linear in all of them.
    pub fn of(
        alloc: Global,
        machines: &[Explicit],
        states: usize,
        rows: usize,
    ) -> Result<Arcs, AllocError> {
        let mut all = Arcs::none(alloc, rows)?;
        let mut base = 0usize;
        for machine in machines {
            let next = base.saturating_add(states);
            all.add_machine(machine, base, next)?;
            base = next;
        }
        Ok(all)
    }

    // No arc between so many rows.
    fn none(alloc: Global, rows: usize) -> Result<Arcs, AllocError> {
        Ok(Arcs {
            arcs: Vec::new(alloc),
            first_from: vec![in alloc; 0; rows]?,
            first_to: vec![in alloc; 0; rows]?,
        })
    }

    // The arcs of the machine whose rows begin at `base`, and those of the next one at `next`.
    fn add_machine(
        &mut self,
        machine: &Explicit,
        base: usize,
        next: usize,
    ) -> Result<(), AllocError> {
        self.add_edges(machine, base)?;
        self.add_ends(machine, base, next)
    }

    fn add_edges(&mut self, machine: &Explicit, base: usize) -> Result<(), AllocError> {
        for edge in machine.edges() {
            let from = base.saturating_add(edge.from as usize);
            let to = base.saturating_add(edge.to as usize);
            self.add(from, to, charge(&edge.cost))?;
        }
        Ok(())
    }

    fn add_ends(&mut self, machine: &Explicit, base: usize, next: usize) -> Result<(), AllocError> {
        for end in machine.finals() {
            let from = base.saturating_add(end.at as usize);
            self.add(from, next, charge(&end.cost))?;
        }
        Ok(())
    }

    fn add(&mut self, from: usize, to: usize, cost: u64) -> Result<(), AllocError> {
        let place = self.arcs.len().saturating_add(1);
        let after_from = replace_row(&mut self.first_from, from, place);
        let after_to = replace_row(&mut self.first_to, to, place);
        self.arcs.push(Arc {
            from,
            to,
            cost,
            after_from,
            after_to,
        })?;
        Ok(())
    }

    /// How many arcs there are.
    pub(crate) fn count(&self) -> usize {
        self.arcs.len()
    }

    /// The first arc from a row.
    pub(crate) fn from(&self, row: usize) -> Option<Arc> {
        self.at(*self.first_from.get(row)?)
    }

    /// The first arc to a row.
    pub(crate) fn to(&self, row: usize) -> Option<Arc> {
        self.at(*self.first_to.get(row)?)
    }

    /// The next arc from the same row.
    pub(crate) fn next_from(&self, arc: Arc) -> Option<Arc> {
        self.at(arc.after_from)
    }

    /// The next arc to the same row.
    pub(crate) fn next_to(&self, arc: Arc) -> Option<Arc> {
        self.at(arc.after_to)
    }

    fn at(&self, number: usize) -> Option<Arc> {
        self.arcs.get(number.checked_sub(1)?).copied()
    }
}
