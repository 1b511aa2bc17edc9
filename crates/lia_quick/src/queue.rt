use std::alloc::{AllocError, Global};
use sv_linear::Row;

/// Rows with more terms than this are looked at when no shorter one waits.
const SHORT: usize = 8;

/// Rows that are to be looked at, each once: the short ones first, and else in the order in which they came.
pub(crate) struct Queue {
    waits: Vec<bool>,
    is_long: Vec<bool>,
    short: Line,
    long: Line,
}

// A drop by hand is one call where a derived one is a call for each vector inside.
impl Drop for Queue {
    fn drop(self) {
        let Self {
            waits: _,
            is_long: _,
            short: _,
            long: _,
        } = self;
    }
}

/// Some rows in their order, of which so many are done.
#[derive(Drop)]
struct Line {
    rows: Vec<usize>,
    done: usize,
}

impl Line {
    fn next(&mut self) -> Option<usize> {
        if self.done < self.rows.len() {
            let row = self.rows[self.done];
            self.done += 1;
            Some(row)
        } else {
            self.clear();
            None
        }
    }

    fn clear(&mut self) {
        self.rows.clear();
        self.done = 0;
    }
}

impl Queue {
    pub fn new(alloc: Global, rows: &[Row]) -> Result<Queue, AllocError> {
        let mut queue = Queue {
            waits: Vec::new(alloc),
            is_long: Vec::new(alloc),
            short: Line {
                rows: Vec::new(alloc),
                done: 0,
            },
            long: Line {
                rows: Vec::new(alloc),
                done: 0,
            },
        };
        for row in rows {
            queue.waits.push(false)?;
            queue.is_long.push(row.form.coefficients.len() > SHORT)?;
        }
        Ok(queue)
    }

    pub fn put(&mut self, row: usize) -> Result<(), AllocError> {
        if row >= self.waits.len() || row >= self.is_long.len() || self.waits[row] {
            return Ok(());
        }
        self.waits[row] = true;
        if self.is_long[row] {
            self.long.rows.push(row)?;
        } else {
            self.short.rows.push(row)?;
        }
        Ok(())
    }

    pub fn next(&mut self) -> Option<usize> {
        let row = match self.short.next() {
            Some(row) => row,
            None => self.long.next()?,
        };
        if row < self.waits.len() {
            self.waits[row] = false;
        }
        Some(row)
    }

    pub fn clear(&mut self) {
        for _ in 0..self.waits.len() {
            if self.next().is_none() {
                return;
            }
        }
    }
}
