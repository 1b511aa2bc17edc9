//! Cells that threads share and fill at most once, each value with the key that it was made for.
//!
//! The central fact, the clauses of `Pool::get`: whatever threads fill the cells, the answer has the
//! caller's key and fits it, and what a note has learned of a cell stays the value of that cell.
//!
//! A look at a filled cell costs one atomic read and one comparison of keys. It takes no memory,
//! no lock, and never waits. Where threads race to fill a cell each may run its builder, and the
//! first to finish wins. A cell keeps one value for good: who comes with another key gets a value
//! of its own.
//!
//! ```
//! let pool = Pool::<u8, Row>::new(alloc, 1)?;
//! let mut note = pool.note(0);
//! let first = pool.get(0, &7, &mut note, || Row::new(alloc, 7))?; // built, and shared from now on
//! let again = pool.get(0, &7, &mut note, || Row::new(alloc, 7))?; // shared, and nothing is built
//! let other = pool.get(0, &8, &mut note, || Row::new(alloc, 8))?; // built for this caller alone
//! ```
#![tactic(auto)]

mod found;
mod keyed;
mod pool;
mod pool_note;

pub use found::PoolValue;
pub use keyed::Keyed;
pub use pool::Pool;
pub use pool_note::PoolNote;

#[cfg(test)]
mod tests;
