//! Marks on pairs of a state and a total, of machines that have one register.
//!
//! Each state of each machine has a row of bits, one for each total, and one more row stands for what is behind the last
//! machine. An edge leads from row to row and adds its cost to the total; so does an end, to the next machine's first
//! row. **Where [`are_closed`] answers yes, the total 0 is marked at the start and every edge and end passes on what is
//! marked**, so that, step by step, each total that runs of the machines in turn come to is marked, as far as rows have
//! room. Nothing is promised of how marks are set, nor of a way that is traced back through them: who uses them tests
//! the one, and follows the other by the machines' own moves.
//!
//! [`mark_reached`] and [`are_closed`] move 64 totals at once: their time is that of edges and words of a row, for the
//! first one up to 64 times that where edges lead back within a word. [`Marks`] take a bit for each row and total.
//!
//! ```
//! // Totals up to 100 of two machines of at most 8 states: 17 rows of two words.
//! let arcs = Arcs::of(alloc, &machines, 8, 17)?;
//! let mut marks = Marks::new(alloc, 17, 2)?;
//! mark_reached(alloc, &mut marks, &arcs, 17)?;
//! if are_closed(&marks, &machines, 8, 100) {
//!     let pairs = trace(alloc, &marks, &arcs, 17, Pair { row: 16, total: 40 })?;
//! }
//! ```
#![tactic(auto)]

mod arcs;
mod covering;
mod marking;
mod marks;
mod tracing;

pub use arcs::Arcs;
pub use covering::are_closed;
pub use marking::mark_reached;
pub use marks::{Marks, has_bit};
pub use tracing::{Pair, trace};
