//! The assertion stack of a session: the symbols and assertions of each level
//! (SMT-LIB 2.6, section 4.1.4).
//!
//! The central fact is how contracts see a [`Stack`]: as its levels, the innermost first, each with
//! its symbols, its assertions, and the names of those that have one. All assertions stand in one
//! slice, all names in another, and all symbols in one map, so that `live`, `named` and `symbols` cost
//! nothing; `push` and `pop` cost what they put and take away.
//!
//! ```text
//! let mut stack = Stack::new(alloc);
//! stack.push(1)?;
//! stack.assert(term)?;
//! stack.pop(1)?; // no assertion is live
//! ```
#![tactic(auto)]

mod fault;
mod mark;
mod stack;

pub use fault::{Below, StackFault};
pub use stack::Stack;
