//! Exactly the s-expressions of the bytes, however they are cut into pieces, with the first
//! syntax fault and its place (SMT-LIB 2.6, sections 3.1 and 3.2).
//!
//! The one central fact: a [`Reader`] that was fed some bytes has given exactly the s-expressions
//! that are whole in them. `next` answers `None` exactly where no further one is whole and no
//! fault stands there, and a fault exactly where it is the first one behind them. Bytes have one
//! reading, and more bytes take nothing of it back (`reading_is_unique`, `more_bytes_may_follow`).
//!
//! Each byte is looked at a bounded number of times, however small the pieces. Besides the open
//! lists only the unfinished token is kept, and nesting is a list of open lists: nothing recurses.
//!
//! ```text
//! let mut reader = Reader::new(alloc);
//! reader.feed(b"(push 1) (p")?;
//! reader.next() // Ok(Some(List [Atom(Symbol, push), Atom(Numeral, 1)]))
//! reader.next() // Ok(None)
//! reader.feed(b"op))")?;
//! reader.next() // Ok(Some(List [Atom(Symbol, pop)]))
//! reader.end()  // Err(Close(14))
//! ```
#![tactic(auto)]

mod action;
mod bytes;
mod kind;
mod laws;
mod mode;
mod nest;
mod reader;
mod sexpr;
mod syntax_fault;
mod token_kind;

pub use kind::TokenKind;
pub use laws::{
    lists_are_whole, more_bytes_may_follow, parts_are_formed, pieces_join, reading_is_unique,
};
pub use reader::Reader;
pub use sexpr::{Sexpr, copy_sexprs};
pub use syntax_fault::SyntaxFault;
pub use token_kind::is_symbol;
