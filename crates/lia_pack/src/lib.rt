//! A tableau in few bytes, for a node that waits.
//!
//! `PackedTableau::of` writes a tableau's rows and lines as numbers, one to three bytes each where they are small, and
//! `unpack` reads the same tableau back. The central fact is the contract of `unpack`: it answers the very table that
//! was packed. Both are linear in the tableau's terms, times the layers, 32 at most.
//!
//! Of 65,536 bytes or more, those that a tableau packed before has too are kept once: a base and layers over it, whose
//! references are counted. A layer is pieces of the bytes below it and some that aren't among them. Which pieces is a
//! guess, tested before it is kept: joined, they are the bytes.
//!
//! ```text
//! let packed = PackedTableau::of(alloc, &tableau, None)?;   // some 3 bytes a term in place of 32
//! let next = PackedTableau::of(alloc, &changed, Some(&packed))?;   // the terms that aren't the same
//! let same = packed.unpack(alloc)?;
//! ```
#![tactic(auto)]

mod numbers;
mod packed;
mod pieces;
mod reader;
mod shared;
mod writing;

pub use packed::PackedTableau;
