//! Characters, words, sets of characters, and string literals: the bottom of the reader, the
//! evaluator and the automata.
//!
//! A character is a number from 0 to 0x2FFFF, surrogate code points included, and a word is a
//! list of characters (theory UnicodeStrings of SMT-LIB 2.6). `Word` keeps one in four bytes a
//! character. `read_literal` gives the word that a string literal stands for, and `print_literal`
//! the literal of a word; both are linear, and what is printed reads back. UTF-8 in a literal is
//! that of the standard library, to the byte.
//!
//! `Ranges` is a set of characters, kept as sorted pairs with a gap between any two. `meet`, `join`
//! and `complement` are one walk over the pairs, `holds` is a binary search. `cuts` parts all
//! characters so that each set of a list is a union of parts, by one sort of the n pairs' borders.
//!
//! ```text
//! let letters = Ranges::of(alloc, 'a' as u32, 'z' as u32)?;
//! let others = letters.complement(alloc)?;
//! let word = read_literal(alloc, b"caf\\u{e9}")?;
//! // letters.holds(0x63), others.holds(0xE9), word.as_slice() is [0x63, 0x61, 0x66, 0xE9],
//! // print_literal(alloc, &word)? is "caf\u{e9}" with its quotes
//! ```
#![tactic(auto)]

mod literal_fault;
mod pieces;
mod printing;
mod ranges;
mod reading;
mod utf8;
mod word;

pub use literal_fault::LiteralFault;
pub use pieces::cuts;
pub use printing::{print_literal, reads_back};
pub use ranges::Ranges;
pub use reading::read_literal;
pub use utf8::reads_utf8;
pub use word::{GREATEST_CHARACTER, Word};
