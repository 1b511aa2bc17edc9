//! The transducer that `(define-transducer NAME (STATE ..) START (EDGE ..) (END ..))` describes.
//!
//! A STATE and START are symbols. An EDGE is `(FROM LO HI (ITEM ..) TO)` with literals LO and HI of
//! one character in order. An ITEM is a literal, `in` for the character that was read, or
//! `(in K)` or `(in (- K))` for the character moved by a number up to 196,607. An END is
//! `(STATE (WORD ..))` with literals, which are written one after another at the end in this state.
//!
//! The central fact is the definition `described` in specs/Descriptions.antt. What isn't in the
//! written form has no description; all other faults are the fault Transducer.
//!
//! ```text
//! // of (q) q ((q "a" "y" ((in 1)) q)) ((q ()))
//! build_transducer(alloc, &description)? // each letter is moved to the next one
//! ```
#![tactic(auto)]

mod description;
mod ending;
mod item;
mod reading;
mod state;
mod text;

pub use description::{Description, EdgeParts};
pub use reading::build_transducer;
