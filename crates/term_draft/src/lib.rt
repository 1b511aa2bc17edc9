//! Terms that are read part by part: each part is weighed as it is added (term_weight), and built only
//! on demand.
//!
//! The central fact: a draft is the list of what its parts are, with `let` and macros put in
//! (specs/Drafts.antt). So a part that is used many times stands once, and its sort and its size are
//! known before anything is put in.
//!
//! Adding a part takes time linear in the number of its arguments, for a macro too, whose body is
//! summed up; building takes time and memory linear in what is built.
//!
//! ```text
//! let word = draft.put_word(word)?; // of "a"
//! let twice = draft.put_applied(alloc, concat, places)?; // of (str.++ y y), y at the first place
//! build_at(alloc, &draft, twice)? // of (str.++ "a" "a")
//! ```
#![tactic(auto)]

mod applying;
mod building;
mod draft;

pub use applying::{body_sort, into_term};
pub use building::build_at;
pub use draft::TermDraft;
