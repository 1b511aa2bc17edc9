//! How the parts of replies are printed: errors, values, models, infos (SMT-LIB 2.6, sections 3.9 and 4.1).
//!
//! The central fact is the clause of each call: **the text is the one that the definitions in specs/Replies.antt
//! give**, byte for byte, and each fault has one error by which it is told.
//!
//! Each call is linear in what it writes.
//!
//! ```text
//! let text = error_line(alloc, ErrorKind::NoSuchLevel)?; // (error "no such level")
//! ```
#![tactic(auto)]

mod cause;
mod error_kind;
mod info;
mod printing;
mod shown;

pub use cause::{Cause, CubeCause};
pub use error_kind::ErrorKind;
pub use info::Info;
pub use printing::{error_line, info_line, line, model_lines, names_line, values_line};
