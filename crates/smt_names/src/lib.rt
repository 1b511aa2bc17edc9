//! The names of SMT-LIB 2.6 and its theories Core, Ints and UnicodeStrings: what tokens stand for,
//! the functions with their ranks, the sorts, and the words of the commands.
//!
//! The central fact is the table `signature` in specs/Signature.antt. S-expressions are seen as
//! forms (specs/Form.antt), which definitions take apart by cases.
//!
//! ```text
//! function(b"str.len") // takes one String, gives an Int
//! symbol(&item) // of the token |a b|: a b
//! ```
#![tactic(auto)]

mod check_fault;
mod function;
mod opening;
pub mod signature;
pub mod token;
mod verb;

pub use check_fault::CheckFault;
pub use function::{ArgumentSorts, Function, Interpretation};
pub use opening::Opening;
pub use verb::CommandName;
