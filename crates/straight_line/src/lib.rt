//! Straight cubes: what a cube says, as variables over words, definitions and rows.
//!
//! The central fact is the clause of [`flatten`], with the law [`flat_cubes_are_exact`]: **values make all literals of
//! a cube true exactly where they extend to words and numbers that satisfy its flat cube**, in which each variable is
//! defined at most once, by variables that neither this definition nor one after it defines. A cube that has none is
//! refused, and [`refusals_have_no_flat_cube`] says that no flat cube of it exists then.
//!
//! The literals are read into a draft (`cube_draft`), and that is put in order ([`finishing`]): its places become
//! variables, its definitions stand one before another, and its rows keep the quantities that count. Places that are
//! one become a variable, numbered in the order of the least of them; each definition comes behind those of what it
//! uses, and the first that can come is next; a quantity stays where its column isn't 0 in some row.
//!
//! Linear in the cube, but for factors logarithmic in it, for the codes of terms that stand in one another, and for the
//! forms of comparisons, which are added up from the left. Names, parts and words of a draft are moved, and none is
//! copied.
//!
//! ```text
//! // (= y (str.++ x "a")) and (= (str.len y) 3): two variables and a literal, one definition, one row
//! let flat = flatten(alloc, &cube)?;
//! ```
//!
//! Its examples are those of the program `cube_table`, which reads them as a script.
#![tactic(auto)]

mod arranging;
mod columns;
mod cycling;
mod filling;
mod finishing;
mod flattening;
mod form_laws;
mod identifying;
mod keeping;
mod laws;
mod naming;
mod numbering;
mod ordering;
mod renumbering;
mod rowing;
mod straightening;
mod wording;

pub use flattening::flatten;
pub use form_laws::{names_are_apart, names_are_sorted, transducers_are_formed};
pub use laws::{flat_cubes_are_exact, flat_cubes_are_unique, refusals_have_no_flat_cube};
