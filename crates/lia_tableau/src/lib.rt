//! The simplex tableau in whole numbers, for linear constraints over rational and whole numbers.
//!
//! The quantities of a system are its unknowns, and a slack for each row, so that the row's form and its
//! slack add up to 0 (Dutertre and de Moura, "A fast linear-arithmetic solver for DPLL(T)", 2006). A
//! basis has as many quantities as there are rows, each with a line: an equation in whole numbers,
//! without common divisor, that holds this quantity above 0 times and no other of the basis. The central
//! fact is an invariant of `Tableau`: its lines hold for the same values as the rows with their slacks,
//! so each line is an identity of the system, and no pivot changes the solutions.
//!
//! `status` says what the rows show, and `pivot` makes the one pivot that is due, by the least
//! quantities (Bland's rule). An entry that needs more than 128 bits is refused, never rounded.
//!
//! Costs: a pivot looks at each row once, by a binary search, and merges two lists for each row that
//! holds the quantity that comes in; the other rows aren't touched. What a row shows follows from its own
//! entries, so it is kept beside the row and found anew where a pivot changes it: `status` reads three
//! flags a quantity, and the terms of one row at the most.
//!
//! ```text
//! let mut tableau = Tableau::new(alloc, rows.as_slice(), 2)?;   // over the unknowns 0 and 1
//! settle(alloc, &mut tableau)?;                                 // no pivot is due any more
//! let (numerator, denominator) = tableau.value(0);
//! ```
#![tactic(auto)]

mod bound;
mod changes;
mod crossing;
mod fault;
mod laws;
mod lines;
mod settling;
mod shown;
mod standing;
mod status;
mod table;
mod tableau;
mod terms;
mod verdict;

pub use bound::QuantityBound;
pub use fault::TableauFault;
pub use laws::{bases_are_formed, no_basis_comes_twice};
pub use settling::settle;
pub use standing::Standing;
pub use status::TableauStatus;
pub use table::Table;
pub use tableau::Tableau;
pub use terms::unknowns_divisor;
