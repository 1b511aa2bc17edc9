//! The answer for one flat cube, by definitions carried backward.
//!
//! The central fact is the clause `right` of [`cube_answer`]: **a model satisfies the cube, `Unsat` comes only
//! where nothing does, and a cube is left open only for a reason that holds of it**. The clause `decided` says
//! where a model or `Unsat` is owed.
//!
//! A concatenation is cut at all lists of states of its machine, one list after another, but for those through which no
//! words of the pieces' machines lead to an end; these are looked up before (`live_cuts` and `next_cuts` of `backward`).
//! Another definition is carried through its transducer, until only the machines of the source variables are left. These, a leaf, are cut
//! down to what lies on runs and answered in the region of the cube (`cube_region`). Where some machine
//! on the way reads nothing, nothing below it is looked at. The first hit ends the search: its runs are taken back over
//! the steps that led to it, and its words are the model. One family a definition is kept at a time.
//!
//! A family with a machine that reads nothing is refuted, and a refutation names the variables on whose machines it
//! stands ([`Below::Refuted`](below::Below::Refuted)). A definition that uses one of them adds its own variable. What a
//! refutation doesn't name isn't tried again: where it names neither of the two pieces beside a cut, no other state for
//! that cut is tried, nor behind it any further list. A leaf that its rows close, or that is left open, names nothing, and
//! all other lists of cuts are tried behind it.
//!
//! Of a leaf the clause `answer` of [`answer_machines`](asking::answer_machines) says that a hit is within the reach of
//! the cube, a closed leaf has none, words that are too long are past the reach, and where the solver gave up the
//! evidence holds and nothing in the region meets the rows. It takes what `leaf_solve` takes. What the answers for leaves
//! come to is a [`LeafTally`](tally::LeafTally).
//!
//! The limits on a cube's text bound what its machines and their cuts may come to, which they seldom do. So a cube
//! past the limit on states is searched all the same, and left open for its text only where one exploration comes to
//! more states than a machine may have; one past the limit on splits as far as a bounded effort goes.
//!
//! Where definitions and rows leave a cube in parts (`parts.rt`) a small effort is spent on the whole first. Where that
//! isn't enough each part is searched as a cube of its own, and one that is refuted refutes the cube; else the whole is
//! searched.
//!
//! ```
//! let numbers = numbers(alloc, &flat)?;
//! match cube_answer(alloc, &flat, &numbers, &kept)? {
//!     CubeAnswer::Sat(model) => ..
//! ```
#![tactic(auto)]

mod allowance;
mod answer;
mod answering;
mod apart;
mod asking;
mod below;
mod dead_ends;
mod found;
mod gathered;
mod laws;
mod leaves;
mod limits;
mod modelling;
mod names;
mod part_copy;
mod parts;
mod reason;
mod searching;
mod settling;
mod spending;
mod spreading;
mod stepping;
mod tally;
mod trimming;

pub use answer::{CubeAnswer, Refutation, answer_crosses};
pub use answering::cube_answer;
pub use laws::rows_count;
pub use reason::{OpenReason, Shown};
