//! Runs of transducers, and what they may write.
//!
//! The central facts: [`run_pair`] finds a run exactly where the transducer relates the two words, and
//! the words of [`outputs`] are exactly those that it relates to one. What a transducer relates is
//! `Pairs` of `sv_terms`.
//!
//! `run_pair` goes over the word that is read once, a layer for each character, and a layer has each state
//! at most once for each number of characters that are written by then. So it is polynomial: at most
//! `states * (length of written + 1)` entries a layer, and one for a deterministic transducer.
//!
//! `outputs` goes over the word from its end, with a node for each state: what the edges write over one
//! character more, and then what the nodes behind them write. A node that is reached by an edge that
//! writes nothing is joined to the one before, so that each edge of the machine has one character.
#![tactic(auto)]

mod finding;
mod layers;
mod node;
mod output_words;
mod reached;
mod writing;

pub use finding::run_pair;
pub use output_words::outputs;
pub use writing::text_at;
