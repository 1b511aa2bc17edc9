//! The outside: a source of bytes, a sink for bytes, and the words of the command line.
//!
//! The central fact: a call answers that it failed only where a count of faults that the object
//! keeps rose in that call. A caller can't raise the count by itself, so a program that is generic
//! over `Source` and `Sink` can't blame the outside for its own refusals.
//!
//! What a source has left and what a sink took can stand in contracts where the object tells it:
//! `MemSource` and `MemSink` do, and `StdSource` and `StdSink`, over files and the standard
//! streams, do not. Both kinds are proved against the same traits.
//!
//! Each call of a real source or sink is one call of the system. A source gives at most 2^40
//! bytes, so a loop that reads to the end is finite.
//!
//! ```
//! let mut source = MemSource::new(None, b"(exit)".to_vec(alloc)?, Vec::new(alloc), 4);
//! source.open(None)?;
//! let mut buffer = [0u8; 16];
//! let count = source.read(&mut buffer)?; // 4: a read gives a piece at most
//! ```
#![tactic(auto)]

mod call_count;
mod laws;
mod memory_sink;
mod memory_source;
mod openings;
mod sink;
mod source;
mod stage;
mod standard_sink;
mod standard_source;
mod transfer;
mod words;

pub use laws::bytes_given_are_no_longer_left;
pub use memory_sink::MemSink;
pub use memory_source::MemSource;
pub use sink::{Sink, SinkFault};
pub use source::{Failed, Source};
pub use standard_sink::StdSink;
pub use standard_source::StdSource;
pub use transfer::write_all;
pub use words::ProgramArguments;
