//! Jobs that several threads do at once, with their outcomes in the order of the jobs.
//!
//! The central fact, the clause of `run_jobs`: there is one outcome for each job, in the order of
//! the jobs, and each is one that its job may have, whatever the number of workers.
//!
//! The jobs are cut into at most as many shares of neighbouring jobs as there are workers, and the
//! sizes of two shares differ by one job at most. `std::thread::map_indices` does the shares, and
//! nothing else waits: there is no lock, no channel and no condition variable. Where no thread can
//! be made the shares are done one after another, with the same answer. What the jobs cost comes
//! on top of one move of each outcome and of memory for two lists of outcomes.
//!
//! ```
//! struct Square(u32);
//!
//! impl Job for Square {
//!     type Out = u64;
//!
//!     ghost Yields = { λ job outcome. outcome ≡ job.0 * job.0 };
//!
//!     fn work(&self) -> u64 {
//!         u64::from(self.0) * u64::from(self.0)
//!     }
//! }
//!
//! let squares = run_jobs(&rt, rt.alloc(), &[Square(3), Square(4)], 2, &Free)?; // 9, 16
//! ```
#![tactic(auto)]

mod gate;
mod job;
mod run;
mod shares;

pub use gate::{Free, Gate};
pub use job::Job;
pub use run::run_jobs;

#[cfg(test)]
mod tests;
