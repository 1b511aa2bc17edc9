//! Hits, which are what a search over machines and rows looks for, and the regions that they are looked for in.
//!
//! The unknowns of the rows are whole numbers, and then one for each register. **A hit is one run of each machine, and
//! as many whole numbers, that meet the rows with what the runs cost together at each register**, and it lies in a
//! region where each number and each such total is within its side. This is told once (specs/Hits.antt,
//! specs/Regions.antt), so that a search of a region and a system of edge counts speak of the same hits, and neither
//! stands on the other. No body stands here: beside the two types there are definitions, and the law that unknowns
//! which ascend below a number are below it.
//!
//! A hit holds its runs and numbers, a region two numbers for each register and for each whole number.
//!
//! ```
//! // Words of at most 20 characters, where a register counts them, and a number from 0 to 8.
//! let mut registers = Items::new(alloc);
//! registers.push((0, 20))?;
//! let mut integers = Items::new(alloc);
//! integers.push((0, 8))?;
//! let region = Region { empty: false, registers, integers };
//! ```
#![tactic(auto)]

mod hit;
mod region;

pub use hit::Hit;
pub use region::Region;
