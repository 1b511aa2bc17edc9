//! The region in which the words and numbers of a flat cube are searched.
//!
//! The central fact is the clause of [`region_of`]: **where the box of the cube is small, whatever meets the rows lies
//! in the region, and else the values near 0 do, where searching them is little work and every row fits them**. A
//! region that isn't empty has so few points that its search stays within the reach of the cube.
//!
//! The region is one of the text, so that what was searched in vain where a cube is left open is told by the text.
//!
//! Linear in the registers, the integer constants and the terms of the rows.
//!
//! ```text
//! let numbers = numbers(alloc, &flat)?;
//! let region = region_of(alloc, &flat, &numbers)?;
//! ```
#![tactic(auto)]

mod boxes;
mod near;
mod regions;

pub use regions::region_of;
