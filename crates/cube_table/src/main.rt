//! A table of the cubes of a script: what the solver makes of its assertions before it looks for values.
//!
//! It reads an SMT-LIB 2.6 script from standard input, and at each `check-sat` prints the cubes of the live
//! assertions in their order: the literals of each cube, its flat form (variables with what is said of each alone,
//! definitions, rows, values of Bool constants) and the numbers of that form, or why the cube isn't straight. It
//! decides nothing.
//!
//! Its limits: assertions with opaque parts are left out, with their number told. Of a check with more than 1,048,576
//! cubes only the number is printed. Names are printed as their bytes, without bars; a range by the numbers of
//! its characters; a negative number with its sign before it. A script is read whole before its first command is done.
//! That what is printed is the flat form and the numbers that its contracts speak of, is shown by examples alone.
//!
//! ```text
//! $ echo '(declare-const x String)(assert (not (= x "a")))(check-sat)' | cube_table
//! cubes: 1
//! cube 0: (not (= x "a"))
//!   variable 0 x: not is "a"
//!   states 3, splits 1, sources 1, growth 1, reach 4194303, points 1, small
//! ```
#![tactic(auto)]

mod flats;
mod regexes;
mod running;
mod script;
mod stop;
mod straight;
mod table;
mod terms;
mod text;

use crate::running::run;
use crate::stop::TableStop;
use std::process::ExitCode;

fn main(rt: HostRuntime) -> ExitCode {
    match run(rt) {
        Ok(()) => ExitCode::SUCCESS,
        Err(TableStop::Unread) => ExitCode::from(3),
        Err(TableStop::Unwritten) => ExitCode::from(4),
        Err(TableStop::Memory(_)) => ExitCode::from(5),
    }
}
