//! How long the crates take: one module a subject, chosen by a word.
//!
//! What a subject counts goes to standard output, so that a change of it shows; its times, of the
//! clock, go to standard error. docs/TESTING.md has the figures.
//!
//! ```text
//! $ speed machines
//! 1,000 words: 9002
//! 10,000 words: 90002
//! ```
#![tactic(auto)]

mod cubes;
mod machines;
mod memberships;
mod reading;
mod stopwatch;
mod texts;
mod transducers;

use std::env;
use std::process::ExitCode;

fn main(rt: HostRuntime) -> ExitCode {
    let Ok(mut args) = env::args(&rt) else {
        return ExitCode::from(2);
    };
    let _program = args.next();
    let Some(subject) = args.next() else {
        return ExitCode::from(2);
    };
    match subject.as_str() {
        "cubes" => cubes::measure(rt),
        "machines" => machines::measure(rt),
        "memberships" => memberships::measure(rt),
        "reading" => reading::measure(rt),
        "transducers" => transducers::measure(rt),
        _ => return ExitCode::from(2),
    }
    ExitCode::SUCCESS
}
