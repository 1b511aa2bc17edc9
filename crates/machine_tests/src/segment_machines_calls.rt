//! Markings of single words: each call with words that it relates, and words that it doesn't.
ghost use Rattle.std.specs.Prelude.{◌≡◌, ◌≢◌, [], IfOk};

use segment_machines::{mark, mark_absent, mark_end, mark_found, pick};
use std::alloc::{AllocError, Global};
use sv_terms::Transducer;
use sv_word::Word;
use transducer_core::run_pair;

fn word(alloc: Global, text: &str) -> Result<Word, AllocError> {
    let mut word = Word::new(alloc);
    for byte in text.as_bytes() {
        word.push(u32::from(*byte))?;
    }
    Ok(word)
}

// The word `aab`.
fn pattern(alloc: Global) -> Result<Word, AllocError>
    ensures { IfOk result (λ p. p ≢ []) }
{
    let mut pattern = Word::new(alloc);
    pattern.push(0x61)?;
    pattern.push(0x61)?;
    pattern.push(0x62)?;
    Ok(pattern)
}

// Whether the transducer relates the first word of each row to the second exactly where the row says so.
fn relates(alloc: Global, t: &Transducer, rows: &[(&str, &str, bool)]) -> Result<bool, AllocError> {
    for (read, written, wanted) in rows {
        let run = run_pair(alloc, t, &word(alloc, read)?, &word(alloc, written)?)?;
        if run.is_some() != *wanted {
            return Ok(false);
        }
    }
    Ok(true)
}

fn marks(alloc: Global) -> Result<bool, AllocError> {
    let rows = [
        ("abc", "0a1b2c", true),
        ("abc", "1a1b1c", true),
        ("abc", "0a0b0c", false), // no part
        ("abc", "0a1b0c", false), // a phase falls
        ("abc", "0a1b", false),
        ("", "", false),
    ];
    relates(alloc, &mark(alloc)?, &rows)
}

fn marks_end(alloc: Global) -> Result<bool, AllocError> {
    let rows = [
        ("abc", "0a1b1c", true),
        ("abc", "1a1b1c", true),
        ("abc", "0a0b0c", false),
        ("abc", "0a1b2c", false), // the part doesn't go to the end
    ];
    relates(alloc, &mark_end(alloc)?, &rows)
}

fn picks(alloc: Global) -> Result<bool, AllocError> {
    let before = [("0a0b1c2d", "ab", true), ("", "", true)];
    let part = [
        ("0a0b1c2d", "c", true),
        ("0a0b1c2d", "d", false),
        ("1a0b1c", "ac", true), // it doesn't look whether phases fall
        ("0a1", "", false), // no character after the phase
        ("3a", "", false),
    ];
    let after = [("0a0b1c2d", "d", true)];
    Ok(
        relates(alloc, &pick(alloc, 0)?, &before)?
            && relates(alloc, &pick(alloc, 1)?, &part)?
            && relates(alloc, &pick(alloc, 2)?, &after)?,
    )
}

fn finds(alloc: Global) -> Result<bool, AllocError> {
    let rows = [
        ("caabaab", "1c1a1a1b2a2a2b", true),
        ("caabaab", "1c1a1a1b1a1a1b", false), // up to a later occurrence
        ("caabaab", "0c0a1a1b1a1a1b", true), // the first begins in phase 0
        ("caab", "0c0a1a1b", false),
        ("aaab", "1a1a1a1b", true), // the pattern's first letters come once more
    ];
    let t = mark_found(alloc, &pattern(alloc)?)?;
    Ok(relates(alloc, &t, &rows)? && t.states == 5)
}

fn misses(alloc: Global) -> Result<bool, AllocError> {
    let rows = [
        ("caab", "0c0a1a1b", true),
        ("caab", "0c1a1a1b", false),
        ("caab", "0c0a0a0b", true), // nothing in phase 1
        ("", "", true),
    ];
    let t = mark_absent(alloc, &pattern(alloc)?)?;
    Ok(relates(alloc, &t, &rows)? && t.states == 4)
}

#[test]
fn parts_are_marked_and_picked(rt: HostRuntime) -> Result<(), AllocError> {
    assert!(rt; marks(rt.alloc())? && marks_end(rt.alloc())? && picks(rt.alloc())?);
    Ok(())
}

#[test]
fn patterns_are_found_or_absent(rt: HostRuntime) -> Result<(), AllocError> {
    assert!(rt; finds(rt.alloc())? && misses(rt.alloc())?);
    Ok(())
}
