//! The reader: how many items it finds in lines that are given in pieces.
ghost use Rattle.std.specs.Prelude.{◌<◌};

use crate::stopwatch::Stopwatch;
use sexpr_reader::Reader;
use std::alloc::{AllocError, Global};

const LINE: &[u8] =
    b"(assert (or (str.in_re x1 (re.+ (re.range \"a\" \"c\"))) (= (str.len y) 12))) ; a comment\n";

const LINES: u32 = 11_000;

const TIMES: u32 = 10;

fn block(alloc: Global) -> Result<Vec<u8>, AllocError> {
    let mut block = Vec::new(alloc);
    for _ in 0..LINES {
        block.extend_from_slice(LINE)?;
    }
    Ok(block)
}

// The items of the block in pieces of this size, again and again.
fn count_items(reader: &mut Reader, block: &[u8], size: usize) -> Result<u64, AllocError>
    requires { 0 < size }
{
    let mut count = 0_u64;
    for piece in block.chunks(size) {
        reader.feed(piece)?;
        for _ in 0..u64::MAX {
            match reader.next() {
                Ok(Some(_)) => count = count.saturating_add(1),
                _ => break,
            }
        }
    }
    Ok(count)
}

fn count_again_and_again(alloc: Global, block: &[u8], size: usize) -> Result<u64, AllocError>
    requires { 0 < size }
{
    let mut reader = Reader::new(alloc);
    let mut count = 0_u64;
    for _ in 0..TIMES {
        count = count.saturating_add(count_items(&mut reader, block, size)?);
    }
    Ok(count)
}

/// Prints the items of ten blocks of 11,000 lines of 86 bytes each, and the time that reading takes.
pub fn measure(rt: HostRuntime) {
    let alloc = rt.alloc();
    let Ok(block) = block(alloc) else {
        return;
    };
    for (work, size) in [
        ("in pieces of 1 byte", 1_usize),
        ("in pieces of 16 bytes", 16),
        ("in pieces of 4,096 bytes", 4_096),
    ] {
        let stopwatch = Stopwatch::start(rt);
        let count = if size > 0 {
            count_again_and_again(alloc, block.as_slice(), size).ok()
        } else {
            None
        };
        stopwatch.stop(rt, work, count);
    }
}
