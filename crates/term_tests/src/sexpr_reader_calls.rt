//! A thousand lines in small pieces, and what a reader holds behind them.
use sexpr_reader::Reader;
use std::alloc::{AllocError, Global};

const LINE: &[u8] =
    b"(assert (= |quoted name| (str.++ \"a literal\" variable (str.replace x \"<\" \"&lt;\"))) ) ; 1\n";

/// So many lines, and this behind them.
fn lines(alloc: Global, count: u32, end: &str) -> Result<Vec<u8>, AllocError> {
    let mut script = Vec::new(alloc);
    for _ in 0..count {
        script.extend_from_slice(LINE)?;
    }
    script.extend_from_slice(end.as_bytes())?;
    Ok(script)
}

/// How many whole items the reader has.
fn count_items(reader: &mut Reader) -> u64 {
    let mut count = 0_u64;
    for _ in 0..u64::MAX {
        match reader.next() {
            Ok(Some(_)) => count = count.wrapping_add(1),
            _ => return count,
        }
    }
    count
}

/// How many items the bytes have, in pieces of this size, and how many bytes are held at last.
fn count_in_pieces(alloc: Global, bytes: &[u8], size: usize) -> Result<(u64, usize), AllocError> {
    let mut reader = Reader::new(alloc);
    let mut count = 0_u64;
    for piece in bytes.chunks(size.max(1)) {
        reader.feed(piece)?;
        count = count.wrapping_add(count_items(&mut reader));
    }
    Ok((count, reader.held_bytes()))
}

/// How many items a thousand lines with this behind them have, and how many bytes are held at last.
fn count_behind(alloc: Global, end: &str) -> Result<(u64, usize), AllocError> {
    let script = lines(alloc, 1_000, end)?;
    count_in_pieces(alloc, &script, 4_096)
}

const ENDS: [(&str, u64, usize); 5] = [
    ("", 1_000, 0),
    ("(a \"bc\" ; comment", 1_000, 0),
    ("(a \"bc\" ; comment\n def", 1_000, 3),
    ("(a \"bc\" ; comment\n def) \"", 1_001, 1),
    ("(((((((((( ", 1_000, 0),
];

#[test]
fn little_is_held_behind_a_long_script(rt: HostRuntime) -> Result<(), AllocError> {
    for (end, items, held) in ENDS.as_slice() {
        assert!(rt; count_behind(rt.alloc(), end)? == (*items, *held));
    }
    Ok(())
}
