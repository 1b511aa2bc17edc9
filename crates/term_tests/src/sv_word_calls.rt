//! Faults within a literal, fronts of words, complements, and pieces of characters.
use std::alloc::{AllocError, Global};
use sv_word::{LiteralFault, Ranges, cuts, read_literal};

const REFUSED: [(&[u8], LiteralFault); 22] = [
    (b"\"", LiteralFault::Quote(0)),
    (b"ab\"c", LiteralFault::Quote(2)),
    (b"\"\"\"", LiteralFault::Quote(2)),
    (b"\\u{\"}", LiteralFault::Quote(3)),
    (b"a\"\xFF", LiteralFault::Quote(1)),
    (b"\x80", LiteralFault::Utf8(0)),
    (b"a\xFF\"", LiteralFault::Utf8(1)),
    (b"\xC0\x80", LiteralFault::Utf8(0)),
    (b"\xC1\xBF", LiteralFault::Utf8(0)),
    (b"ab\xC3", LiteralFault::Utf8(2)),
    (b"\xC3(", LiteralFault::Utf8(0)),
    (b"\xE0\x9F\xBF", LiteralFault::Utf8(0)),
    (b"\xE2\x82", LiteralFault::Utf8(0)),
    (b"\xE2\x82\"", LiteralFault::Utf8(0)),
    (b"\xED\xA0\x80", LiteralFault::Utf8(0)),
    (b"\xF0\x8F\xBF\xBF", LiteralFault::Utf8(0)),
    (b"\xC3\xA9\xF0\x9F\x98", LiteralFault::Utf8(2)),
    (b"\xF4\x90\x80\x80", LiteralFault::Utf8(0)),
    (b"\xF5\x80\x80\x80", LiteralFault::Utf8(0)),
    (b"\xF0\xB0\x80\x80", LiteralFault::Above(0)),
    (b"\\u{3FFFF}\xF4\x8F\xBF\xBF", LiteralFault::Above(9)),
    (b"\xF3\xA0\x80\x81\xFF", LiteralFault::Above(0)),
];

fn is_refused_as(alloc: Global, raw: &[u8], want: &LiteralFault) -> bool {
    match read_literal(alloc, raw) {
        Ok(_) => false,
        Err(fault) => fault == *want,
    }
}

#[test]
fn literals_are_refused(rt: HostRuntime) {
    for (raw, want) in REFUSED.as_slice() {
        assert!(rt; is_refused_as(rt.alloc(), raw, want));
    }
}

// Whether the word of the bytes between quotes begins with these characters, as many as there are.
fn begins_with(alloc: Global, raw: &[u8], want: &[u32]) -> Result<bool, LiteralFault> {
    let mut word = read_literal(alloc, raw)?;
    word.truncate(want.len());
    Ok(word.as_slice() == want)
}

#[test]
fn words_are_shortened(rt: HostRuntime) -> Result<(), LiteralFault> {
    assert!(rt; begins_with(rt.alloc(), b"a\\u{2FFFF}c", &[0x61, 0x2FFFF])?);
    Ok(())
}

fn set_of(alloc: Global, pairs: &[(u32, u32)]) -> Result<Ranges, AllocError> {
    let mut set = Ranges::none(alloc);
    for (low, high) in pairs {
        if *high <= 0x2FFFF {
            set = set.join(alloc, &Ranges::of(alloc, *low, *high)?)?;
        }
    }
    Ok(set)
}

type Pairs = &'static [(u32, u32)];

// Sets, and all other characters.
const APART: [(Pairs, Pairs); 4] = [
    (&[], &[(0, 0x2FFFF)]),
    (&[(0, 0x2FFFF)], &[]),
    (
        &[(0x61, 0x63), (0x65, 0x66)],
        &[(0, 0x60), (0x64, 0x64), (0x67, 0x2FFFF)],
    ),
    (&[(0, 4), (8, 0x2FFFF)], &[(5, 7)]),
];

fn leaves(alloc: Global, pairs: Pairs, want: Pairs) -> Result<bool, AllocError> {
    let set = set_of(alloc, pairs)?;
    let others = set.complement(alloc)?;
    Ok(others.as_slice() == want)
}

#[test]
fn other_characters_are_left(rt: HostRuntime) -> Result<(), AllocError> {
    for (pairs, want) in APART.as_slice() {
        assert!(rt; leaves(rt.alloc(), pairs, want)?);
    }
    Ok(())
}

// Sets, and the pieces into which they cut the characters.
const CUT: [(&[Pairs], Pairs); 7] = [
    (&[], &[(0, 0x2FFFF)]),
    (&[&[], &[(0, 0x2FFFF)]], &[(0, 0x2FFFF)]),
    (
        &[&[(0x61, 0x7A)]],
        &[(0, 0x60), (0x61, 0x7A), (0x7B, 0x2FFFF)],
    ),
    (
        &[&[(0x61, 0x6D)], &[(0x66, 0x7A)]],
        &[
            (0, 0x60),
            (0x61, 0x65),
            (0x66, 0x6D),
            (0x6E, 0x7A),
            (0x7B, 0x2FFFF),
        ],
    ),
    (
        &[&[(0x61, 0x7A)], &[(0x66, 0x66)]],
        &[
            (0, 0x60),
            (0x61, 0x65),
            (0x66, 0x66),
            (0x67, 0x7A),
            (0x7B, 0x2FFFF),
        ],
    ),
    (&[&[(5, 9)], &[(5, 9)]], &[(0, 4), (5, 9), (10, 0x2FFFF)]),
    (
        &[&[(0, 0), (2, 3)], &[(4, 0x2FFFF)]],
        &[(0, 0), (1, 1), (2, 3), (4, 0x2FFFF)],
    ),
];

fn are_cut(alloc: Global, sets: &[Pairs], want: Pairs) -> Result<bool, AllocError> {
    let mut list = Vec::new(alloc);
    for pairs in sets {
        list.push(set_of(alloc, pairs)?)?;
    }
    let mut pieces = Vec::new(alloc);
    for piece in &cuts(alloc, list.as_slice())? {
        match piece.as_slice() {
            [pair] => pieces.push(*pair)?,
            _ => return Ok(false),
        }
    }
    Ok(pieces.as_slice() == want)
}

#[test]
fn characters_are_cut(rt: HostRuntime) -> Result<(), AllocError> {
    for (sets, want) in CUT.as_slice() {
        assert!(rt; are_cut(rt.alloc(), sets, want)?);
    }
    Ok(())
}
