//! Words that the subjects share.
use std::alloc::{AllocError, Global};
use sv_word::Word;

/// `a` and `b` in turn, so many letters.
pub fn in_turn(alloc: Global, count: u32) -> Result<Word, AllocError> {
    let mut word = Word::new(alloc);
    for i in 0..count {
        word.push(0x61 + i % 2)?;
    }
    Ok(word)
}

/// The characters of a text of ASCII.
pub fn word(alloc: Global, text: &[u8]) -> Result<Word, AllocError> {
    let mut word = Word::new(alloc);
    for byte in text {
        word.push(u32::from(*byte))?;
    }
    Ok(word)
}

/// Ten letters that a number chooses.
pub fn letters(alloc: Global, seed: u64) -> Result<Word, AllocError> {
    let mut word = Word::new(alloc);
    let mut state = seed;
    for _ in 0..10 {
        state = state
            .wrapping_mul(6_364_136_223_846_793_005)
            .wrapping_add(1_442_695_040_888_963_407);
        word.push(0x61 + ((state >> 33) % 26) as u32)?;
    }
    Ok(word)
}
