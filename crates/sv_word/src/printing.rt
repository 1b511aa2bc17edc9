ghost use Rattle.std.specs.Prelude.{◌≡◌, ◌++◌, IfOk, OnOk};
ghost use Rattle.std.specs.String.{string_bytes};
ghost use Rattle.sv_word.specs.Literals.{lit, printed, shown, spelled};

use crate::word::Word;
use std::alloc::{AllocError, Global};

/// The string literal of a word, with its quotes.
///
/// The characters from 0x20 to 0x7E stand for themselves, but a quote is doubled and a backslash
/// is `\u{5c}`. All others are `\u{h}` with the fewest lower-case hexadecimal digits, at least
/// one. So the bytes are ASCII. Linear, with at most nine bytes for a character.
pub fn print_literal(alloc: Global, word: &Word) -> Result<Vec<u8>, AllocError>
    ensures { IfOk result (λ literal. literal.items ≡ printed word.now) }
{
    let mut literal = String::new(alloc);
    literal.push('"')?;
    for c in word.as_slice() {
        push_character(&mut literal, *c)?;
    }
    literal.push('"')?;
    Ok(literal.into_bytes())
}

// Adds what a character is printed as.
fn push_character(literal: &mut String, c: u32) -> Result<(), AllocError>
    ensures { OnOk result (string_bytes literal.new ≡ string_bytes literal.old ++ shown c) }
{
    match c {
        0x22 => literal.push_str("\"\""),
        0x20..=0x5B | 0x5D..=0x7E => literal.push(char::from(c as u8)),
        _ => write!(literal, "\\u{{{c:x}}}"),
    }
}

/// A law: what stands between the quotes of a printed word is read as that word.
#[tactic(auto, using(crate::proofs::PrintLemmas::read_back))]
pub fn reads_back(word: &Word)
    ensures { lit (spelled word.now) ≡ Ok word.now }
{
    word.is_word();
}
