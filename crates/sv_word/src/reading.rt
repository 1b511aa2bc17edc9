ghost use Rattle.std.specs.Prelude.{◌≡◌, ◌≢◌, ◌≤◌, ◌+◌, alloc_error, length, slice_index, IfOk, IfErr, IfSome};
ghost use Rattle.std.specs.Str.Parse.{digits_value, AllDigits};
ghost use Rattle.sv_word.specs.Literals.{lit, front_of, escape_of, braced_digits, four_digits, hex_len};
ghost use Rattle.sv_word.specs.Words.{greatest_character};

use crate::literal_fault::LiteralFault;
use crate::utf8;
use crate::word::{GREATEST_CHARACTER, Word};
use std::alloc::Global;

// Behind `\u` stand so many digits, and behind `\u{` from the fewest to the most and then `}`.
const FIXED_DIGITS: usize = 4;

const FEWEST_DIGITS: usize = 1;

const MOST_DIGITS: usize = 5;

const CLOSE: u8 = b'}';

/// The word that a string literal stands for, from the bytes between its outer quotes.
///
/// A doubled quote is one quote. `\u` with four hexadecimal digits, and `\u{` with one to five and
/// `}`, are the character with that number, up to 0x2FFFF; every other backslash stands for
/// itself, and so does every other byte below 0x80. Bytes from 0x80 on are UTF-8 (theory
/// UnicodeStrings of SMT-LIB 2.6). A fault has the place of its first byte in `raw`, and is the
/// first from the left. Linear.
pub fn read_literal(alloc: Global, raw: &[u8]) -> Result<Word, LiteralFault>
    ensures word { IfOk result (λ w. lit raw.now ≡ Ok w) }
    ensures fault { IfErr result (λ f. f ≢ LiteralFault.Memory alloc_error → lit raw.now ≡ Err f) }
{
    let mut word = Word::new(alloc);
    let mut place = 0;
    while place < raw.len() {
        let (character, len) = first_character(raw[place], &raw[place + 1..], place)?;
        word.push(character)?;
        place += len;
    }
    Ok(word)
}

// The first character of the bytes `first` and `more`, and how many of them it takes. `place` is
// that of `first` in the literal.
fn first_character(first: u8, more: &[u8], place: usize) -> Result<(u32, usize), LiteralFault>
    ensures exact { result ≡ front_of place first more.now }
    ensures character { IfOk result (λ f. f.0 ≤ greatest_character) }
    ensures bytes { IfOk result (λ f. (1 ≤ f.1) × (f.1 ≤ length more.now + 1)) }
{
    match first {
        b'"' if byte_at(more, 0) == b'"' => Ok((u32::from(first), 2)),
        b'"' => Err(LiteralFault::Quote(place)),
        b'\\' => Ok(escape(more).unwrap_or((u32::from(first), 1))),
        0..0x80 => Ok((u32::from(first), 1)),
        _ => match utf8::decode(first, more) {
            Some((c, len)) if c <= GREATEST_CHARACTER => Ok((c, len)),
            Some(_) => Err(LiteralFault::Above(place)),
            None => Err(LiteralFault::Utf8(place)),
        },
    }
}

// The character that a backslash and `more` begin with, where they begin with an escape, and how
// many bytes it takes with the backslash.
fn escape(more: &[u8]) -> Option<(u32, usize)>
    ensures exact { result ≡ escape_of more.now }
    ensures character { IfSome result (λ f. f.0 ≤ greatest_character) }
    ensures bytes { IfSome result (λ f. (1 ≤ f.1) × (f.1 ≤ length more.now + 1)) }
{
    match more {
        [b'u', b'{', digits @ ..] => read_braced(digits),
        [b'u', digits @ ..] => four(digits),
        _ => None,
    }
}

// What stands behind `\u{`.
fn read_braced(digits: &[u8]) -> Option<(u32, usize)>
    ensures exact { result ≡ braced_digits digits.now }
    ensures character { IfSome result (λ f. f.0 ≤ greatest_character) }
    ensures bytes { IfSome result (λ f. (1 ≤ f.1) × (f.1 ≤ length digits.now + 3)) }
{
    let len = digit_count(digits);
    if len < FEWEST_DIGITS || MOST_DIGITS < len || byte_at(digits, len) != CLOSE {
        return None;
    }
    let number = hex_number(&digits[..len]);
    if number <= GREATEST_CHARACTER {
        Some((number, len + 4))
    } else {
        None
    }
}

// What stands behind `\u`.
fn four(digits: &[u8]) -> Option<(u32, usize)>
    ensures exact { result ≡ four_digits digits.now }
    ensures character { IfSome result (λ f. f.0 ≤ greatest_character) }
    ensures bytes { IfSome result (λ f. (1 ≤ f.1) × (f.1 ≤ length digits.now + 2)) }
{
    if FIXED_DIGITS <= digit_count(digits) {
        Some((hex_number(&digits[..FIXED_DIGITS]), FIXED_DIGITS + 2))
    } else {
        None
    }
}

// The byte at a place, and 0 past the end.
fn byte_at(bytes: &[u8], place: usize) -> u8
    ensures { result ≡ slice_index bytes.now place }
{
    bytes.get(place).copied().unwrap_or(0)
}

// How many hexadecimal digits stand at the front.
fn digit_count(bytes: &[u8]) -> usize
    ensures { result ≡ hex_len bytes.now }
{
    bytes.iter().take_while(|b| b.is_ascii_hexdigit()).count()
}

// The number that a few hexadecimal digits write.
fn hex_number(digits: &[u8]) -> u32
    requires few { length digits.now ≤ 5 }
    requires hex { AllDigits 16 digits.now }
    ensures { result ≡ digits_value 16 digits.now }
{
    let mut number = 0;
    for b in digits {
        number = number * 16 + char::from(*b).to_digit(16).unwrap();
    }
    number
}
