//! What an edge writes.
ghost use Rattle.std.specs.Prelude.{◌≡◌, ◌↔◌, ◌≤◌, ◌+◌, ◌+ℤ◌, pos, ◌++◌, length, drop, IfOk, IsTrue};
ghost use Rattle.sv_terms.specs.Transduction.{character, written_at};

use std::alloc::{AllocError, Global};
use sv_terms::Item;
use sv_word::{GREATEST_CHARACTER, Word};

/// The character moved by a number, if it is one.
pub fn move_character(c: u32, by: i32) -> Option<u32>
    ensures { result ≡ character (pos c +ℤ by) }
{
    let sum = c as i64 + by as i64;
    if 0 <= sum && sum <= i64::from(GREATEST_CHARACTER) {
        return Some(sum as u32);
    }
    None
}

/// What the items write at a character; nothing where one of them would leave the characters. Linear in what is written.
pub fn text_at(alloc: Global, items: &[Item], c: u32) -> Result<Option<Word>, AllocError>
    ensures { IfOk result (λ o. o ≡ written_at c items.now) }
{
    let mut text = Word::new(alloc);
    for item in items {
        match item {
            Item::Text(word) => {
                text.append(word)?;
            }
            Item::Shift(by) => {
                match move_character(c, *by) {
                    Some(d) => {
                        text.push(d)?;
                    }
                    None => {
                        return Ok(None);
                    }
                }
            }
        }
    }
    Ok(Some(text))
}

/// Whether a word stands in another at a place. Linear in the word.
pub fn stands_at(written: &[u32], at: usize, word: &[u32]) -> bool
    requires { at ≤ length written.now }
    ensures { IsTrue result ↔ (drop at written.now ≡ word.now ++ drop (at + length word.now) written.now) }
{
    let rest = &written[at..];
    word.len() <= rest.len() && is_same(&rest[..word.len()], word)
}

fn is_same(a: &[u32], b: &[u32]) -> bool
    ensures { IsTrue result ↔ (a.now ≡ b.now) }
{
    a == b
}
