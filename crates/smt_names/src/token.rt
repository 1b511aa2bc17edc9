// What tokens stand for in commands and terms. Each takes time linear in the token.
ghost use Rattle.std.specs.Char.{digit_value, is_ascii_hexdigit};
ghost use Rattle.std.specs.List.{list_all};
ghost use Rattle.std.specs.Map.{lookup};
ghost use Rattle.std.specs.Prelude.{◌≡◌, ◌^◌, ◌≤◌, ◌<◌, IsTrue, false, length, map, pos, MatchOption, IfOk};
ghost use Rattle.std.specs.Option.{option_copied, option_map};
ghost use Rattle.std.specs.Str.Parse.{digits_value};
ghost use Rattle.sv_terms.specs.Names.{symbol_name};
ghost use Rattle.smt_names.specs.Form.{seen, forms, two};
ghost use Rattle.smt_names.specs.Signature.{same_name};
ghost use Rattle.smt_names.specs.Tokens as t;

use crate::opening::Opening;
use sexpr_reader::{Sexpr, TokenKind};
use std::alloc::{AllocError, Global};
use sv_word::{GREATEST_CHARACTER, LiteralFault, Word, read_literal};

/// A symbol's name, without the bars of a quoted one.
pub fn bare_name(text: &[u8]) -> &[u8]
    ensures { result.now ≡ symbol_name text.now }
{
    match text {
        [b'|', inner @ .., b'|'] => inner,
        _ => text,
    }
}

/// The text of a symbol, with the bars of a quoted one.
pub fn symbol(item: &Sexpr) -> Option<&[u8]>
    ensures { option_map (λ text. symbol_name text.now) result ≡ t.symbol (seen item.now) }
{
    match item {
        Sexpr::Atom(TokenKind::Symbol, text) => Some(text.as_slice()),
        Sexpr::Atom(TokenKind::Quoted, text) => Some(text.as_slice()),
        _ => None,
    }
}

/// A word of the syntax, which is written without bars.
pub fn word(item: &Sexpr) -> Option<&[u8]>
    ensures { option_copied result ≡ t.word (seen item.now) }
{
    match item {
        Sexpr::Atom(TokenKind::Symbol, text) => Some(text.as_slice()),
        _ => None,
    }
}

/// The digits of a numeral.
pub fn digits(item: &Sexpr) -> Option<&[u8]>
    ensures { option_copied result ≡ t.digits (seen item.now) }
{
    match item {
        Sexpr::Atom(TokenKind::Numeral, text) => Some(text.as_slice()),
        _ => None,
    }
}

/// A keyword, colon included.
pub fn keyword(item: &Sexpr) -> Option<&[u8]>
    ensures { option_copied result ≡ t.keyword (seen item.now) }
{
    match item {
        Sexpr::Atom(TokenKind::Keyword, text) => Some(text.as_slice()),
        _ => None,
    }
}

/// The text of a literal, quotes included.
pub fn literal_text(item: &Sexpr) -> Option<&[u8]>
    ensures { option_copied result ≡ t.literal_text (seen item.now) }
{
    match item {
        Sexpr::Atom(TokenKind::Literal, text) => Some(text.as_slice()),
        _ => None,
    }
}

/// The items of a list.
#[tactic(auto, using(crate::specs::Shapes::shapes))]
pub fn list_items(item: &Sexpr) -> Option<&[Sexpr]>
    ensures { option_map (λ items. forms (map seen items.now)) result ≡ t.listed (seen item.now) }
{
    match item {
        Sexpr::Atom(_, _) => None,
        Sexpr::List(items) => Some(items.as_slice()),
    }
}

/// The two items of a list of two.
#[tactic(auto, using(crate::specs::Shapes::shapes))]
pub fn pair(item: &Sexpr) -> Option<(&Sexpr, &Sexpr)>
    ensures { option_map (λ p. (seen p.0.now, seen p.1.now)) result ≡ two (seen item.now) }
{
    match item {
        Sexpr::List(items) => match items.as_slice() {
            [first, second] => Some((first, second)),
            _ => None,
        },
        Sexpr::Atom(_, _) => None,
    }
}

/// The number that digits write, if it is below 2^127.
#[tactic(auto, using(crate::proofs::Values::values))]
pub fn number(digits: &[u8]) -> Option<i128>
    ensures { MatchOption result (2 ^ 127 ≤ t.value digits.now) (λ n. (t.value digits.now < 2 ^ 127) × (n ≡ pos (t.value digits.now))) }
{
    let mut n: i128 = 0;
    for digit in digits {
        let digit = digit.saturating_sub(b'0');
        n = n.checked_mul(10)?.checked_add(i128::from(digit))?;
    }
    Some(n)
}

/// A number of levels, which is 4,294,967,295 from there on; nothing above 2^127 - 1.
pub fn level(digits: &[u8]) -> Option<u32>
    ensures { MatchOption result (2 ^ 127 ≤ t.value digits.now) (λ n. (t.value digits.now < 2 ^ 127) × (n ≡ t.level digits.now)) }
{
    let n = number(digits)?;
    Some(n.min(i128::from(u32::MAX)) as u32)
}

/// The word between a literal's quotes.
pub fn literal_word(alloc: Global, text: &[u8]) -> Result<Option<Word>, AllocError>
    ensures { IfOk result (λ w. w ≡ t.literal_word text.now) }
{
    let raw = match text {
        [_, raw @ .., _] => raw,
        _ => &text[..0],
    };
    match read_literal(alloc, raw) {
        Ok(word) => Ok(Some(word)),
        Err(LiteralFault::Memory(error)) => Err(error),
        Err(_) => Ok(None),
    }
}

fn hexadecimal(byte: u8) -> Option<u32>
    ensures { MatchOption result (is_ascii_hexdigit byte ≡ false) (λ d. IsTrue (is_ascii_hexdigit byte) × (d ≡ digit_value byte) × (d < 16)) }
{
    char::from(byte).to_digit(16)
}

/// The number that hexadecimal digits write, five at most.
#[tactic(auto, using(crate::proofs::Values::hexadecimal))]
fn hexadecimals(digits: &[u8]) -> Option<u32>
    requires { length digits.now ≤ 5 }
    ensures { MatchOption result (list_all is_ascii_hexdigit digits.now ≡ false) (λ n. IsTrue (list_all is_ascii_hexdigit digits.now) × (n ≡ digits_value 16 digits.now)) }
{
    let mut n: u32 = 0;
    for digit in digits {
        n = 16 * n + hexadecimal(*digit)?;
    }
    Some(n)
}

/// The character that one to five hexadecimal digits write.
fn character_of(digits: &[u8]) -> Option<u32>
    ensures { result ≡ t.character_of digits.now }
{
    if digits.is_empty() || digits.len() > 5 {
        return None;
    }
    let c = hexadecimals(digits)?;
    if c <= GREATEST_CHARACTER {
        Some(c)
    } else {
        None
    }
}

/// The character of a hexadecimal token.
pub fn character_token(item: &Sexpr) -> Option<u32>
    ensures { result ≡ t.character_token (seen item.now) }
{
    match item {
        Sexpr::Atom(TokenKind::Hexadecimal, text) => match text.as_slice() {
            [_, _, digits @ ..] => character_of(digits),
            _ => character_of(b""),
        },
        _ => None,
    }
}

fn opening_of(word: &[u8]) -> Opening
    ensures { result ≡ t.or_application (lookup (same_name word.now) t.openings) }
{
    match word {
        b"let" => Opening::Let,
        b"forall" => Opening::Quantifier,
        b"exists" => Opening::Quantifier,
        b"!" => Opening::Annotation,
        b"_" => Opening::Identifier,
        _ => Opening::Application,
    }
}

/// What the first item of a list makes of it.
pub fn opening(first: &Sexpr) -> Opening
    ensures { result ≡ t.opening (seen first.now) }
{
    match word(first) {
        Some(word) => opening_of(word),
        None => Opening::Application,
    }
}

/// Whether it may stand where a sort does.
pub fn is_sort_form(item: &Sexpr) -> bool
    ensures { result ≡ t.is_sort_form (seen item.now) }
{
    match item {
        Sexpr::Atom(TokenKind::Symbol, _) => true,
        Sexpr::Atom(TokenKind::Quoted, _) => true,
        Sexpr::Atom(_, _) => false,
        Sexpr::List(_) => true,
    }
}
