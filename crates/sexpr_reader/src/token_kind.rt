// The kind of a whole token. Each test takes time in the length of the token.
ghost use Rattle.std.specs.Prelude.{◌≡◌, ◌∷◌, ◌++◌, [], List, ℕ, true, false, ◌&&◌, IfOk, IfSome, IfNone};
ghost use Rattle.std.specs.List.{list_all};
ghost use Rattle.sexpr_reader.specs.Bytes.{is_digit, is_hexadecimal, is_bit, is_symbol_byte};
ghost use Rattle.sexpr_reader.specs.Tokens.{IsPlain, is_readable, is_numeral, is_symbol, is_keyword, are_some};
ghost use Rattle.sexpr_reader.specs.declared.kind.TokenKind.{TokenKind};

use crate::bytes::{is_bit, is_digit, is_hexadecimal, is_symbol_byte};
use crate::kind::TokenKind;
use std::alloc::{AllocError, Global};
use sv_word::{LiteralFault, read_literal};

/// Whether bytes are the text of a word.
fn is_readable(alloc: Global, content: &[u8]) -> Result<bool, AllocError>
    ensures { IfOk result (λ is. is ≡ is_readable content.now) }
{
    match read_literal(alloc, content) {
        Ok(_) => Ok(true),
        Err(LiteralFault::Memory(error)) => Err(error),
        Err(_) => Ok(false),
    }
}

/// Whether the bytes between a literal's quotes are the text of a word.
pub(crate) fn is_literal(alloc: Global, token: &[u8]) -> Result<bool, AllocError>
    ensures { IfOk result (λ is. (content : List ℕ) → token.now ≡ 34 ∷ content ++ 34 ∷ [] → is ≡ is_readable content) }
{
    match token {
        [_, content @ .., _] => is_readable(alloc, content),
        _ => Ok(false),
    }
}

fn are_digits(bytes: &[u8]) -> bool
    ensures { result ≡ list_all is_digit bytes.now }
{
    bytes.iter().all(|b| is_digit(*b))
}

fn is_numeral(bytes: &[u8]) -> bool
    ensures { result ≡ is_numeral bytes.now }
{
    match bytes {
        [] => false,
        [b] => is_digit(*b),
        [b, ..] => *b != b'0' && are_digits(bytes),
    }
}

fn are_symbol_bytes(bytes: &[u8]) -> bool
    ensures { result ≡ list_all is_symbol_byte bytes.now }
{
    bytes.iter().all(|b| is_symbol_byte(*b))
}

fn are_some_digits(bytes: &[u8]) -> bool
    ensures { result ≡ are_some is_digit bytes.now }
{
    match bytes {
        [] => false,
        [b, rest @ ..] => is_digit(*b) && are_digits(rest),
    }
}

fn all_hexadecimal(bytes: &[u8]) -> bool
    ensures { result ≡ list_all is_hexadecimal bytes.now }
{
    bytes.iter().all(|b| is_hexadecimal(*b))
}

fn are_some_hexadecimal(bytes: &[u8]) -> bool
    ensures { result ≡ are_some is_hexadecimal bytes.now }
{
    match bytes {
        [] => false,
        [b, rest @ ..] => is_hexadecimal(*b) && all_hexadecimal(rest),
    }
}

fn all_bits(bytes: &[u8]) -> bool
    ensures { result ≡ list_all is_bit bytes.now }
{
    bytes.iter().all(|b| is_bit(*b))
}

fn are_some_bits(bytes: &[u8]) -> bool
    ensures { result ≡ are_some is_bit bytes.now }
{
    match bytes {
        [] => false,
        [b, rest @ ..] => is_bit(*b) && all_bits(rest),
    }
}

fn are_decimal_parts(whole: &[u8], part: &[u8]) -> bool
    ensures { result ≡ (is_numeral whole.now && are_some is_digit part.now) }
{
    is_numeral(whole) && are_some_digits(part)
}

/// Whether the bytes are a simple symbol, which needs no bars around it (SMT-LIB 2.6, section 3.1).
pub fn is_symbol(bytes: &[u8]) -> bool
    ensures { result ≡ is_symbol bytes.now }
{
    match bytes {
        [] => false,
        [b, ..] => !is_digit(*b) && are_symbol_bytes(bytes),
    }
}

fn is_keyword(bytes: &[u8]) -> bool
    ensures { result ≡ is_keyword bytes.now }
{
    match bytes {
        [] => false,
        [b, rest @ ..] => *b == b':' && is_symbol(rest),
    }
}

fn is_decimal(bytes: &[u8]) -> bool
    ensures yes { result ≡ true → IsPlain TokenKind.Decimal bytes.now }
    ensures no { result ≡ false → IsPlain TokenKind.Decimal bytes.now → ⊥ }
{
    for (i, b) in bytes.iter().enumerate() {
        if *b == b'.' {
            return are_decimal_parts(&bytes[..i], &bytes[i + 1..]);
        }
    }
    false
}

fn is_hash(bytes: &[u8]) -> Option<TokenKind>
    ensures some { IfSome result (λ kind. IsPlain kind bytes.now) }
    ensures none { IfNone result ((IsPlain TokenKind.Hexadecimal bytes.now → ⊥) × (IsPlain TokenKind.Binary bytes.now → ⊥)) }
{
    match bytes {
        [b'#', b'x', digits @ ..] if are_some_hexadecimal(digits) => Some(TokenKind::Hexadecimal),
        [b'#', b'b', digits @ ..] if are_some_bits(digits) => Some(TokenKind::Binary),
        _ => None,
    }
}

/// The kind of a run, where it is a token.
pub(crate) fn plain_kind(bytes: &[u8]) -> Option<TokenKind>
    ensures some { IfSome result (λ kind. IsPlain kind bytes.now) }
    ensures none { IfNone result ((kind : TokenKind) → IsPlain kind bytes.now → ⊥) }
{
    if is_symbol(bytes) {
        return Some(TokenKind::Symbol);
    }
    if is_numeral(bytes) {
        return Some(TokenKind::Numeral);
    }
    if is_keyword(bytes) {
        return Some(TokenKind::Keyword);
    }
    if is_decimal(bytes) {
        return Some(TokenKind::Decimal);
    }
    is_hash(bytes)
}
