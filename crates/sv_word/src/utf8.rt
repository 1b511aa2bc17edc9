//! UTF-8 from 0x80 on (RFC 3629; the Unicode Standard, table 3-7).
ghost use Rattle.std.specs.Prelude.{◌≡◌, ◌↔◌, ℕ, List, ◌+◌, ◌-◌, ◌≤◌, length, IfSome};
ghost use Rattle.sv_word.specs.Utf8.{two_bytes, three_bytes, four_bytes, code_point, BeginsWith};

// The code point at the front of the bytes `a`, at least 0x80, and `more`, with the number of its
// bytes; `None` where they begin with no UTF-8.
pub(crate) fn decode(a: u8, more: &[u8]) -> Option<(u32, usize)>
    ensures exact { result ≡ code_point a more.now }
    ensures bytes { IfSome result (λ f. (1 ≤ f.1) × (f.1 ≤ length more.now + 1)) }
{
    match a {
        0xC2..=0xDF => two(a, more),
        0xE0 => three(0xA0, 0xBF, a, more),
        0xE1..=0xEC | 0xEE..=0xEF => three(0x80, 0xBF, a, more),
        0xED => three(0x80, 0x9F, a, more),
        0xF0 => four(0x90, 0xBF, a, more),
        0xF1..=0xF3 => four(0x80, 0xBF, a, more),
        0xF4 => four(0x80, 0x8F, a, more),
        _ => None,
    }
}

fn two(a: u8, more: &[u8]) -> Option<(u32, usize)>
    ensures exact { result ≡ two_bytes a more.now }
    ensures bytes { IfSome result (λ f. (1 ≤ f.1) × (f.1 ≤ length more.now + 1)) }
{
    if more.is_empty() {
        return None;
    }
    let b = more[0];
    if 0x80 <= b && b <= 0xBF {
        Some((bits(a, 0xC0) * 0x40 + bits(b, 0x80), 2))
    } else {
        None
    }
}

fn three(low: u8, high: u8, a: u8, more: &[u8]) -> Option<(u32, usize)>
    ensures exact { result ≡ three_bytes low high a more.now }
    ensures bytes { IfSome result (λ f. (1 ≤ f.1) × (f.1 ≤ length more.now + 1)) }
{
    if more.len() < 2 {
        return None;
    }
    let (b, c) = (more[0], more[1]);
    if low <= b && b <= high && 0x80 <= c && c <= 0xBF {
        Some((
            bits(a, 0xE0) * 0x1000 + bits(b, 0x80) * 0x40 + bits(c, 0x80),
            3,
        ))
    } else {
        None
    }
}

fn four(low: u8, high: u8, a: u8, more: &[u8]) -> Option<(u32, usize)>
    ensures exact { result ≡ four_bytes low high a more.now }
    ensures bytes { IfSome result (λ f. (1 ≤ f.1) × (f.1 ≤ length more.now + 1)) }
{
    if more.len() < 3 {
        return None;
    }
    let (b, c, d) = (more[0], more[1], more[2]);
    if low <= b && b <= high && 0x80 <= c && c <= 0xBF && 0x80 <= d && d <= 0xBF {
        let high_bits = bits(a, 0xF0) * 0x40000 + bits(b, 0x80) * 0x1000;
        Some((high_bits + bits(c, 0x80) * 0x40 + bits(d, 0x80), 4))
    } else {
        None
    }
}

// The bits of a byte above those that mark its kind.
fn bits(byte: u8, mark: u8) -> u32
    ensures { result ≡ byte - mark }
{
    u32::from(byte.saturating_sub(mark))
}

/// A law: the code points from 0x80 on that are read from bytes are exactly those whose UTF-8 the
/// bytes begin with.
pub fn reads_utf8()
    ensures { (a c n : ℕ) (bs : List ℕ) → (code_point a bs ≡ Some (c, n)) ↔ BeginsWith a bs c n }
{}
