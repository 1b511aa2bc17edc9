// The classes of bytes.
ghost use Rattle.std.specs.Prelude.{◌≡◌};
ghost use Rattle.sexpr_reader.specs.Bytes.{is_white, is_line_end, is_border, is_digit, is_hexadecimal, is_bit, is_symbol_byte};

/// Tab, LF, CR or space.
pub(crate) fn is_white(byte: u8) -> bool
    ensures { result ≡ is_white byte }
{
    matches!(byte, b'\t' | b'\n' | b'\r' | b' ')
}

/// LF or CR, which end a comment.
pub(crate) fn is_line_end(byte: u8) -> bool
    ensures { result ≡ is_line_end byte }
{
    matches!(byte, b'\n' | b'\r')
}

/// What ends a numeral, symbol or keyword in front of it.
pub(crate) fn is_border(byte: u8) -> bool
    ensures { result ≡ is_border byte }
{
    is_white(byte) || matches!(byte, b';' | b'(' | b')' | b'"' | b'|')
}

pub(crate) fn is_digit(byte: u8) -> bool
    ensures { result ≡ is_digit byte }
{
    byte >= b'0' && byte <= b'9'
}

pub(crate) fn is_hexadecimal(byte: u8) -> bool
    ensures { result ≡ is_hexadecimal byte }
{
    is_digit(byte) || (byte >= b'A' && byte <= b'F') || (byte >= b'a' && byte <= b'f')
}

pub(crate) fn is_bit(byte: u8) -> bool
    ensures { result ≡ is_bit byte }
{
    byte == b'0' || byte == b'1'
}

/// What a symbol may hold.
pub(crate) fn is_symbol_byte(byte: u8) -> bool
    ensures { result ≡ is_symbol_byte byte }
{
    is_digit(byte)
        || (byte >= b'A' && byte <= b'Z')
        || (byte >= b'a' && byte <= b'z')
        || byte == b'~'
        || byte == b'!'
        || byte == b'@'
        || byte == b'$'
        || byte == b'%'
        || byte == b'^'
        || byte == b'&'
        || byte == b'*'
        || byte == b'_'
        || byte == b'-'
        || byte == b'+'
        || byte == b'='
        || byte == b'<'
        || byte == b'>'
        || byte == b'.'
        || byte == b'?'
        || byte == b'/'
}
