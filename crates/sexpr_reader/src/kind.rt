/// The kind of a token that isn't a parenthesis (SMT-LIB 2.6, section 3.1).
#[derive(Clone, Copy)]
pub enum TokenKind {
    /// `0`, or digits that don't begin with `0`.
    Numeral,
    /// A numeral, `.`, one or more digits.
    Decimal,
    /// `#x` and one or more hexadecimal digits of either case.
    Hexadecimal,
    /// `#b` and one or more of `0` and `1`.
    Binary,
    /// Letters, digits and `~ ! @ $ % ^ & * _ - + = < > . ? /`, not beginning with a digit.
    Symbol,
    /// Bytes between bars.
    Quoted,
    /// `:` and a symbol.
    Keyword,
    /// Bytes between quotes, each quote among them doubled.
    Literal,
}
