/// What the first item of a list makes of it, as a term (SMT-LIB 2.6, section 3.6).
#[derive(Clone, Copy)]
pub enum Opening {
    /// `let`
    Let,
    /// `forall` or `exists`
    Quantifier,
    /// `!`
    Annotation,
    /// `_`: an identifier with indices
    Identifier,
    /// Anything else.
    Application,
}
