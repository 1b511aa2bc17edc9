/// What is looked for over a whole item before its terms are walked.
#[derive(Clone, Copy)]
pub enum Pass {
    /// Names that stand twice in one `let`.
    Names,
    /// Sorts that aren't known.
    Sorts,
    /// Variables of sort RegLan.
    Languages,
    /// Numerals above 2^127 - 1.
    Numbers,
}
