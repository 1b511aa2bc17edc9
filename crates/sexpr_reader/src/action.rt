use crate::mode::Mode;

/// What a byte does.
#[derive(Clone, Copy)]
pub enum Action {
    /// It belongs to white space or a comment.
    Skip(Mode),
    /// It belongs to the unfinished token.
    Take(Mode),
    /// It opens a list.
    Open,
    /// It closes a list.
    Close,
    /// It ends the quoted symbol.
    EndQuoted,
    /// The run ends in front of it.
    EndRun,
    /// The literal ends in front of it.
    EndLiteral,
    /// It can't stand there.
    Refuse,
}
