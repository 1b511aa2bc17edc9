ghost use Rattle.std.specs.Prelude.{◌≡◌};
ghost use Rattle.sexpr_reader.specs.Stepping.{Begun, Acts, is_idle};

use crate::action::Action;
use crate::bytes::{is_border, is_line_end, is_white};

/// What the bytes behind the last whole token are.
#[derive(Clone, Copy)]
pub enum Mode {
    /// White space and comments.
    Blank,
    /// The same, and the last comment is unfinished.
    Comment,
    /// A token that a border ends.
    Run,
    /// A quoted symbol.
    Bars,
    /// A literal.
    Quotes,
    /// A literal with a quote last, which ends it where no quote follows.
    Quote,
}

impl Mode {
    /// What the next byte does.
    pub fn action(self, byte: u8) -> Action
        ensures { Acts self byte result }
    {
        match self {
            Mode::Blank => first_action(byte),
            Mode::Comment if is_line_end(byte) => Action::Skip(Mode::Blank),
            Mode::Comment => Action::Skip(Mode::Comment),
            Mode::Run if is_border(byte) => Action::EndRun,
            Mode::Run => Action::Take(Mode::Run),
            Mode::Bars => match byte {
                b'|' => Action::EndQuoted,
                b'\\' => Action::Refuse,
                _ => Action::Take(Mode::Bars),
            },
            Mode::Quotes if byte == b'"' => Action::Take(Mode::Quote),
            Mode::Quotes => Action::Take(Mode::Quotes),
            Mode::Quote if byte == b'"' => Action::Take(Mode::Quotes),
            Mode::Quote => Action::EndLiteral,
        }
    }

    /// Whether no token is unfinished.
    pub fn is_idle(self) -> bool
        ensures { result ≡ is_idle self }
    {
        match self {
            Mode::Blank => true,
            Mode::Comment => true,
            Mode::Run => false,
            Mode::Bars => false,
            Mode::Quotes => false,
            Mode::Quote => false,
        }
    }
}

/// What a byte does where no token is begun.
fn first_action(byte: u8) -> Action
    ensures { Begun byte result }
{
    if is_white(byte) {
        return Action::Skip(Mode::Blank);
    }
    match byte {
        b';' => Action::Skip(Mode::Comment),
        b'(' => Action::Open,
        b')' => Action::Close,
        b'|' => Action::Take(Mode::Bars),
        b'"' => Action::Take(Mode::Quotes),
        _ => Action::Take(Mode::Run),
    }
}
