ghost use Rattle.std.specs.Prelude.{◌≡◌, ◌++◌, ◌∷◌, []};
ghost use Rattle.std.specs.Option.{option_map};

use std::marker::Model;
use sv_log::Log;

/// The names that a source was opened with, in order, each maybe none. It takes no memory.
#[derive(Drop)]
pub(crate) struct Openings {
    names: Log<Option<Log<u8>>>,
}

impl Model for Openings {
    ghost use Rattle.std.specs.Prelude.{List, ℕ, map};
    ghost use Rattle.std.specs.Option.{option_map};
    ghost use Rattle.std.specs.declared.option.Option.{Option};

    ghost Value = { List (Option (List ℕ)) };

    ghost view = { λ o. map (λ name. option_map (λ text. text.items) name) o.names.items };
}

impl Openings {
    /// It wasn't opened.
    pub(crate) fn new() -> Openings
        ensures { result ≡ [] }
    {
        Openings { names: Log::new() }
    }

    /// It was opened so far, and then with this name.
    pub(crate) fn and(&self, name: Option<&str>) -> Openings
        ensures { result ≡ self.now ++ option_map (λ text. text.now) name.entry ∷ [] }
    {
        let name = match name {
            Some(text) => Some(Log::new().extend(text.as_bytes())),
            None => None,
        };
        Openings {
            names: self.names.and(&name),
        }
    }
}
