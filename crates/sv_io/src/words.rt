ghost use Rattle.std.specs.Prelude.{◌≡◌, ◌++◌, [], ◌∷◌, length, map, string_bytes, slice_get, OnOk, OnErr};
ghost use Rattle.std.specs.Option.{option_map};

use std::alloc::{AllocError, Global};
use std::marker::Model;

/// The words of the command line behind the program's name, in order. Contracts see the list of
/// the words' bytes.
#[derive(Drop)]
pub struct ProgramArguments {
    words: Vec<String>,
}

impl Model for ProgramArguments {
    ghost use Rattle.std.specs.Prelude.{List, ℕ, map, string_bytes};

    ghost Value = { List (List ℕ) };

    ghost view = { λ w. map string_bytes w.words.items };
}

impl ProgramArguments {
    /// No words.
    pub fn new(alloc: Global) -> ProgramArguments
        ensures { result ≡ [] }
    {
        ProgramArguments {
            words: Vec::new(alloc),
        }
    }

    /// Adds a word at the end. Takes memory for a copy of the word.
    pub fn push(&mut self, alloc: Global, word: &str) -> Result<(), AllocError>
        ensures ok { OnOk result (self.new ≡ self.old ++ word.now ∷ []) }
        ensures err { OnErr result (self.new ≡ self.old) }
    {
        self.words.push(String::from_str(alloc, word)?)?;
        Ok(())
    }

    /// How many words there are.
    pub fn len(&self) -> usize
        ensures { result ≡ length self.now }
    {
        self.words.len()
    }

    /// The word at this place, counted from 0, and `None` where there are no more than `at` words.
    pub fn get(&self, at: usize) -> Option<&str>
        ensures { option_map (λ word. word.now) result ≡ slice_get self.now at }
    {
        match self.words.get(at) {
            Some(word) => Some(word.as_str()),
            None => None,
        }
    }

    /// All the words, as `clap` takes them.
    pub fn as_slice(&self) -> &[String]
        ensures { map string_bytes result.now ≡ self.now }
    {
        &self.words
    }
}
