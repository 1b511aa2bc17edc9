ghost use Rattle.std.specs.Prelude.{◌≡◌, ◌↔◌, [], ◌∷◌, ◌++◌, ◌≤◌, length, slice_get, take, IsTrue, IfOk, OnOk, OnErr, IfSome};
ghost use Rattle.sv_word.specs.Words.{IsWord, greatest_character};

use std::alloc::{AllocError, Global};
use std::marker::Model;
use sv_list::{Copied, Same};

/// The greatest character: they are the numbers from 0 to this one (theory UnicodeStrings of
/// SMT-LIB 2.6).
pub const GREATEST_CHARACTER: u32 = 0x2FFFF;

/// A word: a list of characters (theory UnicodeStrings of SMT-LIB 2.6).
///
/// Contracts see the list. A character takes four bytes.
#[derive(Drop)]
pub struct Word {
    characters: Vec<u32>,
}

impl Model for Word {
    ghost use Rattle.std.specs.Prelude.{List, ℕ, All, ◌≤◌};
    ghost use Rattle.sv_word.specs.Words.{greatest_character};

    ghost Value = { List ℕ };

    ghost view = { λ w. w.characters.items };

    ghost invariant = { λ w. All (λ c. c ≤ greatest_character) w.characters.items };
}

impl Word {
    /// The empty word, without taking memory.
    pub fn new(alloc: Global) -> Word
        ensures { result ≡ [] }
    {
        Word {
            characters: Vec::new(alloc),
        }
    }

    /// The number of characters.
    pub fn len(&self) -> usize
        ensures { result ≡ length self.now }
    {
        self.characters.len()
    }

    /// Whether it has no character.
    pub fn is_empty(&self) -> bool
        ensures { IsTrue result ↔ (self.now ≡ []) }
    {
        self.characters.is_empty()
    }

    /// The character at place `at`, counted from 0; `None` exactly where the word ends before it.
    pub fn get(&self, at: usize) -> Option<u32>
        ensures value { result ≡ slice_get self.now at }
        ensures bound { IfSome result (λ c. c ≤ greatest_character) }
    {
        match self.characters.get(at) {
            Some(c) => Some(*c),
            None => None,
        }
    }

    /// The characters, from the first.
    pub fn as_slice(&self) -> &[u32]
        ensures { result.now ≡ self.now }
    {
        self.characters.as_slice()
    }

    /// Adds a character at the end, in constant time but for the moves of a growing list.
    pub fn push(&mut self, c: u32) -> Result<(), AllocError>
        requires { c ≤ greatest_character }
        ensures ok { OnOk result (self.new ≡ self.old ++ c ∷ []) }
        ensures err { OnErr result (self.new ≡ self.old) }
    {
        self.characters.push(c)?;
        Ok(())
    }

    /// Adds the characters of `other` at the end, in time linear in their number.
    pub fn append(&mut self, other: &Word) -> Result<(), AllocError>
        ensures ok { OnOk result (self.new ≡ self.old ++ other.now) }
        ensures err { OnErr result (self.new ≡ self.old) }
    {
        self.characters.extend_from_slice(&other.characters)?;
        Ok(())
    }

    /// Keeps the first `n` characters; a word that has no more than these stays as it is.
    #[tactic(auto, using(crate::proofs::Characters::characters_of_take))]
    pub fn truncate(&mut self, n: usize)
        ensures { self.new ≡ take n self.old }
    {
        self.characters.truncate(n);
    }

    /// The same word, in memory of its own. Linear.
    pub fn copy(&self, alloc: Global) -> Result<Word, AllocError>
        ensures { IfOk result (λ w. w ≡ self.now) }
    {
        let characters = Vec::from_slice(alloc, &self.characters)?;
        Ok(Word { characters })
    }

    /// Whether the two are one word. Linear in the shorter one.
    pub fn same(&self, other: &Word) -> bool
        ensures { IsTrue result ↔ (self.now ≡ other.now) }
    {
        self.characters.as_slice() == other.characters.as_slice()
    }

    /// A law: each of its members is a character.
    #[tactic(auto, using(crate::proofs::Characters::word_of_all))]
    pub fn is_word(&self)
        ensures { IsWord self.now }
    {
        let _ = &self.characters;
    }
}

impl Copied for Word {
    fn copy(&self, alloc: Global) -> Result<Word, AllocError> {
        self.copy(alloc)
    }
}

impl Same for Word {
    fn same(&self, other: &Word) -> bool {
        self.same(other)
    }
}
