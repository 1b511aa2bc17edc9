ghost use Rattle.std.specs.Prelude.{◌≡◌, ◌==◌, ◌<◌, ◌+◌, ◌++◌, ◌∷◌, [], ℕ, List, Bool, true, false, not, length, take, is_ok, is_some, OnOk, MatchResult};
ghost use Rattle.std.specs.Option.{option_map};
ghost use Rattle.std.specs.declared.option.Option.{Option};
ghost use Rattle.std.specs.Io.{ReadsAtMost};
ghost use Rattle.std.specs.Io.KnownBytes.{ReadConsumes};
ghost use Rattle.sv_io.specs.Counts.{HasCause};
ghost use Rattle.sv_io.specs.Histories.{Input};
ghost use Rattle.sv_io.specs.Names.{IsOwn};

use thiserror::Error;

/// A call failed, and the count of faults of the object that it was made on rose.
#[derive(Clone, Copy, Debug, Error, PartialEq, Eq)]
#[error("the call failed")]
pub struct Failed;

/// Where the bytes of a script come from: opened once, and then read to its end.
pub trait Source {
    /// What was read: the bytes that the reads gave, how many the last of them gave, whether that one met the end,
    /// and the names that it was opened with. Every source tells it.
    ghost input: { Self → Input };

    /// A read may follow: it is open, and no read since failed or met the end.
    ghost goes_on: { Self → Bool };

    /// The bytes left, where the source tells them: memory does, and a file doesn't.
    ghost left: { Self → Option (List ℕ) };

    ghost is_open: { Self → Bool };

    /// Its own name, or that it has none, where the source tells it.
    ghost own_name: { Self → Option (Option (List ℕ)) };

    /// `open` was called with another name than its own.
    ghost is_astray: { Self → Bool };

    /// How many calls failed. It stays at the last value of a `u64`.
    ghost faults: { Self → ℕ };

    /// The most bytes that it may still give.
    ghost room: { Self → ℕ };

    /// Opens what `name` names, and standard input without one. The source is open afterwards
    /// exactly where the answer is Ok, and only then may be read. Fails where it can't be opened, and where the source
    /// tells its own name and `name` is another; then it is astray from now on.
    fn open(&mut self, name: Option<&str>) -> Result<(), Failed>
        requires { is_open self.old ≡ false }
        ensures opened { is_open self.new ≡ is_ok result }
        ensures goes_on { goes_on self.new ≡ is_ok result }
        ensures openings { (input self.new).openings ≡ (input self.old).openings ++ option_map (λ text. text.now) name.entry ∷ [] }
        ensures given { (input self.new).given ≡ (input self.old).given }
        ensures last { (input self.new).last ≡ 0 }
        ensures at_end { (input self.new).at_end ≡ false }
        ensures named { OnOk result (IsOwn (own_name self.old) (option_map (λ text. text.now) name.entry)) }
        ensures right { IsOwn (own_name self.old) (option_map (λ text. text.now) name.entry) → is_astray self.new ≡ is_astray self.old }
        ensures wrong { (IsOwn (own_name self.old) (option_map (λ text. text.now) name.entry) → ⊥) → is_astray self.new ≡ true }
        ensures cause { HasCause (faults self.old) (faults self.new) result }
        ensures bytes { left self.new ≡ left self.old }
        ensures room { room self.new ≡ room self.old }
        ensures same_name { own_name self.new ≡ own_name self.old };

    /// Puts the next bytes at the front of `buffer`, and answers how many: 0 only at the end. It
    /// may give fewer than are left and than there is place for. After a failure nothing is lost.
    /// Another read may follow only where this one gave a byte.
    fn read(&mut self, buffer: &mut [u8]) -> Result<usize, Failed>
        requires open { is_open self.old ≡ true }
        requires goes_on { goes_on self.old ≡ true }
        requires place { 0 < length buffer.old }
        ensures bound { ReadsAtMost result buffer.new }
        ensures given { MatchResult result (λ count. (input self.new).given ≡ (input self.old).given ++ take count buffer.new) (λ _. (input self.new).given ≡ (input self.old).given) }
        ensures last { MatchResult result (λ count. (input self.new).last ≡ count) (λ _. (input self.new).last ≡ 0) }
        ensures at_end { MatchResult result (λ count. (input self.new).at_end ≡ (count == 0)) (λ _. (input self.new).at_end ≡ false) }
        ensures goes_on { MatchResult result (λ count. goes_on self.new ≡ not (count == 0)) (λ _. goes_on self.new ≡ false) }
        ensures openings { (input self.new).openings ≡ (input self.old).openings }
        ensures bytes { ReadConsumes (left self.old) (left self.new) result buffer.new }
        ensures told { is_some (left self.new) ≡ is_some (left self.old) }
        ensures room { MatchResult result (λ count. room self.new + count ≡ room self.old) (λ _. room self.new ≡ room self.old) }
        ensures cause { HasCause (faults self.old) (faults self.new) result }
        ensures open { is_open self.new ≡ true }
        ensures astray { is_astray self.new ≡ is_astray self.old }
        ensures same_name { own_name self.new ≡ own_name self.old };
}
