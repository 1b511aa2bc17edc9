ghost use Rattle.std.specs.Prelude.{◌≡◌, true};

/// A value that was made for a key.
///
/// An implementation says in `Fits` what that means, as that a machine reads just the words of the
/// regular expression that is its key. Where `Fits` goes by recursion no ghost field can hold it,
/// but the invariant of the value's `Model` can.
pub trait Keyed<K: Eq> {
    /// The key of a value.
    ghost key_of: { Self → K };

    /// What it means that a value fits a key.
    ghost Fits: { K → Self → Type 0 };

    /// The key that the value was made for. Costs no more than to read a field.
    fn key(&self) -> &K
        ensures key { result.now ≡ key_of self.now }
        ensures fits { Fits (key_of self.now) self.now };

    /// Keys that compare equal are the same key.
    ghost exact: { (one : K) (other : K) → K.PartialEq.eq one other ≡ true → one ≡ other };
}
