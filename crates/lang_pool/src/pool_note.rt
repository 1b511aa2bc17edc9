use once_cell::race::Note;

/// What a caller has learned of one cell of a pool. It takes no bytes.
///
/// A thread makes its own by `Pool::note`; two notes of one cell that know its value agree.
#[derive(Drop)]
pub struct PoolNote<V> {
    pub(crate) note: Note<V>,
}

impl<V> PoolNote<V> {
    ghost use Rattle.std.specs.Prelude.{◌≡◌, IfSome};
    ghost use Rattle.lang_pool.specs.PoolNote.{cell_of, known};

    /// Does nothing when it runs: it lets a proof hold two notes of one cell against each other,
    /// whichever threads made them. Takes no memory.
    pub fn compare(&mut self, other: &mut PoolNote<V>)
        requires { cell_of self.old ≡ cell_of other.old }
        ensures agree { IfSome (known self.old) (λ mine. IfSome (known other.old) (λ theirs. mine ≡ theirs)) }
        ensures self_stays { self.new ≡ self.old }
        ensures other_stays { other.new ≡ other.old }
    {
        self.note.compare(other.note.again());
    }
}
