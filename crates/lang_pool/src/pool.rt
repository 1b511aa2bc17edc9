ghost use Rattle.std.specs.Prelude.{◌≡◌, ◌≢◌, ◌<◌, ◌↔◌, length, slice_get, IsTrue, IfOk, IfErr, IfSome, IsOkAnd, IsSomeAnd, OnErr};
ghost use Rattle.lang_pool.specs.Found.{found_value, IsShared, IfShared, IfOwned};
ghost use Rattle.lang_pool.specs.PoolNote.{known, IsNoteOf};
ghost use Rattle.once_cell.specs.Once.{cell_name};

use crate::found::PoolValue;
use crate::keyed::Keyed;
use crate::pool_note::PoolNote;
use once_cell::race::OnceBox;
use std::alloc::{AllocError, Global};
use std::marker::{Model, PhantomData};

/// Cells that threads share, each of which holds at most one value, for good.
///
/// Contracts see a pool as the list of its cells' names.
#[derive(Drop)]
pub struct Pool<K, V: Drop> {
    cells: Vec<OnceBox<V>>,
    keys: PhantomData<K>,
}

impl<K, V: Drop> Model for Pool<K, V> {
    ghost use Rattle.std.specs.Prelude.{List, ℕ, map};
    ghost use Rattle.once_cell.specs.Once.{cell_name};

    ghost Value = { List ℕ };

    ghost view = { λ pool. map cell_name pool.cells.items };
}

impl<K, V: Drop> Pool<K, V> {
    /// A pool of so many empty cells, in time and memory of one pointer a cell.
    pub fn new(alloc: Global, cells: usize) -> Result<Pool<K, V>, AllocError>
        ensures { IfOk result (λ pool. length pool ≡ cells) }
    {
        let mut empty = Vec::with_capacity(alloc, cells)?;
        for _ in 0..cells {
            empty.push(OnceBox::new(alloc))?;
        }
        Ok(Pool {
            cells: empty,
            keys: PhantomData,
        })
    }

    /// A note of a cell, which knows nothing yet.
    pub fn note(&self, cell: usize) -> PoolNote<V>
        requires { cell < length self.now }
        ensures cell { IsNoteOf self.now cell result }
        ensures known { known result ≡ None }
    {
        PoolNote {
            note: self.cell(cell).note(),
        }
    }

    fn cell(&self, cell: usize) -> &OnceBox<V>
        requires { cell < length self.now }
        ensures { slice_get self.now cell ≡ Some (cell_name result.now) }
    {
        &self.cells[cell]
    }
}

impl<K: Eq, V: Keyed<K> + Drop> Pool<K, V> {
    /// The value of the cell where it has this key, and else a value that is made for the caller.
    ///
    /// Where the note knows nothing and the cell is empty, `build` is run, and its value fills the
    /// cell unless another thread was first. Where the cell's value has another key, `build` is run
    /// for the caller alone. So it may run twice where another thread meanwhile fills the cell with
    /// another key, and not at all where the cell already has this key. The pool itself takes no
    /// memory here, and the call never waits: a look costs one atomic read and one comparison.
    pub fn get<'a, E, B: Fn() -> Result<Box<V>, E> + Drop>(
        &'a self,
        cell: usize,
        key: &K,
        note: &mut PoolNote<V>,
        build: B,
    ) -> Result<PoolValue<'a, V>, E>
        requires cell { cell < length self.now }
        requires note { IsNoteOf self.now cell note.old }
        requires callable { B.IsAlwaysCallable build }
        requires built { (made : _) → B.post build made → IfOk made (λ value. V.key_of value.value ≡ key.now) }

        // The answer.
        ensures key { IfOk result (λ found. V.key_of (found_value found) ≡ key.now) }
        ensures fits { IfOk result (λ found. V.Fits key.now (found_value found)) }
        ensures shared { IfOk result (IfShared (λ value. known note.new ≡ Some value)) }
        ensures owned { IfOk result (IfOwned (λ _. IsSomeAnd (known note.new) (λ other. V.key_of other ≢ key.now))) }
        ensures made { IfOk result (IfOwned (λ value. B.post build (Ok value))) }
        ensures error { IfErr result (λ error. B.post build (Err error)) }
        ensures refused { OnErr result (IfSome (known note.new) (λ other. V.key_of other ≢ key.now)) }

        // What the note knows.
        ensures note { IsNoteOf self.now cell note.new }
        ensures kept { IfSome (known note.old) (λ value. known note.new ≡ Some value) }
        ensures hit { IfSome (known note.old) (λ value. V.key_of value ≡ key.now → IsOkAnd result (IsShared value)) }
    {
        let seen = self
            .cell(cell)
            .get_or_try_init_as(|| build(), &mut note.note)?;
        if has_key(seen, key) {
            return Ok(PoolValue::Shared(seen));
        }
        let made = build()?;
        made.key(); // which the value fits, as every value does
        Ok(PoolValue::Owned(made))
    }
}

fn has_key<K: Eq, V: Keyed<K>>(value: &V, key: &K) -> bool
    ensures key { IsTrue result ↔ (V.key_of value.now ≡ key.now) }
    ensures fits { V.Fits (V.key_of value.now) value.now }
{
    *value.key() == *key
}
