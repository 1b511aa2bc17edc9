ghost use Rattle.std.specs.Prelude.{◌≡◌, ◌<◌, ◌≤◌, ◌+◌, ◌*◌, ◌↔◌, IsTrue, None, length, get_or, replicate, IfOk, IfSome, true, false};
ghost use Rattle.total_marks.specs.Marks.{HasBit, IsTotalMarked, row_of};

use std::alloc::{AllocError, Global};
use sv_list::Items;

/// Marks on pairs of a row and a total, a bit each: rows of as many words, one after another.
#[derive(Drop)]
pub struct Marks {
    pub words: Items<u64>,
    /// How many words a row has.
    pub width: usize,
}

impl Marks {
    /// So many rows, with no mark.
    pub fn new(alloc: Global, rows: usize, width: usize) -> Result<Marks, AllocError>
        ensures words { IfOk result (λ marks. marks.words ≡ replicate (rows * width) 0) }
        ensures width { IfOk result (λ marks. marks.width ≡ width) }
    {
        let count = rows.saturating_mul(width);
        let words = Items::from_vec(vec![in alloc; 0; count]?);
        Ok(Marks { words, width })
    }

    /// The words of a row; `None` where there is no such row.
    pub fn row(&self, row: usize) -> Option<&[u64]>
        ensures words { IfSome result (λ words. words.now ≡ row_of self.now.words self.now.width row) }
        ensures width { IfSome result (λ words. length words.now ≡ self.now.width) }
        ensures none { result ≡ None → length self.now.words < row * self.now.width + self.now.width }
    {
        let words = self.words.as_slice();
        let count = words.len();
        let start = row.checked_mul(self.width)?;
        let stop = start.checked_add(self.width)?;
        if stop > count {
            return None;
        }
        Some(&words[start..stop])
    }

    /// Whether the total is marked at the row; there is no mark where there is no such row.
    pub(crate) fn has(&self, row: usize, total: u64) -> bool
        ensures marked { result ≡ true → IsTotalMarked self.now.words self.now.width row total }
        ensures unmarked { result ≡ false → row * self.now.width + self.now.width ≤ length self.now.words → IsTotalMarked self.now.words self.now.width row total → ⊥ }
    {
        match self.row(row) {
            Some(words) => has_bit(words, total),
            None => false,
        }
    }

    /// The word at this place of a row, and 0 where there is none.
    pub(crate) fn word(&self, row: usize, at: usize) -> u64
        ensures { at < self.now.width → result ≡ get_or self.now.words (row * self.now.width + at) 0 }
    {
        match self.place(row, at) {
            Some(place) => self.words.as_slice()[place],
            None => 0,
        }
    }

    /// Marks these bits of the word at this place of a row, if it has one. Whether any of them is new.
    pub(crate) fn add(&mut self, row: usize, at: usize, bits: u64) -> bool {
        let Some(place) = self.place(row, at) else {
            return false;
        };
        let before = self.words.as_slice()[place];
        self.words.set(place, before | bits);
        before | bits != before
    }

    // Where the word at this place of a row stands.
    fn place(&self, row: usize, at: usize) -> Option<usize>
        ensures place { IfSome result (λ place. (at < self.now.width) × (place ≡ row * self.now.width + at) × (place < length self.now.words)) }
        ensures none { result ≡ None → at < self.now.width → length self.now.words ≤ row * self.now.width + at }
    {
        if at >= self.width {
            return None;
        }
        let count = self.words.len();
        let place = row.checked_mul(self.width)?.checked_add(at)?;
        if place >= count {
            return None;
        }
        Some(place)
    }
}

/// Whether the words have the bit of this number.
pub fn has_bit(words: &[u64], number: u64) -> bool
    ensures { IsTrue result ↔ HasBit words.now number }
{
    match words.get((number / 64) as usize) {
        Some(word) => (*word >> (number % 64)) & 1 == 1,
        None => false,
    }
}
