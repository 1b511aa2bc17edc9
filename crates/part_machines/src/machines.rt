//! Machines of regular expressions that threads share.
ghost use Rattle.std.specs.Prelude.{◌≡◌, length, IfOk};
ghost use Rattle.lang_pool.specs.Found.{found_value};

use crate::digests::digest;
use crate::keep::Keep;
use lang_pool::{Pool, PoolValue};
use std::alloc::{AllocError, Global};
use sv_terms::Regex;

/// Machines of regular expressions, which threads share: each is built when it is first asked for, and kept. That
/// one takes too many states is kept too, so that it is found once.
///
/// An expression has a place by its digest. Of two expressions with one digest the first that is asked for is
/// kept, and the machine of the other is built for each that asks.
#[derive(Drop)]
pub struct Machines {
    digests: Vec<u64>,
    pool: Pool<Regex, Keep>,
    made_least: Pool<Regex, Keep>,
    ghost one_each: { length pool ≡ length digests.items },
    ghost one_least_each: { length made_least ≡ length digests.items },
}

impl Machines {
    /// Places for the expressions of these digests, which come in any order. No machine is built yet. Time is
    /// that of sorting them.
    pub fn new(alloc: Global, mut digests: Vec<u64>) -> Result<Machines, AllocError> {
        digests.sort_unstable();
        digests.dedup();
        let pool = Pool::new(alloc, digests.len())?;
        let made_least = Pool::new(alloc, digests.len())?;
        Ok(Machines {
            digests,
            pool,
            made_least,
        })
    }

    /// What came of building the machine of the expression. One without a place is built for the caller.
    ///
    /// Where it is kept, be it as the machine or as one with too many states, time is that of the digest, of a search
    /// among the digests and of one comparison; else also that of [`Keep::of`].
    pub fn find_or_build(
        &self,
        alloc: Global,
        regex: &Regex,
    ) -> Result<PoolValue<'_, Keep>, AllocError>
        ensures { IfOk result (λ found. (found_value found).0 ≡ regex.now) }
    {
        match self.digests.binary_search(&digest(regex)) {
            Ok(cell) => {
                let mut note = self.pool.note(cell);
                self.pool.get(cell, regex, &mut note, || make(alloc, regex))
            }
            Err(_) => Ok(PoolValue::Owned(make(alloc, regex)?)),
        }
    }

    /// The same with the least machine of its words, where that is sought: for machines that are met with others.
    ///
    /// Where it is kept, time is as for [`find_or_build`](Machines::find_or_build); else also that of
    /// [`Keep::made_least`].
    pub fn find_or_make_least(
        &self,
        alloc: Global,
        regex: &Regex,
    ) -> Result<PoolValue<'_, Keep>, AllocError>
        ensures { IfOk result (λ found. (found_value found).0 ≡ regex.now) }
    {
        match self.digests.binary_search(&digest(regex)) {
            Ok(cell) => {
                let mut note = self.made_least.note(cell);
                self.made_least
                    .get(cell, regex, &mut note, || self.make_least(alloc, regex))
            }
            Err(_) => Ok(PoolValue::Owned(self.make_least(alloc, regex)?)),
        }
    }

    // What is made for a place among the least, on the heap.
    fn make_least(&self, alloc: Global, regex: &Regex) -> Result<Box<Keep>, AllocError>
        ensures { IfOk result (λ keep. keep.value.0 ≡ regex.now) }
    {
        let plain = self.find_or_build(alloc, regex)?;
        let keep = plain.value().made_least(alloc)?;
        Ok(Box::new(alloc, keep)?)
    }
}

// What is made for a place, on the heap.
fn make(alloc: Global, regex: &Regex) -> Result<Box<Keep>, AllocError>
    ensures { IfOk result (λ keep. keep.value.0 ≡ regex.now) }
{
    let keep = Keep::of(alloc, regex)?;
    Ok(Box::new(alloc, keep)?)
}
