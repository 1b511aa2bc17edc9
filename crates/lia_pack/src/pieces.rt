ghost use Rattle.std.specs.Prelude.{◌≡◌, take, drop, IfOk};
ghost use Rattle.lia_pack.specs.Shares.{joined, joined_by};

use std::alloc::{AllocError, Global};
use sv_list::Items;

/// Some bytes of those below, and then some that these don't have.
#[derive(Clone, Copy)]
pub(crate) struct Piece {
    /// How many bytes of those below are left out before.
    pub skip: u16,
    /// How many of them come then.
    pub length: u16,
    /// How many come behind them that aren't among those below.
    pub fresh: u16,
}

/// Pieces of the bytes below, and the bytes that aren't among them, in their order; and then what is left of both.
#[derive(Drop)]
pub(crate) struct Layer {
    pieces: Items<Piece>,
    fresh: Items<u8>,
}

/// The bytes that a layer makes of those below. Linear in them.
pub(crate) fn join(alloc: Global, below: &[u8], layer: &Layer) -> Result<Items<u8>, AllocError>
    ensures { IfOk result (λ bytes. bytes ≡ joined_by below.now layer.now) }
{
    join_pieces(
        alloc,
        below,
        layer.pieces.as_slice(),
        layer.fresh.as_slice(),
    )
}

fn join_pieces(
    alloc: Global,
    below: &[u8],
    pieces: &[Piece],
    fresh: &[u8],
) -> Result<Items<u8>, AllocError>
    ensures { IfOk result (λ bytes. bytes ≡ joined below.now pieces.now fresh.now) }
{
    let mut bytes = Vec::new(alloc);
    let mut rest = below;
    let mut left = fresh;
    for piece in pieces {
        let (_, behind) = cut(rest, piece.skip as usize);
        let (shared, further) = cut(behind, piece.length as usize);
        let (own, later) = cut(left, piece.fresh as usize);
        bytes.extend_from_slice(shared)?;
        bytes.extend_from_slice(own)?;
        rest = further;
        left = later;
    }
    bytes.extend_from_slice(rest)?;
    bytes.extend_from_slice(left)?;
    Ok(Items::from_vec(bytes))
}

/// The first bytes, so many of them at most, and those behind them.
fn cut(bytes: &[u8], at: usize) -> (&[u8], &[u8])
    ensures front { result.0.now ≡ take at bytes.now }
    ensures back { result.1.now ≡ drop at bytes.now }
{
    bytes.split_at(if at < bytes.len() { at } else { bytes.len() })
}

/// How many bytes go on alike behind a gap.
const FEWEST: usize = 8;

/// A gap that is found has fewer bytes than this; else so many are left out on both sides.
const GAP: usize = 32;

/// The most bytes of one piece.
const MOST: usize = u16::MAX as usize;

/// The memory of a piece.
const PIECE: usize = 6;

/// Bytes that aren't among those below may come thick in so many bytes before the pieces are given up.
const SLACK: usize = 4096;

/// The layer that makes the bytes of those below; `None` where it takes more than an eighth of the bytes, or well before
/// the end more than a quarter of those so far. Linear in the bytes: where both don't go on alike, a gap of at most 31
/// bytes is looked for.
pub(crate) fn find_layer(
    alloc: Global,
    below: &[u8],
    bytes: &[u8],
) -> Result<Option<Layer>, AllocError> {
    let mut layer = Layer {
        pieces: Items::new(alloc),
        fresh: Items::new(alloc),
    };
    if layer.find(below, bytes)? {
        Ok(Some(layer.copy(alloc)?))
    } else {
        Ok(None)
    }
}

impl Layer {
    /// Adds the pieces that make the bytes of those below; false where they take too much memory.
    fn find(&mut self, below: &[u8], bytes: &[u8]) -> Result<bool, AllocError> {
        let mut rest = Rest {
            below,
            bytes,
            skip: 0,
        };
        for _ in 0..bytes.len() {
            if rest.bytes.is_empty() {
                break;
            }
            let (length, fresh, behind) = rest.next();
            self.add(rest.skip, length, fresh)?;
            rest = behind;
            if self.is_large(bytes.len(), rest.bytes.len()) {
                return Ok(false);
            }
        }
        self.leave_out(rest.skip.saturating_add(rest.below.len()))?;
        Ok(true)
    }

    /// Adds a piece that skips so many bytes, takes so many, and has these fresh ones.
    fn add(&mut self, skip: usize, length: usize, fresh: &[u8]) -> Result<(), AllocError> {
        for byte in fresh {
            self.fresh.push(*byte)?;
        }
        self.pieces.push(piece_of(skip, length, fresh.len()))
    }

    /// Adds pieces that leave out so many bytes of those below.
    fn leave_out(&mut self, count: usize) -> Result<(), AllocError> {
        let mut count = count;
        for _ in 0..count {
            if count == 0 {
                return Ok(());
            }
            let skip = if count < MOST { count } else { MOST };
            self.pieces.push(piece_of(skip, 0, 0))?;
            count = count.saturating_sub(skip);
        }
        Ok(())
    }

    /// Whether the layer takes too much memory for bytes of which so many are left.
    fn is_large(&self, bytes: usize, left: usize) -> bool {
        let memory = self
            .pieces
            .len()
            .saturating_mul(PIECE)
            .saturating_add(self.fresh.len());
        let done = bytes.saturating_sub(left);
        memory > bytes / 8 || memory > SLACK.saturating_add(done / 4)
    }

    /// The same layer, with no room behind its lists.
    fn copy(&self, alloc: Global) -> Result<Layer, AllocError> {
        Ok(Layer {
            pieces: Items::from_slice(alloc, self.pieces.as_slice())?,
            fresh: Items::from_slice(alloc, self.fresh.as_slice())?,
        })
    }
}

/// What is left of both, and how many bytes before it are left out below.
#[derive(Clone, Copy)]
struct Rest<'a> {
    below: &'a [u8],
    bytes: &'a [u8],
    skip: usize,
}

impl<'a> Rest<'a> {
    /// How many bytes are alike, the fresh bytes behind them, and the rest behind these.
    fn next(self) -> (usize, &'a [u8], Rest<'a>) {
        let length = count_same(self.below, self.bytes);
        let (_, shared) = cut(self.below, length);
        let (_, own) = cut(self.bytes, length);
        let gap = if length == MOST {
            Gap { shared: 0, own: 0 }
        } else {
            next_gap(shared, own)
        };
        let (fresh, bytes) = cut(own, gap.own);
        let (_, below) = cut(shared, gap.shared);
        let skip = shared.len().saturating_sub(below.len());
        (length, fresh, Rest { below, bytes, skip })
    }
}

fn piece_of(skip: usize, length: usize, fresh: usize) -> Piece {
    Piece {
        skip: narrow(skip),
        length: narrow(length),
        fresh: narrow(fresh),
    }
}

/// A number of 16 bits, or the largest of them.
fn narrow(number: usize) -> u16 {
    if number < MOST {
        number as u16
    } else {
        u16::MAX
    }
}

/// What lies between two pieces: so many bytes of those below, and so many others in their place.
#[derive(Clone, Copy)]
struct Gap {
    shared: usize,
    own: usize,
}

/// The shortest gap behind which both go on alike.
fn next_gap(below: &[u8], bytes: &[u8]) -> Gap {
    for size in 1..GAP {
        if let Some(gap) = gap_of(below, bytes, size) {
            return gap;
        }
    }
    Gap {
        shared: GAP,
        own: GAP,
    }
}

/// A gap of so many bytes of both together behind which both go on alike.
fn gap_of(below: &[u8], bytes: &[u8], size: usize) -> Option<Gap> {
    for shared in 0..size {
        let own = size - shared;
        if go_alike(cut(below, shared).1, cut(bytes, own).1) {
            return Some(Gap { shared, own });
        }
    }
    None
}

/// Whether both begin with the same few bytes, or both are at their end.
fn go_alike(below: &[u8], bytes: &[u8]) -> bool {
    cut(below, FEWEST).0 == cut(bytes, FEWEST).0
}

/// How many bytes are the same from the first on, as far as one piece goes.
fn count_same(below: &[u8], bytes: &[u8]) -> usize {
    let mut count: usize = 0;
    for (one, other) in below.iter().zip(bytes) {
        if *one != *other || count == MOST {
            return count;
        }
        count = count.saturating_add(1);
    }
    count
}
