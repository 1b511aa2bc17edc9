ghost use Rattle.std.specs.Prelude.{◌≡◌, [], IfOk};

use std::alloc::{AllocError, Global};
use sv_list::Items;

/// No element, and room for this number of them, so that a list takes no more than it holds. Refused
/// without the memory alone.
#[inline(never)]
pub fn room<T: Drop>(alloc: Global, n: usize) -> Result<Items<T>, AllocError>
    ensures { IfOk result (λ it. it ≡ []) }
{
    Ok(Items::from_vec(Vec::with_capacity(alloc, n)?))
}
