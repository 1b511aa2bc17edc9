ghost use Rattle.std.specs.Prelude.{◌≡◌, ◌↔◌, IsTrue};

use crate::boxed::Boxed;
use crate::items::Items;

/// A value that can be told exactly from others of its type.
///
/// `==` promises a relation of the type's own choice. `Same` promises equality itself, which is
/// what a proof that goes on with the other value needs.
pub trait Same {
    /// Whether the two are one value. Costs time in the size of the smaller one.
    fn same(&self, other: &Self) -> bool
        ensures { IsTrue result ↔ (self.now ≡ other.now) };
}

impl Same for u32 {
    fn same(&self, other: &u32) -> bool {
        *self == *other
    }
}

impl<A: Same, B: Same> Same for (A, B) {
    fn same(&self, other: &(A, B)) -> bool {
        self.0.same(&other.0) && self.1.same(&other.1)
    }
}

impl<T: Same> Same for Items<T> {
    fn same(&self, other: &Items<T>) -> bool {
        same_each(self.as_slice(), other.as_slice())
    }
}

impl<T: Same> Same for Boxed<T> {
    fn same(&self, other: &Boxed<T>) -> bool {
        self.get().same(other.get())
    }
}

/// Whether the two slices have the same elements, in time linear in the smaller one.
pub fn same_each<T: Same>(a: &[T], b: &[T]) -> bool
    ensures { IsTrue result ↔ (a.now ≡ b.now) }
{
    if a.len() != b.len() {
        return false;
    }
    for i in 0..a.len() {
        if !a[i].same(&b[i]) {
            return false;
        }
    }
    true
}
