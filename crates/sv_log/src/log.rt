ghost use Rattle.std.specs.Borrow.{ftrue};
ghost use Rattle.std.specs.Prelude.{◌≡◌, List, [], ◌∷◌, ◌++◌};

use std::marker::{Model, PhantomData};

/// What happened so far, in order: a clause reads the list as `items`. It takes no memory, and its calls do
/// nothing when the program runs.
#[derive(Drop)]
pub struct Log<A> {
    of: PhantomData<A>,
    pub ghost items: { List A },
}

impl<A> Model for Log<A> {
    ghost also_owns = { λ _. ftrue };
}

impl<A> Log<A> {
    /// Nothing happened.
    pub fn new() -> Log<A>
        ensures { result.items ≡ [] }
    {
        Log { of: PhantomData }
    }

    /// What happened so far, and then these, in their order. It looks at none of them.
    pub fn extend(&self, items: &[A]) -> Log<A>
        ensures { result.items ≡ self.now.items ++ items.now }
    {
        Log { of: PhantomData }
    }

    /// What happened so far, and then this.
    pub fn and(&self, item: &A) -> Log<A>
        ensures { result.items ≡ self.now.items ++ item.now ∷ [] }
    {
        Log { of: PhantomData }
    }
}
