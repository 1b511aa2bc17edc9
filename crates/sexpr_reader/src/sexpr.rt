ghost use Rattle.std.specs.Prelude.{◌≡◌, IfOk};

use crate::kind::TokenKind;
use std::alloc::{AllocError, Global};
use sv_list::{Copied, Items};

/// An s-expression (SMT-LIB 2.6, section 3.2).
#[derive(Drop)]
pub enum Sexpr {
    /// A token with its bytes as they stood, quotes and bars included.
    Atom(TokenKind, Items<u8>),
    /// The items between two parentheses, in their order.
    List(Items<Sexpr>),
}

impl Sexpr {
    /// The same s-expression. It takes time and memory in its size, and a frame a level of nesting.
    #[cycle(copy)]
    pub fn copy(&self, alloc: Global) -> Result<Sexpr, AllocError>
        ensures { IfOk result (λ copy. copy ≡ self.now) }
    {
        match self {
            Sexpr::Atom(kind, bytes) => Ok(Sexpr::Atom(
                *kind,
                Items::from_slice(alloc, bytes.as_slice())?,
            )),
            Sexpr::List(items) => Ok(Sexpr::List(copy_sexprs(alloc, items.as_slice())?)),
        }
    }
}

/// The same s-expressions. It takes time and memory in their sizes, and a frame a level of nesting.
#[cycle(copy)]
pub fn copy_sexprs(alloc: Global, items: &[Sexpr]) -> Result<Items<Sexpr>, AllocError>
    ensures { IfOk result (λ all. all ≡ items.now) }
{
    let mut all = Items::new(alloc);
    for item in items {
        all.push(item.copy(alloc)?)?;
    }
    Ok(all)
}

impl Copied for Sexpr {
    fn copy(&self, alloc: Global) -> Result<Self, AllocError> {
        self.copy(alloc)
    }
}
