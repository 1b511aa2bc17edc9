use std::slice;
use sv_list::Items;
use sv_terms::Transducer;
use sv_word::Word;

/// How the word of a variable comes from those of others, which are named by their numbers.
#[derive(Drop)]
pub enum By {
    /// The words of these, joined in this order.
    Concat(Items<u32>),
    /// The word of the variable with the second word in the place of the first occurrence of the first.
    First(Word, Word, u32),
    /// The same for each occurrence from the left without overlap.
    All(Word, Word, u32),
    /// A word that the transducer may write for the word of the variable.
    Through(Transducer, u32),
}

/// The definition of a variable.
#[derive(Drop)]
pub struct Definition {
    pub variable: u32,
    pub by: By,
}

impl By {
    ghost use Rattle.std.specs.Prelude.{◌≡◌};
    ghost use Rattle.flat_cubes.specs.Using.{used};

    /// The variables that it uses, one for each occurrence. Constant time.
    pub fn uses(&self) -> &[u32]
        ensures { result.now ≡ used self.now }
    {
        match self {
            By::Concat(pieces) => pieces.as_slice(),
            By::First(_, _, read) => slice::from_ref(read),
            By::All(_, _, read) => slice::from_ref(read),
            By::Through(_, read) => slice::from_ref(read),
        }
    }
}
