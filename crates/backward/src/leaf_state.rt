ghost use Rattle.backward.specs.Families.{AreWide};

use crate::meeting::MetPart;
use crate::shared::Shared;
use crate::through::PreBuilt;
use machine_core::Explicit;
use sv_list::Items;
use sv_terms::Transducer;

/// How a family was made: of the variables' own parts; or of another one, with what its runs are taken
/// back by.
#[derive(Drop)]
pub enum FamilyOrigin {
    /// A first family.
    First,
    /// By a concatenation: what each piece was met to, the last piece first.
    Cut(Items<MetPart>),
    /// Through this transducer: the pre-image, and what it was met to.
    Through(Transducer, PreBuilt, MetPart),
}

/// A family of machines by the numbers of their variables: one for each variable that isn't carried
/// yet, and none for the others. All have the same number of registers. A machine that stays is shared with the
/// family that this one was made of.
pub struct LeafState {
    pub registers: usize,
    pub machines: Items<Option<Shared<Explicit>>>,
    pub made: FamilyOrigin,
    pub ghost wide: { AreWide registers machines },
}

// A drop by hand is one call where a derived one is a call for each vector inside.
impl Drop for LeafState {
    fn drop(self) {
        let Self {
            registers: _,
            machines: _,
            made: _,
        } = self;
    }
}
