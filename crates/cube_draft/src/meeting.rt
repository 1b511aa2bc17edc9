//! What the literals of a cube say, as it is gathered.
ghost use Rattle.std.specs.Prelude.{◌≡◌, ◌||◌, ◌++◌, ◌∷◌, [], false, not, length, None, IfOk, OnOk};
ghost use Rattle.literal_forms.specs.Linear.{written};
ghost use Rattle.literal_forms.specs.Shapes.{seen, text};
ghost use Rattle.flat_cubes.specs.Drafted.{HoldsDraft};
ghost use Rattle.flat_cubes.specs.Flattening.{name_of};
ghost use Rattle.cube_draft.specs.Gathered.{Becomes, Gathers, IsTermMet, IsSought, number_at};
ghost use Rattle.cube_draft.specs.Strings.{is_text};
ghost use Rattle.flat_cubes.specs.Met.{DraftView as Met, nothing_met, with_truth};

use crate::code::Code;
use crate::places::CodeNumbers;
use crate::truths::Truths;
use flat_cubes::{By, FlatDraft, Own, Quantity};
use literal_forms::string_code;
use std::alloc::{AllocError, Global};
use sv_linear::Row;
use sv_list::Items;
use sv_terms::{Name, Term};
use sv_word::Word;

/// A draft that literals are added to, with what finds the place of a term, the number of a quantity and
/// the value of a Bool constant that came before.
pub struct DraftBuilder {
    pub names: Items<Option<Name>>,
    pub places: CodeNumbers,
    pub parts: Items<(u32, (Own, bool))>,
    pub definitions: Items<(u32, By)>,
    pub equalities: Items<(u32, u32)>,
    pub quantities: Items<Quantity>,
    pub numbers: CodeNumbers,
    pub rows: Items<Row>,
    pub truths: Truths,
    pub broken: bool,
}

// A drop by hand is one call where a derived one is a call for each vector inside.
impl Drop for DraftBuilder {
    fn drop(self) {
        let Self {
            names: _,
            places: _,
            parts: _,
            definitions: _,
            equalities: _,
            quantities: _,
            numbers: _,
            rows: _,
            truths: _,
            broken: _,
        } = self;
    }
}

/// The place of a term, and whether the term came before.
pub enum TermPlace {
    Known(u32),
    New(u32),
}

impl DraftBuilder {
    /// Nothing. Takes no memory.
    pub fn new(alloc: Global) -> DraftBuilder
        ensures { Gathers result nothing_met }
    {
        DraftBuilder {
            names: Items::new(alloc),
            places: CodeNumbers::new(alloc),
            parts: Items::new(alloc),
            definitions: Items::new(alloc),
            equalities: Items::new(alloc),
            quantities: Items::new(alloc),
            numbers: CodeNumbers::new(alloc),
            rows: Items::new(alloc),
            truths: Truths::new(alloc),
            broken: false,
        }
    }

    /// The draft.
    pub fn into_draft(self, alloc: Global) -> Result<FlatDraft, AllocError>
        ensures { (d : Met) → Gathers self d → IfOk result (λ held. HoldsDraft held d) }
    {
        let DraftBuilder {
            names,
            places: _,
            parts,
            definitions,
            equalities,
            quantities,
            numbers: _,
            rows,
            truths,
            broken,
        } = self;
        let truths = truths.into_items(alloc)?;
        Ok(FlatDraft {
            names,
            parts,
            definitions,
            equalities,
            quantities,
            rows,
            truths,
            broken,
        })
    }

    /// The place at which the next new term will stand.
    pub fn next_place(&self) -> Result<u32, AllocError>
        ensures { IfOk result (λ i. i ≡ length self.now.names) }
    {
        match u32::try_from(self.names.len()) {
            Ok(place) => Ok(place),
            Err(_) => Err(AllocError),
        }
    }

    /// Puts a literal at a new place.
    fn put(&mut self) -> Result<u32, AllocError>
        ensures place { IfOk result (λ i. i ≡ length self.old.names) }
        ensures put { OnOk result (self.new ≡ record self.old { names = self.old.names ++ None ∷ [] }) }
    {
        let place = self.next_place()?;
        self.names.push(None)?;
        Ok(place)
    }

    /// Puts a constant or a compound term, by its code, at a new place.
    fn file(&mut self, code: Code, name: Option<Name>) -> Result<u32, AllocError>
        requires { number_at code self.old.places ≡ None }
        ensures place { IfOk result (λ i. i ≡ length self.old.names) }
        ensures filed { OnOk result (self.new ≡ record self.old { names = self.old.names ++ name ∷ []; places = self.old.places ++ (code, length self.old.names) ∷ [] }) }
    {
        let place = self.next_place()?;
        self.names.push(name)?;
        self.places.declare(code, place)?;
        Ok(place)
    }

    /// A literal at a new place, with the part that it is this word.
    #[tactic(auto, using(crate::proofs::Placing::literal_put))]
    pub fn literal(&mut self, word: Word) -> Result<u32, AllocError>
        ensures met { IfOk result (λ i. IsTermMet self.old self.new (text word) i) }
        ensures numbers { OnOk result (self.new.numbers ≡ self.old.numbers) }
    {
        let place = self.put()?;
        self.say(place, Own::Word(word), true)?;
        Ok(place)
    }

    /// The place of a constant or a compound term; one that didn't come before is put at a new one.
    #[tactic(auto, using(crate::proofs::Placing::sought_known, crate::proofs::Placing::sought_new))]
    pub fn seek(
        &mut self,
        alloc: Global,
        term: &Term,
        name: Option<Name>,
    ) -> Result<TermPlace, AllocError>
        requires text { is_text (written (seen term.now)) ≡ false }
        requires name { name ≡ name_of (written (seen term.now)) }
        ensures sought { IfOk result (λ p. IsSought self.old self.new (written (seen term.now)) p) }
        ensures numbers { OnOk result (self.new.numbers ≡ self.old.numbers) }
    {
        let code = Code::new(string_code(alloc, term)?);
        match self.places.get(&code) {
            Some(place) => Ok(TermPlace::Known(place)),
            None => {
                let place = self.file(code, name)?;
                Ok(TermPlace::New(place))
            }
        }
    }

    /// A definition of a place.
    pub fn define(&mut self, place: u32, by: By) -> Result<(), AllocError>
        ensures { OnOk result (self.new ≡ record self.old { definitions = self.old.definitions ++ (place, by) ∷ [] }) }
    {
        self.definitions.push((place, by))
    }

    /// What is said of a place.
    pub fn say(&mut self, place: u32, own: Own, positive: bool) -> Result<(), AllocError>
        ensures { OnOk result (self.new ≡ record self.old { parts = self.old.parts ++ (place, (own, positive)) ∷ [] }) }
    {
        self.parts.push((place, (own, positive)))
    }

    /// Two places are one.
    pub fn equate(&mut self, left: u32, right: u32) -> Result<(), AllocError>
        ensures { OnOk result (self.new ≡ record self.old { equalities = self.old.equalities ++ (left, right) ∷ [] }) }
    {
        self.equalities.push((left, right))
    }

    /// A quantity that didn't come before.
    pub fn quantity(&mut self, code: Code, quantity: Quantity) -> Result<(), AllocError>
        requires { number_at code self.old.numbers ≡ None }
        ensures { OnOk result (self.new ≡ record self.old { quantities = self.old.quantities ++ quantity ∷ []; numbers = self.old.numbers ++ (code, length self.old.quantities) ∷ [] }) }
    {
        let Ok(number) = u32::try_from(self.quantities.len()) else {
            return Err(AllocError);
        };
        self.quantities.push(quantity)?;
        self.numbers.declare(code, number)
    }

    /// The value of a Bool constant; two values break the cube.
    pub fn value(&mut self, alloc: Global, name: &Name, value: bool) -> Result<(), AllocError>
        ensures { OnOk result (Becomes self.old self.new (with_truth name.now value)) }
    {
        match self.truths.get(name) {
            Some(before) => {
                self.broken = self.broken || before != value;
                Ok(())
            }
            None => self.truths.declare(name.copy(alloc)?, value),
        }
    }

    /// Two literals that are compared: the cube is broken where this doesn't hold.
    pub fn hold(&mut self, holds: bool)
        ensures { self.new ≡ record self.old { broken = self.old.broken || not holds } }
    {
        self.broken = self.broken || !holds;
    }
}
