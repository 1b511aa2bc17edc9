//! The unknowns of linear forms.
ghost use Rattle.std.specs.Prelude.{◌≡◌, IfOk};
ghost use Rattle.literal_forms.specs.Flats.{flat};
ghost use Rattle.literal_forms.specs.Linear.{Unknown, integer, length_of, other, unknown_code, written};
ghost use Rattle.literal_forms.specs.Numbered.{AreNumbered, HasNumber, place_of};
ghost use Rattle.literal_forms.specs.Shapes.{seen};

use crate::code::Written;
use std::alloc::{AllocError, Global};
use sv_list::Items;
use sv_terms::{Name, Term};

// The tags of the codes of unknowns.
const INTEGER: u32 = 0;

const LENGTH: u32 = 1;

const OTHER: u32 = 2;

/// The code of an integer constant as an unknown. Linear in the name.
pub fn integer_code(alloc: Global, name: &Name) -> Result<Items<i128>, AllocError>
    ensures { IfOk result (λ c. c ≡ flat (unknown_code (integer name.now))) }
{
    let mut code = Written::new(alloc);
    code.open(INTEGER)?;
    code.name(name.as_bytes())?;
    Ok(code.numbers)
}

/// The code of the length of a string term as an unknown. Linear in the term.
pub fn length_code(alloc: Global, term: &Term) -> Result<Items<i128>, AllocError>
    ensures { IfOk result (λ c. c ≡ flat (unknown_code (length_of (written (seen term.now))))) }
{
    let mut code = Written::new(alloc);
    code.open(LENGTH)?;
    code.string(term)?;
    Ok(code.numbers)
}

/// The code of any other term of sort Int as an unknown. Linear in the term.
pub fn whole_code(alloc: Global, term: &Term) -> Result<Items<i128>, AllocError>
    ensures { IfOk result (λ c. c ≡ flat (unknown_code (other (seen term.now)))) }
{
    let mut code = Written::new(alloc);
    code.open(OTHER)?;
    code.term(term)?;
    Ok(code.numbers)
}

/// Unknowns by their codes: the number of an unknown is the place of its code.
#[derive(Drop)]
pub struct Unknowns {
    pub codes: Items<Items<i128>>,
}

impl Unknowns {
    /// No unknown.
    #[tactic(auto, using(crate::proofs::Numbers::none_numbered))]
    pub fn new(alloc: Global) -> Unknowns
        ensures { AreNumbered result.codes }
    {
        Unknowns {
            codes: Items::new(alloc),
        }
    }

    /// The number of an unknown, which is put behind the others where it isn't there.
    pub fn number(&mut self, code: Items<i128>) -> Result<u32, AllocError>
        requires { AreNumbered self.old.codes }
        ensures { (u : Unknown) → code ≡ flat (unknown_code u) → IfOk result (λ k. HasNumber self.old.codes self.new.codes u k) }
    {
        let at = place(self.codes.as_slice(), code.as_slice());
        let Ok(number) = u32::try_from(at) else {
            return Err(AllocError);
        };
        if at < self.codes.len() {
            return Ok(number);
        }
        self.codes.push(code)?;
        Ok(number)
    }
}

/// The place of a code, the number of codes where it isn't there.
#[tactic(auto, using(crate::proofs::Numbers::place_here, crate::proofs::Numbers::place_later, crate::proofs::Numbers::place_nowhere))]
fn place(codes: &[Items<i128>], code: &[i128]) -> usize
    ensures { result ≡ place_of codes.now code.now }
{
    for i in 0..codes.len() {
        if codes[i].as_slice() == code {
            return i;
        }
    }
    codes.len()
}
