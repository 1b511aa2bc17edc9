//! Codes of terms, as lists of numbers.
ghost use Rattle.std.specs.Prelude.{◌≡◌, ◌↔◌, ◌∷◌, [], ◌++◌, IsTrue, IfOk, OnOk, drop, map, pos};
ghost use Rattle.sv_terms.specs.declared.op.Op.TheVariants as any_op;
ghost use Rattle.literal_forms.specs.Codes.{code, op_number, sort_number, truth_number, word};
ghost use Rattle.literal_forms.specs.Flats.{IsReplacement, closing, each_flat, flat, opening, replaced};
ghost use Rattle.literal_forms.specs.Linear.{before, pieces, written};
ghost use Rattle.literal_forms.specs.Shapes.{end, seen, shapes};

use std::alloc::{AllocError, Global};
use sv_list::Items;
use sv_terms::{Op, Sort, Term};

/// A list of numbers that is made from the front.
#[derive(Drop)]
pub struct Written {
    pub numbers: Items<i128>,
}

impl Written {
    /// No number.
    pub fn new(alloc: Global) -> Written
        ensures { result.numbers ≡ [] }
    {
        Written {
            numbers: Items::new(alloc),
        }
    }

    /// Puts down the opening of a node with this tag.
    #[tactic(auto, using(crate::proofs::Spelled::four))]
    pub fn open(&mut self, tag: u32) -> Result<(), AllocError>
        ensures { OnOk result (self.new.numbers ≡ self.old.numbers ++ opening tag) }
    {
        self.numbers.push(2)?;
        self.numbers.push(1)?;
        self.numbers.push(1)?;
        self.numbers.push(tag as i128)
    }

    #[tactic(auto, using(crate::proofs::Spelled::two))]
    fn close(&mut self) -> Result<(), AllocError>
        ensures { OnOk result (self.new.numbers ≡ self.old.numbers ++ closing) }
    {
        self.numbers.push(1)?;
        self.numbers.push(0)
    }

    #[tactic(auto, using(crate::proofs::Spelled::three))]
    fn put_small(&mut self, number: u32) -> Result<(), AllocError>
        ensures { OnOk result (self.new.numbers ≡ self.old.numbers ++ flat (word (number ∷ []))) }
    {
        self.numbers.push(1)?;
        self.numbers.push(1)?;
        self.numbers.push(number as i128)
    }

    fn pair(&mut self) -> Result<(), AllocError>
        ensures { OnOk result (self.new.numbers ≡ self.old.numbers ++ pos 2 ∷ []) }
    {
        self.numbers.push(2)
    }

    // Opens a pair under this tag whose first is a small number.
    #[tactic(auto, using(crate::proofs::Spelled::numbered_made))]
    fn open_numbered(&mut self, tag: u32, number: u32) -> Result<(), AllocError>
        ensures { OnOk result (self.new.numbers ≡ self.old.numbers ++ ((opening tag ++ pos 2 ∷ []) ++ flat (word (number ∷ [])))) }
    {
        self.open(tag)?;
        self.pair()?;
        self.put_small(number)?;
        Ok(())
    }

    #[tactic(auto, using(crate::proofs::Spelled::two))]
    fn put_signed(&mut self, number: i128) -> Result<(), AllocError>
        ensures { OnOk result (self.new.numbers ≡ self.old.numbers ++ pos 0 ∷ number ∷ []) }
    {
        self.numbers.push(0)?;
        self.numbers.push(number)
    }

    #[tactic(auto, using(crate::proofs::Spelled::text_none, crate::proofs::Spelled::text_step, crate::proofs::Spelled::text_all))]
    fn text(&mut self, text: &[u32]) -> Result<(), AllocError>
        ensures { OnOk result (self.new.numbers ≡ self.old.numbers ++ flat (word text.now)) }
    {
        self.numbers.push(1)?;
        self.numbers.push(text.len() as i128)?;
        for i in 0..text.len() {
            self.numbers.push(text[i] as i128)?;
        }
        Ok(())
    }

    /// Puts down a name, byte by byte.
    #[tactic(auto, using(crate::proofs::Spelled::text_none, crate::proofs::Spelled::text_step, crate::proofs::Spelled::text_all))]
    pub fn name(&mut self, name: &[u8]) -> Result<(), AllocError>
        ensures { OnOk result (self.new.numbers ≡ self.old.numbers ++ flat (word name.now)) }
    {
        self.numbers.push(1)?;
        self.numbers.push(name.len() as i128)?;
        for i in 0..name.len() {
            self.numbers.push(name[i] as i128)?;
        }
        Ok(())
    }

    /// The code of a term.
    #[cycle(codes)]
    #[tactic(auto, using(crate::proofs::Spelled::arms))]
    pub fn term(&mut self, term: &Term) -> Result<(), AllocError>
        ensures { OnOk result (self.new.numbers ≡ self.old.numbers ++ flat (code (seen term.now))) }
    {
        match term {
            Term::Truth(b) => {
                self.open(0)?;
                self.put_small(truth_number(*b))
            }
            Term::Number(n) => {
                self.open(1)?;
                self.put_signed(*n)
            }
            Term::Text(w) => {
                self.open(2)?;
                self.text(w.as_slice())
            }
            Term::Constant(name, sort) => {
                self.open_numbered(3, sort_number(*sort))?;
                self.name(name.as_bytes())
            }
            Term::Apply(op, terms) => {
                self.open_numbered(4, op_number(*op))?;
                self.each(terms.as_slice(), 0)?;
                self.close()
            }
            Term::InRe(tested, _) => {
                self.open(5)?;
                self.term(tested.get())
            }
            Term::Related(_, read, written) => {
                self.open(6)?;
                self.pair()?;
                self.term(read.get())?;
                self.term(written.get())
            }
            Term::Opaque(sort) => {
                self.open(7)?;
                self.put_small(sort_number(*sort))
            }
        }
    }

    // The terms from a place on, each behind a 2.
    #[cycle(codes)]
    #[tactic(auto, using(crate::proofs::Spelled::each_step, crate::proofs::Spelled::each_all))]
    fn each(&mut self, terms: &[Term], from: usize) -> Result<(), AllocError>
        ensures { OnOk result (self.new.numbers ≡ self.old.numbers ++ each_flat (shapes (map seen (drop from terms.now)))) }
    {
        for i in from..terms.len() {
            self.pair()?;
            self.term(&terms[i])?;
        }
        Ok(())
    }

    /// The code of a term of sort String with nested concatenations written as one.
    #[cycle(pieces)]
    #[tactic(auto, using(crate::proofs::Spelled::string_arms))]
    pub fn string(&mut self, term: &Term) -> Result<(), AllocError>
        ensures { OnOk result (self.new.numbers ≡ self.old.numbers ++ flat (code (written (seen term.now)))) }
    {
        match term {
            Term::Apply(op, terms) => {
                if is_concat(*op) {
                    self.open_numbered(4, op_number(Op::Concat))?;
                    self.pieces(terms.as_slice())?;
                    self.close()?;
                    Ok(())
                } else if is_replacement(*op) {
                    self.replacement(*op, terms.as_slice())?;
                    Ok(())
                } else {
                    self.term(term)?;
                    Ok(())
                }
            }
            _ => {
                self.term(term)?;
                Ok(())
            }
        }
    }

    #[cycle(pieces)]
    #[tactic(auto, using(crate::proofs::Spelled::replacement_none, crate::proofs::Spelled::replacement_some))]
    fn replacement(&mut self, op: Op, terms: &[Term]) -> Result<(), AllocError>
        ensures { OnOk result (self.new.numbers ≡ self.old.numbers ++ flat (code (replaced op (shapes (map seen terms.now))))) }
    {
        self.open_numbered(4, op_number(op))?;
        if terms.is_empty() {
            self.close()?;
            return Ok(());
        }
        self.pair()?;
        self.string(&terms[0])?;
        self.each(terms, 1)?;
        self.close()?;
        Ok(())
    }

    // The pieces of a concatenation, each behind a 2.
    #[cycle(pieces)]
    #[tactic(auto, using(crate::proofs::Spelled::pieces_step, crate::proofs::Spelled::pieces_all))]
    fn pieces(&mut self, terms: &[Term]) -> Result<(), AllocError>
        ensures { OnOk result (self.new.numbers ≡ self.old.numbers ++ each_flat (pieces (shapes (map seen terms.now)))) }
    {
        for i in 0..terms.len() {
            self.piece(&terms[i])?;
        }
        Ok(())
    }

    #[cycle(pieces)]
    #[tactic(auto, using(crate::proofs::Spelled::piece_arms))]
    fn piece(&mut self, term: &Term) -> Result<(), AllocError>
        ensures { OnOk result (self.new.numbers ≡ self.old.numbers ++ each_flat (before (written (seen term.now)) end)) }
    {
        match term {
            Term::Apply(op, terms) => {
                if is_concat(*op) {
                    self.pieces(terms.as_slice())?;
                    Ok(())
                } else {
                    self.pair()?;
                    self.string(term)?;
                    Ok(())
                }
            }
            _ => {
                self.pair()?;
                self.string(term)?;
                Ok(())
            }
        }
    }
}

/// The code of a term of sort String with nested concatenations written as one. Linear in the term.
pub fn string_code(alloc: Global, term: &Term) -> Result<Items<i128>, AllocError>
    ensures { IfOk result (λ c. c ≡ flat (code (written (seen term.now)))) }
{
    let mut code = Written::new(alloc);
    code.string(term)?;
    Ok(code.numbers)
}

fn is_concat(op: Op) -> bool
    ensures { IsTrue result ↔ (op ≡ any_op.Concat) }
{
    matches!(op, Op::Concat)
}

fn is_replacement(op: Op) -> bool
    ensures { IsTrue result ↔ IsReplacement op }
{
    matches!(op, Op::Replace | Op::ReplaceAll)
}

fn truth_number(value: bool) -> u32
    ensures { result ≡ truth_number value }
{
    if value { 1 } else { 0 }
}

fn sort_number(sort: Sort) -> u32
    ensures { result ≡ sort_number sort }
{
    match sort {
        Sort::Bool => 0,
        Sort::Int => 1,
        Sort::String => 2,
        Sort::RegLan => 3,
    }
}

fn op_number(op: Op) -> u32
    ensures { result ≡ op_number op }
{
    match op {
        Op::Not => 0,
        Op::And => 1,
        Op::Or => 2,
        Op::Xor => 3,
        Op::Implies => 4,
        Op::Equal => 5,
        Op::Distinct => 6,
        Op::IfThenElse => 7,
        Op::LessEqual => 8,
        Op::Less => 9,
        Op::GreaterEqual => 10,
        Op::Greater => 11,
        Op::Add => 12,
        Op::Subtract => 13,
        Op::Multiply => 14,
        Op::Length => 15,
        Op::Concat => 16,
        Op::Replace => 17,
        Op::ReplaceAll => 18,
        Op::PrefixOf => 19,
        Op::SuffixOf => 20,
        Op::Contains => 21,
        Op::IsDigit => 22,
    }
}
