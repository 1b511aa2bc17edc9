//! The integer constants and the lengths in terms of sort Int.
ghost use Rattle.std.specs.Prelude.{map, OnOk};
ghost use Rattle.literal_forms.specs.Shapes.{apply, end, seen, shapes, ◌⨾◌};
ghost use Rattle.sv_terms.specs.declared.op.Op.TheVariants as any_op;
ghost use Rattle.cube_draft.specs.Gathered.{AreCounted, IsCounted, IsIntegerCounted};

use crate::code::Code;
use crate::meeting::DraftBuilder;
use crate::number_terms::{Joining, joining_of};
use crate::string_terms::is_text;
use flat_cubes::Quantity;
use literal_forms::{integer_code, length_code};
use std::alloc::{AllocError, Global};
use sv_terms::{Name, Op, Term};

impl DraftBuilder {
    /// Counts the integer constants and the lengths that stand in a term of sort Int. Time is linear in the
    /// term, times the depth to which replacements nest in it.
    #[cycle(unknowns)]
    #[tactic(auto, using(crate::proofs::Quantities::count_arms))]
    pub fn count(&mut self, alloc: Global, term: &Term) -> Result<(), AllocError>
        ensures { OnOk result (IsCounted self.old self.new (seen term.now)) }
    {
        match term {
            Term::Constant(name, _) => {
                self.count_integer(alloc, name)?;
                Ok(())
            }
            Term::Apply(op, terms) => {
                self.count_applied(alloc, *op, terms.as_slice())?;
                Ok(())
            }
            _ => Ok(()),
        }
    }

    #[cycle(unknowns)]
    #[tactic(auto, using(crate::proofs::Quantities::applied_arms))]
    fn count_applied(&mut self, alloc: Global, op: Op, terms: &[Term]) -> Result<(), AllocError>
        ensures { OnOk result (IsCounted self.old self.new (apply op (shapes (map seen terms.now)))) }
    {
        match joining_of(op) {
            Joining::Length => {
                if terms.len() == 1 {
                    self.count_length(alloc, &terms[0])?;
                    Ok(())
                } else {
                    self.count_all(alloc, terms)?;
                    Ok(())
                }
            }
            _ => {
                self.count_all(alloc, terms)?;
                Ok(())
            }
        }
    }

    #[cycle(unknowns)]
    #[tactic(auto, using(crate::proofs::Quantities::counted_none, crate::proofs::Quantities::counted_step, crate::proofs::Quantities::counted_all))]
    fn count_all(&mut self, alloc: Global, terms: &[Term]) -> Result<(), AllocError>
        ensures { OnOk result (AreCounted self.old self.new (shapes (map seen terms.now))) }
    {
        for i in 0..terms.len() {
            self.count(alloc, &terms[i])?;
        }
        Ok(())
    }

    #[tactic(auto, using(crate::proofs::Quantities::integer_known, crate::proofs::Quantities::integer_new))]
    fn count_integer(&mut self, alloc: Global, name: &Name) -> Result<(), AllocError>
        ensures { OnOk result (IsIntegerCounted self.old self.new name.now) }
    {
        let code = Code::new(integer_code(alloc, name)?);
        match self.numbers.get(&code) {
            Some(_) => Ok(()),
            None => {
                let name = name.copy(alloc)?;
                self.quantity(code, Quantity::Integer(name))?;
                Ok(())
            }
        }
    }

    // The length of a literal is a number.
    #[tactic(auto, using(crate::proofs::Quantities::length_text, crate::proofs::Quantities::length_known, crate::proofs::Quantities::length_new))]
    fn count_length(&mut self, alloc: Global, term: &Term) -> Result<(), AllocError>
        ensures { OnOk result (IsCounted self.old self.new (apply any_op.Length (seen term.now ⨾ end))) }
    {
        if is_text(term) {
            return Ok(());
        }
        let code = Code::new(length_code(alloc, term)?);
        match self.numbers.get(&code) {
            Some(_) => Ok(()),
            None => {
                let place = self.place(alloc, term)?;
                self.quantity(code, Quantity::Length(place))?;
                Ok(())
            }
        }
    }
}
