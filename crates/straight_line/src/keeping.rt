//! The unknowns that have a column that isn't 0.
ghost use Rattle.std.specs.Prelude.{◌≡◌, ◌<◌, length, false, get_or, IfOk, OnOk};
ghost use Rattle.straight_line.specs.Keeping.{AreQuantitiesBelow, IsQuantityBelow, kept, kept_all, nothing_kept};

use flat_cubes::Quantity;
use std::alloc::{AllocError, Global};
use sv_list::Items;
use sv_terms::Name;

/// Unknowns of rows, by their kinds.
#[derive(Drop)]
pub struct KeptUnknowns {
    /// Integer constants.
    pub integers: Items<Name>,
    /// The variables of the terms whose lengths are unknowns.
    pub registers: Items<u32>,
    /// By all quantities: the number among the integer constants.
    pub integer_numbers: Items<Option<usize>>,
    /// By all quantities: the number among the registers.
    pub register_numbers: Items<Option<usize>>,
}

/// Those of the quantities that are used, by the variables of places. Linear.
pub fn keep(
    alloc: Global,
    of: &[u32],
    quantities: Items<Quantity>,
    used: &[bool],
) -> Result<KeptUnknowns, AllocError>
    requires count { length used.now ≡ length quantities }
    requires places { AreQuantitiesBelow (length of.now) quantities }
    ensures { IfOk result (λ k. k ≡ kept_all (λ i. get_or of.now i 0) quantities used.now nothing_kept) }
{
    let mut kept = KeptUnknowns {
        integers: Items::new(alloc),
        registers: Items::new(alloc),
        integer_numbers: Items::new(alloc),
        register_numbers: Items::new(alloc),
    };
    let mut i = 0;
    for quantity in quantities.into_vec() {
        let is_used = flag_at(used, i);
        kept.add(of, quantity, is_used)?;
        i += 1;
    }
    Ok(kept)
}

fn flag_at(used: &[bool], place: usize) -> bool
    requires { place < length used.now }
    ensures inside { place < length used.now }
    ensures flag { result ≡ get_or used.now place false }
{
    used[place]
}

impl KeptUnknowns {
    fn add(&mut self, of: &[u32], quantity: Quantity, is_used: bool) -> Result<(), AllocError>
        requires { IsQuantityBelow (length of.now) quantity }
        ensures { OnOk result (self.new ≡ kept (λ i. get_or of.now i 0) quantity is_used self.old) }
    {
        if !is_used {
            self.integer_numbers.push(None)?;
            return self.register_numbers.push(None);
        }
        match quantity {
            Quantity::Integer(name) => {
                self.integer_numbers.push(Some(self.integers.len()))?;
                self.register_numbers.push(None)?;
                self.integers.push(name)
            }
            Quantity::Length(place) => {
                self.integer_numbers.push(None)?;
                self.register_numbers.push(Some(self.registers.len()))?;
                self.registers.push(of[place as usize])
            }
        }
    }
}
