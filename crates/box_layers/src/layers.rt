//! All machines in turn, as one machine.
ghost use Rattle.std.specs.Prelude.{◌≡◌, ℕ, pos, ◌+◌, ◌<◌, ◌≤◌, ◌↔◌, slice_get, Some, List, ◌++◌, length, map, take, All, false, IsTrue, MatchOption, IfOk};
ghost use Rattle.machine_core.specs.Costs.{zeros};
ghost use Rattle.search_hits.specs.Boxes.{IsSide, HaveSides, point_side};
ghost use Rattle.search_hits.specs.Hits.{HaveRegisters};
ghost use Rattle.search_hits.specs.Regions.{AreWithin, FitsRegion, whole_side, sides_of};
ghost use Rattle.box_layers.specs.Layers.{layer, uppers_of, AreGood, AreGoodTotals, LayerStep, LayerEnd, IsLayerOf, layers_top, layers_size};
ghost use Rattle.box_layers.specs.LayerLaws.{first-layer, next-layer, layer-character, layer-step_cost, layer-end_cost, length-uppers, few-layers};

use crate::finding::find;
use crate::layer::Layer;
use crate::moving::{moves_onward, moves_within};
use machine_core::{Cost, Explicit, Machine, Move};
use search_hits::Region;
use std::alloc::{AllocError, Global};
use sv_linear::Row;
use sv_list::Items;

/// Machines in turn, whose words are those of a run of each, one character longer for each machine, with
/// totals in the region that meet the rows together with some whole numbers of it.
#[derive(Drop)]
pub struct Layers<'a> {
    pub machines: &'a [Explicit],
    pub integers: u32,
    pub rows: &'a [Row],
    pub region: &'a Region,
    pub ghost registers: { HaveRegisters (length region.now.registers) machines.now },
    pub ghost integer_sides: { length region.now.integers ≡ integers },
    pub ghost unknowns: { HaveSides (integers + length region.now.registers) rows.now },
    pub ghost fits: { All (FitsRegion region.now) rows.now },
}

impl<'a> Layers<'a> {
    /// Whole numbers of the region that meet the rows with these totals; `None` exactly where there are
    /// none, or a total isn't in the region.
    pub fn numbers(&self, alloc: Global, totals: &[u64]) -> Result<Option<Items<i128>>, AllocError>
        requires { length totals.now ≡ length self.now.region.now.registers }
        ensures { IfOk result (λ o. MatchOption o (AreGoodTotals self.now.rows.now self.now.region.now totals.now → ⊥)
            (λ numbers. AreWithin (map whole_side self.now.region.now.registers) (map pos totals.now)
            × AreGood self.now.rows.now self.now.region.now totals.now numbers)) }
    {
        if !are_within(self.region.registers.as_slice(), totals) {
            return Ok(None);
        }
        if !have_numbers(self.region.integers.as_slice()) {
            return Ok(None);
        }
        let sides = sides_at(alloc, self.region.integers.as_slice(), totals)?;
        match find(alloc, self.rows, sides.as_slice())? {
            Some(point) => Ok(Some(front(point, self.integers as usize))),
            None => Ok(None),
        }
    }

    /// Whether there are such numbers.
    pub fn has_numbers(&self, alloc: Global, totals: &[u64]) -> Result<bool, AllocError>
        requires { length totals.now ≡ length self.now.region.now.registers }
        ensures { IfOk result (λ b. IsTrue b ↔ AreGoodTotals self.now.rows.now self.now.region.now totals.now) }
    {
        let numbers = self.numbers(alloc, totals)?;
        Ok(numbers.is_some())
    }

    /// Whether some numbers and totals of the region meet the rows, whatever the machines.
    pub fn has_point(&self, alloc: Global) -> Result<bool, AllocError>
        ensures { IfOk result (λ b. b ≡ false → (totals : List ℕ) → AreGoodTotals self.now.rows.now self.now.region.now totals → ⊥) }
    {
        let sides = all_sides(alloc, self.region)?;
        if !have_numbers(sides.as_slice()) {
            return Ok(false);
        }
        let point = find(alloc, self.rows, sides.as_slice())?;
        Ok(point.is_some())
    }
}

// The sides of the numbers, and then those of the totals.
fn all_sides(alloc: Global, region: &Region) -> Result<Items<(i128, i128)>, AllocError>
    ensures { IfOk result (λ sides. sides ≡ sides_of region.now) }
{
    let mut sides = Items::from_slice(alloc, region.integers.as_slice())?;
    for (low, high) in region.registers.as_slice() {
        sides.push((*low as i128, *high as i128))?;
    }
    Ok(sides)
}

fn machine_at(machines: &[Explicit], at: usize) -> &Explicit
    requires { at < length machines.now }
    ensures { slice_get machines.now at ≡ Some result.now }
{
    &machines[at]
}

// Whether each total lies in its side.
fn are_within(sides: &[(u64, u64)], totals: &[u64]) -> bool
    requires { length totals.now ≡ length sides.now }
    ensures { IsTrue result ↔ AreWithin (map whole_side sides.now) (map pos totals.now) }
{
    for (register, total) in totals.iter().enumerate() {
        let (low, high) = sides[register];
        if *total < low || *total > high {
            return false;
        }
    }
    true
}

// Whether each side holds some number.
fn have_numbers(sides: &[(i128, i128)]) -> bool
    ensures { IsTrue result ↔ All IsSide sides.now }
{
    for (low, high) in sides {
        if *low > *high {
            return false;
        }
    }
    true
}

// The sides of the numbers, and then one for each total that holds it alone.
fn sides_at(
    alloc: Global,
    integers: &[(i128, i128)],
    totals: &[u64],
) -> Result<Items<(i128, i128)>, AllocError>
    ensures { IfOk result (λ sides. sides ≡ integers.now ++ map point_side totals.now) }
{
    let mut sides = Items::from_slice(alloc, integers)?;
    for total in totals {
        let whole = *total as i128;
        sides.push((whole, whole))?;
    }
    Ok(sides)
}

// The first numbers, so many of them.
fn front(numbers: Items<i128>, count: usize) -> Items<i128>
    requires { count ≤ length numbers }
    ensures { result ≡ take count numbers }
{
    let mut left = numbers.into_vec();
    left.truncate(count);
    Items::from_vec(left)
}

impl<'a> Machine for Layers<'a> {
    type St = Layer;

    ghost width = { λ m. length m.region.now.registers };

    ghost is_state = { λ m. IsLayerOf m.machines.now (uppers_of m.region.now) (AreGoodTotals m.rows.now m.region.now) };

    ghost first = { λ m. layer 0 0 (zeros (length m.region.now.registers)) };

    ghost ends_with = { λ m. LayerEnd m.machines.now (uppers_of m.region.now) (AreGoodTotals m.rows.now m.region.now) };

    ghost steps_to = { λ m. LayerStep m.machines.now (uppers_of m.region.now) (AreGoodTotals m.rows.now m.region.now) };

    ghost top = { λ m. layers_top m.machines.now };

    ghost size = { λ m. layers_size m.machines.now m.region.now };

    ghost first_is_state = { λ m. first-layer m.machines.now m.region.now (AreGoodTotals m.rows.now m.region.now) };

    ghost step_is_state = { λ m s t c cost h step. next-layer m.machines.now (uppers_of m.region.now) (AreGoodTotals m.rows.now m.region.now) s t c cost h step };

    ghost step_character = { λ m s t c cost h step. layer-character m.machines.now (uppers_of m.region.now) (AreGoodTotals m.rows.now m.region.now) s t c cost h step };

    ghost step_cost = { λ m s t c cost h step. layer-step_cost m.machines.now (uppers_of m.region.now) (AreGoodTotals m.rows.now m.region.now)
        (length m.region.now.registers) m.registers s t c cost step };

    ghost end_cost = { λ m s cost h end. layer-end_cost m.machines.now (uppers_of m.region.now) (AreGoodTotals m.rows.now m.region.now)
        (length m.region.now.registers) (length-uppers m.region.now.registers) s cost end };

    ghost states_at_most = { λ m. few-layers m.machines.now m.region.now (AreGoodTotals m.rows.now m.region.now) };

    fn registers(&self) -> usize {
        self.region.registers.len()
    }

    fn start(&self, alloc: Global) -> Result<Layer, AllocError> {
        let spent = Items::from_vec(vec![in alloc; 0; self.region.registers.len()]?);
        Ok(Layer {
            machine: 0,
            state: 0,
            spent,
        })
    }

    fn ends(&self, alloc: Global, at: &Layer) -> Result<Items<Cost>, AllocError> {
        if at.machine != self.machines.len() as u64 {
            return Ok(Items::new(alloc));
        }
        if !self.has_numbers(alloc, at.spent.as_slice())? {
            return Ok(Items::new(alloc));
        }
        let mut costs = Items::new(alloc);
        costs.push(Cost::zeros(alloc, self.region.registers.len())?)?;
        Ok(costs)
    }

    fn moves(&self, alloc: Global, at: &Layer) -> Result<Items<Move<Layer>>, AllocError> {
        if at.machine == self.machines.len() as u64 {
            return Ok(Items::new(alloc));
        }
        let machine = machine_at(self.machines, at.machine as usize);
        let sides = self.region.registers.as_slice();
        let mut all = moves_within(alloc, machine, at, sides)?;
        let next = moves_onward(alloc, machine, at, sides)?;
        all.append(next)?;
        Ok(all)
    }
}
