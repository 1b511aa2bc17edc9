ghost use Rattle.std.specs.Prelude.{◌≡◌, ◌+ℤ◌, ◌*ℤ◌, IfSome};

use std::alloc::{AllocError, Global};
use sv_list::Items;

/// How often rows or sums are taken, one number for each; taken up to multiples of a divisor where there is one.
#[derive(Drop)]
pub struct Weights {
    numbers: Vec<i128>,
    divisor: Option<i128>,
}

impl Weights {
    /// Nothing is taken, of so many.
    pub fn new(alloc: Global, count: usize, divisor: Option<i128>) -> Result<Weights, AllocError> {
        let numbers = vec![in alloc; 0; count]?;
        Ok(Weights { numbers, divisor })
    }

    /// How often this one is taken.
    pub fn at(&self, place: usize) -> i128 {
        match self.numbers.get(place) {
            Some(number) => *number,
            None => 0,
        }
    }

    /// Takes this one so often more; false where the number leaves 128 bits.
    pub fn add(&mut self, place: usize, times: i128) -> bool {
        self.add_product(place, 1, times)
    }

    /// Takes each of these so often more, `times` over; false where a number leaves 128 bits.
    pub fn add_each(&mut self, steps: &[(usize, i128)], times: i128) -> bool {
        for (place, factor) in steps {
            if !self.add_product(*place, times, *factor) {
                return false;
            }
        }
        true
    }

    /// Takes each of these rows so often more, `times` over; false where a number leaves 128 bits.
    pub fn add_rows(&mut self, rows: &[(u32, i128)], times: i128) -> bool {
        for (row, factor) in rows {
            if !self.add_product(*row as usize, times, *factor) {
                return false;
            }
        }
        true
    }

    /// Takes nothing.
    pub fn clear(&mut self) {
        for number in &mut self.numbers {
            *number = 0;
        }
    }

    fn add_product(&mut self, place: usize, times: i128, factor: i128) -> bool {
        if place >= self.numbers.len() {
            return false;
        }
        let factor = remainder(factor, self.divisor);
        match add_times(self.numbers[place], times, factor) {
            None => false,
            Some(sum) => {
                self.numbers[place] = remainder(sum, self.divisor);
                true
            }
        }
    }

    /// The numbers that aren't 0, each behind its place.
    pub fn entries(&self, alloc: Global) -> Result<Items<(u32, i128)>, AllocError> {
        let mut list = Items::new(alloc);
        list.reserve(self.count())?;
        for (at, number) in self.numbers.iter().enumerate() {
            if *number != 0 && at <= u32::MAX as usize {
                list.push((at as u32, *number))?;
            }
        }
        Ok(list)
    }

    /// How many numbers aren't 0.
    fn count(&self) -> usize {
        let mut count: usize = 0;
        for number in &self.numbers {
            if *number != 0 {
                count = count.saturating_add(1);
            }
        }
        count
    }
}

fn remainder(number: i128, divisor: Option<i128>) -> i128 {
    match divisor {
        Some(divisor) if divisor > 1 => number.rem_euclid(divisor),
        _ => number,
    }
}

/// The sum of a number and a product, where both fit.
pub fn add_times(sum: i128, times: i128, factor: i128) -> Option<i128>
    ensures { IfSome result (λ z. z ≡ sum +ℤ times *ℤ factor) }
{
    sum.checked_add(times.checked_mul(factor)?)
}
