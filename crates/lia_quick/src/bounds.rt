use crate::queue::Queue;
use lia_reduce::add_times;
use std::alloc::{AllocError, Global};
use sv_linear::{Form, Row, RowKind};
use sv_list::Items;

/// Which bound of an unknown.
#[derive(Clone, Copy)]
pub(crate) enum BoundSide {
    Lower,
    Upper,
}

/// A bound that stands, and the number of the fact by which it does.
#[derive(Clone, Copy)]
pub(crate) struct CarriedBound {
    pub amount: i128,
    pub fact: usize,
}

/// The bounds of an unknown.
#[derive(Clone, Copy)]
pub(crate) struct Range {
    pub lower: Option<CarriedBound>,
    pub upper: Option<CarriedBound>,
}

impl Range {
    pub fn bound(self, side: BoundSide) -> Option<CarriedBound> {
        match side {
            BoundSide::Lower => self.lower,
            BoundSide::Upper => self.upper,
        }
    }

    fn with(self, side: BoundSide, bound: Option<CarriedBound>) -> Range {
        match side {
            BoundSide::Lower => Range {
                lower: bound,
                upper: self.upper,
            },
            BoundSide::Upper => Range {
                lower: self.lower,
                upper: bound,
            },
        }
    }
}

/// A row, taken so often, and with it so often each of some facts.
#[derive(Drop)]
pub(crate) struct BoundReason {
    pub row: usize,
    pub times: i128,
    pub facts: Items<(usize, i128)>,
}

/// By what a bound stands.
#[derive(Drop)]
pub(crate) enum Origin {
    Row(BoundReason),
    /// The row of the branch with this number, from the root on.
    Branch(usize),
}

/// A bound that was found, and what stood before it.
#[derive(Drop)]
pub(crate) struct Fact {
    unknown: u32,
    side: BoundSide,
    before: Option<CarriedBound>,
    pub origin: Origin,
}

/// A bound that isn't a whole number: the next whole number is one only behind a split.
#[derive(Drop)]
pub(crate) struct Rounding {
    pub unknown: u32,
    pub side: BoundSide,
    pub amount: i128,
    /// How often the row holds the unknown, without its sign.
    pub factor: i128,
    pub reason: BoundReason,
}

/// What comes of looking at rows.
#[derive(Drop)]
pub(crate) enum BoundStep {
    /// No row narrows a range further.
    Quiet,
    /// A row isn't met within the ranges.
    Conflict(BoundReason),
    Rounded(Rounding),
    /// A number leaves 128 bits, or there is no end in sight.
    Spent,
}

/// The least value of a row within the ranges, without the unknowns that have no such bound.
#[derive(Clone, Copy)]
struct Least {
    total: i128,
    missing: u32,
}

/// The ranges of the unknowns, with the facts by which they stand, and the rows that are still to be looked at.
pub(crate) struct Bounds {
    ranges: Vec<Range>,
    facts: Vec<Fact>,
    /// For each unknown the rows that hold it.
    holders: Vec<Vec<usize>>,
    /// For each unknown whether an equation holds it.
    in_equation: Vec<bool>,
    queue: Queue,
    most_facts: usize,
    /// How many terms may still be looked at or written down.
    work: u64,
}

// A drop by hand is one call where a derived one is a call for each vector inside.
impl Drop for Bounds {
    fn drop(self) {
        let Self {
            ranges: _,
            facts: _,
            holders: _,
            in_equation: _,
            queue: _,
            most_facts: _,
            work: _,
        } = self;
    }
}

/// How many terms of rows are looked at, and multipliers of leaves written down.
const WORK: u64 = 1 << 21;

impl Bounds {
    /// No bounds; all rows are to be looked at.
    pub fn new(alloc: Global, rows: &[Row], unknowns: u32) -> Result<Bounds, AllocError> {
        let mut bounds = Bounds {
            queue: Queue::new(alloc, rows)?,
            ranges: Vec::new(alloc),
            facts: Vec::new(alloc),
            holders: Vec::new(alloc),
            in_equation: Vec::new(alloc),
            most_facts: rows.len().saturating_mul(8).saturating_add(256),
            work: WORK,
        };
        bounds.take_in(alloc, rows, unknowns)?;
        Ok(bounds)
    }

    /// Takes so many unknowns in, and then the rows.
    fn take_in(&mut self, alloc: Global, rows: &[Row], unknowns: u32) -> Result<(), AllocError> {
        for _ in 0..unknowns {
            self.ranges.push(Range {
                lower: None,
                upper: None,
            })?;
            self.holders.push(Vec::new(alloc))?;
            self.in_equation.push(false)?;
        }
        for (at, row) in rows.iter().enumerate() {
            self.hold(row, at)?;
            self.queue.put(at)?;
        }
        Ok(())
    }

    fn hold(&mut self, row: &Row, at: usize) -> Result<(), AllocError> {
        for (unknown, _) in row.form.coefficients.as_slice() {
            let place = *unknown as usize;
            if place < self.holders.len() && place < self.in_equation.len() {
                self.holders[place].push(at)?;
                if matches!(row.kind, RowKind::Eq) {
                    self.in_equation[place] = true;
                }
            }
        }
        Ok(())
    }

    /// Whether an equation holds the unknown.
    pub fn is_in_equation(&self, unknown: u32) -> bool {
        match self.in_equation.get(unknown as usize) {
            Some(is_in) => *is_in,
            None => false,
        }
    }

    /// Whether some row holds the unknown.
    pub fn is_held(&self, unknown: u32) -> bool {
        match self.holders.get(unknown as usize) {
            Some(rows) => !rows.is_empty(),
            None => false,
        }
    }

    pub fn range(&self, unknown: u32) -> Range {
        match self.ranges.get(unknown as usize) {
            Some(range) => *range,
            None => Range {
                lower: None,
                upper: None,
            },
        }
    }

    pub fn facts(&self) -> &[Fact] {
        &self.facts
    }

    /// Takes a bound in, and the rows that hold its unknown are to be looked at.
    pub fn add(
        &mut self,
        unknown: u32,
        side: BoundSide,
        amount: i128,
        origin: Origin,
    ) -> Result<(), AllocError> {
        let place = unknown as usize;
        if place >= self.ranges.len() || place >= self.holders.len() {
            return Ok(());
        }
        let range = self.ranges[place];
        let fact = self.facts.len();
        self.facts.push(Fact {
            unknown,
            side,
            before: range.bound(side),
            origin,
        })?;
        self.ranges[place] = range.with(side, Some(CarriedBound { amount, fact }));
        for row in &self.holders[place] {
            self.queue.put(*row)?;
        }
        Ok(())
    }

    /// Forgets all facts but so many, and which rows were to be looked at.
    pub fn undo(&mut self, count: usize) {
        for _ in count..self.facts.len() {
            if let Some(fact) = self.facts.pop() {
                let Fact {
                    unknown,
                    side,
                    before,
                    origin: _origin,
                } = fact;
                let place = unknown as usize;
                if place < self.ranges.len() {
                    self.ranges[place] = self.ranges[place].with(side, before);
                }
            }
        }
        self.queue.clear();
    }

    /// Counts terms that were looked at or written down.
    pub fn spend(&mut self, terms: usize) {
        self.work = self.work.saturating_sub(terms as u64);
    }

    /// Looks at rows until none narrows a range.
    pub fn settle(&mut self, alloc: Global, rows: &[Row]) -> Result<BoundStep, AllocError> {
        for _ in 0..WORK {
            let Some(at) = self.queue.next() else {
                return Ok(BoundStep::Quiet);
            };
            match self.look(alloc, rows, at)? {
                BoundStep::Quiet => {}
                BoundStep::Conflict(reason) => return Ok(BoundStep::Conflict(reason)),
                BoundStep::Rounded(rounding) => return Ok(BoundStep::Rounded(rounding)),
                BoundStep::Spent => return Ok(BoundStep::Spent),
            }
        }
        Ok(BoundStep::Spent)
    }

    /// Looks at a row: an equation both ways.
    fn look(&mut self, alloc: Global, rows: &[Row], at: usize) -> Result<BoundStep, AllocError> {
        let Some(row) = rows.get(at) else {
            return Ok(BoundStep::Quiet);
        };
        self.spend(row.form.coefficients.len().saturating_add(1));
        if self.work == 0 || self.facts.len() > self.most_facts {
            return Ok(BoundStep::Spent);
        }
        match row.kind {
            RowKind::Le => self.pass(alloc, row, at, 1),
            RowKind::Eq => match self.pass(alloc, row, at, 1)? {
                BoundStep::Quiet => self.pass(alloc, row, at, -1),
                BoundStep::Conflict(reason) => Ok(BoundStep::Conflict(reason)),
                BoundStep::Rounded(rounding) => Ok(BoundStep::Rounded(rounding)),
                BoundStep::Spent => Ok(BoundStep::Spent),
            },
        }
    }

    /// What the row, taken so often, says of each of its unknowns.
    fn pass(
        &mut self,
        alloc: Global,
        row: &Row,
        at: usize,
        times: i128,
    ) -> Result<BoundStep, AllocError> {
        let Some(least) = self.least(&row.form, times) else {
            return Ok(BoundStep::Spent);
        };
        if least.missing == 0 && least.total > 0 {
            return Ok(BoundStep::Conflict(self.reason(alloc, row, at, times, None)?));
        }
        if least.missing > 1 {
            return Ok(BoundStep::Quiet);
        }
        for (unknown, coefficient) in row.form.coefficients.as_slice() {
            match self.narrow(*unknown, *coefficient, times, least) {
                Narrowing::None => {}
                Narrowing::Spent => return Ok(BoundStep::Spent),
                Narrowing::To {
                    side,
                    amount,
                    factor,
                } => {
                    let reason = self.reason(alloc, row, at, times, Some(*unknown))?;
                    if factor != 1 {
                        self.queue.put(at)?;
                        return Ok(BoundStep::Rounded(Rounding {
                            unknown: *unknown,
                            side,
                            amount,
                            factor,
                            reason,
                        }));
                    }
                    self.add(*unknown, side, amount, Origin::Row(reason))?;
                }
            }
        }
        Ok(BoundStep::Quiet)
    }

    fn least(&self, form: &Form, times: i128) -> Option<Least> {
        let mut total = form.constant.checked_mul(times)?;
        let mut missing: u32 = 0;
        for (unknown, coefficient) in form.coefficients.as_slice() {
            let by = coefficient.checked_mul(times)?;
            match self.range(*unknown).bound(lowering_side(by)) {
                Some(bound) => total = add_times(total, by, bound.amount)?,
                None => missing = missing.saturating_add(1),
            }
        }
        Some(Least { total, missing })
    }

    /// The bound that a row with this least value gives an unknown, where it is narrower.
    fn narrow(&self, unknown: u32, coefficient: i128, times: i128, least: Least) -> Narrowing {
        let range = self.range(unknown);
        let Some(by) = coefficient.checked_mul(times) else {
            return Narrowing::Spent;
        };
        let own = range.bound(lowering_side(by));
        if least.missing > 0 && own.is_some() {
            return Narrowing::None;
        }
        match limit(by, own, least.total) {
            None => Narrowing::Spent,
            Some((amount, factor)) => {
                let side = if by > 0 {
                    BoundSide::Upper
                } else {
                    BoundSide::Lower
                };
                if is_narrower(range, side, amount) {
                    Narrowing::To {
                        side,
                        amount,
                        factor,
                    }
                } else {
                    Narrowing::None
                }
            }
        }
    }

    /// The row, taken so often, with the facts that put out each unknown but one.
    fn reason(
        &self,
        alloc: Global,
        row: &Row,
        at: usize,
        times: i128,
        left: Option<u32>,
    ) -> Result<BoundReason, AllocError> {
        let mut facts = Items::new(alloc);
        for (unknown, coefficient) in row.form.coefficients.as_slice() {
            if left != Some(*unknown) {
                let by = coefficient.saturating_mul(times);
                if let Some(bound) = self.range(*unknown).bound(lowering_side(by)) {
                    facts.push((bound.fact, by.saturating_abs()))?;
                }
            }
        }
        Ok(BoundReason {
            row: at,
            times,
            facts,
        })
    }
}

/// What a row says of one unknown.
#[derive(Clone, Copy)]
enum Narrowing {
    None,
    To {
        side: BoundSide,
        amount: i128,
        factor: i128,
    },
    Spent,
}

/// The bound that makes a term least.
fn lowering_side(coefficient: i128) -> BoundSide {
    if coefficient > 0 {
        BoundSide::Lower
    } else {
        BoundSide::Upper
    }
}

/// The whole number that an unknown's bound is rounded to, by the least value of a row that holds it so often, and
/// how often it does, without the sign.
fn limit(by: i128, own: Option<CarriedBound>, total: i128) -> Option<(i128, i128)> {
    let rest = match own {
        None => total,
        Some(bound) => total.checked_sub(by.checked_mul(bound.amount)?)?,
    };
    let factor = by.checked_abs()?;
    if factor == 0 {
        return None;
    }
    let most = rest.checked_neg()?.checked_div_euclid(factor)?;
    if by > 0 {
        Some((most, factor))
    } else {
        Some((most.checked_neg()?, factor))
    }
}

fn is_narrower(range: Range, side: BoundSide, amount: i128) -> bool {
    match (range.bound(side), side) {
        (None, _) => true,
        (Some(bound), BoundSide::Lower) => amount > bound.amount,
        (Some(bound), BoundSide::Upper) => amount < bound.amount,
    }
}
