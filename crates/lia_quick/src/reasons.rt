use crate::bounds::{BoundReason, Fact, Origin};
use lia_reduce::Weights;
use std::alloc::{AllocError, Global};
use sv_list::Items;

/// A branch's row that is taken so often, by the branch's number from the root on.
#[derive(Clone, Copy)]
pub(crate) struct Far {
    pub branch: usize,
    pub times: i128,
}

/// How often each row is taken for a reason: the facts are taken apart, the last ones first, into rows and branches,
/// whose rows stand behind so many others. `None` where a number leaves 128 bits.
pub(crate) fn multipliers_of(
    alloc: Global,
    facts: &[Fact],
    rows: usize,
    branches: usize,
    reason: &BoundReason,
    far: Option<Far>,
) -> Result<Option<Items<(u32, i128)>>, AllocError> {
    let mut taken = Weights::new(alloc, rows.saturating_add(branches), None)?;
    if let Some(Far { branch, times }) = far {
        if !taken.add(rows.saturating_add(branch), times) {
            return Ok(None);
        }
    }
    if !take_apart(alloc, facts, rows, reason, &mut taken)? {
        return Ok(None);
    }
    Ok(Some(taken.entries(alloc)?))
}

/// Takes what a reason is made of, the branches' rows behind so many others; false where a number leaves 128 bits.
fn take_apart(
    alloc: Global,
    facts: &[Fact],
    rows: usize,
    reason: &BoundReason,
    taken: &mut Weights,
) -> Result<bool, AllocError> {
    let mut times = Weights::new(alloc, facts.len(), None)?;
    if !add(&mut times, taken, reason, 1) {
        return Ok(false);
    }
    for behind in 0..facts.len() {
        let at = facts.len() - 1 - behind;
        let count = times.at(at);
        if count != 0 {
            let is_taken = match &facts[at].origin {
                Origin::Row(reason) => add(&mut times, taken, reason, count),
                Origin::Branch(branch) => taken.add(rows.saturating_add(*branch), count),
            };
            if !is_taken {
                return Ok(false);
            }
        }
    }
    Ok(true)
}

/// Takes a reason so often; false where a number leaves 128 bits.
fn add(times: &mut Weights, taken: &mut Weights, reason: &BoundReason, count: i128) -> bool {
    match reason.times.checked_mul(count) {
        None => false,
        Some(product) => {
            taken.add(reason.row, product) && times.add_each(reason.facts.as_slice(), count)
        }
    }
}
