// What an edge writes, in a transducer's description.
ghost use Rattle.std.specs.Prelude.{◌≡◌, map};
ghost use Rattle.smt_names.specs.Faults.{Answers};
ghost use Rattle.smt_names.specs.Form.{forms, seen};
ghost use Rattle.transducer_form.specs.Descriptions as d;

use crate::text::word;
use sexpr_reader::Sexpr;
use smt_names::CheckFault;
use smt_names::token::{digits, literal_text, number, pair};
use std::alloc::Global;
use sv_list::Items;
use sv_terms::Item;
use sv_word::GREATEST_CHARACTER;

/// The character that was read, moved by so many.
fn shift(digits: &[u8], down: bool) -> Result<Item, CheckFault>
    ensures { result ≡ d.shifted down digits.now }
{
    match number(digits) {
        Some(n) => {
            if n > GREATEST_CHARACTER as i128 {
                return Err(CheckFault::Transducer);
            }
            let by = n as i32;
            Ok(Item::Shift(if down { -by } else { by }))
        }
        None => Err(CheckFault::Transducer),
    }
}

/// The character that was read, moved by K of `(in K)` or `(in (- K))`.
fn shift_of(amount: &Sexpr) -> Result<Item, CheckFault>
    ensures { result ≡ d.shift_of (seen amount.now) }
{
    match digits(amount) {
        Some(digits) => shift(digits, false),
        None => match pair(amount) {
            Some((_, amount)) => match digits(amount) {
                Some(digits) => shift(digits, true),
                None => Err(CheckFault::Shape),
            },
            None => Err(CheckFault::Shape),
        },
    }
}

/// What one item writes. Linear.
fn item_of(alloc: Global, part: &Sexpr) -> Result<Item, CheckFault>
    ensures { Answers (d.item_of (seen part.now)) result }
{
    match literal_text(part) {
        Some(_) => Ok(Item::Text(word(alloc, part)?)),
        None => match pair(part) {
            Some((_, amount)) => shift_of(amount),
            None => Ok(Item::Shift(0)),
        },
    }
}

/// What items write, in their order. Linear.
#[tactic(auto, using(crate::proofs::Joined::listing))]
pub(crate) fn items(alloc: Global, parts: &[Sexpr]) -> Result<Items<Item>, CheckFault>
    ensures { Answers (d.items_of (forms (map seen parts.now))) result }
{
    let mut all = Items::new(alloc);
    for part in parts {
        all.push(item_of(alloc, part)?)?;
    }
    Ok(all)
}
