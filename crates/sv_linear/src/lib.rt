//! Linear forms over whole numbers of 128 bits, and rows that say a form is 0 or at most 0.
//!
//! A form is a constant and a coefficient for each of some unknowns. No sum or product is rounded or
//! wraps: a call answers the exact form, or names the operands, or the column, where the result would
//! leave 128 bits. That is the central fact, and it is stated at rational points too: `form_value x d`
//! is d times the value where each unknown u is x u over d.
//!
//! Costs: `add`, `scale` and `combine` merge two ascending lists once, and no form stands in between;
//! `at` is a binary search; `content` and `into_primitive` go over the list once and take no memory.
//!
//! ```text
//! let mut form = Form::of_constant(alloc, -7);
//! form.push(0, 2)?;                          // 2 x - 7, where x is the unknown 0
//! let sum = form.add(alloc, &form)?;         // 4 x - 14
//! assert_eq!(rt; sum.at(0), 4);
//! let primitive = sum.into_primitive();      // 2 x - 7
//! ```
#![tactic(auto)]

mod column;
mod fault;
mod form;
mod number;
mod row;
mod terms;

pub use column::Column;
pub use fault::{CombineFault, FormFault};
pub use form::Form;
pub use number::gcd;
pub use row::{Row, RowKind};
