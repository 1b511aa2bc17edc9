ghost use Rattle.std.specs.Prelude.{◌≡◌, ◌++◌, IfOk, OnOk};
ghost use Rattle.std.specs.Fmt.{decimal};
ghost use Rattle.generated_script.specs.Summary.{summary_text};

use itoa::Buffer;
use std::alloc::{AllocError, Global};

/// How many verdicts there were of each kind.
#[derive(Clone, Copy)]
pub struct VerdictCounts {
    pub sat: u64,
    pub unsat: u64,
    pub unknown: u64,
}

fn push_decimal(text: &mut Vec<u8>, number: u64) -> Result<(), AllocError>
    ensures { OnOk result (text.new.items ≡ text.old.items ++ decimal number) }
{
    let mut digits = Buffer::new();
    text.extend_from_slice(digits.format(number).as_bytes())
}

/// The line that sums up the verdicts on a script of so many blocks.
pub fn summary(alloc: Global, size: u64, tally: &VerdictCounts) -> Result<Vec<u8>, AllocError>
    ensures { IfOk result (λ text. text.items ≡ summary_text size tally.now) }
{
    let mut text = Vec::from_slice(alloc, b"generated ")?;
    push_decimal(&mut text, size)?;
    text.extend_from_slice(b" sat ")?;
    push_decimal(&mut text, tally.sat)?;
    text.extend_from_slice(b" unsat ")?;
    push_decimal(&mut text, tally.unsat)?;
    text.extend_from_slice(b" unknown ")?;
    push_decimal(&mut text, tally.unknown)?;
    text.push(b'\n')?;
    Ok(text)
}
