ghost use Rattle.std.specs.Prelude.{◌≡◌, ◌<◌, IfOk, OnOk, OnErr};
ghost use Rattle.generated_script.specs.Blocks.{block};
ghost use Rattle.generated_script.specs.Draws.{behind, drawn, seeded};

use crate::shape::Shape;
use std::alloc::{AllocError, Global};
use std::marker::Model;

/// A prime, so that the numbers drawn from it are spread over all below it.
const MODULUS: u32 = 65_537;

/// The blocks of a generated script, one after another. Contracts see the number that was drawn last.
#[derive(Drop)]
pub struct Blocks {
    last: u32,
}

impl Model for Blocks {
    ghost use Rattle.std.specs.Prelude.{ℕ, ◌<◌};

    ghost Value = { ℕ };

    ghost view = { λ b. b.last };

    ghost invariant = { λ b. b.last < 65537 };
}

// The number behind this one.
fn draw(last: u32) -> u32
    requires { last < MODULUS }
    ensures value { result ≡ drawn last }
    ensures below { result < MODULUS }
{
    (75 * last + 74) % MODULUS
}

impl Blocks {
    /// The blocks of this seed.
    pub fn new(seed: u64) -> Blocks
        ensures { result ≡ seeded seed }
    {
        Blocks {
            last: (seed % 65_537) as u32,
        }
    }

    /// The text of the next block. Where memory is wanting the block stays the next one.
    pub fn next(&mut self, alloc: Global) -> Result<Vec<u8>, AllocError>
        ensures ok { OnOk result (self.new ≡ behind self.old) }
        ensures text { IfOk result (λ text. text.items ≡ block self.old) }
        ensures err { OnErr result (self.new ≡ self.old) }
    {
        let first = draw(self.last);
        let second = draw(first);
        let mut text = Vec::new(alloc);
        Shape::of(first % 4).push_block(&mut text, second % 50 + 1)?;
        self.last = second;
        Ok(text)
    }
}
