//! Outputs at a concrete word.
ghost use Rattle.std.specs.Prelude.{IfOk};
ghost use Rattle.sv_terms.specs.Transduction.{IsFormed};

use crate::trim_search_calls::has_shortest;
use replace_machines::replace_all;
use std::alloc::{AllocError, Global};
use sv_terms::Transducer;
use sv_word::Word;
use transducer_core::outputs;

fn word(alloc: Global, text: &str) -> Result<Word, AllocError> {
    let mut word = Word::new(alloc);
    for byte in text.as_bytes() {
        word.push(u32::from(*byte))?;
    }
    Ok(word)
}

// Escapes each `<`.
fn escape(alloc: Global) -> Result<Transducer, AllocError>
    ensures { IfOk result IsFormed }
{
    replace_all(alloc, &word(alloc, "<")?, &word(alloc, "&lt;")?)
}

// Whether this is a shortest word of what is written for `a<`.
fn writes(alloc: Global, written: &[u32]) -> Result<bool, AllocError> {
    let escape = escape(alloc)?;
    let read = word(alloc, "a<")?;
    let machine = outputs(alloc, &escape, &read)?;
    has_shortest(alloc, &machine, written)
}

#[test]
fn outputs_are_what_is_written(rt: HostRuntime) -> Result<(), AllocError> {
    assert!(rt; writes(rt.alloc(), &[0x61, 0x26, 0x6c, 0x74, 0x3b])?);
    Ok(())
}
