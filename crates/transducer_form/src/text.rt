// Literals in a transducer's description.
ghost use Rattle.smt_names.specs.Faults.{Answers};
ghost use Rattle.smt_names.specs.Form.{seen};
ghost use Rattle.smt_names.specs.Tokens as t;
ghost use Rattle.transducer_form.specs.Descriptions as d;

use sexpr_reader::Sexpr;
use smt_names::CheckFault;
use smt_names::token::{literal_text, literal_word};
use std::alloc::Global;
use sv_word::Word;

/// The word of a literal. Linear.
pub(crate) fn word(alloc: Global, part: &Sexpr) -> Result<Word, CheckFault>
    ensures { Answers (d.word_at (t.literal_text (seen part.now))) result }
{
    match literal_text(part) {
        Some(text) => match literal_word(alloc, text)? {
            Some(word) => Ok(word),
            None => Err(CheckFault::Shape),
        },
        None => Err(CheckFault::Shape),
    }
}

/// The character of a literal of one.
pub(crate) fn character(alloc: Global, part: &Sexpr) -> Result<u32, CheckFault>
    ensures { Answers (d.character_at (t.literal_text (seen part.now))) result }
{
    let word = word(alloc, part)?;
    match word.as_slice() {
        [c] => Ok(*c),
        _ => Err(CheckFault::Transducer),
    }
}
