//! Whole texts to a sink.
ghost use Rattle.std.specs.Prelude.{◌≡◌, ◌≤◌, OnOk, OnErr, true, IsErrOf};
ghost use Rattle.sv_io.specs.Counts.{Rose};
ghost use Rattle.sv_io.specs.Histories.{Sends, Takes};

use crate::{Sink, SinkFault};

/// Writes a whole text, and flushes. On an error a front of the text was written, and nothing of it was sent.
///
/// Takes no memory but what the sink does, and a call of `write` for each piece that the sink takes.
pub fn write_all<K: Sink>(sink: &mut K, text: &[u8]) -> Result<(), SinkFault>
    requires { K.goes_on sink.old ≡ true }
    ensures ok { OnOk result (Sends (K.output sink.old) (K.output sink.new) text.now) }
    ensures goes_on { OnOk result (K.goes_on sink.new ≡ true) }
    ensures front { Takes (K.output sink.old) (K.output sink.new) text.now }
    ensures err { OnErr result ((K.output sink.new).sent ≡ (K.output sink.old).sent) }
    ensures later { K.faults sink.old ≤ K.faults sink.new }
    ensures failed { IsErrOf result SinkFault.Failed → Rose (K.faults sink.old) (K.faults sink.new) }
{
    let mut rest = text;
    'pieces: while !rest.is_empty() {
        let count = sink.write(rest)?;
        rest = &rest[count..];
    }
    match sink.flush() {
        Ok(()) => Ok(()),
        Err(_) => Err(SinkFault::Failed),
    }
}
