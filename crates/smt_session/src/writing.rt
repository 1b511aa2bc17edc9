//! The printed reply, to a sink.
ghost use Rattle.std.specs.Prelude.{◌≡◌, ◌≤◌, true, OnOk, OnErr, IsErrOf};
ghost use Rattle.sv_io.specs.Counts.{Rose};
ghost use Rattle.sv_io.specs.Histories.{Delivers, Takes};
ghost use Rattle.smt_session.specs.Replies.{text_of};

use crate::{Reply, print};
use std::alloc::Global;
use sv_io::{Sink, SinkFault, write_all};

/// Writes the printed reply, and flushes where it has a text. On an error nothing of it was sent.
pub fn write_reply<K: Sink>(alloc: Global, sink: &mut K, reply: &Reply) -> Result<(), SinkFault>
    requires { K.goes_on sink.old ≡ true }
    ensures ok { OnOk result (Delivers (K.output sink.old) (K.output sink.new) (text_of reply.now)) }
    ensures goes_on { OnOk result (K.goes_on sink.new ≡ true) }
    ensures front { Takes (K.output sink.old) (K.output sink.new) (text_of reply.now) }
    ensures err { OnErr result ((K.output sink.new).sent ≡ (K.output sink.old).sent) }
    ensures later { K.faults sink.old ≤ K.faults sink.new }
    ensures failed { IsErrOf result SinkFault.Failed → Rose (K.faults sink.old) (K.faults sink.new) }
{
    let text = match print(alloc, reply) {
        Ok(text) => text,
        Err(error) => return Err(SinkFault::Memory(error)),
    };
    if text.is_empty() {
        return Ok(());
    }
    write_all(sink, &text)
}
