//! Answers items as they come.
ghost use Rattle.std.specs.Prelude.{◌≡◌, ◌≤◌, ◌+◌, ◌++◌, [], ℕ, List, Bool, true, false, length, IfSome, IfNone, MatchOption, OnOk, OnErr};
ghost use Rattle.sv_io.specs.Counts.{Rose};
ghost use Rattle.sv_io.specs.Histories.{Output};
ghost use Rattle.smt_session.specs.Runs.{IsLogCut};
ghost use Rattle.smt_session.specs.Awaiting.{AddsReplies, IsAnswering, IsFaulty, IsGiven, AwaitsItem, Stops};

use crate::log::ReplyLog;
use crate::status::Status;
use crate::writing::write_reply;
use crate::{Reply, Session};
use reply_text::ErrorKind;
use sexpr_reader::{Reader, Sexpr, SyntaxFault, more_bytes_may_follow};
use std::alloc::{AllocError, Global};
use std::thread::Threads;
use sv_io::Sink;

/// A script while it is answered: the reader of its bytes, the session, and the replies so far.
#[derive(Drop)]
pub struct Answering {
    reader: Reader,
    session: Session,
    replies: ReplyLog,
    /// How many bytes were fed.
    fed: u64,
}

impl Answering {
    /// Nothing was fed and answered. So many threads do the cubes of a check. It takes no memory.
    pub fn new(alloc: Global, workers: u32) -> Answering
        requires { 1 ≤ workers }
        ensures waits { (output : Output) → AwaitsItem result [] output output }
        ensures empty { result.replies ≡ [] }
    {
        Answering {
            reader: Reader::new(alloc),
            session: Session::new(alloc, workers),
            replies: ReplyLog::new(),
            fed: 0,
        }
    }

    /// The replies.
    pub fn into_log(self) -> ReplyLog
        ensures { result ≡ self.replies }
    {
        let Answering { replies, .. } = self;
        replies
    }

    /// Takes the next bytes.
    pub fn feed(&mut self, piece: &[u8]) -> Result<(), AllocError>
        ensures ok { OnOk result ((bytes : List ℕ) (old new : Output) → IsAnswering false self.old bytes old new → IsAnswering false self.new (bytes ++ piece.now) old new) }
        ensures err { OnErr result ((bytes : List ℕ) (old new : Output) → IsAnswering false self.old bytes old new → IsLogCut false (bytes ++ piece.now) old new self.new.replies) }
        ensures replies { self.new.replies ≡ self.old.replies }
    {
        more_bytes_may_follow();
        let Some(fed) = self.fed.checked_add(piece.len() as u64) else {
            return Err(AllocError);
        };
        self.reader.feed(piece)?;
        self.fed = fed;
        Ok(())
    }

    /// Answers each item that is whole, up to an answered `exit` or a syntax fault. `None` where
    /// more bytes or the end have to come first.
    pub fn answer_whole<R: Threads + Sync, K: Sink>(
        &mut self,
        rt: &R,
        alloc: Global,
        sink: &mut K,
    ) -> Option<Status>
        requires goes_on { K.goes_on sink.old ≡ true }
        requires answering { (bytes : List ℕ) × (output : Output) × IsAnswering false self.old bytes output (K.output sink.old) }
        ensures went { (bytes : List ℕ) (output : Output) → IsAnswering false self.old bytes output (K.output sink.old)
            → MatchOption result (AwaitsItem self.new bytes output (K.output sink.new)) (λ status. Stops false bytes output (K.output sink.new) self.new.replies status) }
        ensures added { AddsReplies self.old.replies self.new.replies (K.output sink.old) (K.output sink.new) }
        ensures goes_on { IfNone result (K.goes_on sink.new ≡ true) }
        ensures later { K.faults sink.old ≤ K.faults sink.new }
        ensures failed { IfSome result (λ status. status ≡ Status.WriteFailed → Rose (K.faults sink.old) (K.faults sink.new)) }
    {
        'items: loop {
            let item = match self.reader.next() {
                Ok(Some(item)) => item,
                Ok(None) => return None,
                Err(fault) => return Some(self.refuse(alloc, sink, fault)),
            };
            if let Some(status) = self.answer(rt, alloc, sink, &item) {
                return Some(status);
            }
        }
    }

    /// Answers what is left where the input has ended.
    pub fn answer_rest<R: Threads + Sync, K: Sink>(
        &mut self,
        rt: &R,
        alloc: Global,
        sink: &mut K,
    ) -> Status
        requires goes_on { K.goes_on sink.old ≡ true }
        requires answering { (bytes : List ℕ) × (output : Output) × IsAnswering false self.old bytes output (K.output sink.old) }
        ensures went { (bytes : List ℕ) (output : Output) → IsAnswering false self.old bytes output (K.output sink.old) → Stops true bytes output (K.output sink.new) self.new.replies result }
        ensures added { AddsReplies self.old.replies self.new.replies (K.output sink.old) (K.output sink.new) }
        ensures later { K.faults sink.old ≤ K.faults sink.new }
        ensures failed { result ≡ Status.WriteFailed → Rose (K.faults sink.old) (K.faults sink.new) }
    {
        more_bytes_may_follow();
        'items: loop {
            let item = match self.reader.end() {
                Ok(Some(item)) => item,
                Ok(None) => return self.replies.status(),
                Err(fault) => return self.refuse(alloc, sink, fault),
            };
            if let Some(status) = self.answer(rt, alloc, sink, &item) {
                return status;
            }
        }
    }

    // Answers an item.
    fn answer<R: Threads + Sync, K: Sink>(
        &mut self,
        rt: &R,
        alloc: Global,
        sink: &mut K,
        item: &Sexpr,
    ) -> Option<Status>
        requires { K.goes_on sink.old ≡ true }
        ensures went { (ended : Bool) (bytes : List ℕ) (output : Output) → IsGiven ended self.old item.now bytes output (K.output sink.old)
            → MatchOption result (IsAnswering ended self.new bytes output (K.output sink.new)) (λ status. Stops ended bytes output (K.output sink.new) self.new.replies status) }
        ensures count { IfNone result (length self.new.replies ≡ length self.old.replies + 1) }
        ensures goes_on { IfNone result (K.goes_on sink.new ≡ true) }
        ensures fed { self.new.fed ≡ self.old.fed }
        ensures added { AddsReplies self.old.replies self.new.replies (K.output sink.old) (K.output sink.new) }
        ensures later { K.faults sink.old ≤ K.faults sink.new }
        ensures failed { IfSome result (λ status. status ≡ Status.WriteFailed → Rose (K.faults sink.old) (K.faults sink.new)) }
    {
        let reply = match self.session.step(rt, alloc, item) {
            Ok(reply) => reply,
            Err(_) => return Some(Status::NoMemory),
        };
        let written = write_reply(alloc, sink, &reply);
        self.replies = self.replies.and(&reply);
        if let Err(fault) = written {
            return Some(Status::of_fault(fault));
        }
        if self.session.has_ended() {
            return Some(self.replies.status());
        }
        None
    }

    // Answers a syntax fault by its error.
    fn refuse<K: Sink>(&mut self, alloc: Global, sink: &mut K, fault: SyntaxFault) -> Status
        requires { K.goes_on sink.old ≡ true }
        ensures went { (ended : Bool) (bytes : List ℕ) (output : Output) → IsFaulty ended self.old fault bytes output (K.output sink.old) → Stops ended bytes output (K.output sink.new) self.new.replies result }
        ensures added { AddsReplies self.old.replies self.new.replies (K.output sink.old) (K.output sink.new) }
        ensures later { K.faults sink.old ≤ K.faults sink.new }
        ensures failed { result ≡ Status.WriteFailed → Rose (K.faults sink.old) (K.faults sink.new) }
    {
        let kind = match ErrorKind::of_syntax(fault) {
            Ok(kind) => kind,
            Err(_) => return Status::NoMemory,
        };
        let error = Reply::Error(kind);
        let written = write_reply(alloc, sink, &error);
        self.replies = self.replies.and(&error);
        match written {
            Ok(()) => self.replies.status(),
            Err(fault) => Status::of_fault(fault),
        }
    }
}
