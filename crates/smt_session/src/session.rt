//! The session, and what it does at each command.
ghost use Rattle.std.specs.Prelude.{◌≡◌, ◌≤◌, [], ◌∷◌, ◌++◌, Some, All, IfOk, OnErr};
ghost use Rattle.sort_check.specs.Checking.{IsAskable};
ghost use Rattle.sort_check.specs.WellFormed.{IsAdded, IsTermOf};
ghost use Rattle.assert_stack.specs.Levels.{asserted, asserted_named, declared, empty, live, symbols_of};
ghost use Rattle.std.specs.List.{AllByRecursion};
ghost use Rattle.sv_terms.specs.declared.entry.Body.TheVariants as body;
ghost use Rattle.sv_terms.specs.declared.entry.Entry.TheVariants as entry;
ghost use Rattle.sv_terms.specs.declared.sort.Sort.TheVariants as sort;
ghost use Rattle.smt_session.specs.Standing.{FitsLevels, IsKeptOf};
ghost use Rattle.smt_session.specs.Steps.{AnswersCore, AnswersTerms, Checks, Does, GivesReply, Steps, after_exit, changed, info_reply, kept_of, model_reply, opened, pops, printing, pushes, reason_reply, succeeds, Tells, with_verdict};
ghost use Rattle.smt_session.specs.declared.reply.Reply.TheVariants.{Success};

use crate::cause::cause_of;
use crate::check::verdict_of;
use crate::reply::Reply;
use crate::values::{definitions, values};
use assert_stack::{Stack, StackFault};
use core_search::find_core;
use decide::Verdict;
use reply_text::{Cause, ErrorKind, Info};
use sexpr_reader::Sexpr;
use sort_check::{
    Command, additions_are_well_formed, command, constants_have_values, entries_are_well_formed,
    terms_are_sorted, terms_are_taken_one_by_one,
};
use std::alloc::{AllocError, Global};
use std::thread::Threads;
use sv_list::{Copied, Items};
use sv_terms::{Entry, Model, Name, Term};

/// The verdict of the last check, until something changes what it was on.
#[derive(Drop)]
pub enum LastVerdict {
    Sat(Model),
    /// With the assumptions of the check.
    Unsat(Items<Term>),
    Unknown(Cause),
}

/// A session: its levels, the verdict that it keeps, whether successes are printed, and whether
/// `exit` was answered.
///
/// Contracts see these four, the levels as those of the stack.
pub struct Session {
    stack: Stack,
    verdict: Option<LastVerdict>,
    prints: bool,
    ended: bool,
    /// How many threads do the cubes of a check.
    workers: u32,
}

// A drop by hand is one call where a derived one is a call for each vector inside.
impl Drop for Session {
    fn drop(self) {
        let Self {
            stack: _,
            verdict: _,
            prints: _,
            ended: _,
            workers: _,
        } = self;
    }
}

impl std::marker::Model for Session {
    ghost use Rattle.std.specs.Prelude.{◌≤◌};
    ghost use Rattle.std.specs.Coded.{codes};
    ghost use Rattle.sv_terms.specs.contracts.regex.Regex as regex;
    ghost use Rattle.sv_terms.specs.contracts.term.Term as term;
    ghost use Rattle.smt_session.specs.Steps.{State, state};
    ghost use Rattle.smt_session.specs.Standing.{AreSound, IsKeptOf};

    ghost Value = { State };

    ghost coded = { Prim.hlevel (codes, regex.the_row.coded, term.the_row.coded) };

    ghost view = { λ s. state s.stack s.verdict s.prints s.ended };

    ghost invariant = { λ s. AreSound s.stack × IsKeptOf s.stack s.verdict × (1 ≤ s.workers) };
}

impl Session {
    /// A session at its start, whose checks are done by so many threads. It takes no memory.
    pub fn new(alloc: Global, workers: u32) -> Session
        requires { 1 ≤ workers }
        ensures { result ≡ opened }
    {
        Session {
            stack: Stack::new(alloc),
            verdict: None,
            prints: false,
            ended: false,
            workers,
        }
    }

    /// Whether `exit` was answered.
    pub fn has_ended(&self) -> bool
        ensures { result ≡ self.now.ended }
    {
        self.ended
    }

    /// The reply to an item, which is done (SMT-LIB 2.6, section 4.2). Where the reply is an error or
    /// `unsupported`, and where memory is wanting, the session is what it was.
    ///
    /// It costs what checking the item and its command cost: `push` and `pop` what they put and take
    /// away, `check-sat` what `decide` takes for the live assertions, and the symbols,
    /// `check-sat-assuming` the same with its assumptions, `get-unsat-core` what `find_core` takes, `get-model`
    /// and `get-value` what they answer. `get-value` builds each term, evaluates and drops it before the
    /// next one.
    pub fn step<R: Threads + Sync>(
        &mut self,
        rt: &R,
        alloc: Global,
        item: &Sexpr,
    ) -> Result<Reply, AllocError>
        ensures ok { IfOk result (λ reply. Steps self.old item.now reply self.new) }
        ensures err { OnErr result (self.new ≡ self.old) }
    {
        terms_are_sorted();
        terms_are_taken_one_by_one();
        additions_are_well_formed();
        match command(alloc, self.stack.symbols(), item) {
            Ok(command) => self.perform(rt, alloc, command),
            Err(fault) => Ok(Reply::Error(ErrorKind::of_check(fault)?)),
        }
    }

    // Does the command.
    fn perform<R: Threads + Sync>(
        &mut self,
        rt: &R,
        alloc: Global,
        command: Command,
    ) -> Result<Reply, AllocError>
        requires fits { FitsLevels self.old.levels command }
        ensures ok { IfOk result (λ reply. Does self.old command reply self.new) }
        ensures err { OnErr result (self.new ≡ self.old) }
    {
        match command {
            Command::Inform => Ok(self.success()),
            Command::PrintSuccess(prints) => Ok(self.print_success(prints)),
            Command::Declare(name, sort) => self.declare(name, Entry::Constant(sort)),
            Command::Define(name, entry) => self.declare(name, entry),
            Command::Assert(term) => self.assert(term),
            Command::AssertNamed(name, term) => self.assert_named(alloc, name, term),
            Command::Push(n) => self.push(n),
            Command::Pop(n) => Ok(self.pop(n)),
            Command::CheckSat => self.check_sat(rt, alloc),
            Command::CheckAssuming(assumed) => self.check_assuming(rt, alloc, assumed),
            Command::GetCore => self.core(rt, alloc),
            Command::GetModel => self.model(alloc),
            Command::GetValue(items) => self.values(alloc, items),
            Command::GetInfo(keyword) => Ok(self.info(keyword.as_slice())),
            Command::Echo(text) => Ok(Reply::Echo(text)),
            Command::Reset => Ok(self.reset()),
            Command::ResetAssertions => Ok(self.reset_assertions()),
            Command::Exit => Ok(self.exit()),
            Command::Unsupported => Ok(Reply::Unsupported),
        }
    }

    fn success(&self) -> Reply
        ensures { result ≡ Success self.now.prints }
    {
        Reply::Success {
            printed: self.prints,
        }
    }

    fn print_success(&mut self, prints: bool) -> Reply
        ensures { GivesReply (succeeds (printing prints self.old)) result self.new }
    {
        self.prints = prints;
        self.success()
    }

    fn declare(&mut self, name: Name, entry: Entry) -> Result<Reply, AllocError>
        requires { IsAdded (symbols_of self.old.levels) name entry }
        ensures ok { IfOk result (λ reply. GivesReply (succeeds (changed (declared name entry self.old.levels) self.old)) reply self.new) }
        ensures err { OnErr result (self.new ≡ self.old) }
    {
        constants_have_values();
        self.stack.declare(name, entry)?;
        self.verdict = None;
        Ok(self.success())
    }

    fn assert(&mut self, term: Term) -> Result<Reply, AllocError>
        requires { IsTermOf (symbols_of self.old.levels) sort.Bool term }
        ensures ok { IfOk result (λ reply. GivesReply (succeeds (changed (asserted term self.old.levels) self.old)) reply self.new) }
        ensures err { OnErr result (self.new ≡ self.old) }
    {
        self.stack.assert(term)?;
        self.verdict = None;
        Ok(self.success())
    }

    fn assert_named(&mut self, alloc: Global, name: Name, term: Term) -> Result<Reply, AllocError>
        requires term { IsTermOf (symbols_of self.old.levels) sort.Bool term }
        requires name { IsAdded (symbols_of self.old.levels) name (entry.Macro [] (body.Term term)) }
        ensures ok { IfOk result (λ reply. GivesReply (succeeds (changed (asserted_named name term self.old.levels) self.old)) reply self.new) }
        ensures err { OnErr result (self.new ≡ self.old) }
    {
        constants_have_values();
        self.stack.assert_named(alloc, name, term)?;
        self.verdict = None;
        Ok(self.success())
    }

    fn push(&mut self, n: u32) -> Result<Reply, AllocError>
        ensures ok { IfOk result (λ reply. GivesReply (pushes n self.old) reply self.new) }
        ensures err { OnErr result (self.new ≡ self.old) }
    {
        match self.stack.push(n) {
            Ok(()) => {
                self.verdict = None;
                Ok(self.success())
            }
            Err(StackFault::Full(_)) => Ok(Reply::Error(ErrorKind::Levels)),
            Err(StackFault::Memory(error)) => Err(error),
        }
    }

    fn pop(&mut self, n: u32) -> Reply
        ensures { GivesReply (pops n self.old) result self.new }
    {
        match self.stack.pop(n) {
            Ok(()) => {
                self.verdict = None;
                self.success()
            }
            Err(_) => Reply::Error(ErrorKind::NoSuchLevel),
        }
    }

    // Keeps the verdict of a check under these assumptions, and tells it.
    fn keep(
        &mut self,
        alloc: Global,
        assumed: Items<Term>,
        verdict: Verdict,
    ) -> Result<Reply, AllocError>
        requires { IsKeptOf self.old.levels (Some (kept_of assumed verdict)) }
        ensures ok { IfOk result (λ reply. Tells reply verdict × (self.new ≡ with_verdict (kept_of assumed verdict) self.old)) }
        ensures err { OnErr result (self.new ≡ self.old) }
    {
        match verdict {
            Verdict::Sat(model) => {
                let copy = model.copy(alloc)?;
                self.verdict = Some(LastVerdict::Sat(model));
                Ok(Reply::Sat(copy))
            }
            Verdict::Unsat(_) => {
                self.verdict = Some(LastVerdict::Unsat(assumed));
                Ok(Reply::Unsat)
            }
            Verdict::Unknown(open) => {
                self.verdict = Some(LastVerdict::Unknown(cause_of(&open)));
                Ok(Reply::Unknown(open))
            }
        }
    }

    fn check_sat<R: Threads + Sync>(&mut self, rt: &R, alloc: Global) -> Result<Reply, AllocError>
        ensures ok { IfOk result (λ reply. Checks self.old (live self.old.levels) [] reply self.new) }
        ensures err { OnErr result (self.new ≡ self.old) }
    {
        constants_have_values();
        entries_are_well_formed();
        let verdict = verdict_of(
            rt,
            alloc,
            self.stack.symbols(),
            self.stack.live(),
            self.workers,
        )?;
        self.keep(alloc, Items::new(alloc), verdict)
    }

    // The assumptions are asserted for the check, and go before the verdict is kept.
    fn check_assuming<R: Threads + Sync>(
        &mut self,
        rt: &R,
        alloc: Global,
        assumed: Items<Term>,
    ) -> Result<Reply, AllocError>
        requires { AllByRecursion (IsTermOf (symbols_of self.old.levels) sort.Bool) assumed }
        ensures ok { IfOk result (λ reply. Checks self.old (live self.old.levels ++ assumed) assumed reply self.new) }
        ensures err { OnErr result (self.new ≡ self.old) }
    {
        constants_have_values();
        entries_are_well_formed();
        let count = assumed.len();
        let asserted = assumed.copy(alloc)?;
        self.stack.assert_all(asserted)?;
        let answer = verdict_of(
            rt,
            alloc,
            self.stack.symbols(),
            self.stack.live(),
            self.workers,
        );
        self.stack.drop_last(count);
        self.keep(alloc, assumed, answer?)
    }

    // The assumptions of the kept `unsat` are asserted while a core is looked for.
    fn core<R: Threads + Sync>(&mut self, rt: &R, alloc: Global) -> Result<Reply, AllocError>
        ensures ok { IfOk result (AnswersCore self.old.levels self.old.verdict) }
        ensures same { self.new ≡ self.old }
    {
        constants_have_values();
        entries_are_well_formed();
        let Some(kept) = &self.verdict else {
            return Ok(Reply::Error(ErrorKind::NoCore));
        };
        let LastVerdict::Unsat(terms) = kept else {
            return Ok(Reply::Error(ErrorKind::NoCore));
        };
        let assumed = terms.copy(alloc)?;
        let count = assumed.len();
        let named = self.stack.live().len();
        self.stack.assert_all(assumed)?;
        let core = find_core(
            rt,
            alloc,
            self.stack.live(),
            named,
            self.stack.named(),
            self.workers,
        );
        self.stack.drop_last(count);
        Ok(Reply::Core(core?))
    }

    fn model(&self, alloc: Global) -> Result<Reply, AllocError>
        ensures { IfOk result (λ reply. reply ≡ model_reply self.now.verdict) }
    {
        match &self.verdict {
            Some(LastVerdict::Sat(model)) => Ok(Reply::Definitions(definitions(alloc, model)?)),
            _ => Ok(Reply::Error(ErrorKind::NoModel)),
        }
    }

    fn values(&self, alloc: Global, items: Items<Sexpr>) -> Result<Reply, AllocError>
        requires { All (IsAskable (symbols_of self.now.levels)) items }
        ensures { IfOk result (AnswersTerms (symbols_of self.now.levels) self.now.verdict items) }
    {
        constants_have_values();
        terms_are_sorted();
        let Some(kept) = &self.verdict else {
            return Ok(Reply::Error(ErrorKind::NoModel));
        };
        match kept {
            LastVerdict::Sat(model) => values(alloc, self.stack.symbols(), model, items),
            LastVerdict::Unsat(_) => Ok(Reply::Error(ErrorKind::NoModel)),
            LastVerdict::Unknown(_) => Ok(Reply::Error(ErrorKind::NoModel)),
        }
    }

    fn info(&self, keyword: &[u8]) -> Reply
        ensures { result ≡ info_reply self.now keyword.now }
    {
        if keyword == b":name".as_slice() {
            Reply::Info(Info::Name)
        } else if keyword == b":version".as_slice() {
            Reply::Info(Info::Version)
        } else if keyword == b":error-behavior".as_slice() {
            Reply::Info(Info::ErrorBehavior)
        } else if keyword == b":assertion-stack-levels".as_slice() {
            Reply::Info(Info::AssertionStackLevels(self.stack.levels()))
        } else if keyword == b":reason-unknown".as_slice() {
            self.reason()
        } else {
            Reply::Unsupported
        }
    }

    fn reason(&self) -> Reply
        ensures { result ≡ reason_reply self.now.verdict }
    {
        match &self.verdict {
            Some(LastVerdict::Unknown(cause)) => Reply::Info(Info::ReasonUnknown(*cause)),
            _ => Reply::Error(ErrorKind::NoReason),
        }
    }

    // Back to the start. `:print-success` is off again, so that this success isn't printed.
    fn reset(&mut self) -> Reply
        ensures { GivesReply (succeeds opened) result self.new }
    {
        self.verdict = None;
        self.stack.reset();
        self.prints = false;
        self.ended = false;
        self.success()
    }

    fn reset_assertions(&mut self) -> Reply
        ensures { GivesReply (succeeds (changed (empty ∷ []) self.old)) result self.new }
    {
        self.verdict = None;
        self.stack.reset_assertions();
        self.success()
    }

    fn exit(&mut self) -> Reply
        ensures { GivesReply (succeeds (after_exit self.old)) result self.new }
    {
        self.ended = true;
        self.success()
    }
}
