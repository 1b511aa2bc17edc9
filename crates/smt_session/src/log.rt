ghost use Rattle.std.specs.Prelude.{◌≡◌, ◌⊎◌, ◌∷◌, ◌++◌, [], List, Bool, true, false};
ghost use Rattle.smt_session.specs.declared.reply.Reply.{Reply as AnyReply};
ghost use Rattle.smt_session.specs.Generated.{counted, is_sat, is_unknown, is_unsat, tally_of};
ghost use Rattle.smt_session.specs.Scripts.{has_error};

use crate::Reply;
use crate::status::Status;
use generated_script::VerdictCounts;
use std::marker::Model;

/// The replies of a run, in order. Contracts see the list of them; in memory stands only whether one is an error,
/// and how many verdicts there are, so that a run takes no memory for what it has answered.
#[derive(Drop)]
pub struct ReplyLog {
    history: sv_log::Log<Reply>,
    erred: bool,
    tally: VerdictCounts,
}

impl Model for ReplyLog {
    ghost use Rattle.std.specs.Coded.{codes};
    ghost use Rattle.std.specs.Prelude.{◌≡◌, List};
    ghost use Rattle.farkas_check.specs.contracts.tree.Tree as tree;
    ghost use Rattle.sexpr_reader.specs.contracts.sexpr.Sexpr as sexpr;
    ghost use Rattle.sv_linear.specs.contracts.form.Form as form;
    ghost use Rattle.sv_terms.specs.contracts.regex.Regex as regex;
    ghost use Rattle.sv_terms.specs.contracts.term.Term as term;
    ghost use Rattle.smt_session.specs.declared.reply.Reply.{Reply};
    ghost use Rattle.smt_session.specs.Scripts.{has_error as some_error};
    ghost use Rattle.smt_session.specs.Generated.{tally_of};

    ghost Value = { List Reply };

    ghost coded = { Prim.hlevel (codes, form.the_row.coded, regex.the_row.coded, sexpr.the_row.coded, term.the_row.coded, tree.the_row.coded) };

    ghost view = { λ l. l.history.items };

    ghost invariant = { λ l. (l.erred ≡ some_error l.history.items) × (l.tally ≡ tally_of l.history.items) };
}

fn is_sat(reply: &Reply) -> bool
    ensures { result ≡ is_sat reply.now }
{
    matches!(reply, Reply::Sat(_))
}

fn is_unsat(reply: &Reply) -> bool
    ensures { result ≡ is_unsat reply.now }
{
    matches!(reply, Reply::Unsat)
}

fn is_unknown(reply: &Reply) -> bool
    ensures { result ≡ is_unknown reply.now }
{
    matches!(reply, Reply::Unknown(_))
}

// One more where it holds, up to the last number.
fn raise(count: u64, holds: bool) -> u64
    ensures { (is : AnyReply → Bool) (log : List AnyReply) (reply : AnyReply) → count ≡ counted is log → holds ≡ is reply → result ≡ counted is (log ++ reply ∷ []) }
{
    if holds {
        count.saturating_add(1)
    } else {
        count
    }
}

// The tally of the verdicts with this reply.
fn tally_with(tally: &VerdictCounts, reply: &Reply) -> VerdictCounts
    ensures { (log : List AnyReply) → tally.now ≡ tally_of log → result ≡ tally_of (log ++ reply.now ∷ []) }
{
    VerdictCounts {
        sat: raise(tally.sat, is_sat(reply)),
        unsat: raise(tally.unsat, is_unsat(reply)),
        unknown: raise(tally.unknown, is_unknown(reply)),
    }
}

impl ReplyLog {
    /// No replies.
    pub fn new() -> ReplyLog
        ensures { result ≡ [] }
    {
        ReplyLog {
            history: sv_log::Log::new(),
            erred: false,
            tally: VerdictCounts {
                sat: 0,
                unsat: 0,
                unknown: 0,
            },
        }
    }

    /// The replies so far, and then this one.
    pub fn and(&self, reply: &Reply) -> ReplyLog
        ensures { result ≡ self.now ++ reply.now ∷ [] }
    {
        ReplyLog {
            history: self.history.and(reply),
            erred: self.erred || reply.is_error(),
            tally: tally_with(&self.tally, reply),
        }
    }

    /// How a run with these replies ends where its script was answered.
    pub fn status(&self) -> Status
        ensures either { (result ≡ Status.Answered) ⊎ (result ≡ Status.ErrorAnswered) }
        ensures right { result ≡ Status.Answered → has_error self.now ≡ false }
        ensures error { result ≡ Status.ErrorAnswered → has_error self.now ≡ true }
    {
        if self.erred {
            Status::ErrorAnswered
        } else {
            Status::Answered
        }
    }

    /// How many verdicts there are of each kind.
    pub fn tally(&self) -> VerdictCounts
        ensures { result ≡ tally_of self.now }
    {
        self.tally
    }
}
