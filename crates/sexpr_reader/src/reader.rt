ghost use Rattle.std.specs.Prelude.{◌≡◌, ◌≤◌, ◌<◌, ◌+◌, ◌^◌, length};

use crate::action::Action;
use crate::kind::TokenKind;
use crate::mode::Mode;
use crate::nest::Nest;
use crate::sexpr::Sexpr;
use crate::syntax_fault::SyntaxFault;
use crate::token_kind::{is_literal, plain_kind};
use std::alloc::{AllocError, Global};
use sv_list::Items;

/// Reads s-expressions from bytes that come in pieces.
///
/// It keeps the open lists, the unfinished token and the bytes that it hasn't looked at yet.
#[derive(Drop)]
pub struct Reader {
    /// The bytes that are kept.
    pending: Vec<u8>,
    /// Where the unfinished token begins in them.
    start: usize,
    /// Where the next byte stands in them.
    at: usize,
    /// The place of the unfinished token in all bytes that were fed.
    place: u64,
    mode: Mode,
    nest: Nest,
    alloc: Global,
    ghost order: { start ≤ at },
    ghost within: { at ≤ length pending.items },
    ghost places: { place + length pending.items < 2 ^ 64 + start },
}

impl Reader {
    ghost use Rattle.std.specs.Prelude.{◌∷◌, ◌++◌, [], List, ℕ, Bool, true, false, IfOk, OnOk, OnErr, Ok, Err, None, Some, take, drop, slice_index, not, ◌-◌, ◌==◌};
    ghost use Rattle.sexpr_reader.specs.declared.sexpr.Sexpr.{Sexpr};
    ghost use Rattle.sexpr_reader.specs.declared.syntax_fault.SyntaxFault.TheVariants.{Incomplete};
    ghost use Rattle.sexpr_reader.specs.Bytes.{is_border};
    ghost use Rattle.sexpr_reader.specs.Items.{Feeds};
    ghost use Rattle.sexpr_reader.specs.Lexes.{EndsOrPasses};
    ghost use Rattle.sexpr_reader.specs.Reads.{Ends, FaultAfter};
    ghost use Rattle.sexpr_reader.specs.Standing.{HasGiven, AnswersNext, AnswersEnd, kept};
    ghost use Rattle.sexpr_reader.specs.Progress.{AnswersStep, IsSame, IsSettled, IsOpenToken, work};
    ghost use Rattle.sexpr_reader.specs.Stepping.{Acts};
    ghost use Rattle.sexpr_reader.specs.Tokens.{Open, Close, Atomic};

    /// A reader that was fed nothing. It takes no memory.
    pub fn new(alloc: Global) -> Reader
        ensures stands { HasGiven false result [] [] }
    {
        Reader {
            pending: Vec::new(alloc),
            start: 0,
            at: 0,
            place: 0,
            mode: Mode::Blank,
            nest: Nest::new(alloc),
            alloc,
        }
    }

    /// The number of raw bytes that are kept. It takes no memory.
    pub fn held_bytes(&self) -> usize
        ensures count { result ≡ length (kept self.now) }
    {
        self.pending.len()
    }

    /// Takes the next bytes, which stand behind those that were fed before.
    ///
    /// Time and memory in the length of the piece. It is meant for a reader whose input hasn't
    /// ended: after `end` has answered anything but want of memory, no call of `next` or `end`
    /// promises anything of bytes that are fed then. More than 2^64 - 1 bytes are answered as want
    /// of memory.
    pub fn feed(&mut self, piece: &[u8]) -> Result<(), AllocError>
        ensures fed { OnOk result ((bytes : List ℕ) (given : List Sexpr) → HasGiven false self.old bytes given → HasGiven false self.new (bytes ++ piece.now) given) }
        ensures refused { OnErr result ((ended : Bool) (bytes : List ℕ) (given : List Sexpr) → HasGiven ended self.old bytes given → HasGiven ended self.new bytes given) }
    {
        let kept = (self.pending.len() - self.start) as u64;
        if piece.len() as u64 > u64::MAX - (self.place + kept) {
            return Err(AllocError);
        }
        self.pending.extend_from_slice(piece)?;
        Ok(())
    }

    /// The next whole item. Where it answers `None`, more bytes or the end have to come first.
    ///
    /// A fault is answered again by each later call of `next`, whatever is fed. A call looks only at
    /// bytes that none looked at before, and once more at the token that they end; it takes memory
    /// for the item and for the lists that are open.
    pub fn next(&mut self) -> Result<Option<Sexpr>, SyntaxFault>
        ensures answers { (bytes : List ℕ) (given : List Sexpr) → HasGiven false self.old bytes given → AnswersNext self.new bytes given result }
    {
        self.read_on()
    }

    /// The next item where no byte follows, so that a last atom is whole. It is called until it
    /// answers `None` or a fault, which it answers again if it is called once more. It costs what
    /// `next` does.
    pub fn end(&mut self) -> Result<Option<Sexpr>, SyntaxFault>
        ensures answers { (ended : Bool) (bytes : List ℕ) (given : List Sexpr) → HasGiven ended self.old bytes given → AnswersEnd ended self.new bytes given result }
    {
        match self.read_on()? {
            Some(item) => Ok(Some(item)),
            None => self.read_last(),
        }
    }

    /// Goes on to the next item, to a fault, or to the end of the bytes.
    fn read_on(&mut self) -> Result<Option<Sexpr>, SyntaxFault>
        ensures steps { (ended : Bool) (bytes : List ℕ) (given : List Sexpr) → HasGiven ended self.old bytes given → AnswersStep ended self.new bytes given result }
        ensures all { result ≡ Ok None → length self.new.pending.items ≡ self.new.at }
        ensures start { result ≡ Ok None → self.new.start ≡ 0 }
    {
        'bytes: while self.at < self.pending.len() {
            if let Some(item) = self.advance()? {
                return Ok(Some(item));
            }
        }
        self.compact();
        Ok(None)
    }

    /// What is left where all bytes were looked at and none follows.
    fn read_last(&mut self) -> Result<Option<Sexpr>, SyntaxFault>
        requires { length self.old.pending.items ≡ self.old.at }
        ensures { (ended : Bool) (bytes : List ℕ) (given : List Sexpr) → HasGiven ended self.old bytes given → AnswersEnd ended self.new bytes given result }
    {
        if let Some(item) = self.last_atom()? {
            return Ok(Some(item));
        }
        if self.is_done() {
            return Ok(None);
        }
        Err(SyntaxFault::Incomplete)
    }

    /// The atom that the end of the input ends, if there is one.
    fn last_atom(&mut self) -> Result<Option<Sexpr>, SyntaxFault>
        requires { length self.old.pending.items ≡ self.old.at }
        ensures steps { (bytes : List ℕ) (given : List Sexpr) → HasGiven true self.old bytes given → AnswersStep true self.new bytes given result }
        ensures refused { OnErr result (IsSame self.old self.new) }
        ensures left { OnOk result (IsOpenToken self.new.mode) }
        ensures all { OnOk result (length self.new.pending.items ≡ self.new.at) }
    {
        match self.mode {
            Mode::Run => self.run(),
            Mode::Quote => self.literal(),
            _ => Ok(None),
        }
    }

    /// Whether no list, literal or quoted symbol is open at the end.
    fn is_done(&self) -> bool
        requires all { length self.now.pending.items ≡ self.now.at }
        requires left { IsOpenToken self.now.mode }
        ensures done { result ≡ true → (bytes : List ℕ) (given : List Sexpr) → HasGiven true self.now bytes given → Ends bytes given }
        ensures open { result ≡ false → (bytes : List ℕ) (given : List Sexpr) → HasGiven true self.now bytes given → FaultAfter true bytes given Incomplete }
    {
        if !self.mode.is_idle() {
            return false;
        }
        self.nest.is_empty()
    }

    /// Looks at the next byte.
    fn advance(&mut self) -> Result<Option<Sexpr>, SyntaxFault>
        requires { self.old.at < length self.old.pending.items }
        ensures steps { (ended : Bool) (bytes : List ℕ) (given : List Sexpr) → HasGiven ended self.old bytes given → AnswersStep ended self.new bytes given result }
        ensures work { OnOk result ((self.new.pending.items ≡ self.old.pending.items) × (work self.new < work self.old)) }
    {
        match self.mode.action(self.pending[self.at]) {
            Action::Skip(mode) => {
                self.skip(mode);
                Ok(None)
            }
            Action::Take(mode) => {
                self.take(mode);
                Ok(None)
            }
            Action::Open => self.open(),
            Action::Close => self.close(),
            Action::EndQuoted => self.close_quote(),
            Action::EndRun => self.run(),
            Action::EndLiteral => self.literal(),
            Action::Refuse => Err(self.refuse()),
        }
    }

    /// The next byte belongs to white space or a comment.
    fn skip(&mut self, mode: Mode)
        requires within { self.old.at < length self.old.pending.items }
        requires acts { Acts self.old.mode (slice_index self.old.pending.items self.old.at) (Action.Skip mode) }
        ensures stands { (ended : Bool) (bytes : List ℕ) (given : List Sexpr) → HasGiven ended self.old bytes given → HasGiven ended self.new bytes given }
        ensures work { (self.new.pending.items ≡ self.old.pending.items) × (work self.new < work self.old) }
    {
        self.settle(self.at + 1);
        self.mode = mode;
    }

    /// The next byte belongs to the unfinished token.
    fn take(&mut self, mode: Mode)
        requires within { self.old.at < length self.old.pending.items }
        requires acts { Acts self.old.mode (slice_index self.old.pending.items self.old.at) (Action.Take mode) }
        ensures stands { (ended : Bool) (bytes : List ℕ) (given : List Sexpr) → HasGiven ended self.old bytes given → HasGiven ended self.new bytes given }
        ensures work { (self.new.pending.items ≡ self.old.pending.items) × (work self.new < work self.old) }
    {
        self.at += 1;
        self.mode = mode;
    }

    /// A list opens.
    fn open(&mut self) -> Result<Option<Sexpr>, SyntaxFault>
        requires within { self.old.at < length self.old.pending.items }
        requires acts { Acts self.old.mode (slice_index self.old.pending.items self.old.at) Action.Open }
        ensures steps { (ended : Bool) (bytes : List ℕ) (given : List Sexpr) → HasGiven ended self.old bytes given → AnswersStep ended self.new bytes given result }
        ensures work { OnOk result ((self.new.pending.items ≡ self.old.pending.items) × (work self.new < work self.old)) }
    {
        if self.nest.is_full() {
            return Err(SyntaxFault::Depth(self.place));
        }
        self.nest.open(self.alloc)?;
        self.settle(self.at + 1);
        Ok(None)
    }

    /// A list closes.
    fn close(&mut self) -> Result<Option<Sexpr>, SyntaxFault>
        requires within { self.old.at < length self.old.pending.items }
        requires acts { Acts self.old.mode (slice_index self.old.pending.items self.old.at) Action.Close }
        ensures steps { (ended : Bool) (bytes : List ℕ) (given : List Sexpr) → HasGiven ended self.old bytes given → AnswersStep ended self.new bytes given result }
        ensures work { OnOk result ((self.new.pending.items ≡ self.old.pending.items) × (work self.new < work self.old)) }
    {
        if self.nest.is_empty() {
            return Err(SyntaxFault::Close(self.place));
        }
        let item = self.nest.close(self.alloc)?;
        self.settle(self.at + 1);
        Ok(item)
    }

    /// A bar ends a quoted symbol.
    fn close_quote(&mut self) -> Result<Option<Sexpr>, SyntaxFault>
        requires within { self.old.at < length self.old.pending.items }
        requires acts { Acts self.old.mode (slice_index self.old.pending.items self.old.at) Action.EndQuoted }
        ensures steps { (ended : Bool) (bytes : List ℕ) (given : List Sexpr) → HasGiven ended self.old bytes given → AnswersStep ended self.new bytes given result }
        ensures work { OnOk result ((self.new.pending.items ≡ self.old.pending.items) × (work self.new < work self.old)) }
    {
        Ok(self.finish(TokenKind::Quoted, self.at + 1)?)
    }

    /// The run is whole.
    fn run(&mut self) -> Result<Option<Sexpr>, SyntaxFault>
        requires { self.old.mode ≡ Mode.Run }
        ensures steps { (ended : Bool) (bytes : List ℕ) (given : List Sexpr) → EndsOrPasses is_border ended (drop self.old.at self.old.pending.items) → HasGiven ended self.old bytes given → AnswersStep ended self.new bytes given result }
        ensures work { OnOk result ((self.new.pending.items ≡ self.old.pending.items) × (work self.new < work self.old)) }
        ensures at { OnOk result ((self.new.mode ≡ Mode.Blank) × (self.new.at ≡ self.old.at)) }
        ensures refused { OnErr result (IsSame self.old self.new) }
    {
        match plain_kind(&self.pending[self.start..self.at]) {
            Some(kind) => Ok(self.finish(kind, self.at)?),
            None => Err(SyntaxFault::Token(self.place)),
        }
    }

    /// The literal is whole.
    fn literal(&mut self) -> Result<Option<Sexpr>, SyntaxFault>
        requires { self.old.mode ≡ Mode.Quote }
        ensures steps { (ended : Bool) (bytes : List ℕ) (given : List Sexpr) → EndsOrPasses (λ b. not (b == 34)) ended (drop self.old.at self.old.pending.items) → HasGiven ended self.old bytes given → AnswersStep ended self.new bytes given result }
        ensures work { OnOk result ((self.new.pending.items ≡ self.old.pending.items) × (work self.new < work self.old)) }
        ensures at { OnOk result ((self.new.mode ≡ Mode.Blank) × (self.new.at ≡ self.old.at)) }
        ensures refused { OnErr result (IsSame self.old self.new) }
    {
        let is_text = is_literal(self.alloc, &self.pending[self.start..self.at])?;
        if !is_text {
            return Err(SyntaxFault::Literal(self.place));
        }
        Ok(self.finish(TokenKind::Literal, self.at)?)
    }

    /// A `\` stands between bars.
    fn refuse(&self) -> SyntaxFault
        requires within { self.now.at < length self.now.pending.items }
        requires acts { Acts self.now.mode (slice_index self.now.pending.items self.now.at) Action.Refuse }
        ensures { (ended : Bool) (bytes : List ℕ) (given : List Sexpr) → HasGiven ended self.now bytes given → AnswersStep ended self.now bytes given (Err result) }
    {
        SyntaxFault::Token(self.place)
    }

    /// The token of this kind ends in front of `end`.
    fn finish(&mut self, kind: TokenKind, end: usize) -> Result<Option<Sexpr>, AllocError>
        requires order { self.old.start ≤ end }
        requires within { end ≤ length self.old.pending.items }
        ensures ok { IfOk result (λ item. Feeds self.old.nest.lists.items (Atomic kind (take (end - self.old.start) (drop self.old.start self.old.pending.items)) ∷ []) item self.new.nest.lists.items) }
        ensures len { OnOk result (length self.new.nest.lists.items ≡ length self.old.nest.lists.items) }
        ensures settled { OnOk result (IsSettled self.old self.new end) }
        ensures err { OnErr result (IsSame self.old self.new) }
    {
        let bytes = Items::from_slice(self.alloc, &self.pending[self.start..end])?;
        let item = self.nest.put(Sexpr::Atom(kind, bytes))?;
        self.settle(end);
        Ok(item)
    }

    /// No token is unfinished at `end`.
    fn settle(&mut self, end: usize)
        requires order { self.old.start ≤ end }
        requires within { end ≤ length self.old.pending.items }
        ensures settled { IsSettled self.old self.new end }
        ensures lists { self.new.nest.lists.items ≡ self.old.nest.lists.items }
    {
        self.place += (end - self.start) as u64;
        self.start = end;
        self.at = end;
        self.mode = Mode::Blank;
    }

    /// Lets go of the bytes in front of the unfinished token.
    fn compact(&mut self)
        ensures stands { (ended : Bool) (bytes : List ℕ) (given : List Sexpr) → HasGiven ended self.old bytes given → HasGiven ended self.new bytes given }
        ensures kept { self.new.pending.items ≡ drop self.old.start self.old.pending.items }
        ensures start { self.new.start ≡ 0 }
        ensures at { self.new.at + self.old.start ≡ self.old.at }
    {
        let kept = self.pending.len() - self.start;
        self.pending.rotate_left(self.start);
        self.pending.truncate(kept);
        self.at -= self.start;
        self.start = 0;
    }
}
