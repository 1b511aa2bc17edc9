ghost use Rattle.std.specs.Prelude.{◌≡◌, ◌+◌, ◌-◌, ◌<◌, ◌≤◌, [], ◌∷◌, ◌++◌, None, length, drop, reverse, nat_eq, replicate, IfErr, OnOk, OnErr};
ghost use Rattle.std.specs.Map.{lookup};
ghost use Rattle.std.specs.Cmp.Lexicographic.{pointwise};
ghost use Rattle.assert_stack.specs.Levels.{empty, symbols_of, live, named, pushed, declared, asserted, asserted_all, asserted_named, dropped_last};
ghost use Rattle.assert_stack.specs.Faults.{IsFaultAt};
ghost use Rattle.assert_stack.specs.Marks.{outside};

use crate::fault::{Below, StackFault};
use crate::mark::Mark;
use std::alloc::{AllocError, Global};
use sv_list::Items;
use sv_terms::{Body, Entry, MOST_LEVELS, Name, Term};
use term_weight::Declarations;

/// The levels of a session, with their symbols and assertions.
///
/// Contracts see the list of the levels, the innermost first, each with its symbols, its assertions,
/// and the names of those that have one with their places in `live`, all in the order in which they
/// came. There is always the outermost one.
#[derive(Drop)]
pub struct Stack {
    symbols: Declarations,
    live: Items<Term>,
    named: Items<(Name, usize)>,
    marks: Items<Mark>,
}

impl std::marker::Model for Stack {
    ghost use Rattle.std.specs.Prelude.{List, ◌≤◌, reverse, length};
    ghost use Rattle.std.specs.Coded.{codes};
    ghost use Rattle.sv_terms.specs.contracts.regex.Regex as regex;
    ghost use Rattle.sv_terms.specs.contracts.term.Term as term;
    ghost use Rattle.sv_terms.specs.declared.limits.TheConstants.{MOST_LEVELS};
    ghost use Rattle.assert_stack.specs.Levels.{Level};
    ghost use Rattle.assert_stack.specs.Marks.{levels_at, AreMarks};

    ghost Value = { List Level };

    ghost coded = { Prim.hlevel (codes, regex.the_row.coded, term.the_row.coded) };

    ghost view = { λ s. levels_at (reverse s.marks) s.symbols s.live s.named };

    ghost invariant = { λ s. AreMarks (reverse s.marks) (length s.symbols) (length s.live) (length s.named) × (length s.marks ≤ MOST_LEVELS) };
}

impl Stack {
    /// The outermost level alone, without symbols and assertions. It takes no memory.
    pub fn new(alloc: Global) -> Stack
        ensures { result ≡ empty ∷ [] }
    {
        Stack {
            symbols: Declarations::new(alloc),
            live: Items::new(alloc),
            named: Items::new(alloc),
            marks: Items::new(alloc),
        }
    }

    /// The symbols of all levels.
    pub fn symbols(&self) -> &Declarations
        ensures { result.now ≡ symbols_of self.now }
    {
        &self.symbols
    }

    /// The assertions of all levels, in the order in which they came.
    pub fn live(&self) -> &[Term]
        ensures { result.now ≡ live self.now }
    {
        self.live.as_slice()
    }

    /// The names of the assertions that have one, each with the place of its assertion in `live`, in
    /// the order in which they came. It takes no memory.
    pub fn named(&self) -> &[(Name, usize)]
        ensures { result.now ≡ named self.now }
    {
        self.named.as_slice()
    }

    /// The number of levels that were pushed and not popped, the outermost one aside.
    pub fn levels(&self) -> u32
        ensures count { result + 1 ≡ length self.now }
        ensures most { result ≤ MOST_LEVELS }
    {
        self.marks.len() as u32
    }

    /// `n` new levels inside the others. Linear in `n`.
    ///
    /// # Errors
    ///
    /// `Full` with the number of levels that there would be, where it is above 65,535.
    pub fn push(&mut self, n: u32) -> Result<(), StackFault>
        ensures ok { OnOk result (self.new ≡ pushed n self.old) }
        ensures fits { OnOk result (length self.old + n ≤ MOST_LEVELS + 1) }
        ensures err { OnErr result (self.new ≡ self.old) }
        ensures fault { IfErr result (IsFaultAt (length self.old + n - 1)) }
    {
        let levels = u64::from(self.levels()) + u64::from(n);
        if levels > MOST_LEVELS {
            return Err(StackFault::Full(levels));
        }
        let mark = Mark {
            symbols: self.symbols.len(),
            assertions: self.live.len(),
            names: self.named.len(),
        };
        set_marks(&mut self.marks, mark, n)?;
        Ok(())
    }

    /// The `n` innermost levels go, with their symbols and assertions, in time linear in what goes.
    /// It takes no memory.
    ///
    /// # Errors
    ///
    /// `Below` with the number of levels, where `n` is above it.
    pub fn pop(&mut self, n: u32) -> Result<(), Below>
        ensures ok { OnOk result (self.new ≡ drop n self.old) }
        ensures within { OnOk result (n < length self.old) }
        ensures err { OnErr result (self.new ≡ self.old) }
        ensures below { IfErr result (λ fault. (fault.0 + 1 ≡ length self.old) × (fault.0 < n)) }
    {
        let levels = self.levels();
        if levels < n {
            return Err(Below(levels));
        }
        for _ in 0..n {
            self.pop_one();
        }
        Ok(())
    }

    // The innermost level goes.
    fn pop_one(&mut self)
        requires { 1 < length self.old }
        ensures { self.new ≡ drop 1 self.old }
    {
        if let Some(mark) = self.marks.pop() {
            self.symbols.truncate(mark.symbols);
            self.live.truncate(mark.assertions);
            self.named.truncate(mark.names);
        }
    }

    /// Declares a name that isn't there, on the innermost level. Time is linear in the name and, for
    /// a macro, in its body, but for the moves of a growing map.
    pub fn declare(&mut self, name: Name, entry: Entry) -> Result<(), AllocError>
        requires { lookup (pointwise nat_eq name) (symbols_of self.old) ≡ None }
        ensures ok { OnOk result (self.new ≡ declared name entry self.old) }
        ensures err { OnErr result (self.new ≡ self.old) }
    {
        self.symbols.declare(name, entry)
    }

    /// Asserts the term on the innermost level. Amortised constant time.
    pub fn assert(&mut self, term: Term) -> Result<(), AllocError>
        ensures ok { OnOk result (self.new ≡ asserted term self.old) }
        ensures err { OnErr result (self.new ≡ self.old) }
    {
        self.live.push(term)
    }

    /// Asserts the term on the innermost level under a name that isn't there: the name is declared
    /// there as a macro without parameters for the term, and kept with the place of the assertion.
    /// Time is linear in the name and the term.
    pub fn assert_named(&mut self, alloc: Global, name: Name, term: Term) -> Result<(), AllocError>
        requires { lookup (pointwise nat_eq name) (symbols_of self.old) ≡ None }
        ensures ok { OnOk result (self.new ≡ asserted_named name term self.old) }
        ensures err { OnErr result (self.new ≡ self.old) }
    {
        let symbols = self.symbols.len();
        let kept = name.copy(alloc)?;
        let entry = Entry::Macro {
            parameters: Items::new(alloc),
            body: Body::Term(term.copy(alloc)?),
        };
        self.symbols.declare(name, entry)?;
        match push_named(&mut self.live, &mut self.named, kept, term) {
            Ok(()) => Ok(()),
            Err(error) => {
                self.symbols.truncate(symbols);
                Err(error)
            }
        }
    }

    /// Puts assertions after the live ones, on the innermost level, until [`Stack::drop_last`] takes
    /// them away. Time is linear in their number, but for the moves of a growing list; the assertions
    /// that were there aren't copied.
    pub fn assert_all(&mut self, terms: Items<Term>) -> Result<(), AllocError>
        ensures ok { OnOk result (self.new ≡ asserted_all terms self.old) }
        ensures live { OnOk result (live self.new ≡ live self.old ++ terms) }
        ensures err { OnErr result (self.new ≡ self.old) }
    {
        self.live.append(terms)
    }

    /// The last `n` assertions of the innermost level go, or all where there are fewer, in time linear
    /// in what goes. It takes no memory.
    pub fn drop_last(&mut self, n: usize)
        ensures { self.new ≡ dropped_last n self.old }
    {
        let outer = outside(self.marks.as_slice());
        let inner = self.live.len() - outer;
        self.live.truncate(outer + inner.saturating_sub(n));
    }

    /// Back to the outermost level alone, without symbols and assertions, in time linear in what
    /// goes. It takes no memory.
    pub fn reset(&mut self)
        ensures { self.new ≡ empty ∷ [] }
    {
        self.symbols.truncate(0);
        self.live.truncate(0);
        self.named.truncate(0);
        self.marks.truncate(0);
    }

    /// The same for the command of that name: no level, assertion or symbol is left.
    pub fn reset_assertions(&mut self)
        ensures { self.new ≡ empty ∷ [] }
    {
        self.reset()
    }
}

// The term at the end of the live assertions, and its name with its place at the end of the names; or
// neither, where there is no memory.
fn push_named(
    live: &mut Items<Term>,
    named: &mut Items<(Name, usize)>,
    name: Name,
    term: Term,
) -> Result<(), AllocError>
    ensures live { OnOk result (live.new ≡ live.old ++ term ∷ []) }
    ensures named { OnOk result (named.new ≡ named.old ++ (name, length live.old) ∷ []) }
    ensures err { OnErr result ((live.new ≡ live.old) × (named.new ≡ named.old)) }
{
    let place = live.len();
    let names = named.len();
    named.push((name, place))?;
    match live.push(term) {
        Ok(()) => Ok(()),
        Err(error) => {
            named.truncate(names);
            Err(error)
        }
    }
}

// How many assertions there were when the last level was pushed.
fn outside(marks: &[Mark]) -> usize
    ensures { result ≡ outside (reverse marks.now) }
{
    match marks {
        [] => 0,
        [.., mark] => mark.assertions,
    }
}

// The mark, `n` times at the end, or none where there is no memory.
fn set_marks(marks: &mut Items<Mark>, mark: Mark, n: u32) -> Result<(), AllocError>
    ensures ok { OnOk result (marks.new ≡ marks.old ++ replicate n mark) }
    ensures err { OnErr result (marks.new ≡ marks.old) }
{
    let before = marks.len();
    for _ in 0..n {
        if marks.push(mark).is_err() {
            marks.truncate(before);
            return Err(AllocError);
        }
    }
    Ok(())
}
