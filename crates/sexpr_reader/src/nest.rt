ghost use Rattle.std.specs.Prelude.{◌≡◌, ◌<◌, ◌≤◌, ◌+◌, ◌∷◌, ◌++◌, [], List, length, true, false, OnOk, OnErr, IfOk};
ghost use Rattle.sexpr_reader.specs.Items.{tokens_of, most_open_lists, Feeds};
ghost use Rattle.sexpr_reader.specs.Tokens.{Close};

use crate::sexpr::Sexpr;
use std::alloc::{AllocError, Global};
use sv_list::Items;

/// The most lists that may be open inside one another.
const MOST_OPEN_LISTS: usize = 1_000;

/// The lists that are open, the outermost first, each with its items so far.
#[derive(Drop)]
pub struct Nest {
    pub lists: Vec<Items<Sexpr>>,
}

impl Nest {
    pub fn new(alloc: Global) -> Nest
        ensures { result.lists.items ≡ [] }
    {
        Nest {
            lists: Vec::new(alloc),
        }
    }

    /// Whether no list is open.
    pub fn is_empty(&self) -> bool
        ensures empty { result ≡ true → self.now.lists.items ≡ [] }
        ensures some { result ≡ false → 0 < length self.now.lists.items }
    {
        self.lists.is_empty()
    }

    /// Whether no further list may open inside the innermost one.
    pub fn is_full(&self) -> bool
        ensures full { result ≡ true → most_open_lists ≤ length self.now.lists.items }
        ensures room { result ≡ false → length self.now.lists.items < most_open_lists }
    {
        self.lists.len() >= MOST_OPEN_LISTS
    }

    /// Opens a list in the innermost one.
    pub fn open(&mut self, alloc: Global) -> Result<(), AllocError>
        ensures ok { OnOk result (self.new.lists.items ≡ self.old.lists.items ++ [] ∷ []) }
        ensures err { OnErr result (self.new.lists.items ≡ self.old.lists.items) }
    {
        self.lists.push(Items::new(alloc))?;
        Ok(())
    }

    /// Puts an item into the innermost list, or gives it back where no list is open.
    pub fn put(&mut self, item: Sexpr) -> Result<Option<Sexpr>, AllocError>
        ensures ok { IfOk result (λ given. Feeds self.old.lists.items (tokens_of item) given self.new.lists.items) }
        ensures len { OnOk result (length self.new.lists.items ≡ length self.old.lists.items) }
        ensures err { OnErr result (self.new.lists.items ≡ self.old.lists.items) }
    {
        let count = self.lists.len();
        if count == 0 {
            return Ok(Some(item));
        }
        self.lists[count - 1].push(item)?;
        Ok(None)
    }

    /// Closes the innermost list, and gives it back where it stood in no other.
    pub fn close(&mut self, alloc: Global) -> Result<Option<Sexpr>, AllocError>
        requires { 0 < length self.old.lists.items }
        ensures ok { IfOk result (λ given. Feeds self.old.lists.items (Close ∷ []) given self.new.lists.items) }
        ensures len { OnOk result (length self.new.lists.items + 1 ≡ length self.old.lists.items) }
        ensures err { OnErr result (self.new.lists.items ≡ self.old.lists.items) }
    {
        let count = self.lists.len();
        if count == 1 {
            return match self.lists.pop() {
                Some(list) => Ok(Some(Sexpr::List(list))),
                None => Ok(None),
            };
        }
        // The list's place in the outer one is taken first, so that want of memory leaves both as they were.
        self.lists[count - 2].push(Sexpr::List(Items::new(alloc)))?;
        match self.lists.pop() {
            Some(list) => {
                let outer = &mut self.lists[count - 2];
                let last = outer.len() - 1;
                outer.set(last, Sexpr::List(list));
                Ok(None)
            }
            None => Ok(None),
        }
    }
}
