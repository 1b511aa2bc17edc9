//! The order of definitions: each stands before those that use its variable, and the first that can come
//! comes next.
ghost use Rattle.std.specs.Prelude.{◌≡◌, ℕ, ◌+◌, ◌<◌, ◌≤◌, List, [], ◌∷◌, length, get_or, replicate, false, IfOk, OnOk};
ghost use Rattle.flat_cubes.specs.Straight.{AreBelow, HaveVariablesBelow};
ghost use Rattle.straight_line.specs.Waiting.{Has, HaveOnce, IsAhead, AreFirstMarked, NoneAheadBefore, IsSorted, IsSorting, waiters_from};

use flat_cubes::Definition;
use std::alloc::{AllocError, Global};
use std::collections::BTreeSet;
use std::mem;
use sv_list::Items;

/// A definition that waits for a variable that it uses.
#[derive(Clone, Copy)]
struct Waiter {
    /// The place of the definition.
    definition: usize,
    /// The place of the variable among those that it uses; none before it is ahead.
    from: usize,
}

/// Definitions that are put in order.
#[derive(Drop)]
struct Sorting {
    /// The places of the definitions that are in order.
    order: Items<usize>,
    /// Whether the definition of each variable is still ahead.
    ahead: Items<bool>,
    /// The places of the definitions that are left and use no variable that is ahead.
    free: BTreeSet<usize>,
    /// By variables: the definitions that wait for it.
    waiters: Vec<Items<Waiter>>,
}

impl Sorting {
    /// All definitions are left, and none is filed.
    fn new(alloc: Global, variables: u32, definitions: &[Definition]) -> Result<Sorting, AllocError>
        requires { HaveVariablesBelow variables definitions.now }
        ensures ahead { IfOk result (λ s. length s.ahead ≡ variables) }
        ensures rows { IfOk result (λ s. length s.waiters.items ≡ variables) }
        ensures sorting { IfOk result (λ s. IsSorting definitions.now (waiters_from 0 (length definitions.now)) s.order s.ahead s.free.keys s.waiters.items) }
    {
        let ahead = mark(alloc, variables, definitions)?;
        let waiters = rows(alloc, variables)?;
        Ok(Sorting {
            order: Items::new(alloc),
            ahead,
            free: BTreeSet::new(alloc),
            waiters,
        })
    }

    /// Files a definition with the free ones, or with those that wait for the first variable that is ahead.
    fn file(&mut self, definitions: &[Definition], waiter: Waiter) -> Result<(), AllocError>
        requires within { HaveVariablesBelow (length self.old.ahead) definitions.now }
        requires rows { length self.old.waiters.items ≡ length self.old.ahead }
        requires passed { NoneAheadBefore definitions.now self.old.ahead waiter }
        ensures order { self.new.order ≡ self.old.order }
        ensures ahead { self.new.ahead ≡ self.old.ahead }
        ensures rows { length self.new.waiters.items ≡ length self.old.waiters.items }
        ensures filed { OnOk result ((rest : List Waiter) → IsSorting definitions.now (waiter ∷ rest) self.old.order self.old.ahead self.old.free.keys self.old.waiters.items → IsSorting definitions.now rest self.new.order self.new.ahead self.new.free.keys self.new.waiters.items) }
    {
        let used = definitions[waiter.definition].by.uses();
        let from = next_ahead(self.ahead.as_slice(), used, waiter.from);
        if from < used.len() {
            self.waiters[used[from] as usize].push(Waiter {
                definition: waiter.definition,
                from,
            })
        } else {
            self.free.insert(waiter.definition)?;
            Ok(())
        }
    }

    /// Files all definitions.
    fn file_all(&mut self, definitions: &[Definition]) -> Result<(), AllocError>
        requires within { HaveVariablesBelow (length self.old.ahead) definitions.now }
        requires rows { length self.old.waiters.items ≡ length self.old.ahead }
        requires sorting { IsSorting definitions.now (waiters_from 0 (length definitions.now)) self.old.order self.old.ahead self.old.free.keys self.old.waiters.items }
        ensures ahead { length self.new.ahead ≡ length self.old.ahead }
        ensures rows { length self.new.waiters.items ≡ length self.old.waiters.items }
        ensures sorting { OnOk result (IsSorting definitions.now [] self.new.order self.new.ahead self.new.free.keys self.new.waiters.items) }
    {
        for definition in 0..definitions.len() {
            self.file(
                definitions,
                Waiter {
                    definition,
                    from: 0,
                },
            )?;
        }
        Ok(())
    }

    /// Puts the least free definition in order, and files those that waited for its variable.
    fn close(
        &mut self,
        alloc: Global,
        definitions: &[Definition],
        first: usize,
    ) -> Result<(), AllocError>
        requires within { HaveVariablesBelow (length self.old.ahead) definitions.now }
        requires rows { length self.old.waiters.items ≡ length self.old.ahead }
        requires once { HaveOnce definitions.now }
        requires inside { first < length definitions.now }
        requires least { (k : ℕ) → Has self.old.free.keys k → first < k }
        requires sorting { IsSorting definitions.now [] self.old.order self.old.ahead (first ∷ self.old.free.keys) self.old.waiters.items }
        ensures order { OnOk result (length self.new.order ≡ length self.old.order + 1) }
        ensures ahead { length self.new.ahead ≡ length self.old.ahead }
        ensures rows { length self.new.waiters.items ≡ length self.old.waiters.items }
        ensures sorting { OnOk result (IsSorting definitions.now [] self.new.order self.new.ahead self.new.free.keys self.new.waiters.items) }
    {
        let variable = definitions[first].variable as usize;
        self.order.push(first)?;
        self.ahead.set(variable, false);
        let waiters = mem::replace(&mut self.waiters[variable], Items::new(alloc));
        for waiter in waiters.as_slice() {
            self.file(definitions, *waiter)?;
        }
        Ok(())
    }

    /// Puts definitions in order while some are free.
    fn run(&mut self, alloc: Global, definitions: &[Definition]) -> Result<(), AllocError>
        requires within { HaveVariablesBelow (length self.old.ahead) definitions.now }
        requires rows { length self.old.waiters.items ≡ length self.old.ahead }
        requires once { HaveOnce definitions.now }
        requires sorting { IsSorting definitions.now [] self.old.order self.old.ahead self.old.free.keys self.old.waiters.items }
        ensures ahead { length self.new.ahead ≡ length self.old.ahead }
        ensures sorted { OnOk result (IsSorted definitions.now self.new.order self.new.ahead) }
    {
        while let Some(first) = self.free.pop_first() {
            self.close(alloc, definitions, first)?;
        }
        Ok(())
    }
}

/// The variables that are defined.
#[tactic(auto, using(crate::proofs::Starting::marked_none, crate::proofs::Starting::marked_more))]
fn mark(
    alloc: Global,
    variables: u32,
    definitions: &[Definition],
) -> Result<Items<bool>, AllocError>
    requires { HaveVariablesBelow variables definitions.now }
    ensures count { IfOk result (λ ahead. length ahead ≡ variables) }
    ensures marked { IfOk result (AreFirstMarked definitions.now (length definitions.now)) }
{
    let mut ahead = no_marks(alloc, variables)?;
    for definition in definitions {
        ahead.set(definition.variable as usize, true);
    }
    Ok(ahead)
}

fn no_marks(alloc: Global, variables: u32) -> Result<Items<bool>, AllocError>
    ensures { IfOk result (λ ahead. ahead ≡ replicate variables false) }
{
    Ok(Items::from_vec(vec![in alloc; false; variables as usize]?))
}

fn rows(alloc: Global, variables: u32) -> Result<Vec<Items<Waiter>>, AllocError>
    ensures { IfOk result (λ rows. rows.items ≡ replicate variables []) }
{
    let mut rows = Vec::new(alloc);
    for _variable in 0..variables {
        rows.push(Items::new(alloc))?;
    }
    Ok(rows)
}

/// The first place from here on where a variable that is ahead stands, the length where none does.
#[tactic(auto, using(crate::proofs::Uses::below_at))]
pub fn next_ahead(ahead: &[bool], used: &[u32], from: usize) -> usize
    requires below { AreBelow (length ahead.now) used.now }
    requires within { from ≤ length used.now }
    ensures onward { from ≤ result }
    ensures within { result ≤ length used.now }
    ensures before { (i : ℕ) → from ≤ i → i < result → IsAhead ahead.now (get_or used.now i 0) → ⊥ }
    ensures here { result < length used.now → IsAhead ahead.now (get_or used.now result 0) }
{
    for i in from..used.len() {
        if ahead[used[i] as usize] {
            return i;
        }
    }
    used.len()
}

/// Definitions in order.
#[derive(Drop)]
pub struct OrderedDefinitions {
    /// The places of the definitions in their order, without those that are on a cycle or stand behind one.
    pub places: Items<usize>,
    /// Whether each variable is defined by one of these.
    pub ahead: Items<bool>,
}

/// The order of definitions of so many variables: each comes before those that use its variable, and the
/// first that can come comes next. What the definitions use is looked at once, and n definitions take
/// time n log n.
pub fn sort(
    alloc: Global,
    variables: u32,
    definitions: &[Definition],
) -> Result<OrderedDefinitions, AllocError>
    requires within { HaveVariablesBelow variables definitions.now }
    requires once { HaveOnce definitions.now }
    ensures count { IfOk result (λ o. length o.ahead ≡ variables) }
    ensures sorted { IfOk result (λ o. IsSorted definitions.now o.places o.ahead) }
{
    let mut sorting = Sorting::new(alloc, variables, definitions)?;
    sorting.file_all(definitions)?;
    sorting.run(alloc, definitions)?;
    let Sorting { order, ahead, .. } = sorting;
    Ok(OrderedDefinitions {
        places: order,
        ahead,
    })
}
