ghost use Rattle.std.specs.Prelude.{◌≡◌, ℕ, ℤ, suc, ◌<◌, ◌-◌, IfOk};
ghost use Rattle.std.specs.List.{count_by};
ghost use Rattle.sv_linear.specs.Rows.{IsRowWithin};
ghost use Rattle.lia_tableau.specs.BasicPoints.{IsPoint};
ghost use Rattle.lia_tableau.specs.Crossing.{IsPastFault};
ghost use Rattle.lia_tableau.specs.Quantities.{SolvesWithSlacks};
ghost use Rattle.lia_tableau.specs.Shown.{IsStatus};
ghost use Rattle.lia_branch.specs.Forks.{IsForkWithin};
ghost use Rattle.lia_branch.specs.Forks.{Path};
ghost use Rattle.farkas_check.specs.declared.tree.Tree.TheVariants.{Open};
ghost use Rattle.lia_branch.specs.Nodes.{Node, BeginsAt, IsFirstBasis};
ghost use Rattle.lia_branch.specs.EvidenceHolds.{IsPastAt};
ghost use Rattle.lia_branch.specs.Founds.{IsReadyTableau, IsSystemNode, IsNodeStop};
ghost use Rattle.lia_branch.specs.Forks.{VisitHolds, IsVisitAt, IsForkAt, IsClosing, IsResumed, EnteredHolds, NextHolds, IsNextSmaller, EnteredBy, is_first};
ghost use Rattle.lia_branch.specs.Outcomes.{IsSearchable, IsAnswer};

use crate::fork::Fork;
use crate::leaves::{conflict_leaf, divisor_leaf};
use crate::level::{Entered, NextNode, Resumed, SplitLevel, give_up, resume};
use crate::outcome::Outcome;
use crate::points::{Fraction, first_fraction, whole_point};
use crate::stop::StopReason;
use crate::visit::Visit;
use farkas_check::{Cutter, System, Tree};
use lia_pack::PackedTableau;
use lia_tableau::{Tableau, TableauFault, TableauStatus, settle};
use std::alloc::{AllocError, Global};
use sv_linear::Row;
use sv_list::Items;

/// How many splits a search may have.
const SPLIT_LIMIT: u32 = 2000;

/// Why a search stops where a row leaves 128 bits.
fn stop_of(fault: TableauFault) -> Result<StopReason, AllocError>
    ensures { (node : Node) → IsPastFault (λ first second at column. IsPastAt first second at column node) fault → IfOk result (λ stop. (left : ℕ) → IsNodeStop node left Open stop) }
{
    match fault {
        TableauFault::Past {
            first,
            second,
            unknown,
            column,
        } => Ok(StopReason::PastRow {
            first,
            second,
            unknown,
            column,
        }),
        TableauFault::Memory(error) => Err(error),
    }
}

/// What stands at a basis whose point meets the rows: a solution, or a split that is due.
fn visit_point<C: Cutter>(
    alloc: Global,
    system: &System,
    cutter: &C,
    tableau: &Tableau,
) -> Result<Visit, AllocError>
    requires ready { IsReadyTableau system.now tableau.now.rows tableau.now }
    requires status { IsStatus tableau.now TableauStatus.Point }
    requires meets { (x : ℕ → ℤ) (d : ℤ) → IsPoint tableau.now.lines x d → SolvesWithSlacks tableau.now.unknowns tableau.now.rows x d }
    requires cutter { C.nets cutter.now ≡ system.now.nets }
    ensures { IsVisitAt system.now tableau.now.rows tableau.now result }
{
    match first_fraction(tableau, system.unknowns) {
        Some(Fraction { unknown, at }) => Ok(Visit::Split(Fork::Unknown { unknown, at })),
        None => {
            let point = whole_point(alloc, tableau, system.unknowns)?;
            match cutter.cut(alloc, point.as_slice())? {
                None => Ok(Visit::Solution(point)),
                Some((net, states)) => Ok(Visit::Split(Fork::Set { net, states })),
            }
        }
    }
}

/// Makes the due pivots of a node, and finds what stands there.
fn visit<C: Cutter>(
    alloc: Global,
    system: &System,
    cutter: &C,
    tableau: &mut Tableau,
) -> Result<Visit, AllocError>
    requires ready { IsReadyTableau system.now tableau.old.rows tableau.old }
    requires cutter { C.nets cutter.now ≡ system.now.nets }
    ensures ready { IsReadyTableau system.now tableau.new.rows tableau.new }
    ensures found { (node : Node) → IsSystemNode system.now tableau.old.rows node → BeginsAt node.unknowns node.origin tableau.old → IfOk result (VisitHolds system.now tableau.new node) }
{
    if let Err(fault) = settle(alloc, tableau) {
        return Ok(Visit::Stopped(stop_of(fault)?));
    }
    match tableau.status() {
        TableauStatus::Divisor(at) => divisor_leaf(alloc, system, tableau.rows(), tableau, at),
        TableauStatus::Conflict(at) => conflict_leaf(alloc, system, tableau.rows(), tableau, at),
        TableauStatus::Point => visit_point(alloc, system, cutter, tableau),
        TableauStatus::Due => unreachable!(),
    }
}

/// Adds the row of one side of a split to the basis of the split's node.
fn enter(alloc: Global, tableau: Tableau, row: Row) -> Result<Entered, AllocError>
    requires { IsRowWithin tableau.unknowns row }
    ensures { IfOk result (EnteredHolds tableau row) }
{
    let mut tableau = tableau;
    match tableau.add_row(alloc, &row) {
        Ok(()) => Ok(Entered::Node(tableau)),
        Err(fault) => Ok(Entered::Past(stop_of(fault)?)),
    }
}

/// The tableau of the last split whose second side waits.
fn last_tableau(levels: &[SplitLevel]) -> Option<&PackedTableau> {
    for level in levels.iter().rev() {
        if let SplitLevel::First { packed, .. } = level {
            return Some(packed);
        }
    }
    None
}

/// Goes to the first side of a split that is due.
fn descend(
    alloc: Global,
    system: &System,
    levels: &mut Items<SplitLevel>,
    tableau: Tableau,
    fork: Fork,
) -> Result<Entered, AllocError>
    requires within { IsForkWithin system.now fork }
    requires ready { IsReadyTableau system.now tableau.rows tableau }
    ensures found { (node : Node) (left : ℕ) → Path system.now levels.old node left → 1 < left → IsForkAt system.now node tableau fork → IfOk result (EnteredBy system.now levels.new (left - 1)) }
    ensures waiting { IfOk result (λ _. count_by is_first levels.new ≡ suc (count_by is_first levels.old)) }
{
    let row = fork.first_row(alloc, system)?;
    let packed = PackedTableau::of(alloc, &tableau, last_tableau(levels.as_slice()))?;
    levels.push(SplitLevel::First { fork, packed })?;
    enter(alloc, tableau, row)
}

/// Goes to the second side of a split whose first the tree closes.
fn cross(
    alloc: Global,
    system: &System,
    levels: &mut Items<SplitLevel>,
    tableau: Tableau,
    fork: Fork,
    tree: Tree,
) -> Result<Entered, AllocError>
    requires within { IsForkWithin system.now fork }
    requires ready { IsReadyTableau system.now tableau.rows tableau }
    ensures found { (left : ℕ) → 0 < left → IsResumed system.now levels.old left tableau fork tree → IfOk result (EnteredBy system.now levels.new left) }
    ensures waiting { IfOk result (λ _. count_by is_first levels.new ≡ count_by is_first levels.old) }
{
    let row = fork.second_row(alloc, system)?;
    levels.push(SplitLevel::Second { fork, tree })?;
    enter(alloc, tableau, row)
}

/// Goes to the first side of a split that is due; stops where it is the last that may be made.
fn go_down(
    alloc: Global,
    system: &System,
    levels: &mut Items<SplitLevel>,
    left: u32,
    tableau: Tableau,
    fork: Fork,
) -> Result<NextNode, AllocError>
    requires left { 0 < left }
    requires due { (node : Node) × (Path system.now levels.old node left × IsForkAt system.now node tableau fork) }
    requires ready { IsReadyTableau system.now tableau.rows tableau }
    ensures found { IfOk result (NextHolds system.now levels.new) }
    ensures smaller { IfOk result (IsNextSmaller levels.old levels.new left) }
{
    if left == 1 {
        let tree = fork.tree(alloc, Tree::Open, Tree::Open)?;
        return Ok(NextNode::Stopped {
            tree,
            stop: StopReason::Branches,
        });
    }
    let entered = descend(alloc, system, levels, tableau, fork)?;
    Ok(entered.next(left - 1))
}

/// Goes from a node that the leaf closes to the second side of the nearest split where that waits.
fn go_back(
    alloc: Global,
    system: &System,
    levels: &mut Items<SplitLevel>,
    left: u32,
    leaf: Tree,
) -> Result<NextNode, AllocError>
    requires left { 0 < left }
    requires closing { IsClosing system.now levels.old left leaf }
    ensures found { IfOk result (NextHolds system.now levels.new) }
    ensures smaller { IfOk result (IsNextSmaller levels.old levels.new left) }
{
    match resume(alloc, levels, leaf)? {
        Resumed::Whole(tree) => Ok(NextNode::Closed(tree)),
        Resumed::Waiting { fork, tree, packed } => {
            let waiting = packed.unpack(alloc)?;
            let entered = cross(alloc, system, levels, waiting, fork, tree)?;
            Ok(entered.next(left))
        }
    }
}

/// Where the search goes from a node that was visited.
fn next(
    alloc: Global,
    system: &System,
    levels: &mut Items<SplitLevel>,
    left: u32,
    tableau: Tableau,
    visit: Visit,
) -> Result<NextNode, AllocError>
    requires left { 0 < left }
    requires visit { (node : Node) × (Path system.now levels.old node left × VisitHolds system.now tableau node visit) }
    requires ready { IsReadyTableau system.now tableau.rows tableau }
    ensures found { IfOk result (NextHolds system.now levels.new) }
    ensures smaller { IfOk result (IsNextSmaller levels.old levels.new left) }
{
    match visit {
        Visit::Solution(point) => Ok(NextNode::Solution(point)),
        Visit::Stopped(stop) => Ok(NextNode::Stopped {
            tree: Tree::Open,
            stop,
        }),
        Visit::Split(fork) => go_down(alloc, system, levels, left, tableau, fork),
        Visit::Closed(leaf) => go_back(alloc, system, levels, left, leaf),
    }
}

/// Searches the tree of a system whose first basis this is, first sides first.
pub(crate) fn search<C: Cutter>(
    alloc: Global,
    system: &System,
    cutter: &C,
    tableau: Tableau,
) -> Result<Outcome, AllocError>
    requires ready { IsReadyTableau system.now system.now.rows tableau }
    requires cutter { C.nets cutter.now ≡ system.now.nets }
    requires begins { IsFirstBasis system.now.unknowns system.now.rows tableau }
    ensures { IfOk result (IsAnswer system.now) }
{
    let mut tableau = tableau;
    let mut levels = Items::new(alloc);
    let mut left = SPLIT_LIMIT;
    'nodes: loop {
        let visit = visit(alloc, system, cutter, &mut tableau)?;
        match next(alloc, system, &mut levels, left, tableau, visit)? {
            NextNode::Node {
                tableau: node,
                left: fewer,
            } => {
                tableau = node;
                left = fewer;
            }
            NextNode::Solution(point) => return Ok(Outcome::Solution(point)),
            NextNode::Closed(tree) => return Ok(Outcome::Closed(tree)),
            NextNode::Stopped { tree, stop } => {
                return Ok(Outcome::GaveUp(give_up(alloc, levels, tree, stop)?));
            }
        }
    }
}

/// Searches the tree whose splits are due, from the first basis of the system's rows.
pub(crate) fn search_tree<C: Cutter>(
    alloc: Global,
    system: &System,
    cutter: &C,
) -> Result<Outcome, AllocError>
    requires searchable { IsSearchable system.now }
    requires cutter { C.nets cutter.now ≡ system.now.nets }
    ensures { IfOk result (IsAnswer system.now) }
{
    let tableau = match Tableau::new(alloc, system.rows.as_slice(), system.unknowns) {
        Ok(tableau) => tableau,
        Err(TableauFault::Memory(error)) => return Err(error),
        Err(TableauFault::Past { .. }) => unreachable!(),
    };
    search(alloc, system, cutter, tableau)
}
