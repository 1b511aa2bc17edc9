use crate::bounds::{BoundReason, BoundSide, BoundStep, Bounds, Origin, Range, Rounding};
use crate::reasons::{Far, multipliers_of};
use farkas_check::Tree;
use lia_reduce::{Lifter, Reduction};
use std::alloc::{AllocError, Global};
use sv_list::{Boxed, Items};

/// How many cuts a search may make. Coins of six lengths up to 107 take some 2,200.
const MOST_CUTS: u32 = 4000;

/// What a search within bounds ends with.
#[derive(Drop)]
pub(crate) enum BoundsEnding {
    /// A value for each unknown of the reduced system.
    Point(Items<i128>),
    /// A tree of the whole system.
    Closed(Tree),
}

/// The unknown is at most `at`, or at least `at + 1`.
#[derive(Clone, Copy)]
struct BoundCut {
    unknown: u32,
    at: i128,
}

/// What is known of the other side of a split.
#[derive(Drop)]
enum Other {
    Waits,
    /// The tree closes it.
    Closed(Tree),
}

/// A split on the way from the root to the node that is searched.
#[derive(Drop)]
struct CutLevel {
    cut: BoundCut,
    /// Whether the node is on the low side.
    is_low: bool,
    other: Other,
    /// How many facts stood before.
    facts: usize,
}

/// A search within bounds, at one of its nodes.
#[derive(Drop)]
struct BoundSearch {
    bounds: Bounds,
    lifter: Lifter,
    /// The splits on the way from the root to the node.
    levels: Vec<CutLevel>,
    /// How many cuts may still be made.
    left: u32,
}

/// What a search does behind a node.
#[derive(Drop)]
enum NextStep {
    GoesOn,
    Ends(BoundsEnding),
    /// A number leaves 128 bits, or too much would have to be looked at.
    GivesUp,
}

/// Searches the reduced system within the bounds of its unknowns; `None` where a number leaves
/// 128 bits or too much would have to be looked at.
pub(crate) fn search(
    alloc: Global,
    reduction: Reduction,
) -> Result<Option<BoundsEnding>, AllocError> {
    let mut root = BoundSearch::new(alloc, reduction)?;
    root.run(alloc, reduction)
}

impl BoundSearch {
    /// A search at its root.
    fn new(alloc: Global, reduction: Reduction) -> Result<BoundSearch, AllocError> {
        let system = &reduction.reduced.system;
        Ok(BoundSearch {
            bounds: Bounds::new(alloc, system.rows.as_slice(), system.unknowns)?,
            lifter: Lifter::new(alloc, reduction)?,
            levels: Vec::new(alloc),
            left: MOST_CUTS,
        })
    }

    /// Goes from node to node until the search ends.
    fn run(
        &mut self,
        alloc: Global,
        reduction: Reduction,
    ) -> Result<Option<BoundsEnding>, AllocError> {
        for _ in 0..u32::MAX {
            match self.step(alloc, reduction)? {
                NextStep::GoesOn => {}
                NextStep::Ends(ending) => return Ok(Some(ending)),
                NextStep::GivesUp => return Ok(None),
            }
        }
        Ok(None)
    }

    /// Narrows the ranges at the node, and goes on from there.
    fn step(&mut self, alloc: Global, reduction: Reduction) -> Result<NextStep, AllocError> {
        let system = &reduction.reduced.system;
        match self.bounds.settle(alloc, system.rows.as_slice())? {
            BoundStep::Spent => Ok(NextStep::GivesUp),
            BoundStep::Conflict(reason) => self.leave(alloc, reduction, &reason),
            BoundStep::Rounded(rounding) => self.round(alloc, reduction, &rounding),
            BoundStep::Quiet => self.cut(alloc, system.unknowns),
        }
    }

    /// Leaves a node that the reason closes.
    fn leave(
        &mut self,
        alloc: Global,
        reduction: Reduction,
        reason: &BoundReason,
    ) -> Result<NextStep, AllocError> {
        let branches = self.levels.len();
        let Some(leaf) = self.leaf_of(alloc, reduction, branches, reason, None)? else {
            return Ok(NextStep::GivesUp);
        };
        match self.close(alloc, leaf)? {
            Some(tree) => Ok(NextStep::Ends(BoundsEnding::Closed(tree))),
            None => Ok(NextStep::GoesOn),
        }
    }

    /// Splits at a rounded bound, whose other side is closed at once.
    fn round(
        &mut self,
        alloc: Global,
        reduction: Reduction,
        rounding: &Rounding,
    ) -> Result<NextStep, AllocError> {
        if !self.count_cut() {
            return Ok(NextStep::GivesUp);
        }
        let Some(Choice { cut, low_first }) = rounded_choice(rounding) else {
            return Ok(NextStep::GivesUp);
        };
        let branch = self.levels.len();
        let far = Far {
            branch,
            times: rounding.factor,
        };
        let branches = branch.saturating_add(1);
        let Some(leaf) = self.leaf_of(alloc, reduction, branches, &rounding.reason, Some(far))?
        else {
            return Ok(NextStep::GivesUp);
        };
        self.enter(cut, low_first, Other::Closed(leaf))?;
        Ok(NextStep::GoesOn)
    }

    /// Cuts the range of some unknown; where all are of one number, these are the point.
    fn cut(&mut self, alloc: Global, unknowns: u32) -> Result<NextStep, AllocError> {
        let Some(Choice { cut, low_first }) = choose(&self.bounds, unknowns) else {
            let point = point_of(alloc, &self.bounds, unknowns)?;
            return Ok(NextStep::Ends(BoundsEnding::Point(point)));
        };
        if !self.count_cut() {
            return Ok(NextStep::GivesUp);
        }
        self.enter(cut, low_first, Other::Waits)?;
        Ok(NextStep::GoesOn)
    }

    /// Counts a cut; false where it is one too many.
    fn count_cut(&mut self) -> bool {
        match self.left.checked_sub(1) {
            Some(left) => {
                self.left = left;
                true
            }
            None => false,
        }
    }

    /// The leaf of a reason, over the rows of the whole system, and then over those of so many branches.
    fn leaf_of(
        &mut self,
        alloc: Global,
        reduction: Reduction,
        branches: usize,
        reason: &BoundReason,
        far: Option<Far>,
    ) -> Result<Option<Tree>, AllocError> {
        let rows = reduction.reduced.sums.len();
        let facts = self.bounds.facts();
        let Some(multipliers) = multipliers_of(alloc, facts, rows, branches, reason, far)? else {
            return Ok(None);
        };
        match self.lifter.lift(alloc, reduction, multipliers.as_slice())? {
            None => Ok(None),
            Some(multipliers) => {
                self.bounds.spend(multipliers.len());
                Ok(Some(Tree::Farkas { multipliers }))
            }
        }
    }

    /// Goes up from a node that the tree closes, and to the other side of the nearest split where that waits; the tree of
    /// all where none does.
    fn close(&mut self, alloc: Global, leaf: Tree) -> Result<Option<Tree>, AllocError> {
        let mut tree = leaf;
        for _ in 0..self.levels.len() {
            let Some(level) = self.levels.pop() else {
                return Ok(Some(tree));
            };
            let CutLevel {
                cut,
                is_low,
                other,
                facts,
            } = level;
            self.bounds.undo(facts);
            match other {
                Other::Waits => {
                    self.enter(cut, !is_low, Other::Closed(tree))?;
                    return Ok(None);
                }
                Other::Closed(closed) => {
                    tree = if is_low {
                        split(alloc, cut, tree, closed)?
                    } else {
                        split(alloc, cut, closed, tree)?
                    };
                }
            }
        }
        Ok(Some(tree))
    }

    /// Goes to one side of a split.
    fn enter(&mut self, cut: BoundCut, is_low: bool, other: Other) -> Result<(), AllocError> {
        let branch = self.levels.len();
        self.levels.push(CutLevel {
            cut,
            is_low,
            other,
            facts: self.bounds.facts().len(),
        })?;
        let origin = Origin::Branch(branch);
        if is_low {
            self.bounds
                .add(cut.unknown, BoundSide::Upper, cut.at, origin)
        } else {
            self.bounds.add(
                cut.unknown,
                BoundSide::Lower,
                cut.at.saturating_add(1),
                origin,
            )
        }
    }
}

fn split(alloc: Global, cut: BoundCut, low: Tree, high: Tree) -> Result<Tree, AllocError> {
    Ok(Tree::Split {
        unknown: cut.unknown,
        at: cut.at,
        low: Boxed::new(alloc, low)?,
        high: Boxed::new(alloc, high)?,
    })
}

/// A split to be made, and which side comes first.
#[derive(Clone, Copy)]
struct Choice {
    cut: BoundCut,
    low_first: bool,
}

/// The split at a rounded bound, whose open side comes first; `None` where a number leaves 128 bits.
fn rounded_choice(rounding: &Rounding) -> Option<Choice> {
    let unknown = rounding.unknown;
    match rounding.side {
        BoundSide::Upper => Some(Choice {
            cut: BoundCut {
                unknown,
                at: rounding.amount,
            },
            low_first: true,
        }),
        BoundSide::Lower => Some(Choice {
            cut: BoundCut {
                unknown,
                at: rounding.amount.checked_sub(1)?,
            },
            low_first: false,
        }),
    }
}

/// Where the range of some unknown is cut; `None` where all are of one number.
///
/// Unknowns that equations hold come first: an equation that is left has no coefficient 1 or -1, so that whole numbers
/// may fail to meet it. Of the others, counts of edges alone, 1 comes before 0, since an edge that is used joins what
/// comes behind it. Else the side nearer to 0 comes first: an integer constant far below 0 may make words long.
fn choose(bounds: &Bounds, unknowns: u32) -> Option<Choice> {
    match narrowest_cut(bounds, unknowns, true) {
        Some((_, cut)) => Some(Choice {
            cut,
            low_first: cut.at >= 0,
        }),
        None => {
            let (width, cut) = narrowest_cut(bounds, unknowns, false)?;
            Some(Choice {
                cut,
                low_first: width > 1 && cut.at >= 0,
            })
        }
    }
}

/// The middle of the narrowest range that holds more than one number, of the unknowns that equations hold or of the
/// others, behind how far it reaches above one number.
fn narrowest_cut(bounds: &Bounds, unknowns: u32, in_equation: bool) -> Option<(u128, BoundCut)> {
    let mut best: Option<(u128, BoundCut)> = None;
    for unknown in 0..unknowns {
        if bounds.is_held(unknown) && bounds.is_in_equation(unknown) == in_equation {
            if let Some((width, at)) = middle(bounds.range(unknown)) {
                if is_narrower(best, width) {
                    best = Some((width, BoundCut { unknown, at }));
                }
            }
        }
    }
    best
}

fn is_narrower(best: Option<(u128, BoundCut)>, width: u128) -> bool {
    match best {
        None => true,
        Some((least, _)) => width < least,
    }
}

/// How far a range reaches above one number, and where it is cut; one without an end is cut next to its number nearest
/// to 0.
fn middle(range: Range) -> Option<(u128, i128)> {
    match (range.lower, range.upper) {
        (Some(lower), Some(upper)) => {
            let width = upper.amount.saturating_sub(lower.amount);
            if width <= 0 {
                None
            } else {
                Some((width as u128, lower.amount.saturating_add(width / 2)))
            }
        }
        (Some(lower), None) => Some((u128::MAX - 1, lower.amount.max(-1))),
        (None, Some(upper)) => Some((u128::MAX - 1, upper.amount.saturating_sub(1).min(-1))),
        (None, None) => Some((u128::MAX, 0)),
    }
}

fn point_of(alloc: Global, bounds: &Bounds, unknowns: u32) -> Result<Items<i128>, AllocError> {
    let mut point = Items::new(alloc);
    for unknown in 0..unknowns {
        let value = match bounds.range(unknown).lower {
            Some(bound) => bound.amount,
            None => 0,
        };
        point.push(value)?;
    }
    Ok(point)
}
