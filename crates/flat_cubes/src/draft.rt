use crate::definition::By;
use crate::variable::Own;
use sv_linear::Row;
use sv_list::Items;
use sv_terms::Name;

/// An unknown of rows.
#[derive(Drop)]
pub enum Quantity {
    /// An integer constant.
    Integer(Name),
    /// The length of the string term at this place.
    Length(u32),
}

/// What the literals of a cube say, before places that are one become variables.
///
/// A string term is named by its place: the number of those that came before. `names` has for each
/// place the name of the constant that stands there; literals and compound terms have none.
/// `parts` lists what is said of a place, `definitions` how the word of a place comes from those of
/// others, `equalities` pairs of places that are one. `quantities` lists the integer constants and the
/// lengths that stand in comparisons, also where they cancel; the unknowns of `rows` are numbered by it.
/// All lists are in the order in which things first came, `rows` has one row for each comparison.
#[derive(Drop)]
pub struct FlatDraft {
    pub names: Items<Option<Name>>,
    pub parts: Items<(u32, (Own, bool))>,
    pub definitions: Items<(u32, By)>,
    pub equalities: Items<(u32, u32)>,
    pub quantities: Items<Quantity>,
    pub rows: Items<Row>,
    pub truths: Items<(Name, bool)>,
    pub broken: bool,
}
