use sv_terms::{Op, Sort};

/// Which arguments a function takes.
#[derive(Clone, Copy)]
pub enum ArgumentSorts {
    /// None: a constant.
    Nothing,
    /// One of this sort.
    One(Sort),
    /// Two of these sorts, in their order.
    Two(Sort, Sort),
    /// Three of these sorts, in their order.
    Three(Sort, Sort, Sort),
    /// One or more of this sort.
    Each(Sort),
    /// Two or more of this sort.
    Many(Sort),
    /// Two or more of one sort.
    Alike,
    /// A Bool and two of one sort, which isn't RegLan.
    Choice,
}

/// What a function is at arguments that it takes.
#[derive(Clone, Copy)]
pub enum Interpretation {
    /// This truth value.
    Truth(bool),
    /// This function of terms.
    Meaning(Op),
    /// This relation of terms; opaque over RegLan.
    Equality(Op),
    /// `ite`: opaque but over Bool.
    Choice,
    /// A product; opaque where two or more factors hold an unknown.
    Product,
    /// This replacement; opaque unless pattern and replacement are literals.
    Replacement(Op),
    /// Opaque.
    Opaque,
    /// Membership in a regular expression; opaque where that is.
    Membership,
    /// The words of a literal; opaque of what is none.
    TextOf,
    /// No word.
    Empty,
    /// All words.
    All,
    /// The words of one character.
    AnyChar,
    /// One after another.
    Concat,
    Union,
    Inter,
    /// The first without the others.
    Diff,
    Star,
    Plus,
    Opt,
    Comp,
    /// The words of one character between those of two literals.
    Range,
    /// From the first to the second number of times.
    Loop(u32, u32),
    /// The word of this character.
    Character(u32),
}

/// A function of the theories, with its indices: which arguments it takes, the sort of what it
/// gives (of `ite` the sort of the second argument), and what it is.
#[derive(Clone, Copy)]
pub struct Function {
    pub takes: ArgumentSorts,
    pub gives: Sort,
    pub sense: Interpretation,
}
