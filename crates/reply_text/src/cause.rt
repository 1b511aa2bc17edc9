//! What is told of an answer `unknown`.

/// Why a cube is open, one variant for each word that is printed.
#[derive(Clone, Copy)]
pub enum CubeCause {
    /// It isn't straight, or it has values and some assertion has an opaque part.
    Fragment,
    /// It has more than 64 lengths, or integer constants.
    Wide,
    /// By its text some machine may have more than 262,144 states.
    States,
    /// By its text its concatenations can be cut in more than 1,048,576 ways.
    Splits,
    /// Whatever makes it true has more characters than are looked at; or it has rows, and by its text the growth of its
    /// words is above 4,194,304.
    Length,
    /// 2,000 splits brought neither a solution nor a closing.
    Branches,
    /// The combination of two rows leaves 128 bits.
    NumberRow,
    /// The sum that would close a leaf leaves 128 bits.
    NumberSum,
}

/// What is told of an answer `unknown`.
#[derive(Clone, Copy)]
pub enum Cause {
    /// There are more than 1,048,576 cubes.
    Cubes,
    /// A step of a linear form leaves 128 bits.
    NumberForm,
    /// The open cube of the least number, counted from 0.
    Cube(u64, CubeCause),
}
