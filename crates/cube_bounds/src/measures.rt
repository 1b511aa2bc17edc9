use sv_list::Items;

/// The numbers of a straight cube, computed from its text. Sums and products end at 2^64 - 1, which
/// stands for all that are larger.
#[derive(Drop)]
pub struct Numbers {
    /// The most states of a machine of one variable, at least 1.
    pub states: u64,
    /// The number of ways to cut the machines of all concatenations.
    pub splits: u64,
    /// With n characters in all source words, no word has more than `growth * (n + 1)`; at least 1.
    pub growth: u64,
    /// The most characters of all source words together for which no word has more than 4,194,304; -1
    /// where there is no such number.
    pub reach: i64,
    /// The number of points of the box, where each register and each integer constant has a side.
    pub points: Option<u64>,
    /// The number of variables that aren't defined.
    pub sources: u64,
    /// Whether the box is small enough to be searched, and every row fits it.
    pub small: bool,
    /// The least and the greatest value that `points` counts: of each register, then of each integer
    /// constant.
    pub sides: Items<Option<(i128, i128)>>,
}
