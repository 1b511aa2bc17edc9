//! The limits on commands and checks. The first refuse a command, the others leave a check open;
//! none of them is a limit of a type of this crate.

/// The most levels that may be pushed on the outermost one.
pub const MOST_LEVELS: u64 = 65_535;

/// The greatest number of `re.^` and `re.loop`.
pub const MOST_TIMES: u32 = 65_535;

/// The most nodes of a term, once `let` and macros are put in.
pub const MOST_NODES: u32 = 1_048_576;

/// The deepest nesting of a term, once `let` and macros are put in.
pub const MOST_NESTING: u32 = 1_000;

/// The most states of a transducer that a command defines.
pub const MOST_TRANSDUCER_STATES: usize = 256;

/// The most edges of a transducer that a command defines.
pub const MOST_TRANSDUCER_EDGES: usize = 4_096;

/// The most ends of a transducer that a command defines.
pub const MOST_TRANSDUCER_ENDS: usize = 4_096;

/// The most cubes of a check.
pub const MOST_CUBES: u64 = 1_048_576;

/// The most registers of a cube, and the most integer constants.
pub const MOST_REGISTERS: usize = 64;

/// The most splits of a cube, by the numbers of its text.
pub const MOST_SPLITS: u64 = 1_048_576;

/// The most characters of a word of a model.
pub const MOST_CHARACTERS: u64 = 4_194_304;

/// The most points of a small box.
pub const MOST_POINTS: u64 = 4_096;
