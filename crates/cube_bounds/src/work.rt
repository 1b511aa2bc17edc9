//! How much work the search of a region may be.
ghost use Rattle.std.specs.Prelude.{◌↔◌, ◌≤◌, ◌≤ℤ◌, pos, IsTrue};

/// The most work of a region that is searched: the states times its points times the source variables.
pub const MOST_WORK: u64 = 1_048_576;

/// Whether a region of so much work may be searched: it is little, and within the reach.
pub fn is_little(work: u64, limit: i64) -> bool
    ensures { IsTrue result ↔ (work ≤ MOST_WORK) × (pos work ≤ℤ limit) }
{
    work <= MOST_WORK && work as i64 <= limit
}
