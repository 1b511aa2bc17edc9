ghost use Rattle.std.specs.Prelude.{pos, ◌≤ℤ◌, List, length, All, IfOk};
ghost use Rattle.farkas_check.specs.Cuts.{values_of, IsCutAnswer, IsNetWithin};
ghost use Rattle.farkas_check.specs.declared.net.Net.{Net};

use std::alloc::{AllocError, Global};
use sv_list::Items;

/// Finds the nets of a system that a point doesn't join.
pub trait Cutter {
    /// The nets that the cutter is for.
    ghost nets: { Self → List Net };

    /// The least net that isn't joined at the point, with all its states, ascending, that aren't reached
    /// from its start over used edges; or `None` where each net is joined.
    ///
    /// `point` lists the value of each unknown; that of an edge isn't below 0.
    fn cut(&self, alloc: Global, point: &[i128]) -> Result<Option<(u32, Items<u32>)>, AllocError>
        requires within { All (IsNetWithin (length point.now)) (nets self.now) }
        requires not_negative { All (λ net. All (λ e. pos 0 ≤ℤ values_of point.now e.unknown) net.edges) (nets self.now) }
        ensures { IfOk result (IsCutAnswer (values_of point.now) (nets self.now)) };
}
