ghost use Rattle.std.specs.Prelude.{◌≡◌};

use crate::reaching::unreached_states;
use farkas_check::{Cutter, System};
use std::alloc::{AllocError, Global};
use sv_list::Items;

/// Finds the states of a system's nets that a point doesn't join. Linear in the nets.
#[derive(Drop)]
pub struct NetCutter<'a> {
    pub system: &'a System,
}

impl<'a> NetCutter<'a> {
    /// The cutter for the nets of the system. Constant time.
    pub fn of(system: &'a System) -> NetCutter<'a>
        ensures { result.system.now ≡ system.now }
    {
        NetCutter { system }
    }
}

impl<'a> Cutter for NetCutter<'a> {
    ghost nets = { λ c. c.system.now.nets };

    fn cut(&self, alloc: Global, point: &[i128]) -> Result<Option<(u32, Items<u32>)>, AllocError> {
        let mut number = 0u32;
        for net in self.system.nets.as_slice() {
            if let Some(set) = unreached_states(alloc, net, point)? {
                return Ok(Some((number, set)));
            }
            let Some(next) = number.checked_add(1) else {
                return Err(AllocError);
            };
            number = next;
        }
        Ok(None)
    }
}
