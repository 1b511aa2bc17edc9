use crate::column::Column;
use std::alloc::{AllocError, AllocFailed};
use thiserror::Error;

/// Why there is no such sum or product of forms.
#[derive(Debug, Drop, Error)]
pub enum FormFault {
    /// The sum or product of these two, met at one column, isn't a number of 128 bits.
    #[error("the sum or product of {left} and {right} needs more than 128 bits")]
    Past { left: i128, right: i128 },
    #[error("out of memory")]
    Memory(AllocError),
}

/// Why two multiples of forms have no sum.
#[derive(Debug, Drop, Error)]
pub enum CombineFault {
    /// A product or the sum at this column is below -(2^127 - 1) or above 2^127 - 1.
    #[error("a product or sum at one column needs more than 128 bits")]
    Outside(Column),
    #[error("out of memory")]
    Memory(AllocError),
}

impl From<AllocError> for FormFault {
    ghost use Rattle.std.specs.Prelude.{◌≡◌};
    ghost use Rattle.sv_linear.specs.declared.fault.FormFault.TheVariants.{Memory};

    ghost from_gives = { λ error fault. fault ≡ Memory error };

    fn from(error: AllocError) -> FormFault {
        FormFault::Memory(error)
    }
}

impl From<AllocError> for CombineFault {
    ghost use Rattle.std.specs.Prelude.{◌≡◌};
    ghost use Rattle.sv_linear.specs.declared.fault.CombineFault.TheVariants.{Memory};

    ghost from_gives = { λ error fault. fault ≡ Memory error };

    fn from(error: AllocError) -> CombineFault {
        CombineFault::Memory(error)
    }
}

impl<T: Drop> From<AllocFailed<T>> for CombineFault {
    ghost use Rattle.std.specs.Prelude.{◌≡◌, alloc_error};
    ghost use Rattle.sv_linear.specs.declared.fault.CombineFault.TheVariants.{Memory};

    ghost from_gives = { λ _ fault. fault ≡ Memory alloc_error };

    fn from(_failed: AllocFailed<T>) -> CombineFault {
        CombineFault::Memory(AllocError)
    }
}
