ghost use Rattle.std.specs.Prelude.{◌↔◌, IsTrue, OnOk, IfErr};
ghost use Rattle.lia_tableau.specs.Shown.{IsStatus};
ghost use Rattle.lia_tableau.specs.Crossing.{IsPastFault};
ghost use Rattle.lia_tableau.specs.Pivoting.{IsPastPivot};
ghost use Rattle.lia_tableau.specs.Trails.{Trail};
ghost use Rattle.lia_tableau.specs.declared.status.TableauStatus.TheVariants.{Due};

use crate::fault::TableauFault;
use crate::status::TableauStatus;
use crate::tableau::Tableau;
use std::alloc::Global;

/// Makes due pivots until none is due, or until one is refused. It ends, since no basis comes twice.
///
/// Want of memory, and what `pivot` refuses: then the tableau stands at the basis whose pivot was refused.
pub fn settle(alloc: Global, tableau: &mut Tableau) -> Result<(), TableauFault>
    ensures trail { Trail tableau.old tableau.new }
    ensures settled { OnOk result (IsStatus tableau.new Due → ⊥) }
    ensures past { IfErr result (IsPastFault (IsPastPivot tableau.new)) }
{
    'pivots: while is_due(tableau) {
        tableau.pivot(alloc)?;
    }
    Ok(())
}

fn is_due(tableau: &Tableau) -> bool
    ensures { IsTrue result ↔ IsStatus tableau.now Due }
{
    match tableau.status() {
        TableauStatus::Due => true,
        TableauStatus::Divisor(_) | TableauStatus::Conflict(_) | TableauStatus::Point => false,
    }
}
