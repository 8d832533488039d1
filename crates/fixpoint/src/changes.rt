// Whether what is new in a carried row can be reached.
ghost use Rattle.std.specs.Prelude.{◌≡◌, ◌<◌, false, length};
ghost use Rattle.transfer.specs.Rows.{is_unreachable};
ghost use Rattle.transfer.specs.Carrying.{row_of};

use cells::cell::Cell;
use domain::Domain;
use syntax::record::Variable;
use transfer::carry::{Carried, Change, is_carried_unreachable};

// Whether a row that was carried from a reachable one has a vacant cell: only what is new in it can be.
pub(crate) fn is_new_unreachable<D: Domain>(
    carried: Carried<D>,
    variables: &[Variable],
    row: &[Cell<D>],
) -> bool
    requires some { 0 < length row.now }
    requires reached { is_unreachable D.ops row.now ≡ false }
    ensures { result ≡ is_unreachable D.ops (row_of D.ops variables.now row.now carried) }
{
    let Carried { cr, change } = carried;
    match change {
        Change::Nothing => cr.is_vacant(),
        Change::Variable(variable, cell) => {
            let vacant = cr.is_vacant();
            if variable < row.len() - 1 {
                vacant | cell.is_vacant()
            } else {
                vacant
            }
        }
        Change::Inputs => is_carried_unreachable(carried, variables, row),
    }
}
