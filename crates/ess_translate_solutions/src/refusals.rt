//! The refusals of texts of cells as refusals of a translation.
ghost use Rattle.std.specs.Prelude.{◌≡◌};
ghost use Rattle.ess_translate_solutions.specs.Refusals.{cells_no};

use eprime_read_cells::CellsNo;
use eprime_verdicts::PVerdict;
use ess_translate::{TransNo, Which};
use ess_translate_files::read_no;

/// The refusal of a text of cells.
pub(crate) fn cells_no(why: CellsNo) -> TransNo
    ensures { result ≡ cells_no why }
{
    match why {
        CellsNo::Read(why) => read_no(Which::Solution, why),
        CellsNo::Missing(name) => TransNo::Unsatisfied(PVerdict::Missing(name)),
        CellsNo::Extra(name) => TransNo::Unsatisfied(PVerdict::Extra(name)),
        CellsNo::OutOfDomain(name) => TransNo::Unsatisfied(PVerdict::OutOfDomain(name)),
        CellsNo::Big => TransNo::Big,
        CellsNo::NoMemory => TransNo::NoMemory,
    }
}
