ghost use Rattle.std.specs.Prelude.{◌≡◌, IfOk, IfErr, option_map};
ghost use Rattle.std.specs.Option.{option_copied};
ghost use Rattle.ess_semantics.specs.Names.{look};
ghost use Rattle.eprime_eval_kinds.specs.KindedViews.{name_at};
ghost use Rattle.eprime_eval_scalars.specs.Grids.{pure_grid};
ghost use Rattle.eprime_eval_scalars.specs.declared.Stop.TheVariants.{NoMemory};
ghost use Rattle.eprime_eval.specs.KnownTables.{cells_of, IsKnown};

use crate::{Row, Stop};
use eprime_eval_scalars::Grid;
use eprime_tree::Text;

/// Tables, and where the table of each declaration stands among them.
#[derive(Drop)]
pub struct Known {
    /// The names of the declarations, in order.
    pub(crate) names: Row<Text>,
    /// The place of the table of each declaration, where there is one.
    pub(crate) places: Row<Option<usize>>,
    /// The tables.
    pub(crate) tables: Row<NamedGrid>,
}

/// A table with its name.
#[derive(Drop)]
pub struct NamedGrid {
    pub(crate) name: Text,
    pub(crate) grid: Grid,
}

/// The table of the declaration with this number. `NoMemory` where no declaration has it.
#[tactic(auto, using(crate::proofs::KnownTables::tables_found))]
pub(crate) fn table_of(known: &Known, number: usize) -> Result<Option<&Grid>, Stop>
    requires known { IsKnown known.now }
    ensures ok { IfOk result (λ o. option_map pure_grid (option_copied o) ≡ look (cells_of known.now) (name_at known.now.names number)) }
    ensures never { IfErr result (λ no. no ≡ NoMemory) }
{
    match known.places.get(number) {
        Some(Some(place)) => match known.tables.get(*place) {
            Some(table) => Ok(Some(&table.grid)),
            None => Ok(None),
        },
        Some(None) => Ok(None),
        None => Err(Stop::NoMemory),
    }
}
