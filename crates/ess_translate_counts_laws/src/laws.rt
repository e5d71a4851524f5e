//! Laws of numbers of cells, each the contract of a function that does nothing.

ghost use Rattle.ess_translate_counts_laws.specs.Laws.{TooManyByRuns};

/// The first given or find with too many cells is found in one pass over the plans.
#[tactic(auto, using(crate::proofs::NamesInRuns::too_many_by_runs))]
pub fn too_many_in_runs()
    ensures { TooManyByRuns }
{}
