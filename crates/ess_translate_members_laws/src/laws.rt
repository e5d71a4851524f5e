//! Laws of declarations, each the contract of a function that does nothing.

ghost use Rattle.ess_translate_members_laws.specs.Laws.{PositionsKeepTables, PositionsKeepCounts, RunsAreOne, SidesByPlans};

/// Positions in place of named types keep the axes of declared tables and the numbers of their cells.
#[tactic(auto, using(crate::proofs::PlainDeclarations::tables_kept))]
pub fn positions_keep_tables()
    ensures { PositionsKeepTables }
{}

/// They keep the number of cells.
#[tactic(auto, using(crate::proofs::PlainDeclarations::counts_kept))]
pub fn positions_keep_counts()
    ensures { PositionsKeepCounts }
{}

/// Two lists of maximal runs are one exactly where the domains have the same cells.
#[tactic(auto, using(crate::proofs::SideTables::runs_one))]
pub fn runs_are_one()
    ensures { RunsAreOne }
{}

/// The tables of a header's side are those of its plans, and declared tables are declared by the numbers of their cells.
#[tactic(auto, using(crate::proofs::SideTables::sides_by_plans))]
pub fn sides_by_plans()
    ensures { SidesByPlans }
{}
