//! Laws of what comes back from a model, each the contract of a function that does nothing.

ghost use Rattle.conjure_round_laws.specs.Laws.{SatisfyingTablesStandForSolutions, SolutionsAreReadAgain, SatisfyingTablesComeBack, HeadersStandForTheSame};

/// Found tables that satisfy a model of a specification stand for a solution of it.
pub fn satisfying_tables_stand_for_solutions()
    ensures { SatisfyingTablesStandForSolutions }
{}

/// A solution is what the lettings of its values' literals stand for, and each of the values has a text.
pub fn solutions_are_read_again()
    ensures { SolutionsAreReadAgain }
{}

/// Found tables that satisfy a model come back: the text of what they stand for is read again as it, and is a valid solution.
pub fn satisfying_tables_come_back()
    ensures { SatisfyingTablesComeBack }
{}

/// Under a model's header tables stand for what they stand for under the specification.
pub fn headers_stand_for_the_same()
    ensures { HeadersStandForTheSame }
{}
