//! Laws of solutions and their tables, each the contract of a function that does nothing.

ghost use Rattle.conjure_exact_laws.specs.Laws.{EachSolutionHasItsTables, HeaderTextsAreValid};

/// Exactly one list of found tables satisfies the model and stands for a solution.
pub fn each_solution_has_its_tables()
    ensures { EachSolutionHasItsTables }
{}

/// What is written for satisfying tables by a model's header is a valid file of the specification.
pub fn header_texts_are_valid()
    ensures { HeaderTextsAreValid }
{}
