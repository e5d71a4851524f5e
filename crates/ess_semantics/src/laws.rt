//! Laws over the definitions, each the contract of a function that does nothing.

ghost use Rattle.ess_semantics.specs.Laws.{OrderIsTotal, SetsHaveTheirMembers, BooleansHaveTruthValues, ParameterFits, SolutionIsValid, StoodForIsSolution};

/// The order of values is total, and Equal only at equal values.
pub fn order_is_total()
    ensures { OrderIsTotal }
{}

/// The canonical list of a set rises strictly and has exactly the given members.
pub fn sets_have_their_members()
    ensures { SetsHaveTheirMembers }
{}

/// Resolved, an operator's node of type bool has a truth value, whatever the names stand for.
pub fn booleans_have_truth_values()
    ensures { BooleansHaveTruthValues }
{}

/// A parameter is one exactly where the verdict says that it fits.
pub fn parameter_fits()
    ensures { ParameterFits }
{}

/// An assignment is a solution exactly where the verdict says that it is valid.
pub fn solution_is_valid()
    ensures { SolutionIsValid }
{}

/// What a satisfying assignment of a model stands for is a solution of the specification.
pub fn stood_for_is_solution()
    ensures { StoodForIsSolution }
{}
