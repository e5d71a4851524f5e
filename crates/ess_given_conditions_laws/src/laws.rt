//! Laws of what is given, each the contract of a function that does nothing.

ghost use Rattle.ess_given_conditions_laws.specs.ToldTrees.{ToldTreesAreGiven};
ghost use Rattle.ess_given_conditions_laws.specs.GivenAxes.{IndexDomainsAreGiven};
ghost use Rattle.ess_given_conditions_laws.specs.GivenChains.{ChainsKeepGiven};
ghost use Rattle.ess_given_conditions_laws.specs.ConditionsEnd.{ConditionsEnd};
ghost use Rattle.ess_given_conditions_laws.specs.GivenInConditions.{GivenInConditions};

/// Told apart, a tree in which what is given is given at its place has what is given, where names grow by those that it gets.
pub fn told_trees_are_given()
    ensures { ToldTreesAreGiven }
{}

/// Index domains, as the form of a matrix tells them, are given where the matrix is, but that of a comprehension over what isn't fixed.
pub fn index_domains_are_given()
    ensures { IndexDomainsAreGiven }
{}

/// What is given stays along chains of rules, where names grow by the reserved ones that they take.
pub fn chains_keep_given()
    ensures { ChainsKeepGiven }
{}

/// In a refined tree in which no condition can leave, none reads a table, under `allDiff` too; but for lists that lex signs compare.
pub fn conditions_end()
    ensures { ConditionsEnd }
{}

/// What is given in conditions stays: from a tree that is judged over given tables, by its told apart form and a chain of rules to a
/// refined tree in which no condition can leave, each cell in a domain is one of a given, and no condition reads a table, but for lists
/// that lex signs compare.
pub fn given_in_conditions()
    ensures { GivenInConditions }
{}
