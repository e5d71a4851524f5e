//! Laws of simplifying, each the contract of a function that does nothing.

ghost use Rattle.ess_simplify_laws.specs.SimplerRoots.{SimplerRootsKeep};
ghost use Rattle.ess_simplify_laws.specs.Laws.{SimplifiedTreesAreSimple, RulesSimplify};
ghost use Rattle.ess_simplify_laws.specs.TruthsThere.{SimplifyingKeeps};

/// The tree that simplifying makes has the form, is no larger, and has no nodes but those of the tree before it and `!`, `true`,
/// `false`.
pub fn simplified_trees_are_simple()
    ensures { SimplifiedTreesAreSimple }
{}

/// One rule at roots leads to it, used any number of times at parts.
pub fn rules_simplify()
    ensures { RulesSimplify }
{}

/// The rule keeps what it rewrites where the operands of connectives have truth values.
pub fn simpler_roots_keep()
    ensures { SimplerRootsKeep }
{}

/// So the whole tree is kept, where they have truth values wherever they are evaluated.
pub fn simplifying_keeps()
    ensures { SimplifyingKeeps }
{}
