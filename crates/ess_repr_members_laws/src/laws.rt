//! The law of declared tables, the contract of a function that does nothing.

ghost use Rattle.ess_repr_members_laws.specs.Laws.{DeclaredTreesDeclare};

/// The trees that are declared for a representation that fits are its tables: they have their names, and under each env axes and cell
/// domains with their members.
pub fn declared_trees_declare()
    ensures { DeclaredTreesDeclare }
{}
