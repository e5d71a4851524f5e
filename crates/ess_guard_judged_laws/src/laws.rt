//! Laws of judged trees under the guard, each the contract of a function that does nothing.

ghost use Rattle.ess_guard_judged_laws.specs.Laws.{JudgedTreesHaveTypes, JudgedGuardsKeepTypes};

use ess_guard_types_laws::laws::guarded_keeps_types;

/// Each part of a judged expression has a type once it is resolved, where no index is taken of the literal `[]`.
pub fn judged_trees_have_types()
    ensures { JudgedTreesHaveTypes }
{}

/// So a judged expression keeps its type, and each of its parts has one, when it is made total, natural, or a term under conditions.
pub fn judged_guards_keep_types()
    ensures { JudgedGuardsKeepTypes }
{
    guarded_keeps_types();
}
