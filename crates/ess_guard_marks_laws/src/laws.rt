//! The law that guarding keeps marks, the contract of a function that does nothing.

ghost use Rattle.ess_guard_marks_laws.specs.Laws.{GuardingKeepsMarks};

use ess_guard_types_laws::laws::guarded_keeps_types;

/// A guarded tree has the right marks as it had, and so have both answers for a term: where each part has a type and the tree is covered.
pub fn guarding_keeps_marks()
    ensures { GuardingKeepsMarks }
{
    guarded_keeps_types();
}
