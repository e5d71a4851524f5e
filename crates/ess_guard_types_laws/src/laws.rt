//! The law that guarding keeps types, the contract of a function that does nothing.

ghost use Rattle.ess_guard_types_laws.specs.Laws.{GuardedKeepsTypes};

/// A guarded tree has types as it had, and so have both answers for a term: its own type and Booleans in all conditions.
pub fn guarded_keeps_types()
    ensures { GuardedKeepsTypes }
{}
