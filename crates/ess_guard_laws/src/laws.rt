//! Laws of undefined terms, each the contract of a function that does nothing.

ghost use Rattle.ess_guard_laws.specs.Laws.{ConditionsHoldAtValues, ConditionsAreMet, GuardingKeepsMeanings, GuardedIsKept, NaturalIsKept, GuardedIsTotal, ConditionsMakeTotal, ConditionsTellValues, TermsUnderConditions, FlatConstraintsStay, MarksStay, ScopesStay, ConstantsStay};

/// Where a term has a value its conditions hold.
pub fn conditions_hold_at_values()
    ensures { ConditionsHoldAtValues }
{}

/// Tables that meet the structures of a term meet those of its conditions.
pub fn conditions_are_met()
    ensures { ConditionsAreMet }
{}

/// A tree whose Booleans stand under their conditions means the same, everywhere.
pub fn guarding_keeps_meanings()
    ensures { GuardingKeepsMeanings }
{}

/// So it is kept as a rule keeps a tree: tables that meet its structures meet those of the guarded one too.
pub fn guarded_is_kept()
    ensures { GuardedIsKept }
{}

/// So it is where quotients, remainders and powers stand as they are in natural places.
pub fn natural_is_kept()
    ensures { NaturalIsKept }
{}

/// A guarded Boolean is total, in every env, where its tree is covered: where each index has a domain that its form tells, what is
/// applied is a relation by its form, and function literals are of pairs.
pub fn guarded_is_total()
    ensures { GuardedIsTotal }
{}

/// The conditions of a covered term, each under those before it, are total; and where they hold the term is.
pub fn conditions_make_total()
    ensures { ConditionsMakeTotal }
{}

/// That its conditions hold is a truth value, and says whether a term has a value: for each operator that is no application of a
/// function, where the names, cells and views that the term reads have values and its generators run over domains that can be listed.
pub fn conditions_tell_values()
    ensures { ConditionsTellValues }
{}

/// The two answers for a term: whether it has a value, and the term, which means the same there, and is total; a number is 0
/// elsewhere.
pub fn terms_under_conditions()
    ensures { TermsUnderConditions }
{}

/// Flat constraints over cells stay as they are.
pub fn flat_constraints_stay()
    ensures { FlatConstraintsStay }
{}

/// A Boolean is marked as one still, and nothing else is.
pub fn marks_stay()
    ensures { MarksStay }
{}

/// A guarded tree is in scope as it was, and so are both answers for a term: where the two names are reserved, and those that the
/// domains of declarations use are in scope.
pub fn scopes_stay()
    ensures { ScopesStay }
{}

/// A guarded tree spells constants that it had: the numbers of the tree and of items of its counted literals, and 0, 1 and 2. So do
/// both answers for a term.
pub fn constants_stay()
    ensures { ConstantsStay }
{}
