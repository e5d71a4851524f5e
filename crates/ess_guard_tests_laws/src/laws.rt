//! Laws of the guard where forms don't tell index domains and relations, each the contract of a function that does nothing.

ghost use Rattle.ess_guard_tests_laws.specs.Laws.{GuardedIsTotalButTests, TotalIsSoButForTests};

/// A guarded Boolean is total in every env but for tests `m[i] = m[i]`, also where forms tell no index domains and no relations.
pub fn guarded_is_total_but_tests()
    ensures { GuardedIsTotalButTests }
{}

/// What is total is so but for tests.
pub fn total_is_so_but_for_tests()
    ensures { TotalIsSoButForTests }
{}
