//! The law of the guard with natural places where forms don't tell index domains, the contract of a function that does nothing.

ghost use Rattle.ess_guard_places_laws.specs.Laws.{NaturalIsTotalButTests};

/// A Boolean guarded with natural places is total in every env but for plain operators in these places and for tests `m[i] = m[i]`, also
/// where forms tell no index domains and no relations; and so is a term where its conditions hold.
pub fn natural_is_total_but_tests()
    ensures { NaturalIsTotalButTests }
{}
