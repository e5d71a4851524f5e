//! Laws of covered trees, each the contract of a function that does nothing.

ghost use Rattle.ess_guard_covered_laws.specs.Laws.{JudgedIsCovered};

/// A tree that is judged and resolved is covered where its forms are told: its indices have domains that their forms tell, what is
/// applied is a relation by its form, function literals are of pairs, and operands of connectives and conditions have the type bool, not
/// that of an empty literal's members. So it is with a tree that has the right marks.
pub fn judged_is_covered()
    ensures { JudgedIsCovered }
{}
