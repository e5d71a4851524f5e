//! What a judged term needs for its conditions to tell its value, the contract of a function that does nothing.

ghost use Rattle.ess_guard_supplied_laws.specs.Laws.{PresentIsSupplied};

/// Of a tree with the right marks, where applications have the type bool and function literals are of pairs, what it reads is there as
/// the laws of conditions ask, where names, cells and views have values and domains can be listed.
pub fn present_is_supplied()
    ensures { PresentIsSupplied }
{}
