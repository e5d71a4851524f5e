//! Laws of the guard with natural places, each the contract of a function that does nothing.

ghost use Rattle.ess_guard_natural_laws.specs.Laws.{NaturalIsTotal, TotalInPlaces};

/// A Boolean guarded with natural places is total in every env, but for plain operators in these places, where its tree is covered;
/// and so is a term where its conditions hold.
pub fn natural_is_total()
    ensures { NaturalIsTotal }
{}

/// What is total is so in each place, and what is total but for plain operators in no natural place is so in one.
pub fn total_in_places()
    ensures { TotalInPlaces }
{}
