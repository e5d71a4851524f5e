//! Laws of what rules of openings count on, each the contract of a function that does nothing.

ghost use Rattle.ess_open_counted_laws.specs.PicksThere.{PicksThereKeep};
ghost use Rattle.ess_open_counted_laws.specs.LookupsBeside.{LookupsAreCountedOn};
ghost use Rattle.ess_open_counted_laws.specs.PicksBeside.{PicksAreCountedOn};
ghost use Rattle.ess_open_counted_laws.specs.OpensCounted.{OpensAreCountedOn};

use ess_refine_laws::laws::items_are_offered_once;

/// An operator on a picked value keeps its meaning over the alternatives of that, though it may have nothing; and so does a truth value
/// that is made of what is picked.
pub fn picks_there_keep()
    ensures { PicksThereKeep }
{}

/// What a lookup counts on follows where each part of the term has a value wherever its context holds, but for numbers in natural places,
/// names are new, and terms have values of their types. No term that picks a value may be without one in a natural
/// place, unless it is read as Boolean.
pub fn lookups_are_counted_on()
    ensures { LookupsAreCountedOn }
{}

/// So the rules of what is picked keep what they rewrite. A number over what is picked may have nothing in a natural place.
pub fn picks_are_counted_on()
    ensures { PicksAreCountedOn }
{}

/// What rules of openings count on follows from values, but for those of what is picked, and each keeps what it rewrites; where names are
/// new and told apart, terms have values of their types, and views have what their listings ask.
pub fn opens_are_counted_on()
    ensures { OpensAreCountedOn }
{
    items_are_offered_once();
}
