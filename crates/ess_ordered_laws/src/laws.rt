//! Laws of ordered comprehensions, each the contract of a function that does nothing.

ghost use Rattle.ess_ordered_laws.specs.Laws.{ItemsAreNumbered, ItemsAreSources, SourcesArePicked, SourcesKeep};

/// An item of a comprehension over the domains of atoms, with conditions or without, is looked up by its number: how many items come before it.
pub fn items_are_numbered()
    ensures { ItemsAreNumbered }
{}

/// A comprehension over what is picked is looked up by the alternatives of what that is.
pub fn sources_are_picked()
    ensures { SourcesArePicked }
{}

/// A source that is an item of a comprehension, or is picked out of one, is run over by what its lookup picks.
pub fn items_are_sources()
    ensures { ItemsAreSources }
{}

/// A comprehension over a matrix whose index domain is told keeps its items, in order, where it runs over the indices.
pub fn sources_keep()
    ensures { SourcesKeep }
{}
