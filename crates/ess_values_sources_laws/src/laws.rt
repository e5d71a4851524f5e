//! Laws of rules over sources and values, each the contract of a function that does nothing.

ghost use Rattle.ess_values_sources_laws.specs.ListedValues.{ListedSourcesKeepValues};
ghost use Rattle.ess_values_sources_laws.specs.SourcesKeepValues.{SourcesKeepValues};

/// The rules over a comprehension, over a literal, over a source that offers a listing, of the only alternative of one and of the least of
/// several keep at their root that each part of the tree has a value wherever its context holds, but for numbers in natural places, where
/// they have what they count on.
pub fn sources_keep_values()
    ensures { SourcesKeepValues }
{}

/// So do the generators of any listing of a source in its place, in order, under a word that forgets order and under a fold over several
/// alternatives, where each part of the listing has a value: that of a view too.
pub fn listed_sources_keep_values()
    ensures { ListedSourcesKeepValues }
{}
