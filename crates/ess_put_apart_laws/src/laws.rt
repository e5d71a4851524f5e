//! Laws of sources told apart anew, each the contract of a function that does nothing.

ghost use Rattle.ess_put_apart_laws.specs.RenewedApart.{RenewedSourcesAreApart};

/// Where the bound names of a source are told apart anew, they are apart from all that stands behind it, as comprehensions that are spliced
/// and folds over literals ask.
pub fn renewed_sources_are_apart()
    ensures { RenewedSourcesAreApart }
{}
