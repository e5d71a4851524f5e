//! The law of domains over tables, the contract of a function that does nothing.

ghost use Rattle.ess_repr_shown_laws.specs.Laws.{ShownDomainsKeepForms};

/// With views and positions in the place of names a domain is orderly as it was, needs slots of a known number where it did, and takes the
/// representations that it took. Where no name is free in it, it mentions no reserved one.
pub fn shown_domains_keep_forms()
    ensures { ShownDomainsKeepForms }
{}
