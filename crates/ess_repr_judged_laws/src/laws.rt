//! The law of judged domains as domains of views, the contract of a function that does nothing.

ghost use Rattle.ess_repr_judged_laws.specs.Laws.{JudgedDomainsAreViews};

/// The resolved domain of a find or given that is judged is one that the laws of structures speak of: it is well formed and orderly, needs
/// slots of a known number, takes the representations that it took, and its numbers are numbers; and no reserved name is free in it.
pub fn judged_domains_are_views()
    ensures { JudgedDomainsAreViews }
{}
