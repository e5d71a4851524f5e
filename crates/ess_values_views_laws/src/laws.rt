//! Laws of views of sets and values, each the contract of a function that does nothing.

ghost use Rattle.ess_values_views_laws.specs.SetViewsKeepValues.{SetViewsKeepValues};

/// What a view of a set offers has values where the view has: its listing, at any nesting, the cell of a member, and its size; and so has
/// the cell of an atom.
pub fn set_views_keep_values()
    ensures { SetViewsKeepValues }
{}
