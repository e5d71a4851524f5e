//! Laws of views, each the contract of a function that does nothing.

ghost use Rattle.ess_view_types_laws.specs.ViewTypes.{ViewsHaveTheirType};

/// Where tables meet its structure a view has a value, a member of what its domain denotes, of the domain's type.
pub fn views_have_their_type()
    ensures { ViewsHaveTheirType }
{}
