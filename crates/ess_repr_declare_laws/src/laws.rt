//! Laws of sizes as terms and of children, each the contract of a function that does nothing.

ghost use Rattle.ess_repr_declare_laws.specs.Laws.{BoundsAreRead, ChildrenAreRight, DeclaredNamesAreRight};

/// The bound of a domain as a term reads the bound of the domain that it denotes.
pub fn bounds_are_read()
    ensures { BoundsAreRead }
{}

/// The children of a representation's kind are the right ones: their attributes have the right names, and they denote the domains of
/// the layer's children.
pub fn children_are_right()
    ensures { ChildrenAreRight }
{}

/// The declared tables of a representation that fits have its names, each with as many axes as its table has.
pub fn declared_names_are_right()
    ensures { DeclaredNamesAreRight }
{}
