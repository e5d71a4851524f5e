//! Laws of well typed specifications, each the contract of a function that does nothing.

ghost use Rattle.conjure_settled_laws.specs.Laws.{TypedIsSettled, TypedHasEndValues, TypedNamesHaveValues};

/// Each statement of a well typed specification says at its place what it says behind all statements.
pub fn typed_is_settled()
    ensures { TypedIsSettled }
{}

/// Behind all statements of a well typed specification each declared name has what its statement says.
pub fn typed_has_end_values()
    ensures { TypedHasEndValues }
{}

/// Names in use have values, as rewriting asks for it, where something stands for each declared name that has a value.
pub fn typed_names_have_values()
    ensures { TypedNamesHaveValues }
{}
