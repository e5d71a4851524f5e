//! Laws of positions and types, each the contract of a function that does nothing.

ghost use Rattle.ess_repr_positions_laws.specs.Laws.{TypedIsWithTypes, FormIsKept};

/// Of a value of the domain's form the types are put back part by part.
#[tactic(auto, using(crate::proofs::TypedForms::typed_so))]
pub fn typed_is_with_types()
    ensures { TypedIsWithTypes }
{}

/// A value has the form of a domain exactly where it has that of the domain with positions.
#[tactic(auto, using(crate::proofs::KeptForms::form_kept))]
pub fn form_is_kept()
    ensures { FormIsKept }
{}
