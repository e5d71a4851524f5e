//! Laws of headers of models of sets of atoms, each the contract of a function that does nothing.

ghost use Rattle.ess_member_headers_laws.specs.Laws.{MemberHeadersAreRead, KeptAreChosen};

/// The lines of the header are that header by the rules.
pub fn member_headers_are_read()
    ensures { MemberHeadersAreRead }
{}

/// Options that keep each set by which members occur choose what is chosen where no option is named.
pub fn kept_are_chosen()
    ensures { KeptAreChosen }
{}
