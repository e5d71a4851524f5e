//! The laws of headers and of chosen options, each the contract of a function that does nothing.

ghost use Rattle.ess_mixed_headers_laws.specs.Laws.{ChosenOptionsKeepTheClass, MixedHeadersAreRead};

/// The lines of the header of a specification of the class are that header by the rules, however deeply they are nested.
pub fn mixed_headers_are_read()
    ensures { MixedHeadersAreRead }
{}

/// With the representations of all givens and finds as options a specification is of the class too, with the same plans and header.
pub fn chosen_options_keep_the_class()
    ensures { ChosenOptionsKeepTheClass }
{}
