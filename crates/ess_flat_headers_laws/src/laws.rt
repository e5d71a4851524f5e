//! Laws of headers of models of scalars, each the contract of a function that does nothing.

ghost use Rattle.ess_flat_headers_laws.specs.Laws.{FlatHeadersAreRead, ChosenAreOfTheClass};

/// The lines of the header are that header by the rules, however deeply they are nested.
pub fn flat_headers_are_read()
    ensures { FlatHeadersAreRead }
{}

/// With the representations of all givens and finds as options a specification is of the class too, and has the same header and model.
pub fn chosen_are_of_the_class()
    ensures { ChosenAreOfTheClass }
{}
