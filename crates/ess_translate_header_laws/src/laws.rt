//! Laws of headers, each the contract of a function that does nothing.

ghost use Rattle.ess_translate_header_laws.specs.Laws.{OneHeader, ModelsBeginWithTheirHeaders, WrittenHeadersAreRead};
ghost use Rattle.ess_translate_header_laws.specs.Laws.{WrittenHeadersAreFound, HeadersStayTyped};

/// A text begins with at most one header.
pub fn a_text_has_one_header()
    ensures { OneHeader }
{}

/// A text that is a model with a header by the rules of models begins with that header, where each of its lines is within the limits.
pub fn models_begin_with_their_headers()
    ensures { ModelsBeginWithTheirHeaders }
{}

/// The lines that are written for a header that can be read are lines of that header, however deeply they are nested.
pub fn written_headers_are_read()
    ensures { WrittenHeadersAreRead }
{}

/// Where none of them is nested too deeply, they stand first among themselves: a reader finds the header.
pub fn written_headers_are_found()
    ensures { WrittenHeadersAreFound }
{}

/// Without its constraints and objectives a well typed specification is well typed: so the statements of its header are.
pub fn headers_stay_typed()
    ensures { HeadersStayTyped }
{}
