//! Laws of headers, each the contract of a function that does nothing.

ghost use Rattle.ess_translate_ready_laws.specs.Laws.{HeadersAreReady, PlansAreKnown, CellsAreDeclared};

/// The statements of a header of this tool with which a text begins are ready: parameters of it have their given tables.
pub fn headers_are_ready()
    ensures { HeadersAreReady }
{}

/// Under a parameter each plan of a header has its domain, and each plan of a given a member of it.
pub fn plans_are_known()
    ensures { PlansAreKnown }
{}

/// Tables fit what a model is to find exactly where they are as the header declares them.
pub fn cells_are_declared()
    ensures { CellsAreDeclared }
{}
