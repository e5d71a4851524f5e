//! Laws of declared tables, each the contract of a function that does nothing.

ghost use Rattle.ess_translate_tables_laws.specs.Laws.{HeadersKeepNames, RightModelsDeclareTheirTables};

/// The header of a model keeps the specification's givens and finds with their domains, and their plans: constraints and
/// objectives don't count, and the representations that it names are those that were chosen.
pub fn headers_keep_what_is_kept()
    ensures { HeadersKeepNames }
{}

/// A right model of a well typed specification declares the tables of its header.
pub fn right_models_declare_their_tables()
    ensures { RightModelsDeclareTheirTables }
{}
