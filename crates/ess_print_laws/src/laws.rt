//! Laws of printed texts, each the contract of a function that does nothing.

ghost use Rattle.ess_print_laws.specs.Laws.{PiecesAreRead, ExpressionsAreRead, DomainsAreRead, StatementsAreRead, LettingsAreRead, RepresentationsAreRead, ValuesAreRead, TextsStandFirst};

/// The tokens of a text of pieces are those of its pieces, where each token ends before what follows it and is one that a
/// text of the subset may have.
pub fn pieces_are_read()
    ensures { PiecesAreRead }
{}

/// The text of an expression that some text has is derived by the grammar's rules for exactly that expression, and no word
/// of it stands outside the subset.
pub fn expressions_are_read()
    ensures { ExpressionsAreRead }
{}

/// The same of domains.
pub fn domains_are_read()
    ensures { DomainsAreRead }
{}

/// The same of statements: the text is that statement alone, and a specification of it alone.
pub fn statements_are_read()
    ensures { StatementsAreRead }
{}

/// The text of a letting is a file of lettings with it alone, and so is `letting NAME be ` with the text of an expression.
pub fn lettings_are_read()
    ensures { LettingsAreRead }
{}

/// The same of representations, whatever they are.
pub fn representations_are_read()
    ensures { RepresentationsAreRead }
{}

/// The text of a value that is spelled is that of its literal, which is readable and derived as itself; in a letting too.
pub fn values_are_read()
    ensures { ValuesAreRead }
{}

/// What is printed of a tree before other pieces is its own text, and then theirs. So a printer may write each part behind
/// what it has written.
pub fn texts_stand_first()
    ensures { TextsStandFirst }
{}
