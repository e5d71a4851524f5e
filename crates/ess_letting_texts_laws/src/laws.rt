//! Laws of texts of lettings, each the contract of a function that does nothing.

ghost use Rattle.ess_letting_texts_laws.specs.Laws.{LettingTextsAreRead};

/// A text of lettings of values that are spelled is a file of the lettings of their literals.
pub fn letting_texts_are_read()
    ensures { LettingTextsAreRead }
{}
