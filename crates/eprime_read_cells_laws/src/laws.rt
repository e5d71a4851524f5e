//! Laws of the machine, each the contract of a function that does nothing.

ghost use Rattle.eprime_read_cells_laws.specs.Laws.{OneReading, ReadsDerivedCells, DerivesReadCells, StopsForGood, WholeBeforeLettings};

/// Each list of tokens is at most one text of cells. This says nothing of the machine: it is a law of the grammar's rules,
/// which the machine proves.
pub fn tokens_are_one_text_of_cells()
    ensures { OneReading }
{}

/// What the rules derive for a list of tokens, the machine reads, with the same values of names.
pub fn derived_cells_are_read()
    ensures { ReadsDerivedCells }
{}

/// What the machine reads, the rules derive, with the same values of names.
pub fn read_cells_are_derived()
    ensures { DerivesReadCells }
{}

/// Where the machine stops at a token, no text of cells begins with the tokens up to and with that one.
pub fn machine_stops_for_good()
    ensures { StopsForGood }
{}

/// Where the machine takes the word `letting`, the tokens before it are a whole text of cells.
pub fn whole_texts_stand_before_lettings()
    ensures { WholeBeforeLettings }
{}
