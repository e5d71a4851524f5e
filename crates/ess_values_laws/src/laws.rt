//! Laws of printed literals, each the contract of a function that does nothing.

ghost use Rattle.ess_values_laws.specs.Laws.{PrintedLiteralsKeepValues, ValuesOfLiteralsAreSpelled, PrintedValuesAreReadBack};

/// A value that some literal of a type has is printed as a literal of that type that has it: sets with their members in order,
/// records with their fields by name, matrices with their index domain.
pub fn printed_literals_keep_values()
    ensures { PrintedLiteralsKeepValues }
{}

/// Such a value has a text, where its numbers fit into it and its names are names of the grammar.
pub fn values_of_literals_are_spelled()
    ensures { ValuesOfLiteralsAreSpelled }
{}

/// So its text is read as a literal that has it.
pub fn printed_values_are_read_back()
    ensures { PrintedValuesAreReadBack }
{}
