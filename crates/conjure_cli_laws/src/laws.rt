//! Laws of what is read and written, each the contract of a function that does nothing.

ghost use Rattle.conjure_cli_laws.specs.Laws.{WrittenModelsStand, ReadSpecificationsHaveFields};

/// What is written for a text of the small grammar is a model with its header that stands for the specification, and each solution
/// has exactly one satisfying assignment.
pub fn written_models_stand()
    ensures { WrittenModelsStand }
{}

/// Whatever a text is read as, each record in its domains has a name for each component.
pub fn read_specifications_have_fields()
    ensures { ReadSpecificationsHaveFields }
{}
