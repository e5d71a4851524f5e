//! Laws of the machine, each the contract of a function that does nothing.

ghost use Rattle.ess_parse_laws.specs.Laws.{OneTree, ReadsWhatIsDerived, DerivesWhatIsRead, StopsForGood, WholeBeforeStatements};

/// Each list of tokens is at most one tree: as an expression, a domain, a specification, a file of lettings, and as a
/// representation. This says nothing of the machine: it is a law of the grammar's rules, which the machine proves.
pub fn tokens_are_one_tree()
    ensures { OneTree }
{}

/// What the rules derive for a list of tokens, the machine reads, with the same tree.
pub fn derived_trees_are_read()
    ensures { ReadsWhatIsDerived }
{}

/// What the machine reads, the rules derive, with the same tree.
pub fn read_trees_are_derived()
    ensures { DerivesWhatIsRead }
{}

/// Where the machine stops at a token, no text is derived that begins with the tokens up to and with that one.
pub fn machine_stops_for_good()
    ensures { StopsForGood }
{}

/// Where the machine has gone past a word that begins a statement, the tokens before that word are a whole specification,
/// or a whole file of lettings.
pub fn whole_texts_stand_before_statements()
    ensures { WholeBeforeStatements }
{}
