//! What each container offers, each law the contract of a function that does nothing.

ghost use Rattle.ess_rules_laws.specs.ViewLaws.{StepsComeApart, DummyViewsAreListed, SizesOfSetsServe, CellsServe, FunctionViewsAreListed, FunctionViewsAreLookedUp, FunctionKeysServe, LiteralsAreLookedUp, AlternativesServe};

/// An index of several steps means what its first step means, and the other steps from there on.
pub fn steps_come_apart()
    ensures { StepsComeApart }
{}

/// A view of a set in slots with a dummy offers the atoms in the slots that don't hold the dummy: over the numbers of the slots
/// they list the members of the set, and tables that meet its structure meet theirs.
pub fn dummy_views_are_listed()
    ensures { DummyViewsAreListed }
{}

/// The size of a view of a set with a marker is the marker, and that of one in slots all in use is the number of slots.
pub fn sizes_of_sets_serve()
    ensures { SizesOfSetsServe }
{}

/// A view of an atom is its cell, and the test of a member of a set or relation that is kept as a truth value for each possible
/// member is the cell there, where the number of the term tells it from all others. Such a relation offers its tuples, in order.
pub fn cells_serve()
    ensures { CellsServe }
{}

/// A view of a function kept by argument offers its pairs, in the order of the function, where the members of its first domain
/// can be listed: of a total one and one with flags, from an atom and from a tuple of atoms. Tables that meet its structure
/// meet those of the listing.
pub fn function_views_are_listed()
    ensures { FunctionViewsAreListed }
{}

/// There a result of the function at an argument, as `f(a)` or `image(f, a)`, is looked up over the arguments.
pub fn function_views_are_looked_up()
    ensures { FunctionViewsAreLookedUp }
{}

/// Where the value of the argument is an index, the result of a total function is the view there, and the flag of one with flags
/// says whether the term is an argument, and guards the view there.
pub fn function_keys_serve()
    ensures { FunctionKeysServe }
{}

/// The item of a list literal at an index and the result of a function literal at an argument are looked up by cases.
pub fn literals_are_looked_up()
    ensures { LiteralsAreLookedUp }
{}

/// An operator on a term that alternatives look up keeps its meaning as one on the item of each, under `or` or `sum`; so does a
/// scalar by itself. What an operator makes of the term is looked up too, and the members of a container are offered.
pub fn alternatives_serve()
    ensures { AlternativesServe }
{}
