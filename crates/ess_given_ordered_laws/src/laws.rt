//! Laws of what stays, each the contract of a function that does nothing.

ghost use Rattle.ess_given_ordered_laws.specs.OrderedStays.{OrderedStays, GatheringStays};

/// What is given in domains stays by each rule of comprehensions whose items have an order, and so do comprehensions in order where order
/// counts.
pub fn items_keep_given()
    ensures { OrderedStays }
{}

/// So it is where conditions that read cells are gathered.
pub fn gathering_keeps_given()
    ensures { GatheringStays }
{}
