//! Laws of comprehensions where order counts, each the contract of a function that does nothing.

ghost use Rattle.ess_given_order_laws.specs.OrderStays.{OrderStays};
ghost use Rattle.ess_given_order_laws.specs.OrderEnds.{OrderEnds};
ghost use Rattle.ess_given_order_laws.specs.OrderInScope.{GivenStaysInConditions};

/// Where order counts the conditions of comprehensions are fixed: so it stays by each rule, at a part, and along chains.
pub fn order_stays()
    ensures { OrderStays }
{}

/// So each cell in a condition or a domain of the refined tree to which rules lead is one of a given, under lex signs too.
pub fn order_ends()
    ensures { OrderEnds }
{}

/// What is given in conditions stays: for each set of tables such that numbers in domains, and conditions where order counts, are fixed in
/// the
/// old tree where these count as givens, each cell in a condition or a domain of the refined tree is one of the set.
pub fn given_stays_in_conditions()
    ensures { GivenStaysInConditions }
{}
