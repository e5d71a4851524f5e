//! Laws of rules of openings, each the contract of a function that does nothing.

ghost use Rattle.ess_given_opened_laws.specs.OpenedStays.{OpenedStays};

/// What is given in domains stays by each rule of openings, and so do comprehensions in order where order counts.
pub fn openings_keep_given()
    ensures { OpenedStays }
{}
