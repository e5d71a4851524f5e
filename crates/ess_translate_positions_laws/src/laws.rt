//! Laws of forms, each the contract of a function that does nothing.

ghost use Rattle.ess_translate_positions_laws.specs.Laws.{StoodForHasForm};

/// What tables stand for has the form of the domain.
#[tactic(auto, using(crate::proofs::StoodForms::stood_form))]
pub fn stood_for_has_form()
    ensures { StoodForHasForm }
{}
