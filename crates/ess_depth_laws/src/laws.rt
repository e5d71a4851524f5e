//! The law of how deep names are bound, the contract of a function that does nothing.

ghost use Rattle.ess_depth_laws.specs.Laws.{DepthsAreBounded};

/// No more names are bound around a place than there are names, or than are bound in the whole.
pub fn depths_are_bounded()
    ensures { DepthsAreBounded }
{}
