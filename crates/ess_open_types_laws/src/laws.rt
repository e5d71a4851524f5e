//! Laws of types and marks of rules of openings, each the contract of a function that does nothing.

ghost use Rattle.ess_open_types_laws.specs.OpeningsTyped.{OpeningsKeepTypes, OpeningsKeepMarks};

/// Rules of openings keep the type at their root, where they have what they ask.
pub fn openings_keep_types()
    ensures { OpeningsKeepTypes }
{}

/// And marks, where what they rewrite has a type.
pub fn openings_keep_marks()
    ensures { OpeningsKeepMarks }
{}
