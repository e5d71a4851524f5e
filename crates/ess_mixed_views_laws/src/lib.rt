//! Views of finds that are sets of any nesting, in specifications of scalars and sets: their tables keep them, and they have the values of
//! their names. It has definitions and proofs alone.
#![tactic(auto)]
