//! Worked examples of the definitions: what they say of small cases, at the edges where a rule turns.
#![tactic(auto)]
