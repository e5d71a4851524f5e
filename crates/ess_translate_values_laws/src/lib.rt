//! The values that the tables of finds stand for, as definitions and laws over them alone: what is asked of the plan of a find so that
//! its value can be found layer by layer, and that tables which are as declared have it.
#![tactic(auto)]

pub mod laws;
