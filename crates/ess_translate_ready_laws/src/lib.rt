//! What the header of a text has beyond its judgements, and what is known of its plans under a parameter.
//!
//! `specs/PlanFacts` says what is known of a plan. `laws` says that the header with which a text begins is ready: its statements are
//! settled, its records have their fields, its domains are typed; that under a parameter each plan has its domain and each given a
//! member of it; and that tables that fit a model are those that the header declares.
#![tactic(auto)]

pub mod laws;
