//! From the parts to the headline: rules along chains keep what trees over tables mean, what is written for constraints and objectives says
//! what they say, the models that are built of specifications of scalars and sets are right ones, and so are the texts of them. A model
//! is written for each text of scalars.
#![tactic(auto)]

pub mod laws;
