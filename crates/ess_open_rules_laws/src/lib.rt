//! The rules of sources at the first generator that isn't plain, of what is picked out of terms, of relations applied and of indices of
//! several steps, as one list of pure functions: definitions with worked examples.
#![tactic(auto)]
