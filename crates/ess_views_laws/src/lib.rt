//! What views offer beside those of sets and functions by argument: components of tuples and records, items of matrices, values that
//! are kept as another value, multisets, and partitions by the number of each member's part.
#![tactic(auto)]
