//! Types: laws on resolved trees and on the values that expressions of a type have.
#![tactic(auto)]

pub mod laws;
