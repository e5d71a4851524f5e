//! Rules of `in`. Each call answers what the rule of the definitions makes of the root of a tree, or nothing where the rule doesn't
//! fire.
#![tactic(auto)]

mod changed_membership;
mod function_membership;
mod membership;

pub use changed_membership::member_changed;
pub use function_membership::{member_of_function, member_related};
pub use membership::{member_combined, member_listed, member_term};
