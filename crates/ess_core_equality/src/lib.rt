//! Equality of trees: whether two values, types, expressions, domains, statements or tables are equal. Each call answers
//! true exactly where the two are one tree. Names are equal by their bytes, and lists by their items in order: two sets of
//! attributes in another order are two trees. No call takes memory.
//!
//! The derived `==` of trees, and of rows and options of them, says the same to a crate whose root file names the laws:
//! `#![tactic(auto, using(ess_core_equality::proofs::Laws::equality))]`.
#![tactic(auto, using(crate::proofs::Laws::equality))]

mod domains;
mod expressions;
mod representations;
mod statements;
mod tables;
mod types;
mod values;

pub use domains::{same_attr, same_dom, same_doms, same_field_dom, same_range};
pub use expressions::{
    same_ex, same_exs, same_field_ex, same_gen, same_pair_ex, same_pat, same_step, same_view,
};
pub use representations::same_repr;
pub use statements::{same_spec, same_stm};
pub use tables::{
    same_binding, same_cell_decl, same_cells, same_env, same_named_table, same_table,
    same_type_entry,
};
pub use types::{same_field_ty, same_ty, same_tys};
pub use values::{same_field_val, same_pair, same_val, same_vals};
