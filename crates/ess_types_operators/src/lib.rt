//! The types of operators, literals, indices and patterns.
#![tactic(auto)]

mod agreeing;
mod building;
mod domains;
mod indices;
mod joining;
mod literals;
mod members;
mod operators;
mod patterns;
mod records;
mod words;

pub use agreeing::{agree, agree_all, fits_bool, fits_int, is_bool};
pub use domains::type_of_dom;
pub use indices::{component_type, field_type, number_cell_type, step_type};
pub use joining::{join, join_all};
pub use literals::{
    type_of_application, type_of_comprehension, type_of_function, type_of_list, type_of_matrix,
    type_of_mset, type_of_pair, type_of_partition, type_of_relation, type_of_set, type_of_tuple,
};
pub use members::{member_type, source_type};
pub use operators::{type_of_binary, type_of_unary};
pub use patterns::{bind_types, bound_types, pattern_fits};
pub use records::type_of_record;
pub use words::type_of_word;
