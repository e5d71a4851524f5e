//! Models as texts.
mod cells;
mod expressions;
mod lists;
mod models;
mod words;

pub use cells::print_cells;
pub use models::print_model;
