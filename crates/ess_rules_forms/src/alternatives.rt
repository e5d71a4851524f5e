//! What a term offers: generators with an item at each of their bindings.
use ess_core_nodes::{Gen, Node};
use ess_rows::{Boxed, Row};

/// Generators, and the item at each of their bindings.
#[derive(Drop)]
pub struct Alternative {
    /// The generators and conditions.
    pub gens: Row<Gen>,
    /// The item.
    pub item: Boxed<Node>,
}
