//! The reserved names that structures bind, by their numbers.
ghost use Rattle.std.specs.Prelude.{◌≡◌, suc, IfOk};
ghost use Rattle.ess_semantics.specs.Trees.{name_ex};
ghost use Rattle.ess_core_nodes.specs.NodeViews.{pure_node};
ghost use Rattle.conjure_model_laws.specs.ToldApart.{reserved};

use ess_core_nodes::Node;
use ess_rows::{Boxed, NoMemory, Text};
use std::alloc::Global;

/// The reserved name with a number. `NoMemory` where there is no room for it.
pub fn reserved_name(alloc: Global, number: u64) -> Result<Text, NoMemory>
    ensures { IfOk result (λ t. t ≡ reserved number) }
{
    let mut name = Text::new(alloc);
    name.push_byte(b'#')?;
    name.push_u64(number)?;
    Ok(name)
}

/// The number after this one. `NoMemory` where it can't be counted.
pub fn counted_on(number: u64) -> Result<u64, NoMemory>
    ensures { IfOk result (λ n. n ≡ suc number) }
{
    match number.checked_add(1) {
        Some(next) => Ok(next),
        None => Err(NoMemory),
    }
}

/// The reserved name with a number as a term. `NoMemory` where there is no room for it.
pub fn bound_name(alloc: Global, number: u64) -> Result<Boxed<Node>, NoMemory>
    ensures { IfOk result (λ n. pure_node n ≡ name_ex (reserved number)) }
{
    let name = reserved_name(alloc, number)?;
    Boxed::new(alloc, Node::Name(name))
}
