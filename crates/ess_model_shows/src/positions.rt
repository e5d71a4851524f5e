//! The positions of the values of an enumerated type.
ghost use Rattle.std.specs.Prelude.{◌≡◌, ◌++◌, pos, IfOk, OnOk};
ghost use Rattle.ess_semantics.specs.Trees.{number_ex};
ghost use Rattle.ess_core_nodes.specs.NodeViews.{pure_node};
ghost use Rattle.conjure_model_laws.specs.Shown.{positions_from};
ghost use Rattle.ess_model_shown.specs.Tables.{pure_names, SameNames};

use ess_core_nodes::Node;
use ess_model_shown::NodeNames;
use ess_node_building::number;
use ess_rows::{Boxed, NoMemory, Text};
use std::alloc::Global;

/// Puts the position of each value, from the last to the first, so that the first of a name counts. `NoMemory` where there is no room
/// for them; some of them may then be there.
pub(crate) fn put_positions(
    alloc: Global,
    values: &[Text],
    names: &mut NodeNames,
) -> Result<(), NoMemory>
    ensures { OnOk result (SameNames (pure_names names.new) (positions_from 1 values.now ++ pure_names names.old)) }
{
    let mut left = values.len();
    while left > 0 {
        let position = number_node(alloc, left)?;
        left -= 1;
        names.put(alloc, &values[left], position)?;
    }
    Ok(())
}

/// The number of so many. `NoMemory` where there is no room for it, or it can't be counted.
pub(crate) fn number_node(alloc: Global, count: usize) -> Result<Boxed<Node>, NoMemory>
    ensures { IfOk result (λ n. pure_node n ≡ number_ex (pos count)) }
{
    match i64::try_from(count) {
        Ok(value) => number(alloc, value),
        Err(_) => Err(NoMemory),
    }
}
