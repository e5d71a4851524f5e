//! How a generator runs over arguments.
ghost use Rattle.std.specs.Prelude.{◌≡◌, IfOk};
ghost use Rattle.ess_rules_laws.specs.FunctionViews.{by_name, by_names};
ghost use Rattle.ess_rules_pairs.specs.CodeRuns.{pure_run};

use crate::names::{name_exs, name_patterns};
use ess_core::Pat;
use ess_core_nodes::{Node, Op};
use ess_node_building::{literal, name, only};
use ess_rows::{Boxed, NoMemory, Row, Text};
use std::alloc::Global;

/// How a generator runs over arguments.
#[derive(Drop)]
pub struct Run {
    /// The pattern of an argument.
    pub pattern: Pat,
    /// Its indices.
    pub keys: Row<Node>,
    /// The argument itself.
    pub argument: Boxed<Node>,
}

/// An atom, which is its own index.
#[tactic(auto, using(ess_core::proofs::PartEquations::pure_pat_name))]
pub(crate) fn by_name(alloc: Global, one: &Text) -> Result<Run, NoMemory>
    ensures { IfOk result (λ u. pure_run u ≡ by_name one.now) }
{
    let keys = only(alloc, name(alloc, one)?)?;
    let argument = name(alloc, one)?;
    let one = one.copy(alloc)?;
    Ok(Run {
        pattern: Pat::Name(one),
        keys,
        argument,
    })
}

/// A tuple of atoms, each of which is an index.
#[tactic(auto, using(ess_core::proofs::PartEquations::pure_pat_tuple, crate::proofs::NameRows::names_as_patterns))]
pub(crate) fn by_names(alloc: Global, names: &[Text]) -> Result<Run, NoMemory>
    ensures { IfOk result (λ u. pure_run u ≡ by_names names.now) }
{
    let keys = name_exs(alloc, names)?;
    let argument = literal(alloc, Op::Tuple, name_exs(alloc, names)?)?;
    let pats = name_patterns(alloc, names)?;
    Ok(Run {
        pattern: Pat::Tuple(pats),
        keys,
        argument,
    })
}
