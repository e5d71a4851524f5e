//! Names of the components of an argument, as expressions and as patterns.
ghost use Rattle.std.specs.Prelude.{◌≡◌, map, IfOk};
ghost use Rattle.ess_semantics.specs.Trees.{name_pat, name_ex};
ghost use Rattle.ess_semantics.specs.Order.{same_text};
ghost use Rattle.ess_core.specs.TreeViews.{pure_pat};
ghost use Rattle.ess_core_nodes.specs.NodeViews.{pure_node, pure_nodes, pure_doms};
ghost use Rattle.ess_rules_laws.specs.ComponentRules.{has_text};
ghost use Rattle.ess_rules_laws.specs.FunctionViews.{name_exs, names_fit};

use ess_core::Pat;
use ess_core_nodes::{Node, NodeDom};
use ess_rows::{NoMemory, Row, Text};
use std::alloc::Global;
use std::cmp::Ordering;

/// The names as expressions.
#[tactic(auto, using(crate::proofs::NameRows::names_as_operands))]
pub(crate) fn name_exs(alloc: Global, names: &[Text]) -> Result<Row<Node>, NoMemory>
    ensures { IfOk result (λ ns. pure_nodes ns ≡ name_exs names.now) }
{
    Ok(name_nodes(alloc, names)?)
}

/// The same one by one.
fn name_nodes(alloc: Global, names: &[Text]) -> Result<Row<Node>, NoMemory>
    ensures { IfOk result (λ ns. map pure_node ns ≡ map name_ex names.now) }
{
    let mut all = Row::with_capacity(alloc, names.len())?;
    for name in names {
        let name = name.copy(alloc)?;
        all.push(Node::Name(name))?;
    }
    Ok(all)
}

/// Each name as a pattern.
#[tactic(auto, using(ess_core::proofs::PartEquations::pure_pat_name))]
pub(crate) fn name_patterns(alloc: Global, names: &[Text]) -> Result<Row<Pat>, NoMemory>
    ensures { IfOk result (λ ps. map pure_pat ps ≡ map name_pat names.now) }
{
    let mut all = Row::with_capacity(alloc, names.len())?;
    for name in names {
        let name = name.copy(alloc)?;
        all.push(Pat::Name(name))?;
    }
    Ok(all)
}

/// Whether there is a name for each domain, and the names differ.
pub(crate) fn names_fit(names: &[Text], doms: &[NodeDom]) -> bool
    ensures { result ≡ names_fit names.now (pure_doms doms.now) }
{
    match names.split_first() {
        None => match doms.split_first() {
            None => true,
            Some(_) => false,
        },
        Some((name, names)) => match doms.split_first() {
            None => false,
            Some((_, doms)) => !has_text(names, name) && names_fit(names, doms),
        },
    }
}

/// Whether a name is among these.
fn has_text(names: &[Text], name: &Text) -> bool
    ensures { result ≡ has_text names.now name.now }
{
    match names.split_first() {
        None => false,
        Some((first, names)) => same_name(first, name) || has_text(names, name),
    }
}

/// Whether two names are equal.
fn same_name(a: &Text, b: &Text) -> bool
    ensures { result ≡ same_text a.now b.now }
{
    a.cmp(b) == Ordering::Equal
}
