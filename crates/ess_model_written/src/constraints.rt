//! The constraints of a model.
ghost use Rattle.std.specs.Prelude.{◌≡◌, ◌++◌, map, option_map, IfOk, OnOk};
ghost use Rattle.std.specs.Option.{option_copied};
ghost use Rattle.ess_semantics.specs.Models.{constraint_of, constraints_of};
ghost use Rattle.ess_core.specs.TreeViews.{pure_ex as pure_code_ex};
ghost use Rattle.ess_core.specs.StatementViews.{pure_stm};
ghost use Rattle.ess_core_nodes.specs.NodeViews.{pure_node};
ghost use Rattle.eprime_tree.specs.Views.{pure_ex};
ghost use Rattle.eprime_read_convert.specs.Lines.{scope_of};
ghost use Rattle.ess_model_shown.specs.Tables.{pure_shows};
ghost use Rattle.ess_model_written.specs.Answered.{AreAnswered};
ghost use Rattle.ess_model_written.specs.RulesWritten.{ConstraintComes};
ghost use Rattle.ess_model_written.specs.Statements.{constraint_in};

use eprime_read_convert::Lines;
use eprime_tree::PEx;
use ess_core::{Ex, Stm};
use ess_core_nodes::{Node, node_of};
use ess_model_printed::Taken;
use ess_model_shown::Shows;
use ess_model_trees::constraint_written;
use ess_rows::{NoMemory, Row};
use std::alloc::Global;

/// The constraints of these statements, in order. None where one can't be written: refining it was given up, as `constraint_written`
/// says, or no tree of a model stands for what is left of it. `NoMemory` where there is no room for them, or the reserved names can't
/// be counted.
#[tactic(auto, using(crate::proofs::Written::answered_for))]
pub fn constraints_of(
    alloc: Global,
    shows: &Shows,
    taken: &Taken,
    lines: &Lines,
    stms: &[Stm],
) -> Result<Option<Row<PEx>>, NoMemory>
    ensures { IfOk result (λ o. AreAnswered (ConstraintComes (scope_of lines.now) taken.now (pure_shows shows.now))
        (constraints_of (map pure_stm stms.now)) (option_map (map (pure_ex (scope_of lines.now))) o)) }
{
    let nodes = constraint_nodes(alloc, stms)?;
    nodes_written(alloc, shows, taken, lines, nodes.as_slice())
}

/// What is written for constraints.
#[tactic(auto, using(crate::proofs::Rows::none_come, crate::proofs::Rows::all_come))]
fn nodes_written(
    alloc: Global,
    shows: &Shows,
    taken: &Taken,
    lines: &Lines,
    nodes: &[Node],
) -> Result<Option<Row<PEx>>, NoMemory>
    ensures { IfOk result (λ o. AreAnswered (ConstraintComes (scope_of lines.now) taken.now (pure_shows shows.now))
        (map pure_node nodes.now) (option_map (map (pure_ex (scope_of lines.now))) o)) }
{
    let mut rules = Row::new(alloc);
    for node in nodes {
        match constraint_written(alloc, shows, taken, lines, node)? {
            Some(rule) => rules.push(rule.into_inner())?,
            None => return Ok(None),
        }
    }
    Ok(Some(rules))
}

/// The constraints of these statements as nodes.
#[tactic(auto, using(crate::proofs::Statements::one_more))]
fn constraint_nodes(alloc: Global, stms: &[Stm]) -> Result<Row<Node>, NoMemory>
    ensures { IfOk result (λ ns. map pure_node ns ≡ constraints_of (map pure_stm stms.now)) }
{
    let mut nodes = Row::new(alloc);
    for stm in stms {
        add_constraint(alloc, stm, &mut nodes)?;
    }
    Ok(nodes)
}

/// Adds the constraint of a statement, where it is one.
#[tactic(auto, using(crate::proofs::Statements::constraint_adds, crate::proofs::Statements::none_adds))]
fn add_constraint(alloc: Global, stm: &Stm, nodes: &mut Row<Node>) -> Result<(), NoMemory>
    ensures { OnOk result (map pure_node nodes.new ≡ map pure_node nodes.old ++ constraint_of (pure_stm stm.now)) }
{
    match constraint_in(stm) {
        Some(ex) => {
            let node = node_of(alloc, ex)?;
            nodes.push(node.into_inner())?;
            Ok(())
        }
        None => Ok(()),
    }
}

/// The constraint of a statement.
fn constraint_in(stm: &Stm) -> Option<&Ex>
    ensures { option_map pure_code_ex (option_copied result) ≡ constraint_in (pure_stm stm.now) }
{
    match stm {
        Stm::SuchThat(ex) => Some(ex.get()),
        _ => None,
    }
}
