//! Trees over tables, written one after the other.
ghost use Rattle.std.specs.Prelude.{◌≡◌, ◌++◌, map, option_map, IfOk, OnOk};
ghost use Rattle.ess_grammar.specs.Models.{Scope};
ghost use Rattle.ess_core_nodes.specs.NodeViews.{pure_node};
ghost use Rattle.eprime_tree.specs.Views.{pure_ex};
ghost use Rattle.eprime_read_convert.specs.Lines.{scope_of};
ghost use Rattle.ess_model_written.specs.Answered.{AreAnswered, AreUsed};
ghost use Rattle.ess_model_written.specs.RulesWritten.{TreeComes, is_true, unless_true};

use eprime_read_convert::Lines;
use eprime_tree::PEx;
use ess_core_nodes::Node;
use ess_model_printed::Taken;
use ess_model_trees::tree_written;
use ess_rows::{Boxed, NoMemory, Row};
use std::alloc::Global;

/// What is written for these trees, whose bound names are told apart first, with reserved names from a number on. None where one can't
/// be written.
#[tactic(auto, using(crate::proofs::Rows::none_come, crate::proofs::Rows::all_come))]
pub(crate) fn all_written(
    alloc: Global,
    number: u64,
    taken: &Taken,
    lines: &Lines,
    trees: &[Node],
) -> Result<Option<Row<PEx>>, NoMemory>
    ensures { IfOk result (λ o. AreAnswered (TreeComes (scope_of lines.now) taken.now number) (map pure_node trees.now)
        (option_map (map (pure_ex (scope_of lines.now))) o)) }
{
    let mut rules = Row::new(alloc);
    for tree in trees {
        match tree_written(alloc, number, taken, lines, tree)? {
            Some(rule) => rules.push(rule.into_inner())?,
            None => return Ok(None),
        }
    }
    Ok(Some(rules))
}

/// The same, but that `true` isn't written.
#[tactic(auto, using(crate::proofs::Rows::none_used, crate::proofs::Rows::all_used))]
pub(crate) fn all_used(
    alloc: Global,
    number: u64,
    taken: &Taken,
    lines: &Lines,
    trees: &[Node],
) -> Result<Option<Row<PEx>>, NoMemory>
    ensures { IfOk result (λ o. AreUsed (TreeComes (scope_of lines.now) taken.now number) unless_true (map pure_node trees.now)
        (option_map (map (pure_ex (scope_of lines.now))) o)) }
{
    let mut rules = Row::new(alloc);
    for tree in trees {
        match tree_written(alloc, number, taken, lines, tree)? {
            Some(rule) => push_unless_true(rule, &mut rules)?,
            None => return Ok(None),
        }
    }
    Ok(Some(rules))
}

/// Puts a rule behind others, unless it is `true`.
fn push_unless_true(rule: Boxed<PEx>, rules: &mut Row<PEx>) -> Result<(), NoMemory>
    ensures { OnOk result ((s : Scope) → map (pure_ex s) rules.new ≡ map (pure_ex s) rules.old ++ unless_true (pure_ex s rule)) }
{
    if is_true(rule.get()) {
        drop(rule);
        Ok(())
    } else {
        rules.push(rule.into_inner())
    }
}

/// Whether an expression is `true`.
fn is_true(ex: &PEx) -> bool
    ensures { (s : Scope) → result ≡ is_true (pure_ex s ex.now) }
{
    match ex {
        PEx::Truth(truth) => *truth,
        _ => false,
    }
}
