//! The objective of a model, with the rule that it has a value.
ghost use Rattle.std.specs.Prelude.{◌≡◌, [], ◌∷◌, map, IfOk};
ghost use Rattle.ess_semantics.specs.ModelTrees.{goal_of, least, greatest};
ghost use Rattle.ess_core.specs.TreeViews.{pure_ex as pure_code_ex};
ghost use Rattle.ess_core.specs.StatementViews.{pure_stm};
ghost use Rattle.eprime_read_convert.specs.Lines.{scope_of};
ghost use Rattle.ess_model_shown.specs.Tables.{pure_shows};
ghost use Rattle.ess_model_written.specs.Objectives.{BothAnswered, GoalAnswered};

use eprime_read_convert::Lines;
use eprime_tree::{PEx, PGoal};
use ess_core::{Ex, Stm};
use ess_core_nodes::node_of;
use ess_model_printed::Taken;
use ess_model_shown::Shows;
use ess_model_trees::{condition_written, objective_written};
use ess_rows::{Boxed, NoMemory, Row};
use std::alloc::Global;

/// The objective of a model, and the rules that it has a value: one, or none where there is no objective.
#[derive(Drop)]
pub struct Objective {
    pub goal: PGoal,
    pub rules: Row<PEx>,
}

/// An objective, and the rule that it has a value.
#[derive(Drop)]
struct Both {
    objective: Boxed<PEx>,
    condition: Boxed<PEx>,
}

/// The objective of these statements, with the rule that it has a value. None where one of them can't be written: refining it was given
/// up, as `constraint_written` says, or no tree of a model stands for what is left of it. `NoMemory` where there is no room for them, or
/// the reserved names can't be counted.
pub fn objective_of(
    alloc: Global,
    shows: &Shows,
    taken: &Taken,
    lines: &Lines,
    stms: &[Stm],
) -> Result<Option<Objective>, NoMemory>
    ensures { IfOk result (GoalAnswered (scope_of lines.now) taken.now (pure_shows shows.now) (goal_of (map pure_stm stms.now))) }
{
    for stm in stms {
        match stm {
            Stm::Minimise(ex) => return least(alloc, shows, taken, lines, ex.get()),
            Stm::Maximise(ex) => return greatest(alloc, shows, taken, lines, ex.get()),
            _ => {}
        }
    }
    Ok(Some(Objective {
        goal: PGoal::Free,
        rules: Row::new(alloc),
    }))
}

/// The same of an expression whose value is to be least.
fn least(
    alloc: Global,
    shows: &Shows,
    taken: &Taken,
    lines: &Lines,
    ex: &Ex,
) -> Result<Option<Objective>, NoMemory>
    ensures { IfOk result (GoalAnswered (scope_of lines.now) taken.now (pure_shows shows.now) (least (pure_code_ex ex.now))) }
{
    match both_written(alloc, shows, taken, lines, ex)? {
        Some(both) => {
            let Both {
                objective,
                condition,
            } = both;
            let rules = one_rule(alloc, condition)?;
            Ok(Some(Objective {
                goal: PGoal::Minimise(objective.into_inner()),
                rules,
            }))
        }
        None => Ok(None),
    }
}

/// The same of an expression whose value is to be greatest.
fn greatest(
    alloc: Global,
    shows: &Shows,
    taken: &Taken,
    lines: &Lines,
    ex: &Ex,
) -> Result<Option<Objective>, NoMemory>
    ensures { IfOk result (GoalAnswered (scope_of lines.now) taken.now (pure_shows shows.now) (greatest (pure_code_ex ex.now))) }
{
    match both_written(alloc, shows, taken, lines, ex)? {
        Some(both) => {
            let Both {
                objective,
                condition,
            } = both;
            let rules = one_rule(alloc, condition)?;
            Ok(Some(Objective {
                goal: PGoal::Maximise(objective.into_inner()),
                rules,
            }))
        }
        None => Ok(None),
    }
}

/// A row of one rule.
fn one_rule(alloc: Global, rule: Boxed<PEx>) -> Result<Row<PEx>, NoMemory>
    ensures { IfOk result (λ rs. rs ≡ rule ∷ []) }
{
    let mut rules = Row::new(alloc);
    rules.push(rule.into_inner())?;
    Ok(rules)
}

/// An objective, and the rule that it has a value.
#[tactic(auto, using(crate::proofs::Written::both_come, crate::proofs::Written::no_rule, crate::proofs::Written::no_goal_comes))]
fn both_written(
    alloc: Global,
    shows: &Shows,
    taken: &Taken,
    lines: &Lines,
    ex: &Ex,
) -> Result<Option<Both>, NoMemory>
    ensures { IfOk result (BothAnswered (scope_of lines.now) taken.now (pure_shows shows.now) (pure_code_ex ex.now)) }
{
    let node = node_of(alloc, ex)?;
    let condition = match condition_written(alloc, shows, taken, lines, node.get())? {
        Some(condition) => condition,
        None => return Ok(None),
    };
    match objective_written(alloc, shows, taken, lines, node.get())? {
        Some(objective) => Ok(Some(Both {
            objective,
            condition,
        })),
        None => {
            drop(condition);
            Ok(None)
        }
    }
}
