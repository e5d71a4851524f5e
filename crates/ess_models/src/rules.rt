//! The objective and the rules of a model, in order.
ghost use Rattle.std.specs.Prelude.{◌≡◌, ◌++◌, map, IfOk};
ghost use Rattle.ess_semantics.specs.Solutions.{finds};
ghost use Rattle.ess_core.specs.StatementViews.{pure_stm, pure_spec};
ghost use Rattle.eprime_tree.specs.Views.{pure_ex};
ghost use Rattle.eprime_read_convert.specs.Lines.{scope_of};
ghost use Rattle.ess_model_shown.specs.Tables.{pure_shows};
ghost use Rattle.ess_translate_plans.specs.Views.{pure_plan};
ghost use Rattle.ess_model_written.specs.Answered.{AllUsed};
ghost use Rattle.ess_model_written.specs.RulesWritten.{TreeComes, unless_true};
ghost use Rattle.ess_models.specs.Parts.{all_structures};
ghost use Rattle.ess_models.specs.Coming.{AreOnTables, AreBeforeConstraints, TableRulesCome, RulesCome};

use crate::parts::Part;
use eprime_read_convert::Lines;
use eprime_tree::{PEx, PGoal};
use ess_model_printed::Taken;
use ess_model_shown::Shows;
use ess_model_written::{Objective, channels_of, constraints_of, objective_of, structures_of};
use ess_rows::{NoMemory, Row};
use ess_translate_plans::Plan;
use ess_types::Typed;
use std::alloc::Global;

/// The objective of a model, and its rules in order.
#[derive(Drop)]
pub(crate) struct Rules {
    pub(crate) goal: PGoal,
    pub(crate) rules: Row<PEx>,
}

/// The objective and the rules of a model, or the part that can't be written.
#[derive(Drop)]
pub(crate) enum RuledParts {
    /// All is written.
    All(Rules),
    /// Something of this part can't be written.
    Lacks(Part),
}

/// The rules on the finds' tables, or the part of them that can't be written.
#[derive(Drop)]
enum TableRules {
    /// All is written.
    All(Row<PEx>),
    /// Something of this part can't be written.
    Lacks(Part),
}

/// The objective and the rules of a model of a specification, by these plans.
pub(crate) fn rules_written(
    alloc: Global,
    shows: &Shows,
    taken: &Taken,
    lines: &Lines,
    spec: &Typed,
    plans: &[Plan],
) -> Result<RuledParts, NoMemory>
    ensures { IfOk result (RulesCome taken.now (pure_shows shows.now) (map pure_plan plans.now)
        (finds (pure_spec spec.now.spec)) (pure_spec spec.now.prepared) (scope_of lines.now)) }
{
    match table_rules(alloc, shows, taken, lines, spec, plans)? {
        TableRules::All(first) => with_objective(alloc, shows, taken, lines, spec, plans, first),
        TableRules::Lacks(part) => Ok(RuledParts::Lacks(part)),
    }
}

/// The rules on the finds' tables: structures and channels.
fn table_rules(
    alloc: Global,
    shows: &Shows,
    taken: &Taken,
    lines: &Lines,
    spec: &Typed,
    plans: &[Plan],
) -> Result<TableRules, NoMemory>
    ensures { IfOk result (TableRulesCome taken.now (pure_shows shows.now) (map pure_plan plans.now)
        (finds (pure_spec spec.now.spec)) (pure_spec spec.now.prepared) (scope_of lines.now)) }
{
    match structures_of(alloc, shows, taken, lines, plans)? {
        Some(first) => with_channels(alloc, shows, taken, lines, spec, plans, first),
        None => Ok(TableRules::Lacks(Part::Structures)),
    }
}

/// The same where the structures are written.
#[tactic(auto, using(crate::proofs::Ruling::on_tables))]
fn with_channels(
    alloc: Global,
    shows: &Shows,
    taken: &Taken,
    lines: &Lines,
    spec: &Typed,
    plans: &[Plan],
    structures: Row<PEx>,
) -> Result<TableRules, NoMemory>
    requires { AllUsed (TreeComes (scope_of lines.now) taken.now shows.now.next) unless_true
        (all_structures taken.now (pure_shows shows.now) (map pure_plan plans.now) (finds (pure_spec spec.now.spec))
        (pure_spec spec.now.prepared)) (map (pure_ex (scope_of lines.now)) structures) }
    ensures { IfOk result (TableRulesCome taken.now (pure_shows shows.now) (map pure_plan plans.now)
        (finds (pure_spec spec.now.spec)) (pure_spec spec.now.prepared) (scope_of lines.now)) }
{
    match channels_of(alloc, shows, taken, lines, spec.spec.stms.as_slice(), plans)? {
        Some(others) => {
            let all = joined(structures, others)?;
            Ok(TableRules::All(all))
        }
        None => Ok(TableRules::Lacks(Part::Channels)),
    }
}

/// The objective and all rules, where those on tables are written.
#[tactic(auto, using(crate::proofs::Ruling::before_constraints))]
fn with_objective(
    alloc: Global,
    shows: &Shows,
    taken: &Taken,
    lines: &Lines,
    spec: &Typed,
    plans: &[Plan],
    first: Row<PEx>,
) -> Result<RuledParts, NoMemory>
    requires { AreOnTables taken.now (pure_shows shows.now) (map pure_plan plans.now)
        (finds (pure_spec spec.now.spec)) (pure_spec spec.now.prepared) (scope_of lines.now) first }
    ensures { IfOk result (RulesCome taken.now (pure_shows shows.now) (map pure_plan plans.now)
        (finds (pure_spec spec.now.spec)) (pure_spec spec.now.prepared) (scope_of lines.now)) }
{
    match objective_of(alloc, shows, taken, lines, spec.prepared.stms.as_slice())? {
        Some(objective) => {
            let Objective { goal, rules } = objective;
            let before = ruled(goal, first, rules)?;
            with_constraints(alloc, shows, taken, lines, spec, plans, before)
        }
        None => Ok(RuledParts::Lacks(Part::Objective)),
    }
}

/// All rules, where those before the constraints are written.
#[tactic(auto, using(crate::proofs::Ruling::all_rules))]
fn with_constraints(
    alloc: Global,
    shows: &Shows,
    taken: &Taken,
    lines: &Lines,
    spec: &Typed,
    plans: &[Plan],
    before: Rules,
) -> Result<RuledParts, NoMemory>
    requires { AreBeforeConstraints taken.now (pure_shows shows.now) (map pure_plan plans.now)
        (finds (pure_spec spec.now.spec)) (pure_spec spec.now.prepared) (scope_of lines.now) before }
    ensures { IfOk result (RulesCome taken.now (pure_shows shows.now) (map pure_plan plans.now)
        (finds (pure_spec spec.now.spec)) (pure_spec spec.now.prepared) (scope_of lines.now)) }
{
    match constraints_of(alloc, shows, taken, lines, spec.prepared.stms.as_slice()) {
        Ok(Some(last)) => {
            let Rules { goal, rules } = before;
            let all = ruled(goal, rules, last)?;
            Ok(RuledParts::All(all))
        }
        Ok(None) => {
            drop(before);
            Ok(RuledParts::Lacks(Part::Constraints))
        }
        Err(no) => {
            drop(before);
            Err(no)
        }
    }
}

/// An objective beside rules, some behind others.
fn ruled(goal: PGoal, first: Row<PEx>, second: Row<PEx>) -> Result<Rules, NoMemory>
    ensures { IfOk result (λ r. r ≡ record { goal = goal; rules = first ++ second }) }
{
    match joined(first, second) {
        Ok(rules) => Ok(Rules { goal, rules }),
        Err(no) => {
            drop(goal);
            Err(no)
        }
    }
}

/// Rules behind others.
fn joined(first: Row<PEx>, second: Row<PEx>) -> Result<Row<PEx>, NoMemory>
    ensures { IfOk result (λ rs. rs ≡ first ++ second) }
{
    let mut all = first;
    let mut second = second;
    all.append(&mut second)?;
    Ok(all)
}
