//! The rules of a model on its finds' tables.
ghost use Rattle.std.specs.Prelude.{map, option_map, IfOk};
ghost use Rattle.ess_semantics.specs.Solutions.{finds};
ghost use Rattle.ess_core.specs.StatementViews.{pure_stm};
ghost use Rattle.eprime_tree.specs.Views.{pure_ex};
ghost use Rattle.eprime_read_convert.specs.Lines.{scope_of};
ghost use Rattle.ess_model_shown.specs.Tables.{pure_shows};
ghost use Rattle.ess_translate_plans.specs.Views.{pure_plan};
ghost use Rattle.ess_model_written.specs.Answered.{AreAnswered, AreUsed};
ghost use Rattle.ess_model_written.specs.RulesWritten.{TreeComes, unless_true};
ghost use Rattle.ess_model_finds.specs.Finds.{structures_of, channels_of};

use crate::trees::{all_used, all_written};
use eprime_read_convert::Lines;
use eprime_tree::PEx;
use ess_core::Stm;
use ess_model_finds::{channel_trees, structure_trees};
use ess_model_printed::Taken;
use ess_model_shown::Shows;
use ess_rows::{NoMemory, Row};
use ess_translate_plans::Plan;
use std::alloc::Global;

/// The rules that the tables of the finds are canonical, plan by plan, but for those that are `true`. None where one can't be written:
/// refining it was given up, as `tree_written` says, or no tree of a model stands for what is left of it. `NoMemory` where there is no
/// room for them, or the reserved names can't be counted.
pub fn structures_of(
    alloc: Global,
    shows: &Shows,
    taken: &Taken,
    lines: &Lines,
    plans: &[Plan],
) -> Result<Option<Row<PEx>>, NoMemory>
    ensures { IfOk result (λ o. AreUsed (TreeComes (scope_of lines.now) taken.now shows.now.next) unless_true
        (structures_of (pure_shows shows.now) (map pure_plan plans.now)) (option_map (map (pure_ex (scope_of lines.now))) o)) }
{
    let trees = structure_trees(alloc, shows, plans)?;
    all_used(alloc, shows.next, taken, lines, trees.as_slice())
}

/// The rules that further views of the finds of these statements stand for what the first one does, find by find. None and `NoMemory`
/// as above.
pub fn channels_of(
    alloc: Global,
    shows: &Shows,
    taken: &Taken,
    lines: &Lines,
    stms: &[Stm],
    plans: &[Plan],
) -> Result<Option<Row<PEx>>, NoMemory>
    ensures { IfOk result (λ o. AreAnswered (TreeComes (scope_of lines.now) taken.now shows.now.next)
        (channels_of (pure_shows shows.now) (map pure_plan plans.now) (finds (map pure_stm stms.now)))
        (option_map (map (pure_ex (scope_of lines.now))) o)) }
{
    let trees = channel_trees(alloc, shows, stms, plans)?;
    all_written(alloc, shows.next, taken, lines, trees.as_slice())
}
