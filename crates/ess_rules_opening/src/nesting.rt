//! A fold behind plain generators, as a fold of folds.
ghost use Rattle.std.specs.Prelude.{◌≡◌, IfOk, option_map};
ghost use Rattle.ess_core_nodes.specs.NodeViews.{pure_node};
ghost use Rattle.ess_open_rules_laws.specs.OpenGenerators.{nested as nested_fold, folds_nested as nested_folds};
ghost use Rattle.ess_rules_opening.specs.OpenedViews.{pure_opened, pure_comp_word};

use crate::forms::{CompWord, comp_word};
use crate::gens::{Opened, at_first_open};
use ess_core_nodes::{Node, copy_gens};
use ess_node_building::{comprehension, word};
use ess_rows::{Boxed, NoMemory};
use ess_rules_folds::forms::are_no_gens;
use ess_rules_folds::is_marked;
use std::alloc::Global;

/// `F([e | gs, hs])` as `F([F([e | hs]) | gs])`, where gs are plain and hs begin with what isn't. `NoMemory` where there is no room for
/// it.
#[tactic(auto, using(crate::proofs::WordForms::nested_by_parts))]
pub fn nested(alloc: Global, node: &Node) -> Result<Option<Boxed<Node>>, NoMemory>
    ensures { IfOk result (λ o. option_map pure_node o ≡ nested_fold (pure_node node.now)) }
{
    let Some(parts) = comp_word(node) else {
        return Ok(None);
    };
    if !is_marked(parts.mark, parts.fun) {
        return Ok(None);
    }
    match at_first_open(parts.gens) {
        Some(opened) => folds_nested(alloc, &parts, &opened),
        None => Ok(None),
    }
}

/// The same of its parts.
fn folds_nested(
    alloc: Global,
    parts: &CompWord<'_>,
    opened: &Opened<'_>,
) -> Result<Option<Boxed<Node>>, NoMemory>
    ensures { IfOk result (λ o. option_map pure_node o
        ≡ nested_folds parts.now.mark parts.now.fun (pure_node parts.now.body.now) (pure_opened opened.now)) }
{
    if are_no_gens(opened.before) {
        return Ok(None);
    }
    let body = parts.body.copy(alloc)?;
    let items = comprehension(alloc, body, copy_gens(alloc, opened.after)?)?;
    let inner = word(alloc, parts.mark, parts.fun, items)?;
    let outer = comprehension(alloc, inner, copy_gens(alloc, opened.before)?)?;
    Ok(Some(word(alloc, parts.mark, parts.fun, outer)?))
}
