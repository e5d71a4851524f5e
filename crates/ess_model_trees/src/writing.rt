//! From a tree over tables to an expression of a model.
ghost use Rattle.std.specs.Prelude.{◌≡◌, IfOk, option_map};
ghost use Rattle.ess_core_nodes.specs.NodeViews.{pure_node};
ghost use Rattle.eprime_tree.specs.Views.{pure_ex};
ghost use Rattle.eprime_read_convert.specs.Lines.{scope_of};
ghost use Rattle.ess_model_trees.specs.Written.{Comes, Prints};

use eprime_lowering::lower;
use eprime_read_convert::Lines;
use eprime_tree::PEx;
use ess_core_nodes::Node;
use ess_keys::with_plain_keys;
use ess_model_printed::{Taken, printed};
use ess_refine::{Refinement, refine};
use ess_rows::{Boxed, NoMemory};
use ess_simplify::simplify;
use std::alloc::Global;

/// So many reserved names are never taken: 2^62. No machine has room for what they are bound in.
const MOST_NAMES: u64 = 4_611_686_018_427_387_904;

/// The expression of a model that is written for a tree over tables, where these lines declare names: the tree is refined under no
/// names and simplified, gets plain keys, is simplified again, its bound names are printed, none as a name that is taken, and it becomes
/// the tree of a model. `None` where it can't be written: refining was given up, since something abstract is left and none of the rules
/// that are asked fires any more; or nothing abstract is left, and no tree of a model stands for what is left.
/// Reserved names are taken from `next` on, and the number of the one behind them is left there. `NoMemory` where there is no room for
/// it, or the reserved names can't be counted.
#[tactic(auto, using(crate::proofs::Coming::comes_lowered))]
pub fn written(
    alloc: Global,
    node: Boxed<Node>,
    taken: &Taken,
    lines: &Lines,
    next: &mut u64,
) -> Result<Option<Boxed<PEx>>, NoMemory>
    ensures { IfOk result (λ o. Comes (scope_of lines.now) taken.now next.old (pure_node node)
        (option_map (pure_ex (scope_of lines.now)) o) next.new) }
{
    match printing(alloc, node, taken, next)? {
        None => Ok(None),
        Some(node) => lower(alloc, lines, node.get()),
    }
}

/// The same without the last step: the tree with printed names. `None` where refining was given up, as above.
#[tactic(auto, using(crate::proofs::Coming::prints_nothing, crate::proofs::Coming::prints_last))]
pub(crate) fn printing(
    alloc: Global,
    node: Boxed<Node>,
    taken: &Taken,
    next: &mut u64,
) -> Result<Option<Boxed<Node>>, NoMemory>
    ensures { IfOk result (λ o. Prints taken.now next.old (pure_node node) (option_map pure_node o) next.new) }
{
    let mut node = node;
    let refinement = refine(alloc, node.get_mut(), next)?;
    if *next >= MOST_NAMES {
        return Err(NoMemory);
    }
    match refinement {
        Refinement::Stuck => Ok(None),
        Refinement::Refined => {
            simplify(node.get_mut());
            let mut plain = with_plain_keys(alloc, node.get())?;
            simplify(plain.get_mut());
            Ok(Some(printed(alloc, taken, plain.get())?))
        }
    }
}
