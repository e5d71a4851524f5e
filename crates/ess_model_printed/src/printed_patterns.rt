//! The patterns of ranges with printed names.
ghost use Rattle.std.specs.Prelude.{◌≡◌, length, IfOk, OnOk};
ghost use Rattle.ess_core.specs.TreeViews.{over_item, pure_pat};
ghost use Rattle.ess_core_nodes.specs.NodeViews.{pure_gen, pure_dom};
ghost use Rattle.conjure_model_laws.specs.Printed.{printed_name};
ghost use Rattle.ess_model_names.specs.Renames.{pure_scope, Extends};
ghost use Rattle.ess_model_printed.specs.PrintedItems.{printed_pat, pat_behind};

use crate::taken::Taken;
use ess_core::Pat;
use ess_core_nodes::{Gen, NodeDom};
use ess_model_names::{Renamed, bind};
use ess_rows::{Boxed, NoMemory, Row, Text};
use std::alloc::Global;

/// A generator over a printed range with a printed name, which is bound behind the others.
#[tactic(auto, using(ess_core_nodes::proofs::NodeEquations::pure_gen_over))]
pub(crate) fn printed_over(
    alloc: Global,
    taken: &Taken,
    pat: &Pat,
    dom: Boxed<NodeDom>,
    scope: &mut Row<Renamed>,
) -> Result<Boxed<Gen>, NoMemory>
    ensures tree { IfOk result (λ g. pure_gen g
        ≡ over_item (printed_pat taken.now (pure_pat pat.now) (pure_scope scope.old)) (pure_dom dom)) }
    ensures names { OnOk result (pure_scope scope.new ≡ pat_behind taken.now (pure_pat pat.now) (pure_scope scope.old)) }
    ensures kept { OnOk result (Extends scope.old scope.new) }
{
    let pat = printed_pat(alloc, taken, pat, scope)?;
    Boxed::new(alloc, Gen::Over(pat.into_inner(), dom))
}

/// The pattern of a range with a printed name, which is bound behind the others. A pattern of several names stays.
#[tactic(auto, using(ess_model_names::proofs::ScopeLaws::extends_itself))]
fn printed_pat(
    alloc: Global,
    taken: &Taken,
    pat: &Pat,
    scope: &mut Row<Renamed>,
) -> Result<Boxed<Pat>, NoMemory>
    ensures tree { IfOk result (λ p. pure_pat p ≡ printed_pat taken.now (pure_pat pat.now) (pure_scope scope.old)) }
    ensures names { OnOk result (pure_scope scope.new ≡ pat_behind taken.now (pure_pat pat.now) (pure_scope scope.old)) }
    ensures kept { OnOk result (Extends scope.old scope.new) }
{
    match pat {
        Pat::Name(name) => {
            let to = printed_here(alloc, taken, scope.as_slice())?;
            bind(alloc, scope, name, &to)?;
            Boxed::new(alloc, Pat::Name(to))
        }
        Pat::Tuple(_) => match pat.copy(alloc) {
            Ok(pat) => Boxed::new(alloc, pat),
            Err(no) => Err(no),
        },
    }
}

/// The printed name of a binder in a scope.
#[tactic(auto, using(crate::proofs::PrintedItems::printed_deep))]
fn printed_here(alloc: Global, taken: &Taken, scope: &[Renamed]) -> Result<Text, NoMemory>
    ensures { IfOk result (λ t. t ≡ printed_name taken.now (length (pure_scope scope.now))) }
{
    taken.printed_name(alloc, scope.len())
}
