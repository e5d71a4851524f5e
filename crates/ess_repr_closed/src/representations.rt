//! The axes of all tables of a representation.
ghost use Rattle.std.specs.Prelude.{◌≡◌, ◌++◌, map, IfOk, OnOk};
ghost use Rattle.ess_semantics.specs.Choice.{reprs_of};
ghost use Rattle.ess_semantics.specs.Declarations.{axes_of as axes_meant};
ghost use Rattle.ess_core.specs.TreeViews.{pure_repr};
ghost use Rattle.ess_eval_domains.specs.ClosedViews.{pure_closed};
ghost use Rattle.ess_repr_layers_laws.specs.LayerParts.{axes_below};

use crate::child_domains::children;
use crate::fronts::front_axes;
use crate::own_tables::own_axes;
use ess_core::{NoMemory, Repr, Row};
use ess_eval_domains::Closed;
use std::alloc::Global;

/// The axes of each table of a representation of a domain, in the order of their declarations. `NoMemory` where there is no room for
/// them, or a size can't be counted.
#[cycle(axes)]
#[tactic(auto, using(crate::proofs::AllAxes::axes_made))]
pub fn axes_of(alloc: Global, repr: &Repr, domain: &Closed) -> Result<Row<Row<Row<i64>>>, NoMemory>
    ensures { IfOk result (λ r. r ≡ axes_meant (pure_repr repr.now) (pure_closed domain.now)) }
{
    let own = own_axes(alloc, repr.kind, domain)?;
    let parts = children(alloc, repr.kind, domain)?;
    let front = front_axes(alloc, repr.kind, domain)?;
    let kids = repr.children.as_slice();
    Ok(with_children(alloc, own, kids, parts.as_slice(), front.as_slice())?)
}

/// The axes of own tables, then those of the children's tables behind others.
#[cycle(axes)]
#[tactic(auto, using(crate::proofs::AllAxes::children_more, crate::proofs::AllAxes::children_short, crate::proofs::AllAxes::children_all))]
fn with_children(
    alloc: Global,
    own: Row<Row<Row<i64>>>,
    reprs: &[Repr],
    parts: &[Closed],
    front: &[Row<i64>],
) -> Result<Row<Row<Row<i64>>>, NoMemory>
    ensures { IfOk result (λ r. r ≡ own ++ axes_below (reprs_of (map pure_repr reprs.now)) (map pure_closed parts.now) front.now) }
{
    let mut all = own;
    for (index, repr) in reprs.iter().enumerate() {
        if index >= parts.len() {
            return Ok(all);
        }
        let below = axes_of(alloc, repr, &parts[index])?;
        add_under(alloc, &mut all, front, below.as_slice())?;
    }
    Ok(all)
}

/// Puts lists of axes behind others, after those that are there.
#[tactic(auto, using(crate::proofs::AllAxes::under_more, crate::proofs::AllAxes::under_all))]
fn add_under(
    alloc: Global,
    all: &mut Row<Row<Row<i64>>>,
    front: &[Row<i64>],
    below: &[Row<Row<i64>>],
) -> Result<(), NoMemory>
    ensures { OnOk result (all.new ≡ all.old ++ map (λ as'. front.now ++ as') below.now) }
{
    for axes in below {
        all.push(both_axes(alloc, front, axes.as_slice())?)?;
    }
    Ok(())
}

/// Axes behind others.
fn both_axes(
    alloc: Global,
    first: &[Row<i64>],
    second: &[Row<i64>],
) -> Result<Row<Row<i64>>, NoMemory>
    ensures { IfOk result (λ r. r ≡ first.now ++ second.now) }
{
    let mut axes = Row::new(alloc);
    add_axes(alloc, &mut axes, first)?;
    add_axes(alloc, &mut axes, second)?;
    Ok(axes)
}

/// Puts copies of axes behind others. `NoMemory` where there is no room for them.
fn add_axes(alloc: Global, all: &mut Row<Row<i64>>, axes: &[Row<i64>]) -> Result<(), NoMemory>
    ensures { OnOk result (all.new ≡ all.old ++ axes.now) }
{
    for axis in axes {
        all.push(Row::from_slice(alloc, axis.as_slice())?)?;
    }
    Ok(())
}
