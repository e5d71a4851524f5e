//! Steps from a value to a part of it, and the domain that they reach.
ghost use Rattle.std.specs.Prelude.{◌≡◌, ◌∷◌, map, option_map, Some, IfOk};
ghost use Rattle.ess_core_nodes.specs.NodeViews.{pure_step};
ghost use Rattle.ess_numbered_laws.specs.MostItems.{pick_of, dom_along as domain_along};
ghost use Rattle.ess_rules_numbered.specs.PickViews.{pure_pick, dom_picked as picked_dom};
ghost use Rattle.ess_rules_ordered.specs.ToldForms.{pure_told, only_step as the_step};

use ess_core_nodes::Step;
use ess_rows::{NoMemory, Row, Text};
use ess_rules_ordered::told::{Told, component_dom, field_dom, items_dom, only_step, results_of};
use std::alloc::Global;

/// A step from a value to a part of it.
#[derive(Clone, Copy)]
pub(crate) enum Pick<'a> {
    /// To an item of a matrix.
    Item,
    /// To a result of a function.
    Result,
    /// To a component of a tuple, from 1.
    Component(u64),
    /// To a field of a record.
    Field(&'a Text),
}

/// The step of an index, where it has one alone.
pub(crate) fn pick_in(steps: &[Step]) -> Option<Pick<'_>>
    ensures { option_map pure_pick result ≡ option_map pick_of (the_step (map pure_step steps.now)) }
{
    match only_step(steps) {
        Some(Step::Value) => Some(Pick::Item),
        Some(Step::Component(number)) => Some(Pick::Component(*number)),
        Some(Step::Field(name)) => Some(Pick::Field(name)),
        None => None,
    }
}

/// The steps with one before them.
pub(crate) fn with_pick<'a>(
    alloc: Global,
    pick: Pick<'a>,
    path: &[Pick<'a>],
) -> Result<Row<Pick<'a>>, NoMemory>
    ensures { IfOk result (λ ps. map pure_pick ps ≡ pure_pick pick.entry ∷ map pure_pick path.now) }
{
    let mut longer = Row::new(alloc);
    longer.push(pick)?;
    let mut rest = Row::from_slice(alloc, path)?;
    longer.append(&mut rest)?;
    Ok(longer)
}

/// The domain that the steps reach from one.
#[tactic(auto, using(crate::proofs::PickForms::along_more, crate::proofs::PickForms::along_all))]
pub(crate) fn dom_along<'a>(path: &[Pick<'_>], told: Told<'a>) -> Option<Told<'a>>
    ensures { option_map pure_told result ≡ domain_along (map pure_pick path.now) (Some (pure_told told.entry)) }
{
    let mut reached = Some(told);
    for pick in path {
        reached = dom_picked(*pick, reached);
    }
    reached
}

/// The domain that one step reaches.
fn dom_picked<'a>(pick: Pick<'_>, told: Option<Told<'a>>) -> Option<Told<'a>>
    ensures { option_map pure_told result ≡ picked_dom (pure_pick pick.entry) (option_map pure_told told.entry) }
{
    match pick {
        Pick::Item => items_dom(told),
        Pick::Result => results_of(told),
        Pick::Component(number) => component_dom(number, told),
        Pick::Field(name) => field_dom(name, told),
    }
}
