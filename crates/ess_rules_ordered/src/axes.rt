//! The index domain of a list, also of one that is picked out of a term: as a declared domain tells it, or by the number of its items.
ghost use Rattle.std.specs.Prelude.{◌≡◌, map, option_map, IfOk};
ghost use Rattle.ess_core_nodes.specs.NodeViews.{pure_node, pure_nodes, pure_dom};
ghost use Rattle.ess_ordered_laws.specs.ToldAxes.{number_written as written_number, numbers_written as written_numbers};
ghost use Rattle.ess_ordered_laws.specs.ToldAxes.{number_picked as picked_number, counted_axis as axis_counted};
ghost use Rattle.ess_ordered_laws.specs.ToldAxes.{picked_axis as axis_picked, told_axis as axis_told};
ghost use Rattle.ess_rules_forms.specs.PureAlternatives.{pure_alternative};
ghost use Rattle.ess_rules_ordered.specs.CaseForms.{number_of_case as number_in};

use crate::cases::written_cases;
use crate::told::{dom_told, first_index};
use ess_core::Fun;
use ess_core_nodes::{Node, NodeDom, Op, copy_gens};
use ess_guard_forms::{counted, index_dom, items_counted, one_up_to, plain_axis};
use ess_node_building::{comprehension, literal, word};
use ess_rows::{Boxed, NoMemory, Row};
use ess_rules_everywhere::has_cells;
use ess_rules_folds::forms::{comp_in, list_items};
use ess_rules_forms::Alternative;
use ess_rules_opening::are_over_domains;
use ess_rules_picked::picks;
use std::alloc::Global;

/// The index domain of a list, where something tells it. `NoMemory` where there is no room for it.
pub fn told_axis(alloc: Global, list: &Node) -> Result<Option<Boxed<NodeDom>>, NoMemory>
    ensures { IfOk result (λ o. option_map pure_dom o ≡ axis_told (pure_node list.now)) }
{
    let axis = index_dom(alloc, list)?;
    match axis {
        Some(axis) => Ok(Some(axis)),
        None => picked_axis(alloc, list),
    }
}

/// That of a list that is picked.
pub fn picked_axis(alloc: Global, list: &Node) -> Result<Option<Boxed<NodeDom>>, NoMemory>
    ensures { IfOk result (λ o. option_map pure_dom o ≡ axis_picked (pure_node list.now)) }
{
    if !picks(list) {
        return Ok(None);
    }
    match plain_axis(first_index(dom_told(list))) {
        Some(axis) => Ok(Some(axis.copy(alloc)?)),
        None => counted_axis(alloc, list),
    }
}

/// The numbers up to that of its items, where no table says which list is picked.
fn counted_axis(alloc: Global, list: &Node) -> Result<Option<Boxed<NodeDom>>, NoMemory>
    ensures { IfOk result (λ o. option_map pure_dom o ≡ axis_counted (pure_node list.now)) }
{
    let number = number_picked(alloc, list)?;
    match number {
        Some(number) => {
            if has_cells(number.get()) {
                Ok(None)
            } else {
                Ok(Some(one_up_to(alloc, number)?))
            }
        }
        None => Ok(None),
    }
}

/// How many items a list has that is picked out of written ones: the sum of the numbers of the cases.
fn number_picked(alloc: Global, list: &Node) -> Result<Option<Boxed<Node>>, NoMemory>
    ensures { IfOk result (λ o. option_map pure_node o ≡ picked_number (pure_node list.now)) }
{
    let cases = written_cases(alloc, list)?;
    let Some(cases) = cases else {
        return Ok(None);
    };
    let numbers = numbers_written(alloc, cases.as_slice())?;
    match numbers {
        Some(numbers) => {
            let all = literal(alloc, Op::Matrix, numbers)?;
            Ok(Some(word(alloc, false, Fun::Sum, all)?))
        }
        None => Ok(None),
    }
}

/// The number in each case.
#[tactic(auto, using(crate::proofs::NumberForms::numbers_more, crate::proofs::NumberForms::numbers_none))]
fn numbers_written(alloc: Global, cases: &[Alternative]) -> Result<Option<Row<Node>>, NoMemory>
    ensures { IfOk result (λ o. option_map pure_nodes o ≡ written_numbers (map pure_alternative cases.now)) }
{
    let mut all = Row::with_capacity(alloc, cases.len())?;
    for one in cases {
        let number = number_of_case(alloc, one)?;
        let Some(number) = number else {
            return Ok(None);
        };
        all.push(number.into_inner())?;
    }
    Ok(Some(all))
}

/// The number of items in a case: 0 in the others.
fn number_of_case(alloc: Global, one: &Alternative) -> Result<Option<Boxed<Node>>, NoMemory>
    ensures { IfOk result (λ o. option_map pure_node o ≡ number_in (pure_alternative one.now)) }
{
    let number = number_written(alloc, one.item.get())?;
    let Some(number) = number else {
        return Ok(None);
    };
    let gens = copy_gens(alloc, one.gens.as_slice())?;
    let items = comprehension(alloc, number, gens)?;
    Ok(Some(word(alloc, false, Fun::Sum, items)?))
}

/// How many items a list has by its form: a literal, or a comprehension over domains.
#[tactic(auto, using(crate::proofs::NumberForms::number_by_form))]
fn number_written(alloc: Global, list: &Node) -> Result<Option<Boxed<Node>>, NoMemory>
    ensures { IfOk result (λ o. option_map pure_node o ≡ written_number (pure_node list.now)) }
{
    if let Some(items) = list_items(list) {
        return Ok(Some(counted(alloc, items)?));
    }
    let Some((_, gens)) = comp_in(list) else {
        return Ok(None);
    };
    if are_over_domains(gens) {
        Ok(Some(items_counted(alloc, gens)?))
    } else {
        Ok(None)
    }
}
