//! What a term is, case by case: an item of a literal at an index, at any depth.
ghost use Rattle.std.specs.Prelude.{◌≡◌, ◌+◌, [], ◌∷◌, map, option_map, IfOk};
ghost use Rattle.ess_core_nodes.specs.NodeViews.{pure_node, pure_nodes, pure_gens};
ghost use Rattle.ess_ordered_laws.specs.ToldAxes.{written_cases as cases_written, cases_at as cases_each, cases_of as cases_in};
ghost use Rattle.ess_ordered_laws.specs.ToldAxes.{cases_behind as cases_after};
ghost use Rattle.ess_rules_forms.specs.PureAlternatives.{pure_alternative};
ghost use Rattle.ess_rules_ordered.specs.CaseForms.{itself, case_at as one_case};

use ess_core_nodes::{Gen, Node};
use ess_rows::{NoMemory, Row};
use ess_rules_alternatives::numbered;
use ess_rules_folds::forms::list_items;
use ess_rules_forms::Alternative;
use ess_rules_generators::before;
use ess_rules_picked::indexed;
use std::alloc::Global;

/// The cases of a term: those of what an index picks out of written lists, each where the index is its number; else the term itself.
/// Nothing where one of the lists isn't written; `NoMemory` where there is no room for them.
#[tactic(auto, using(crate::proofs::CaseForms::written_by_parts, crate::proofs::CaseForms::within_smaller))]
pub(crate) fn written_cases(
    alloc: Global,
    node: &Node,
) -> Result<Option<Row<Alternative>>, NoMemory>
    ensures { IfOk result (λ o. option_map (map pure_alternative) o ≡ cases_written (pure_node node.now)) }
{
    match indexed(node) {
        None => Ok(Some(alone(alloc, node)?)),
        Some((list, at)) => {
            let found = written_cases(alloc, list)?;
            match found {
                Some(found) => cases_at(alloc, at, found.as_slice()),
                None => Ok(None),
            }
        }
    }
}

/// The term itself.
fn alone(alloc: Global, node: &Node) -> Result<Row<Alternative>, NoMemory>
    ensures { IfOk result (λ l. map pure_alternative l ≡ itself (pure_node node.now) ∷ []) }
{
    let item = node.copy(alloc)?;
    let gens = Row::new(alloc);
    let mut all = Row::new(alloc);
    all.push(Alternative { gens, item })?;
    Ok(all)
}

/// The items at an index of each case.
#[tactic(auto, using(crate::proofs::CaseForms::cases_more, crate::proofs::CaseForms::cases_none, crate::proofs::CaseForms::cases_all))]
fn cases_at(
    alloc: Global,
    at: &Node,
    found: &[Alternative],
) -> Result<Option<Row<Alternative>>, NoMemory>
    ensures { IfOk result (λ o. option_map (map pure_alternative) o
        ≡ cases_each (pure_node at.now) (map pure_alternative found.now)) }
{
    let mut all = Row::new(alloc);
    for one in found {
        let cases = cases_of(alloc, one.gens.as_slice(), at, one.item.get())?;
        let Some(mut cases) = cases else {
            return Ok(None);
        };
        all.append(&mut cases)?;
    }
    Ok(Some(all))
}

/// The items of a literal behind generators.
#[tactic(auto, using(crate::proofs::CaseForms::cases_by_items))]
fn cases_of(
    alloc: Global,
    gens: &[Gen],
    at: &Node,
    list: &Node,
) -> Result<Option<Row<Alternative>>, NoMemory>
    ensures { IfOk result (λ o. option_map (map pure_alternative) o
        ≡ cases_in (pure_gens gens.now) (pure_node at.now) (pure_node list.now)) }
{
    match list_items(list) {
        Some(items) => Ok(Some(cases_behind(alloc, gens, at, items)?)),
        None => Ok(None),
    }
}

/// Each item where the index is its number.
#[tactic(auto, using(crate::proofs::CaseForms::case_behind))]
fn cases_behind(
    alloc: Global,
    gens: &[Gen],
    at: &Node,
    items: &[Node],
) -> Result<Row<Alternative>, NoMemory>
    ensures { IfOk result (λ l. map pure_alternative l
        ≡ cases_after (pure_gens gens.now) 1 (pure_node at.now) (pure_nodes items.now)) }
{
    let mut all = Row::with_capacity(alloc, items.len())?;
    for (place, item) in items.iter().enumerate() {
        let one = case_at(alloc, gens, place, at, item)?;
        all.push(one)?;
    }
    Ok(all)
}

/// An item where the index is the number behind its place.
fn case_at(
    alloc: Global,
    gens: &[Gen],
    place: usize,
    at: &Node,
    item: &Node,
) -> Result<Alternative, NoMemory>
    ensures { IfOk result (λ a. pure_alternative a
        ≡ one_case (pure_gens gens.now) (place + 1) (pure_node at.now) (pure_node item.now)) }
{
    let one = numbered(alloc, place, at, item)?;
    let gens = before(alloc, gens, one.gens)?;
    let item = one.item;
    Ok(Alternative { gens, item })
}
