//! How many items a list has at most, whatever picks it: by the forms of all lists that may be picked.
ghost use Rattle.std.specs.Prelude.{◌≡◌, ◌∷◌, map, option_map, IfOk};
ghost use Rattle.std.specs.Option.{option_copied};
ghost use Rattle.ess_core_nodes.specs.NodeViews.{pure_node, pure_nodes, pure_op, pure_gen, pure_gens, pure_dom};
ghost use Rattle.ess_numbered_laws.specs.MostItems.{list_axis as axis_of_list, most as most_along, most_behind as behind_most, most_of_each as each_most, most_at as nth_most, most_of_field as field_most, most_items as items_most};
ghost use Rattle.ess_rules_numbered.specs.PickViews.{pure_pick};
ghost use Rattle.ess_rules_numbered.specs.MostForms.{most_of_op as op_most, most_of_first as first_most, most_of_literal as literal_most, most_of_list as list_most, most_of_pairs as pairs_most, most_of_matrix as matrix_most, most_of_comp as comp_most, most_told as told_most, most_summed as summed_most, most_before as before_most};

use crate::picks::{Pick, dom_along, pick_in, with_pick};
use crate::sums::{all_summed, behind_condition, members_counted, so_often, sum_behind_one};
use ess_core::Fun;
use ess_core_nodes::{Gen, Node, NodeDom, Op};
use ess_guard_forms::{counted, plain_axis};
use ess_node_building::number;
use ess_rows::{Boxed, NoMemory, Row, Text};
use ess_rules_ordered::is_from_one;
use ess_rules_ordered::told::{Told, first_index, same_name};
use std::alloc::Global;

/// How many items the list has at most that the term is. The name is for members of index domains. Nothing where that isn't told;
/// `NoMemory` where there is no room for it.
pub(crate) fn most_items(
    alloc: Global,
    one: &Text,
    term: &Node,
) -> Result<Option<Boxed<Node>>, NoMemory>
    ensures { IfOk result (λ o. option_map pure_node o ≡ items_most one.now (pure_node term.now)) }
{
    let path = Row::new(alloc);
    most(alloc, one, path.as_slice(), term)
}

/// How many items the list has at most that the steps reach from the term.
#[cycle(most)]
#[tactic(auto, using(ess_core_nodes::proofs::NodeEquations::pure_seen_is, crate::proofs::MostForms::most_by_items, crate::proofs::MostForms::most_by_parts))]
fn most<'a>(
    alloc: Global,
    one: &Text,
    path: &[Pick<'a>],
    term: &'a Node,
) -> Result<Option<Boxed<Node>>, NoMemory>
    ensures { IfOk result (λ o. option_map pure_node o ≡ most_along one.now (map pure_pick path.now) (pure_node term.now)) }
{
    match term {
        Node::Op(mark, op, operands) => {
            most_of_op(alloc, one, path, *mark, op, operands.as_slice())
        }
        Node::MatrixOn(items, axis) => {
            most_of_matrix(alloc, one, path, items.as_slice(), axis.get())
        }
        Node::Comp(body, gens) => most_of_comp(alloc, one, path, body.get(), gens.as_slice()),
        Node::Seen(seen) => most_told(alloc, one, path, seen.get().dom.get()),
        _ => Ok(None),
    }
}

/// The same of an operator and its operands.
#[cycle(most)]
#[tactic(auto, using(crate::proofs::MostForms::most_by_step))]
fn most_of_op<'a>(
    alloc: Global,
    one: &Text,
    path: &[Pick<'a>],
    mark: bool,
    op: &'a Op,
    operands: &'a [Node],
) -> Result<Option<Boxed<Node>>, NoMemory>
    ensures { IfOk result (λ o. option_map pure_node o
        ≡ op_most one.now (map pure_pick path.now) mark (pure_op op.now) (pure_nodes operands.now)) }
{
    match op {
        Op::Index(steps) => match pick_in(steps.as_slice()) {
            Some(pick) => most_of_first(alloc, one, pick, path, operands),
            None => Ok(None),
        },
        Op::Apply | Op::Word(Fun::Image) => {
            most_of_first(alloc, one, Pick::Result, path, operands)
        }
        _ => {
            if mark {
                Ok(None)
            } else {
                most_of_literal(alloc, one, path, op, operands)
            }
        }
    }
}

/// The same of what a step picks out of the first operand.
#[cycle(most)]
fn most_of_first<'a>(
    alloc: Global,
    one: &Text,
    pick: Pick<'a>,
    path: &[Pick<'a>],
    operands: &'a [Node],
) -> Result<Option<Boxed<Node>>, NoMemory>
    ensures { IfOk result (λ o. option_map pure_node o
        ≡ first_most one.now (pure_pick pick.entry ∷ map pure_pick path.now) (pure_nodes operands.now)) }
{
    match operands.split_first() {
        None => Ok(None),
        Some((first, _)) => {
            let path = with_pick(alloc, pick, path)?;
            most(alloc, one, path.as_slice(), first)
        }
    }
}

/// The same of a literal.
#[cycle(most)]
fn most_of_literal<'a>(
    alloc: Global,
    one: &Text,
    path: &[Pick<'a>],
    op: &'a Op,
    operands: &'a [Node],
) -> Result<Option<Boxed<Node>>, NoMemory>
    ensures { IfOk result (λ o. option_map pure_node o
        ≡ literal_most one.now (map pure_pick path.now) (pure_op op.now) (pure_nodes operands.now)) }
{
    match op {
        Op::Matrix => most_of_list(alloc, one, path, operands),
        Op::Tuple => match path.split_first() {
            Some((Pick::Component(number), rest)) => most_at(alloc, *number, one, rest, operands),
            _ => Ok(None),
        },
        Op::Record(fields) => match path.split_first() {
            Some((Pick::Field(name), rest)) => {
                most_of_field(alloc, name, fields.as_slice(), one, rest, operands)
            }
            _ => Ok(None),
        },
        Op::Function => match path.split_first() {
            Some((Pick::Result, rest)) => most_of_pairs(alloc, one, rest, operands),
            _ => Ok(None),
        },
        _ => Ok(None),
    }
}

/// The same of the second components of pairs.
#[cycle(most)]
fn most_of_pairs<'a>(
    alloc: Global,
    one: &Text,
    path: &[Pick<'a>],
    operands: &'a [Node],
) -> Result<Option<Boxed<Node>>, NoMemory>
    ensures { IfOk result (λ o. option_map pure_node o
        ≡ pairs_most one.now (map pure_pick path.now) (pure_nodes operands.now)) }
{
    let path = with_pick(alloc, Pick::Component(2), path)?;
    most_summed(alloc, one, path.as_slice(), operands)
}

/// The same of the items of a list.
#[cycle(most)]
fn most_of_list<'a>(
    alloc: Global,
    one: &Text,
    path: &[Pick<'a>],
    items: &'a [Node],
) -> Result<Option<Boxed<Node>>, NoMemory>
    ensures { IfOk result (λ o. option_map pure_node o
        ≡ list_most one.now (map pure_pick path.now) (pure_nodes items.now)) }
{
    match path.split_first() {
        None => Ok(Some(counted(alloc, items)?)),
        Some((Pick::Item, rest)) => most_summed(alloc, one, rest, items),
        Some(_) => Ok(None),
    }
}

/// The same of the items of a matrix over an index domain: no number where it isn't numbered from 1.
#[cycle(most)]
fn most_of_matrix<'a>(
    alloc: Global,
    one: &Text,
    path: &[Pick<'a>],
    items: &'a [Node],
    axis: &NodeDom,
) -> Result<Option<Boxed<Node>>, NoMemory>
    ensures { IfOk result (λ o. option_map pure_node o
        ≡ matrix_most one.now (map pure_pick path.now) (pure_nodes items.now) (pure_dom axis.now)) }
{
    match path.split_first() {
        None => {
            if is_from_one(axis) {
                Ok(Some(counted(alloc, items)?))
            } else {
                Ok(None)
            }
        }
        Some(_) => most_of_list(alloc, one, path, items),
    }
}

/// The same of a comprehension.
#[cycle(most)]
fn most_of_comp<'a>(
    alloc: Global,
    one: &Text,
    path: &[Pick<'a>],
    body: &'a Node,
    gens: &'a [Gen],
) -> Result<Option<Boxed<Node>>, NoMemory>
    ensures { IfOk result (λ o. option_map pure_node o
        ≡ comp_most one.now (map pure_pick path.now) (pure_node body.now) (pure_gens gens.now)) }
{
    match path.split_first() {
        None => {
            let each = number(alloc, 1)?;
            most_behind(alloc, one, gens, each)
        }
        Some((Pick::Item, rest)) => {
            let each = most(alloc, one, rest, body)?;
            match each {
                Some(each) => most_behind(alloc, one, gens, each),
                None => Ok(None),
            }
        }
        Some(_) => Ok(None),
    }
}

/// The sum of the numbers of each of these.
#[cycle(most)]
fn most_summed<'a>(
    alloc: Global,
    one: &Text,
    path: &[Pick<'a>],
    items: &'a [Node],
) -> Result<Option<Boxed<Node>>, NoMemory>
    ensures { IfOk result (λ o. option_map pure_node o
        ≡ summed_most one.now (map pure_pick path.now) (pure_nodes items.now)) }
{
    let numbers = most_of_each(alloc, one, path, items)?;
    match numbers {
        Some(numbers) => Ok(Some(all_summed(alloc, numbers)?)),
        None => Ok(None),
    }
}

/// Each of these numbers.
#[cycle(most)]
#[tactic(auto, using(crate::proofs::MostForms::each_more, crate::proofs::MostForms::each_none, crate::proofs::MostWeights::lighter_item))]
fn most_of_each<'a>(
    alloc: Global,
    one: &Text,
    path: &[Pick<'a>],
    items: &'a [Node],
) -> Result<Option<Row<Node>>, NoMemory>
    ensures { IfOk result (λ o. option_map pure_nodes o
        ≡ each_most one.now (map pure_pick path.now) (pure_nodes items.now)) }
{
    let mut all = Row::with_capacity(alloc, items.len())?;
    for item in items {
        let number = most(alloc, one, path, item)?;
        let Some(number) = number else {
            return Ok(None);
        };
        all.push(number.into_inner())?;
    }
    Ok(Some(all))
}

/// The number of the one at a place, from 1.
#[cycle(most)]
#[tactic(auto, using(crate::proofs::MostForms::most_past, crate::proofs::MostForms::most_zero, crate::proofs::MostForms::most_first, crate::proofs::MostForms::most_next))]
fn most_at<'a>(
    alloc: Global,
    number: u64,
    one: &Text,
    path: &[Pick<'a>],
    items: &'a [Node],
) -> Result<Option<Boxed<Node>>, NoMemory>
    ensures { IfOk result (λ o. option_map pure_node o
        ≡ nth_most number one.now (map pure_pick path.now) (pure_nodes items.now)) }
{
    match items.split_first() {
        None => Ok(None),
        Some((item, rest)) => {
            if number == 0 {
                Ok(None)
            } else if number == 1 {
                most(alloc, one, path, item)
            } else {
                most_at(alloc, number - 1, one, path, rest)
            }
        }
    }
}

/// The number of the one at a field.
#[cycle(most)]
fn most_of_field<'a>(
    alloc: Global,
    name: &Text,
    fields: &[Text],
    one: &Text,
    path: &[Pick<'a>],
    items: &'a [Node],
) -> Result<Option<Boxed<Node>>, NoMemory>
    ensures { IfOk result (λ o. option_map pure_node o
        ≡ field_most name.now fields.now one.now (map pure_pick path.now) (pure_nodes items.now)) }
{
    match fields.split_first() {
        None => Ok(None),
        Some((field, fields)) => match items.split_first() {
            None => Ok(None),
            Some((item, rest)) => {
                if same_name(field, name) {
                    most(alloc, one, path, item)
                } else {
                    most_of_field(alloc, name, fields, one, path, rest)
                }
            }
        },
    }
}

/// The same of a view, by the domain that the steps reach.
fn most_told(
    alloc: Global,
    one: &Text,
    path: &[Pick<'_>],
    dom: &NodeDom,
) -> Result<Option<Boxed<Node>>, NoMemory>
    ensures { IfOk result (λ o. option_map pure_node o
        ≡ told_most one.now (map pure_pick path.now) (pure_dom dom.now)) }
{
    match list_axis(first_index(dom_along(path, Told::Whole(dom)))) {
        Some(axis) => Ok(Some(members_counted(alloc, one, axis)?)),
        None => Ok(None),
    }
}

/// The index domain of a list, where it is numbered from 1.
fn list_axis(axis: Option<&NodeDom>) -> Option<&NodeDom>
    ensures { option_map pure_dom (option_copied result) ≡ axis_of_list (option_map pure_dom (option_copied axis.entry)) }
{
    match axis {
        Some(dom) => {
            if is_from_one(dom) {
                plain_axis(Some(dom))
            } else {
                None
            }
        }
        None => None,
    }
}

/// A number at each binding of generators.
#[cycle(most)]
#[tactic(auto, using(crate::proofs::MostForms::behind_one_more, crate::proofs::MostWeights::lighter_rest, crate::proofs::MostWeights::lighter_gen))]
fn most_behind(
    alloc: Global,
    one: &Text,
    gens: &[Gen],
    number: Boxed<Node>,
) -> Result<Option<Boxed<Node>>, NoMemory>
    ensures { IfOk result (λ o. option_map pure_node o ≡ behind_most one.now (pure_gens gens.now) (pure_node number)) }
{
    match gens.split_first() {
        None => Ok(Some(number)),
        Some((item, rest)) => {
            let behind = most_behind(alloc, one, rest, number)?;
            match behind {
                Some(behind) => most_before(alloc, one, item, behind),
                None => Ok(None),
            }
        }
    }
}

/// A number at each value that one generator brings, or under one condition.
#[cycle(most)]
#[tactic(auto, using(ess_core_nodes::proofs::NodeEquations::pure_gen_over, ess_core_nodes::proofs::NodeEquations::pure_gen_from, ess_core_nodes::proofs::NodeEquations::pure_gen_if))]
fn most_before(
    alloc: Global,
    one: &Text,
    item: &Gen,
    number: Boxed<Node>,
) -> Result<Option<Boxed<Node>>, NoMemory>
    ensures { IfOk result (λ o. option_map pure_node o ≡ before_most one.now (pure_gen item.now) (pure_node number)) }
{
    match item {
        Gen::Over(_, _) => Ok(Some(sum_behind_one(alloc, number, item)?)),
        Gen::If(test) => behind_condition(alloc, test.get(), number),
        Gen::From(pat, source) => {
            let path = Row::new(alloc);
            let count = most(alloc, one, path.as_slice(), source.get())?;
            match count {
                Some(count) => so_often(alloc, pat, count, number),
                None => Ok(None),
            }
        }
    }
}
