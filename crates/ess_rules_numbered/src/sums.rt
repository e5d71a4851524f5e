//! Numbers of items: how many members a domain has, sums, and numbers behind generators.
ghost use Rattle.std.specs.Prelude.{◌≡◌, [], ◌∷◌, option_map, IfOk};
ghost use Rattle.ess_core.specs.TreeViews.{pure_pat, gens_of};
ghost use Rattle.ess_core_nodes.specs.NodeViews.{pure_node, pure_nodes, pure_gen, pure_gens, pure_dom};
ghost use Rattle.ess_numbered_laws.specs.MostItems.{sum_at as sum_behind, members_counted as members_of, all_summed as sum_of, behind_condition as under_condition, so_often as often};

use crate::mentions::mentions;
use crate::there::is_there;
use ess_core::{Fun, Op2, Pat};
use ess_core_nodes::{Gen, Node, NodeDom, Op};
use ess_node_building::{binary, comprehension, condition, literal, number, over, word};
use ess_rows::{Boxed, NoMemory, Row, Text};
use ess_rules_everywhere::has_cells;
use std::alloc::Global;

/// The sum of a number at each binding of generators.
pub(crate) fn sum_at(
    alloc: Global,
    number: Boxed<Node>,
    gens: Row<Gen>,
) -> Result<Boxed<Node>, NoMemory>
    ensures { IfOk result (λ n. pure_node n ≡ sum_behind (pure_node number) (pure_gens gens)) }
{
    let all = comprehension(alloc, number, gens)?;
    word(alloc, false, Fun::Sum, all)
}

/// The same at each value that one generator brings, or under one condition.
fn sum_at_one(alloc: Global, number: Boxed<Node>, item: Gen) -> Result<Boxed<Node>, NoMemory>
    ensures { IfOk result (λ n. pure_node n ≡ sum_behind (pure_node number) (gens_of (pure_gen item ∷ []))) }
{
    let mut gens = Row::new(alloc);
    gens.push(item)?;
    sum_at(alloc, number, gens)
}

/// The same of a copy of a generator or condition.
pub(crate) fn sum_behind_one(
    alloc: Global,
    number: Boxed<Node>,
    item: &Gen,
) -> Result<Boxed<Node>, NoMemory>
    ensures { IfOk result (λ n. pure_node n ≡ sum_behind (pure_node number) (gens_of (pure_gen item.now ∷ []))) }
{
    let item = item.copy(alloc)?;
    sum_at_one(alloc, number, item.into_inner())
}

/// How many members a domain has; the name is for these.
pub(crate) fn members_counted(
    alloc: Global,
    one: &Text,
    dom: &NodeDom,
) -> Result<Boxed<Node>, NoMemory>
    ensures { IfOk result (λ n. pure_node n ≡ members_of one.now (pure_dom dom.now)) }
{
    let dom = dom.copy(alloc)?;
    let item = over(alloc, one, dom)?;
    let each = number(alloc, 1)?;
    sum_at_one(alloc, each, item)
}

/// The sum of these numbers.
pub(crate) fn all_summed(alloc: Global, numbers: Row<Node>) -> Result<Boxed<Node>, NoMemory>
    ensures { IfOk result (λ n. pure_node n ≡ sum_of (pure_nodes numbers)) }
{
    let all = literal(alloc, Op::Matrix, numbers)?;
    word(alloc, false, Fun::Sum, all)
}

/// A number behind a condition. Where the condition reads a table it is left out, or nothing is answered, if the number may have no value
/// without it.
pub(crate) fn behind_condition(
    alloc: Global,
    test: &Node,
    number: Boxed<Node>,
) -> Result<Option<Boxed<Node>>, NoMemory>
    ensures { IfOk result (λ o. option_map pure_node o ≡ under_condition (pure_node test.now) (pure_node number)) }
{
    if has_cells(test) {
        return if is_there(number.get()) {
            Ok(Some(number))
        } else {
            Ok(None)
        };
    }
    let test = test.copy(alloc)?;
    Ok(Some(sum_at_one(alloc, number, condition(test))?))
}

/// A number behind a name that runs over so many items, where the number doesn't speak of the name.
#[tactic(auto, using(crate::proofs::CountedForms::often_by_name))]
pub(crate) fn so_often(
    alloc: Global,
    pat: &Pat,
    count: Boxed<Node>,
    number: Boxed<Node>,
) -> Result<Option<Boxed<Node>>, NoMemory>
    ensures { IfOk result (λ o. option_map pure_node o ≡ often (pure_pat pat.now) (pure_node count) (pure_node number)) }
{
    match pat {
        Pat::Name(name) => {
            if mentions(name, number.get()) {
                Ok(None)
            } else {
                Ok(Some(binary(alloc, false, Op2::Times, count, number)?))
            }
        }
        Pat::Tuple(_) => Ok(None),
    }
}
