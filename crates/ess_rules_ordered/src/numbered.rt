//! The item at a number over several generators and conditions: at each value of the first domain, by the number behind the items that
//! the values before it bring.
ghost use Rattle.std.specs.Prelude.{◌≡◌, option_map, IfOk};
ghost use Rattle.ess_semantics.specs.Trees.{name_ex};
ghost use Rattle.ess_semantics.specs.Substitution.{substitute, substitute_gens as gens_substituted, for_name};
ghost use Rattle.ess_core_nodes.specs.NodeViews.{pure_node, pure_gens, pure_dom};
ghost use Rattle.ess_rules_forms.specs.PureAlternatives.{pure_alternative};
ghost use Rattle.ess_ordered_laws.specs.NumberedItems.{count_before as before_counted, number_behind as behind_number, only_item as item_alone, under_condition as beneath, at_each_value as each_value, numbered_gens as gens_numbered};

use crate::places::{is_atom_dom, numbered_item};
use ess_core::{Fun, Op2};
use ess_core_nodes::{Gen, Node, NodeDom, copy_gens};
use ess_node_building::{binary, comprehension, condition, name, number, over, word};
use ess_rows::{Boxed, NoMemory, Row, Text};
use ess_rules_folds::forms::{are_no_gens, name_in};
use ess_rules_forms::Alternative;
use ess_rules_kinds::pieces::gens_where;
use ess_substitution::{substitute, substitute_gens};
use std::alloc::Global;

/// The item at a number, over conditions and names over the domains of atoms, each of which takes one of the new names. Nothing over
/// others, or where there are too few names; `NoMemory` where there is no room for it.
#[tactic(auto, using(ess_core_nodes::proofs::NodeEquations::pure_gen_over, ess_core_nodes::proofs::NodeEquations::pure_gen_from, ess_core_nodes::proofs::NodeEquations::pure_gen_if, crate::proofs::NumberedForms::over_by_name))]
pub(crate) fn numbered_gens(
    alloc: Global,
    names: &[Text],
    item: &Node,
    gens: &[Gen],
    at: &Node,
) -> Result<Option<Alternative>, NoMemory>
    ensures { IfOk result (λ o. option_map pure_alternative o
        ≡ gens_numbered names.now (pure_node item.now) (pure_gens gens.now) (pure_node at.now)) }
{
    let Some((new, names)) = names.split_first() else {
        return Ok(None);
    };
    match gens.split_first() {
        None => Ok(Some(only_item(alloc, item, at)?)),
        Some((Gen::From(_, _), _)) => Ok(None),
        Some((Gen::If(test), rest)) => {
            let found = numbered_gens(alloc, names, item, rest, at)?;
            under_condition(alloc, test.get(), found)
        }
        Some((Gen::Over(pat, dom), rest)) => {
            let dom = dom.get();
            let Some(bound) = name_in(pat) else {
                return Ok(None);
            };
            if !is_atom_dom(dom) {
                return Ok(None);
            }
            let put = with_new(alloc, bound, new, item)?;
            if are_no_gens(rest) {
                let one = numbered_item(alloc, bound, new, dom, put.get(), at)?;
                return Ok(Some(one));
            }
            let behind = gens_with_new(alloc, bound, new, rest)?;
            let left = number_behind(alloc, new, bound, dom, rest, at)?;
            let found = numbered_gens(alloc, names, put.get(), behind.as_slice(), left.get())?;
            at_each_value(alloc, new, dom, found)
        }
    }
}

/// The item with a new name in the place of a bound one.
fn with_new(alloc: Global, bound: &Text, new: &Text, item: &Node) -> Result<Boxed<Node>, NoMemory>
    ensures { IfOk result (λ n. pure_node n ≡ substitute (for_name bound.now (name_ex new.now)) (pure_node item.now)) }
{
    let value = name(alloc, new)?;
    substitute(alloc, item, bound, value.get())
}

/// The same of generators and conditions.
fn gens_with_new(
    alloc: Global,
    bound: &Text,
    new: &Text,
    gens: &[Gen],
) -> Result<Row<Gen>, NoMemory>
    ensures { IfOk result (λ gs. pure_gens gs ≡ gens_substituted (for_name bound.now (name_ex new.now)) (pure_gens gens.now)) }
{
    let value = name(alloc, new)?;
    substitute_gens(alloc, gens, bound, value.get())
}

/// The only item, where the number is 1.
fn only_item(alloc: Global, item: &Node, at: &Node) -> Result<Alternative, NoMemory>
    ensures { IfOk result (λ a. pure_alternative a ≡ item_alone (pure_node item.now) (pure_node at.now)) }
{
    let first = at.copy(alloc)?;
    let test = binary(alloc, true, Op2::Eq, first, number(alloc, 1)?)?;
    let mut gens = Row::new(alloc);
    gens.push(condition(test))?;
    let item = item.copy(alloc)?;
    Ok(Alternative { gens, item })
}

/// An alternative under a condition.
fn under_condition(
    alloc: Global,
    test: &Node,
    found: Option<Alternative>,
) -> Result<Option<Alternative>, NoMemory>
    ensures { IfOk result (λ o. option_map pure_alternative o
        ≡ option_map (beneath (pure_node test.now)) (option_map pure_alternative found)) }
{
    let Some(mut found) = found else {
        return Ok(None);
    };
    let mut gens = Row::new(alloc);
    gens.push(condition(test.copy(alloc)?))?;
    gens.append(&mut found.gens)?;
    let item = found.item;
    Ok(Some(Alternative { gens, item }))
}

/// An alternative at each value of a domain.
fn at_each_value(
    alloc: Global,
    new: &Text,
    dom: &NodeDom,
    found: Option<Alternative>,
) -> Result<Option<Alternative>, NoMemory>
    ensures { IfOk result (λ o. option_map pure_alternative o
        ≡ option_map (each_value new.now (pure_dom dom.now)) (option_map pure_alternative found)) }
{
    let Some(mut found) = found else {
        return Ok(None);
    };
    let mut gens = Row::new(alloc);
    gens.push(over(alloc, new, dom.copy(alloc)?)?)?;
    gens.append(&mut found.gens)?;
    let item = found.item;
    Ok(Some(Alternative { gens, item }))
}

/// The number behind the items of the values before the new one.
fn number_behind(
    alloc: Global,
    new: &Text,
    bound: &Text,
    dom: &NodeDom,
    gens: &[Gen],
    at: &Node,
) -> Result<Boxed<Node>, NoMemory>
    ensures { IfOk result (λ n. pure_node n
        ≡ behind_number new.now bound.now (pure_dom dom.now) (pure_gens gens.now) (pure_node at.now)) }
{
    let before = count_before(alloc, new, bound, dom, gens)?;
    binary(alloc, false, Op2::Minus, at.copy(alloc)?, before)
}

/// How many items the values before the new one bring.
fn count_before(
    alloc: Global,
    new: &Text,
    bound: &Text,
    dom: &NodeDom,
    gens: &[Gen],
) -> Result<Boxed<Node>, NoMemory>
    ensures { IfOk result (λ n. pure_node n
        ≡ before_counted new.now bound.now (pure_dom dom.now) (pure_gens gens.now)) }
{
    let left = name(alloc, bound)?;
    let test = binary(alloc, true, Op2::Lt, left, name(alloc, new)?)?;
    let mut all = gens_where(alloc, bound, dom.copy(alloc)?, test)?;
    let mut behind = copy_gens(alloc, gens)?;
    all.append(&mut behind)?;
    let each = comprehension(alloc, number(alloc, 1)?, all)?;
    word(alloc, false, Fun::Sum, each)
}
