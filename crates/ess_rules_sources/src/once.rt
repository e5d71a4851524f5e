//! What the set of the items of a comprehension offers: each item once.
ghost use Rattle.std.specs.Prelude.{◌≡◌, [], ◌∷◌, IfOk, option_map, map};
ghost use Rattle.ess_core.specs.TreeViews.{pure_pat};
ghost use Rattle.ess_core_nodes.specs.NodeViews.{pure_node, pure_nodes, pure_gens, pure_dom};
ghost use Rattle.ess_refine_laws.specs.ItemsOnce.{is_atom_dom as is_atom, set_of_items, set_at, items_before, is_new, items_where, items_over, items_once};
ghost use Rattle.ess_rules_forms.specs.PureAlternatives.{pure_alternative};
ghost use Rattle.ess_rules_sources.specs.PureAlternatives.{alternative_of};
ghost use Rattle.ess_rules_sources.specs.OnceParts.{set_comp, once_by, once_over};

use ess_core::{Fun, Op1, Op2, Pat};
use ess_core_nodes::{Gen, Node, NodeDom, copy_gens};
use ess_node_building::{binary, comprehension, condition, from, name, over, unary, word};
use ess_rows::{Boxed, NoMemory, Row, Text};
use ess_rules_folds::forms::{are_none, first_comp, name_in, word_in};
use ess_rules_forms::Alternative;
use ess_substitution::{substitute, substitute_gens};
use std::alloc::Global;

/// The names that items and their values get: of the item, of an item before it, and of the value at which it is.
#[derive(Clone, Copy)]
pub struct OnceNames<'a> {
    /// The item.
    pub one: &'a Text,
    /// An item at an earlier value.
    pub other: &'a Text,
    /// The value of the first generator's domain.
    pub third: &'a Text,
}

/// The alternatives of the set of the items of a comprehension. `NoMemory` where there is no room for them.
#[tactic(auto, using(crate::proofs::OnceForms::once_by_parts))]
pub fn items_once(
    alloc: Global,
    names: &OnceNames<'_>,
    node: &Node,
) -> Result<Option<Row<Alternative>>, NoMemory>
    ensures { IfOk result (λ o. option_map (map pure_alternative) o
        ≡ items_once names.now.one.now names.now.other.now names.now.third.now (pure_node node.now)) }
{
    let Some((mark, fun, operands)) = word_in(node) else {
        return Ok(None);
    };
    match set_comp(mark, fun, operands) {
        Some((body, gens, others)) => once_by(alloc, names, body, gens, others),
        None => Ok(None),
    }
}

/// The comprehension of which a set is made: its body, its generators, and the operands behind it.
fn set_comp(mark: bool, fun: Fun, operands: &[Node]) -> Option<(&Node, &[Gen], &[Node])>
    ensures { option_map (λ c. (pure_node c.0.now, pure_gens c.1.now, pure_nodes c.2.now)) result
        ≡ set_comp mark fun (pure_nodes operands.now) }
{
    if mark {
        return None;
    }
    match fun {
        Fun::ToSet => first_comp(operands),
        _ => None,
    }
}

/// The alternatives by the first generator.
#[tactic(auto, using(ess_core_nodes::proofs::NodeEquations::pure_gen_over, ess_core_nodes::proofs::NodeEquations::pure_gen_from, ess_core_nodes::proofs::NodeEquations::pure_gen_if))]
fn once_by(
    alloc: Global,
    names: &OnceNames<'_>,
    body: &Node,
    gens: &[Gen],
    others: &[Node],
) -> Result<Option<Row<Alternative>>, NoMemory>
    ensures { IfOk result (λ o. option_map (map pure_alternative) o
        ≡ once_by names.now.one.now names.now.other.now names.now.third.now (pure_node body.now)
        (pure_gens gens.now) (pure_nodes others.now)) }
{
    match gens.split_first() {
        None => {
            if !are_none(others) {
                return Ok(None);
            }
            let item = body.copy(alloc)?;
            Ok(Some(only(alloc, Row::new(alloc), item)?))
        }
        Some((Gen::If(truth), rest)) => {
            if !are_none(others) {
                return Ok(None);
            }
            Ok(Some(items_where(alloc, names, truth.get(), body, rest)?))
        }
        Some((Gen::Over(pat, dom), rest)) => once_over(
            alloc,
            names,
            body,
            pat,
            dom.get(),
            rest,
            others,
        ),
        Some((Gen::From(_, _), _)) => Ok(None),
    }
}

/// The alternatives where the first generator is over a domain.
fn once_over(
    alloc: Global,
    names: &OnceNames<'_>,
    body: &Node,
    pat: &Pat,
    dom: &NodeDom,
    rest: &[Gen],
    others: &[Node],
) -> Result<Option<Row<Alternative>>, NoMemory>
    ensures { IfOk result (λ o. option_map (map pure_alternative) o
        ≡ once_over names.now.one.now names.now.other.now names.now.third.now (pure_node body.now) (pure_pat pat.now) (pure_dom dom.now)
        (pure_gens rest.now) (pure_nodes others.now)) }
{
    let Some(bound) = name_in(pat) else {
        return Ok(None);
    };
    if !are_none(others) || !is_atom_dom(dom) {
        return Ok(None);
    }
    Ok(Some(items_over(alloc, names, bound, dom, body, rest)?))
}

/// Each item where the condition holds.
#[tactic(auto, using(ess_core_nodes::proofs::NodeEquations::pure_gen_if))]
fn items_where(
    alloc: Global,
    names: &OnceNames<'_>,
    truth: &Node,
    body: &Node,
    rest: &[Gen],
) -> Result<Row<Alternative>, NoMemory>
    ensures { IfOk result (λ l. map pure_alternative l
        ≡ items_where names.now.one.now (pure_node truth.now) (pure_node body.now) (pure_gens rest.now) ∷ []) }
{
    let truth = truth.copy(alloc)?;
    let body = body.copy(alloc)?;
    let set = set_of_items(alloc, body, copy_gens(alloc, rest)?)?;
    let mut gens = Row::new(alloc);
    gens.push(condition(truth))?;
    gens.push(from(alloc, names.one, set)?)?;
    let item = name(alloc, names.one)?;
    only(alloc, gens, item)
}

/// At each value each item that is new there.
#[tactic(auto, using(ess_core_nodes::proofs::NodeEquations::pure_gen_if))]
fn items_over(
    alloc: Global,
    names: &OnceNames<'_>,
    bound: &Text,
    dom: &NodeDom,
    body: &Node,
    rest: &[Gen],
) -> Result<Row<Alternative>, NoMemory>
    ensures { IfOk result (λ l. map pure_alternative l
        ≡ items_over names.now.one.now names.now.other.now names.now.third.now bound.now (pure_dom dom.now) (pure_node body.now)
        (pure_gens rest.now) ∷ []) }
{
    let values = over(alloc, names.third, dom.copy(alloc)?)?;
    let mut gens = Row::new(alloc);
    gens.push(values)?;
    let set = set_at(alloc, names.third, bound, body, rest)?;
    gens.push(from(alloc, names.one, set)?)?;
    let new = is_new(alloc, names, bound, dom, body, rest)?;
    gens.push(condition(new))?;
    let item = name(alloc, names.one)?;
    only(alloc, gens, item)
}

/// The set of the items of a comprehension.
fn set_of_items(alloc: Global, body: Boxed<Node>, gens: Row<Gen>) -> Result<Boxed<Node>, NoMemory>
    ensures { IfOk result (λ n. pure_node n ≡ set_of_items (pure_node body) (pure_gens gens)) }
{
    word(alloc, false, Fun::ToSet, comprehension(alloc, body, gens)?)
}

/// The set of the items at a value.
fn set_at(
    alloc: Global,
    value: &Text,
    bound: &Text,
    body: &Node,
    rest: &[Gen],
) -> Result<Boxed<Node>, NoMemory>
    ensures { IfOk result (λ n. pure_node n ≡ set_at value.now bound.now (pure_node body.now) (pure_gens rest.now)) }
{
    let value = name(alloc, value)?;
    let body = substitute(alloc, body, bound, value.get())?;
    let rest = substitute_gens(alloc, rest, bound, value.get())?;
    set_of_items(alloc, body, rest)
}

/// That an item is none of those at earlier values.
fn is_new(
    alloc: Global,
    names: &OnceNames<'_>,
    bound: &Text,
    dom: &NodeDom,
    body: &Node,
    rest: &[Gen],
) -> Result<Boxed<Node>, NoMemory>
    ensures { IfOk result (λ n. pure_node n
        ≡ is_new names.now.one.now names.now.other.now names.now.third.now bound.now (pure_dom dom.now) (pure_node body.now)
        (pure_gens rest.now)) }
{
    let before = items_before(alloc, names.third, bound, dom, body, rest)?;
    let mut gens = Row::new(alloc);
    gens.push(from(alloc, names.other, before)?)?;
    let other = name(alloc, names.other)?;
    let one = name(alloc, names.one)?;
    let same = binary(alloc, true, Op2::Eq, other, one)?;
    let different = unary(alloc, true, Op1::Not, same)?;
    word(
        alloc,
        true,
        Fun::And,
        comprehension(alloc, different, gens)?,
    )
}

/// The items at the values before one.
#[tactic(auto, using(ess_core_nodes::proofs::NodeEquations::pure_gen_if))]
fn items_before(
    alloc: Global,
    value: &Text,
    bound: &Text,
    dom: &NodeDom,
    body: &Node,
    rest: &[Gen],
) -> Result<Boxed<Node>, NoMemory>
    ensures { IfOk result (λ n. pure_node n
        ≡ items_before value.now bound.now (pure_dom dom.now) (pure_node body.now) (pure_gens rest.now)) }
{
    let values = over(alloc, bound, dom.copy(alloc)?)?;
    let mut gens = Row::new(alloc);
    gens.push(values)?;
    let earlier = name(alloc, bound)?;
    let value = name(alloc, value)?;
    gens.push(condition(binary(alloc, true, Op2::Lt, earlier, value)?))?;
    let mut rest = copy_gens(alloc, rest)?;
    gens.append(&mut rest)?;
    let body = body.copy(alloc)?;
    comprehension(alloc, body, gens)
}

/// A row of one alternative.
fn only(alloc: Global, gens: Row<Gen>, item: Boxed<Node>) -> Result<Row<Alternative>, NoMemory>
    ensures { IfOk result (λ l. map pure_alternative l ≡ alternative_of (pure_gens gens) (pure_node item) ∷ []) }
{
    let mut all = Row::new(alloc);
    all.push(Alternative { gens, item })?;
    Ok(all)
}

/// Whether the domain is that of an atom.
fn is_atom_dom(dom: &NodeDom) -> bool
    ensures { result ≡ is_atom (pure_dom dom.now) }
{
    match dom {
        NodeDom::Bool => true,
        NodeDom::Int(_, _) => true,
        NodeDom::Name(_) => true,
        _ => false,
    }
}
