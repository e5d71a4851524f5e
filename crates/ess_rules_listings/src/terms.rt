//! What comprehensions, literals, unions and sets made of others offer.
ghost use Rattle.std.specs.Prelude.{◌≡◌, false, IfOk, option_map, map};
ghost use Rattle.ess_semantics.specs.Trees.{node_ex, fun1, ex2};
ghost use Rattle.ess_core_nodes.specs.NodeViews.{pure_node, pure_nodes, pure_gens, pure_op};
ghost use Rattle.ess_node_types.specs.TypedNames.{pure_names};
ghost use Rattle.ess_rules_laws.specs.Listings.{listing};
ghost use Rattle.ess_rules_forms.specs.PureAlternatives.{pure_alternative};
ghost use Rattle.ess_rules_listings.specs.ListedTerms.{comprehended, united, common, difference};

use crate::building::{is_in, is_not_in, only, those, under, whole};
use crate::kinds::{are_sets, is_strict};
use crate::rows::{each_first, each_item};
use ess_core::{Fun, Op2};
use ess_core_nodes::{Gen, Node, Op, copy_gens};
use ess_node_types::NameTypes;
use ess_rows::{NoMemory, Row, Text};
use ess_rules_forms::{Alternative, only_in, pair_in};
use std::alloc::Global;

/// The alternatives of a term; its members are called by the name. `NoMemory` where there is no room for them.
#[tactic(auto, using(ess_core_nodes::proofs::NodeEquations::pure_seen_is))]
pub fn listing(
    alloc: Global,
    names: &NameTypes,
    one: &Text,
    node: &Node,
) -> Result<Option<Row<Alternative>>, NoMemory>
    ensures { IfOk result (λ o. option_map (map pure_alternative) o ≡ listing (pure_names names.now) one.now (pure_node node.now)) }
{
    match node {
        Node::Comp(body, gens) => Ok(Some(comprehended(alloc, body.get(), gens.as_slice())?)),
        Node::Op(false, op, operands) => listing_op(alloc, names, one, op, operands.as_slice()),
        _ => Ok(None),
    }
}

/// The one alternative of a comprehension.
fn comprehended(alloc: Global, body: &Node, gens: &[Gen]) -> Result<Row<Alternative>, NoMemory>
    ensures { IfOk result (λ l. map pure_alternative l ≡ comprehended (pure_node body.now) (pure_gens gens.now)) }
{
    let item = body.copy(alloc)?;
    let gens = copy_gens(alloc, gens)?;
    only(alloc, Alternative { gens, item })
}

/// The alternatives of an operator's node.
#[tactic(auto, using(crate::proofs::TermForms::pair_listed, crate::proofs::TermForms::word_listed))]
fn listing_op(
    alloc: Global,
    names: &NameTypes,
    one: &Text,
    op: &Op,
    operands: &[Node],
) -> Result<Option<Row<Alternative>>, NoMemory>
    ensures { IfOk result (λ o. option_map (map pure_alternative) o
        ≡ listing (pure_names names.now) one.now (node_ex false (pure_op op.now) (pure_nodes operands.now))) }
{
    match op {
        Op::Matrix | Op::MSet => Ok(Some(each_item(alloc, operands)?)),
        Op::Set | Op::Relation => Ok(Some(each_first(alloc, operands)?)),
        Op::Binary(sign) => match pair_in(operands) {
            Some((first, second)) => listing_pair(alloc, names, one, *sign, first, second),
            None => Ok(None),
        },
        Op::Word(fun) => match only_in(operands) {
            Some(source) => listing_word(alloc, names, one, *fun, source),
            None => Ok(None),
        },
        _ => Ok(None),
    }
}

/// The alternatives of an operator between two terms.
fn listing_pair(
    alloc: Global,
    names: &NameTypes,
    one: &Text,
    op: Op2,
    first: &Node,
    second: &Node,
) -> Result<Option<Row<Alternative>>, NoMemory>
    ensures { IfOk result (λ o. option_map (map pure_alternative) o
        ≡ listing (pure_names names.now) one.now (ex2 false op (pure_node first.now) (pure_node second.now))) }
{
    match op {
        Op2::Union => {
            if !are_sets(alloc, names, first, second)? {
                return Ok(None);
            }
            Ok(Some(united(alloc, one, first, second)?))
        }
        Op2::Intersect => {
            if !are_sets(alloc, names, first, second)? {
                return Ok(None);
            }
            Ok(Some(common(alloc, one, first, second)?))
        }
        Op2::Minus => {
            if !are_sets(alloc, names, first, second)? {
                return Ok(None);
            }
            Ok(Some(difference(alloc, one, first, second)?))
        }
        _ => Ok(None),
    }
}

/// The members of the first that are in the second.
fn common(
    alloc: Global,
    one: &Text,
    first: &Node,
    second: &Node,
) -> Result<Row<Alternative>, NoMemory>
    ensures { IfOk result (λ l. map pure_alternative l ≡ common one.now (pure_node first.now) (pure_node second.now)) }
{
    let within = under(alloc, is_in(alloc, one, second)?)?;
    only(alloc, those(alloc, one, first, within)?)
}

/// The members of the first that aren't in the second.
fn difference(
    alloc: Global,
    one: &Text,
    first: &Node,
    second: &Node,
) -> Result<Row<Alternative>, NoMemory>
    ensures { IfOk result (λ l. map pure_alternative l ≡ difference one.now (pure_node first.now) (pure_node second.now)) }
{
    let without = under(alloc, is_not_in(alloc, one, second)?)?;
    only(alloc, those(alloc, one, first, without)?)
}

/// The members of the first, and those of the second that aren't in the first.
fn united(
    alloc: Global,
    one: &Text,
    first: &Node,
    second: &Node,
) -> Result<Row<Alternative>, NoMemory>
    ensures { IfOk result (λ l. map pure_alternative l ≡ united one.now (pure_node first.now) (pure_node second.now)) }
{
    let mut all = whole(alloc, one, first)?;
    let without = under(alloc, is_not_in(alloc, one, first)?)?;
    let Alternative { gens, item } = those(alloc, one, second, without)?;
    all.push(Alternative { gens, item })?;
    Ok(all)
}

/// The alternatives of a word of a term.
fn listing_word(
    alloc: Global,
    names: &NameTypes,
    one: &Text,
    fun: Fun,
    source: &Node,
) -> Result<Option<Row<Alternative>>, NoMemory>
    ensures { IfOk result (λ o. option_map (map pure_alternative) o
        ≡ listing (pure_names names.now) one.now (fun1 false fun (pure_node source.now))) }
{
    match fun {
        Fun::ToMSet => Ok(Some(whole(alloc, one, source)?)),
        Fun::ToSet | Fun::Parts => {
            if !is_strict(alloc, names, source)? {
                return Ok(None);
            }
            Ok(Some(whole(alloc, one, source)?))
        }
        _ => Ok(None),
    }
}
