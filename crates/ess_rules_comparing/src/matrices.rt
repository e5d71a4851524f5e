//! Rules of `=` between matrices: by their items, over the index domains of both, and with the empty list.
ghost use Rattle.std.specs.Prelude.{◌≡◌, [], IfOk, true, option_map};
ghost use Rattle.std.specs.Option.{option_copied};
ghost use Rattle.ess_semantics.specs.Trees.{ex2, name_ex};
ghost use Rattle.ess_semantics.specs.Typing.{type_of};
ghost use Rattle.ess_core.specs.TypeViews.{pure_ty};
ghost use Rattle.ess_core_nodes.specs.NodeViews.{pure_node, pure_dom};
ghost use Rattle.ess_node_types.specs.TypedNames.{pure_names};
ghost use Rattle.ess_rules_laws.specs.MatrixRules.{item_of, lies_in, equal_each_at, equal_matrices, equal_to_nothing, is_matrix};
ghost use Rattle.ess_rules_comparing.specs.RuleParts.{matrix_items, no_item, no_item_where};

use ess_core::{Op2, Ty};
use ess_core_nodes::{Node, NodeDom, Op, Step};
use ess_node_building::{binary, name, truth, two};
use ess_node_types::{NameTypes, type_of};
use ess_rows::{Boxed, NoMemory, Row, Text};
use ess_rules_forms::{
    both, every_over, is_nothing, is_truth, negated, seen_type, some, some_over, truth_pair,
};
use std::alloc::Global;

/// Of matrices over these two index domains `a = b` becomes that each domain lies in the other and that the items at each member of
/// the first are equal, with two names for members. Nothing for another root or other types; `NoMemory` where there is no room for it.
#[tactic(auto, using(crate::proofs::MatrixLemmas::matrices_of_pair, crate::proofs::MatrixLemmas::matrices_by_items))]
pub fn equal_matrices(
    alloc: Global,
    first: &NodeDom,
    second: &NodeDom,
    names: &NameTypes,
    one: &Text,
    other: &Text,
    node: &Node,
) -> Result<Option<Boxed<Node>>, NoMemory>
    ensures { IfOk result (λ o. option_map pure_node o ≡
        equal_matrices (pure_dom first.now) (pure_dom second.now) (pure_names names.now) one.now other.now (pure_node node.now)) }
{
    match truth_pair(node) {
        Some((Op2::Eq, (a, b))) => {
            let ty = type_of(alloc, a, names)?;
            let other_ty = type_of(alloc, b, names)?;
            let (Some(item), Some(other_item)) = (
                item_type(seen_type(&ty)),
                item_type(seen_type(&other_ty)),
            ) else {
                return Ok(None);
            };
            let same = same_members(alloc, one, other, first, second)?;
            let equal = equal_each_at(alloc, one, first, item, other_item, a, b)?;
            Ok(Some(both(alloc, same, equal)?))
        }
        _ => Ok(None),
    }
}

/// The type of the items of a matrix.
fn item_type(ty: Option<&Ty>) -> Option<&Ty>
    ensures { option_map pure_ty (option_copied result) ≡ matrix_items (option_map pure_ty (option_copied ty.entry)) }
{
    match ty {
        Some(Ty::Matrix(_, item)) => Some(item.get()),
        _ => None,
    }
}

/// That each of the two domains lies in the other.
fn same_members(
    alloc: Global,
    one: &Text,
    other: &Text,
    first: &NodeDom,
    second: &NodeDom,
) -> Result<Boxed<Node>, NoMemory>
    ensures { IfOk result (λ n. pure_node n ≡ ex2 true Op2.And (lies_in one.now other.now (pure_dom first.now) (pure_dom second.now))
        (lies_in one.now other.now (pure_dom second.now) (pure_dom first.now))) }
{
    let forth = lies_in(alloc, one, other, first, second)?;
    let back = lies_in(alloc, one, other, second, first)?;
    both(alloc, forth, back)
}

/// That each member of the first domain is one of the second.
fn lies_in(
    alloc: Global,
    one: &Text,
    other: &Text,
    first: &NodeDom,
    second: &NodeDom,
) -> Result<Boxed<Node>, NoMemory>
    ensures { IfOk result (λ n. pure_node n ≡ lies_in one.now other.now (pure_dom first.now) (pure_dom second.now)) }
{
    let left = name(alloc, other)?;
    let right = name(alloc, one)?;
    let equal = binary(alloc, true, Op2::Eq, left, right)?;
    every_over(alloc, one, first, some_over(alloc, other, second, equal)?)
}

/// That the items of a and b, which are of these types, are equal at each member of the domain.
fn equal_each_at(
    alloc: Global,
    one: &Text,
    axis: &NodeDom,
    first: &Ty,
    second: &Ty,
    a: &Node,
    b: &Node,
) -> Result<Boxed<Node>, NoMemory>
    ensures { IfOk result (λ n. pure_node n ≡
        equal_each_at one.now (pure_dom axis.now) (pure_ty first.now) (pure_ty second.now) (pure_node a.now) (pure_node b.now)) }
{
    let left = item_at(alloc, first, a, one)?;
    let right = item_at(alloc, second, b, one)?;
    every_over(alloc, one, axis, binary(alloc, true, Op2::Eq, left, right)?)
}

/// The item of a matrix, which is of this type, at the index of this name.
fn item_at(alloc: Global, ty: &Ty, matrix: &Node, index: &Text) -> Result<Boxed<Node>, NoMemory>
    ensures { IfOk result (λ n. pure_node n ≡ item_of (pure_ty ty.now) (pure_node matrix.now) (name_ex index.now)) }
{
    let matrix = matrix.copy(alloc)?;
    let operands = two(alloc, matrix, name(alloc, index)?)?;
    let mut steps = Row::new(alloc);
    steps.push(Step::Value)?;
    Boxed::new(alloc, Node::Op(is_truth(ty), Op::Index(steps), operands))
}

/// Of a matrix `a = []` and `[] = a` become `!(or([true | x <- a]))`, with the name for x. Nothing for another root or another type;
/// `NoMemory` where there is no room for it.
#[tactic(auto, using(crate::proofs::MatrixLemmas::nothing_of_pair, crate::proofs::MatrixLemmas::nothing_by_side))]
pub fn equal_to_nothing(
    alloc: Global,
    names: &NameTypes,
    one: &Text,
    node: &Node,
) -> Result<Option<Boxed<Node>>, NoMemory>
    ensures { IfOk result (λ o. option_map pure_node o ≡ equal_to_nothing (pure_names names.now) one.now (pure_node node.now)) }
{
    match truth_pair(node) {
        Some((Op2::Eq, (a, b))) => {
            if is_nothing(b) {
                without_items(alloc, names, one, a)
            } else if is_nothing(a) {
                without_items(alloc, names, one, b)
            } else {
                Ok(None)
            }
        }
        _ => Ok(None),
    }
}

/// That a matrix has no item.
fn without_items(
    alloc: Global,
    names: &NameTypes,
    one: &Text,
    matrix: &Node,
) -> Result<Option<Boxed<Node>>, NoMemory>
    ensures { IfOk result (λ o. option_map pure_node o ≡
        no_item_where (type_of (pure_node matrix.now) (pure_names names.now)) one.now (pure_node matrix.now)) }
{
    let ty = type_of(alloc, matrix, names)?;
    if is_matrix(seen_type(&ty)) {
        Ok(Some(no_item(alloc, one, matrix)?))
    } else {
        Ok(None)
    }
}

/// Whether it is a type of matrices.
fn is_matrix(ty: Option<&Ty>) -> bool
    ensures { result ≡ is_matrix (option_map pure_ty (option_copied ty.entry)) }
{
    match ty {
        Some(Ty::Matrix(_, _)) => true,
        _ => false,
    }
}

/// `!(or([true | x <- a]))`, with the name for x.
fn no_item(alloc: Global, one: &Text, matrix: &Node) -> Result<Boxed<Node>, NoMemory>
    ensures { IfOk result (λ n. pure_node n ≡ no_item one.now (pure_node matrix.now)) }
{
    let source = matrix.copy(alloc)?;
    let holds = truth(alloc, true)?;
    negated(alloc, some(alloc, one, source, holds)?)
}
