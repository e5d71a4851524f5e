//! Rules of `in` what is made of a function: its arguments, its results, the arguments of a result, and its pairs.
ghost use Rattle.std.specs.Prelude.{◌≡◌, IfOk, true, false, option_map};
ghost use Rattle.std.specs.Option.{option_copied};
ghost use Rattle.ess_semantics.specs.Trees.{ex2, node_ex};
ghost use Rattle.ess_semantics.specs.Trees as pure;
ghost use Rattle.ess_core.specs.TypeViews.{pure_ty};
ghost use Rattle.ess_core_nodes.specs.NodeViews.{pure_node, pure_nodes};
ghost use Rattle.ess_node_types.specs.TypedNames.{pure_names};
ghost use Rattle.ess_rules_laws.specs.FunctionMembershipRules.{some_component, an_argument, a_result, a_source, member_of_function};
ghost use Rattle.ess_rules_laws.specs.FunctionMembershipRules.{member_related};

use crate::membership::equals_some;
use ess_core::{Fun, Op2, Ty};
use ess_core_nodes::{Node, Op};
use ess_node_building::{binary, component, name, pair, word};
use ess_node_types::{NameTypes, type_of};
use ess_rows::{Boxed, NoMemory, Text};
use ess_rules_forms::{is_truth, only_in, pair_in, plain_word, seen_type, some, truth_pair};
use std::alloc::Global;

/// `a in defined(f)` becomes `or([y[1] = a | y <- f])`, `a in range(f)` becomes `or([y[2] = a | y <- f])`, with the name for y, and
/// `a in preImage(f, b)` becomes `(a, b) in toRelation(f)`, where f is a function. Nothing for another root or other types; `NoMemory`
/// where there is no room for it.
#[tactic(auto, using(crate::proofs::MemberLemmas::function_of_pair))]
pub fn member_of_function(
    alloc: Global,
    names: &NameTypes,
    one: &Text,
    node: &Node,
) -> Result<Option<Boxed<Node>>, NoMemory>
    ensures { IfOk result (λ o. option_map pure_node o ≡ member_of_function (pure_names names.now) one.now (pure_node node.now)) }
{
    match truth_pair(node) {
        Some((Op2::Member, (a, s))) => in_function_part(alloc, names, one, a, s),
        _ => Ok(None),
    }
}

/// That a is in what is made of a function.
#[tactic(auto, using(ess_core_nodes::proofs::NodeEquations::pure_seen_is))]
fn in_function_part(
    alloc: Global,
    names: &NameTypes,
    one: &Text,
    a: &Node,
    s: &Node,
) -> Result<Option<Boxed<Node>>, NoMemory>
    ensures { IfOk result (λ o. option_map pure_node o ≡
        member_of_function (pure_names names.now) one.now (ex2 true Op2.Member (pure_node a.now) (pure_node s.now))) }
{
    match s {
        Node::Op(false, Op::Word(Fun::Defined), operands) => in_arguments(
            alloc,
            names,
            one,
            a,
            operands.as_slice(),
        ),
        Node::Op(false, Op::Word(Fun::Range), operands) => in_results(
            alloc,
            names,
            one,
            a,
            operands.as_slice(),
        ),
        Node::Op(false, Op::Word(Fun::PreImage), operands) => in_sources(
            alloc,
            names,
            one,
            a,
            operands.as_slice(),
        ),
        _ => Ok(None),
    }
}

/// That a is an argument of a function.
#[tactic(auto, using(crate::proofs::MemberLemmas::argument_by_operand))]
fn in_arguments(
    alloc: Global,
    names: &NameTypes,
    one: &Text,
    a: &Node,
    operands: &[Node],
) -> Result<Option<Boxed<Node>>, NoMemory>
    ensures { IfOk result (λ o. option_map pure_node o ≡ member_of_function (pure_names names.now) one.now
        (ex2 true Op2.Member (pure_node a.now) (node_ex false (pure.word Fun.Defined) (pure_nodes operands.now)))) }
{
    match only_in(operands) {
        Some(function) => {
            let ty = type_of(alloc, function, names)?;
            an_argument(alloc, seen_type(&ty), one, a, function)
        }
        None => Ok(None),
    }
}

/// That a is a result of a function.
#[tactic(auto, using(crate::proofs::MemberLemmas::result_by_operand))]
fn in_results(
    alloc: Global,
    names: &NameTypes,
    one: &Text,
    a: &Node,
    operands: &[Node],
) -> Result<Option<Boxed<Node>>, NoMemory>
    ensures { IfOk result (λ o. option_map pure_node o ≡ member_of_function (pure_names names.now) one.now
        (ex2 true Op2.Member (pure_node a.now) (node_ex false (pure.word Fun.Range) (pure_nodes operands.now)))) }
{
    match only_in(operands) {
        Some(function) => {
            let ty = type_of(alloc, function, names)?;
            a_result(alloc, seen_type(&ty), one, a, function)
        }
        None => Ok(None),
    }
}

/// That a is an argument of a result of a function.
#[tactic(auto, using(crate::proofs::MemberLemmas::source_by_operands))]
fn in_sources(
    alloc: Global,
    names: &NameTypes,
    one: &Text,
    a: &Node,
    operands: &[Node],
) -> Result<Option<Boxed<Node>>, NoMemory>
    ensures { IfOk result (λ o. option_map pure_node o ≡ member_of_function (pure_names names.now) one.now
        (ex2 true Op2.Member (pure_node a.now) (node_ex false (pure.word Fun.PreImage) (pure_nodes operands.now)))) }
{
    match pair_in(operands) {
        Some((function, b)) => {
            let ty = type_of(alloc, function, names)?;
            a_source(alloc, seen_type(&ty), a, function, b)
        }
        None => Ok(None),
    }
}

/// An argument, where this is the type of a function.
fn an_argument(
    alloc: Global,
    ty: Option<&Ty>,
    one: &Text,
    a: &Node,
    function: &Node,
) -> Result<Option<Boxed<Node>>, NoMemory>
    ensures { IfOk result (λ o. option_map pure_node o ≡
        an_argument (option_map pure_ty (option_copied ty.entry)) one.now (pure_node a.now) (pure_node function.now)) }
{
    match ty {
        Some(Ty::Function(from, _)) => Ok(Some(some_component(
            alloc,
            one,
            1,
            from.get(),
            a,
            function,
        )?)),
        _ => Ok(None),
    }
}

/// A result, where this is the type of a function.
fn a_result(
    alloc: Global,
    ty: Option<&Ty>,
    one: &Text,
    a: &Node,
    function: &Node,
) -> Result<Option<Boxed<Node>>, NoMemory>
    ensures { IfOk result (λ o. option_map pure_node o ≡
        a_result (option_map pure_ty (option_copied ty.entry)) one.now (pure_node a.now) (pure_node function.now)) }
{
    match ty {
        Some(Ty::Function(_, to)) => Ok(Some(some_component(
            alloc,
            one,
            2,
            to.get(),
            a,
            function,
        )?)),
        _ => Ok(None),
    }
}

/// An argument of the result b, where this is the type of a function.
fn a_source(
    alloc: Global,
    ty: Option<&Ty>,
    a: &Node,
    function: &Node,
    b: &Node,
) -> Result<Option<Boxed<Node>>, NoMemory>
    ensures { IfOk result (λ o. option_map pure_node o ≡
        a_source (option_map pure_ty (option_copied ty.entry)) (pure_node a.now) (pure_node function.now) (pure_node b.now)) }
{
    match ty {
        Some(Ty::Function(_, _)) => {
            let first = a.copy(alloc)?;
            let sides = pair(alloc, first, b.copy(alloc)?)?;
            let pairs = word(alloc, false, Fun::ToRelation, function.copy(alloc)?)?;
            Ok(Some(binary(alloc, true, Op2::Member, sides, pairs)?))
        }
        _ => Ok(None),
    }
}

/// That the component of this number, which is of this type, of some pair of a function is a.
fn some_component(
    alloc: Global,
    one: &Text,
    number: u64,
    ty: &Ty,
    a: &Node,
    function: &Node,
) -> Result<Boxed<Node>, NoMemory>
    ensures { IfOk result (λ n. pure_node n ≡ some_component one.now number (pure_ty ty.now) (pure_node a.now) (pure_node function.now)) }
{
    let member = name(alloc, one)?;
    let part = component(alloc, is_truth(ty), number, member)?;
    let equal = binary(alloc, true, Op2::Eq, part, a.copy(alloc)?)?;
    let source = function.copy(alloc)?;
    some(alloc, one, source, equal)
}

/// `p in toRelation(f)` becomes `or([y = p | y <- f])`, with the name for y. Nothing for another root; `NoMemory` where there is no room
/// for it.
#[tactic(auto, using(crate::proofs::MemberLemmas::related_of_pair))]
pub fn member_related(
    alloc: Global,
    one: &Text,
    node: &Node,
) -> Result<Option<Boxed<Node>>, NoMemory>
    ensures { IfOk result (λ o. option_map pure_node o ≡ member_related one.now (pure_node node.now)) }
{
    match truth_pair(node) {
        Some((Op2::Member, (p, s))) => in_pairs(alloc, one, p, s),
        _ => Ok(None),
    }
}

/// That p is among the pairs of a function.
#[tactic(auto, using(crate::proofs::MemberLemmas::related_by_word))]
fn in_pairs(alloc: Global, one: &Text, p: &Node, s: &Node) -> Result<Option<Boxed<Node>>, NoMemory>
    ensures { IfOk result (λ o. option_map pure_node o ≡
        member_related one.now (ex2 true Op2.Member (pure_node p.now) (pure_node s.now))) }
{
    match plain_word(s) {
        Some((Fun::ToRelation, function)) => Ok(Some(equals_some(alloc, one, p, function)?)),
        _ => Ok(None),
    }
}
