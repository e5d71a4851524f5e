//! The types of nodes, from those of their operands.
ghost use Rattle.std.specs.Prelude.{◌≡◌, None, map, option_map, IfOk};
ghost use Rattle.ess_semantics.specs.Values.{a_matrix};
ghost use Rattle.ess_semantics.specs.Types.{compound2, int_ty};
ghost use Rattle.ess_semantics.specs.OperatorTypes.{type_of_op};
ghost use Rattle.ess_semantics.specs.Trees.{unary, binary, application};
ghost use Rattle.ess_semantics.specs.Typing.{static, type_behind, part_behind, a_number, a_name};
ghost use Rattle.ess_core.specs.TypeViews.{pure_ty};
ghost use Rattle.ess_core.specs.TreeViews.{pure_ex};
ghost use Rattle.ess_types_judging.specs.Findings.{pure_node};

use crate::nodes::Node;
use ess_core::{Boxed, Ex, NoMemory, Op1, Op2, Row, Text, Ty};
use ess_types_operators::{
    component_type, field_type, step_type, type_of_application, type_of_binary,
    type_of_comprehension, type_of_function, type_of_list, type_of_mset, type_of_partition,
    type_of_record, type_of_relation, type_of_set, type_of_tuple, type_of_unary, type_of_word,
};
use std::alloc::Global;

/// The type of a node but an index, where its operands' types fit. `NoMemory` where there is no room for it.
pub(crate) fn type_of_operator(
    alloc: Global,
    node: &Node<'_>,
    tys: Row<Ty>,
) -> Result<Option<Boxed<Ty>>, NoMemory>
    ensures { IfOk result (λ o. option_map pure_ty o ≡ type_of_op (pure_node node.now) (map pure_ty tys)) }
{
    match node {
        Node::Unary(op) => type_on_one(alloc, *op, tys.as_slice()),
        Node::Binary(op) => type_on_two(alloc, *op, tys.as_slice()),
        Node::Word(fun) => type_of_word(alloc, *fun, tys.as_slice()),
        Node::Application => type_applied(alloc, tys.as_slice()),
        Node::Tuple => Ok(Some(type_of_tuple(alloc, tys)?)),
        Node::Record(fields) => Ok(Some(type_of_record(alloc, fields, tys.as_slice())?)),
        Node::Set => type_of_set(alloc, tys.as_slice()),
        Node::MSet => type_of_mset(alloc, tys.as_slice()),
        Node::Function => type_of_function(alloc, tys.as_slice()),
        Node::Relation => type_of_relation(alloc, tys.as_slice()),
        Node::Partition => type_of_partition(alloc, tys.as_slice()),
        Node::List => type_of_list(alloc, tys.as_slice()),
    }
}

/// The type of an operator on operands of these types, where there is one of them.
#[tactic(auto, using(crate::proofs::TypingLemmas::one_typed, crate::proofs::TypingLemmas::one_untyped))]
fn type_on_one(alloc: Global, op: Op1, tys: &[Ty]) -> Result<Option<Boxed<Ty>>, NoMemory>
    ensures { IfOk result (λ o. option_map pure_ty o ≡ type_of_op (unary op) (map pure_ty tys.now)) }
{
    if tys.len() == 1 {
        Ok(type_of_unary(alloc, op, &tys[0])?)
    } else {
        Ok(None)
    }
}

/// The type of an operator on operands of these types, where there are two of them.
#[tactic(auto, using(crate::proofs::TypingLemmas::two_typed, crate::proofs::TypingLemmas::two_untyped))]
fn type_on_two(alloc: Global, op: Op2, tys: &[Ty]) -> Result<Option<Boxed<Ty>>, NoMemory>
    ensures { IfOk result (λ o. option_map pure_ty o ≡ type_of_op (binary op) (map pure_ty tys.now)) }
{
    if tys.len() == 2 {
        Ok(type_of_binary(alloc, op, &tys[0], &tys[1])?)
    } else {
        Ok(None)
    }
}

/// The type of an application, where these are the types of what is applied and of the arguments.
#[tactic(auto, using(crate::proofs::TypingLemmas::applied_typed, crate::proofs::TypingLemmas::applied_untyped))]
fn type_applied(alloc: Global, tys: &[Ty]) -> Result<Option<Boxed<Ty>>, NoMemory>
    ensures { IfOk result (λ o. option_map pure_ty o ≡ type_of_op application (map pure_ty tys.now)) }
{
    if tys.len() == 0 {
        Ok(None)
    } else {
        Ok(type_of_application(alloc, &tys[0], &tys[1..])?)
    }
}

/// The type of a list of items of this type, where there is one.
pub(crate) fn list_type(alloc: Global, ty: Option<Boxed<Ty>>) -> Result<Option<Boxed<Ty>>, NoMemory>
    ensures { IfOk result (λ o. option_map pure_ty o ≡ option_map (compound2 a_matrix int_ty) (option_map pure_ty ty)) }
{
    match ty {
        Some(ty) => Ok(Some(type_of_comprehension(alloc, ty)?)),
        None => Ok(None),
    }
}

/// The type that a step by a value reaches, where there is a place, and where `index` is the type of the value.
pub(crate) fn type_behind_value(
    alloc: Global,
    place: &Option<Boxed<Ty>>,
    ex: &Ex,
    index: &Option<Boxed<Ty>>,
) -> Result<Option<Boxed<Ty>>, NoMemory>
    ensures { IfOk result (λ o. option_map pure_ty o ≡ type_behind (option_map pure_ty place.now) (static (pure_ex ex.now)) (option_map pure_ty index.now)) }
{
    match (place, index) {
        (Some(place), Some(ty)) => step_type(alloc, place.get(), ex, Some(ty.get())),
        (Some(place), None) => step_type(alloc, place.get(), ex, None),
        (None, _) => Ok(None),
    }
}

/// The type that a step to a component reaches, where there is a place.
pub(crate) fn type_behind_component(
    alloc: Global,
    place: &Option<Boxed<Ty>>,
    number: u64,
) -> Result<Option<Boxed<Ty>>, NoMemory>
    ensures { IfOk result (λ o. option_map pure_ty o ≡ part_behind (option_map pure_ty place.now) (a_number number)) }
{
    match place {
        Some(place) => component_type(alloc, place.get(), number),
        None => Ok(None),
    }
}

/// The type that a step to a field reaches, where there is a place.
pub(crate) fn type_behind_field(
    alloc: Global,
    place: &Option<Boxed<Ty>>,
    name: &Text,
) -> Result<Option<Boxed<Ty>>, NoMemory>
    ensures { IfOk result (λ o. option_map pure_ty o ≡ part_behind (option_map pure_ty place.now) (a_name name.now)) }
{
    match place {
        Some(place) => field_type(alloc, place.get(), name),
        None => Ok(None),
    }
}
