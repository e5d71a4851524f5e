//! The rule of `=` between records, by their fields.
ghost use Rattle.std.specs.Prelude.{◌≡◌, ◌&&◌, IfOk, Some, None, true, if◌then◌else◌, option_map};
ghost use Rattle.std.specs.Option.{option_copied};
ghost use Rattle.ess_semantics.specs.Order.{same_text, same_texts};
ghost use Rattle.ess_semantics.specs.Trees.{ex2};
ghost use Rattle.ess_core.specs.TypeViews.{pure_ty};
ghost use Rattle.ess_core_nodes.specs.NodeViews.{pure_node};
ghost use Rattle.ess_node_types.specs.TypedNames.{pure_names};
ghost use Rattle.ess_rules_laws.specs.ComponentRules.{field_of, has_text, are_fields, equal_each, equal_where_fields, equal_fields};
ghost use Rattle.ess_rules_comparing.specs.FieldViews.{names_in, types_in};

use ess_core::{FieldTy, Op2, Ty};
use ess_core_nodes::{Node, Op, Step};
use ess_node_building::{binary, only, truth};
use ess_node_types::{NameTypes, type_of};
use ess_rows::{Boxed, NoMemory, Row, Text};
use ess_rules_forms::{both, is_truth, seen_type, truth_pair};
use std::alloc::Global;
use std::cmp::Ordering;

/// Of records with the same fields `a = b` becomes `a[f] = b[f] /\ .. /\ true`. Nothing for another root or other types;
/// `NoMemory` where there is no room for it. The name is that which each rule is given; this one binds none.
#[tactic(auto, using(crate::proofs::PairRules::fields_of_pair))]
pub fn equal_fields(
    alloc: Global,
    names: &NameTypes,
    one: &Text,
    node: &Node,
) -> Result<Option<Boxed<Node>>, NoMemory>
    ensures { IfOk result (λ o. option_map pure_node o ≡ equal_fields (pure_names names.now) one.now (pure_node node.now)) }
{
    match truth_pair(node) {
        Some((Op2::Eq, (a, b))) => {
            let first = type_of(alloc, a, names)?;
            let second = type_of(alloc, b, names)?;
            equal_where(alloc, seen_type(&first), seen_type(&second), a, b)
        }
        _ => Ok(None),
    }
}

/// That the fields are equal, where both types are of records with the same fields.
#[tactic(auto, using(ess_core::proofs::TypeEquations::pure_rec))]
fn equal_where(
    alloc: Global,
    first: Option<&Ty>,
    second: Option<&Ty>,
    a: &Node,
    b: &Node,
) -> Result<Option<Boxed<Node>>, NoMemory>
    ensures { IfOk result (λ o. option_map pure_node o ≡ equal_where_fields (option_map pure_ty (option_copied first.entry))
        (option_map pure_ty (option_copied second.entry)) (pure_node a.now) (pure_node b.now)) }
{
    match first {
        Some(Ty::Rec(first)) => match second {
            Some(Ty::Rec(second)) => equal_records(
                alloc,
                first.as_slice(),
                second.as_slice(),
                a,
                b,
            ),
            _ => Ok(None),
        },
        _ => Ok(None),
    }
}

/// The same of records with these fields.
fn equal_records(
    alloc: Global,
    first: &[FieldTy],
    second: &[FieldTy],
    a: &Node,
    b: &Node,
) -> Result<Option<Boxed<Node>>, NoMemory>
    ensures { IfOk result (λ o. option_map pure_node o ≡ (if same_texts (names_in first.now) (names_in second.now)
        && are_fields (names_in first.now) (types_in first.now) (types_in second.now)
        then Some (equal_each (names_in first.now) (types_in first.now) (types_in second.now) (pure_node a.now) (pure_node b.now))
        else None)) }
{
    if same_names(first, second) && are_fields(first, second) {
        Ok(Some(equal_each(alloc, first, second, a, b)?))
    } else {
        Ok(None)
    }
}

/// Whether the fields have the same names, in one order.
#[tactic(auto, using(ess_core::proofs::TypeEquations::pure_field_ty_is, crate::proofs::FieldLemmas::same_more))]
fn same_names(first: &[FieldTy], second: &[FieldTy]) -> bool
    ensures { result ≡ same_texts (names_in first.now) (names_in second.now) }
{
    match first.split_first() {
        None => second.is_empty(),
        Some((field, first)) => match second.split_first() {
            None => false,
            Some((other, second)) => same_name(&field.name, &other.name)
                && same_names(first, second),
        },
    }
}

/// Whether two names are equal.
fn same_name(a: &Text, b: &Text) -> bool
    ensures { result ≡ same_text a.now b.now }
{
    a.cmp(b) == Ordering::Equal
}

/// Whether a name is among those of these fields.
#[tactic(auto, using(ess_core::proofs::TypeEquations::pure_field_ty_is))]
fn has_name(fields: &[FieldTy], name: &Text) -> bool
    ensures { result ≡ has_text (names_in fields.now) name.now }
{
    match fields.split_first() {
        None => false,
        Some((field, fields)) => same_name(&field.name, name) || has_name(fields, name),
    }
}

/// Whether the names of the first fields differ, and there are as many on both sides.
#[tactic(auto, using(ess_core::proofs::TypeEquations::pure_field_ty_is))]
pub(crate) fn are_fields(first: &[FieldTy], second: &[FieldTy]) -> bool
    ensures { result ≡ are_fields (names_in first.now) (types_in first.now) (types_in second.now) }
{
    match first.split_first() {
        None => match second.split_first() {
            None => true,
            Some(_) => false,
        },
        Some((field, first)) => match second.split_first() {
            None => false,
            Some((_, second)) => !has_name(first, &field.name) && are_fields(first, second),
        },
    }
}

/// That the fields are equal.
#[tactic(auto, using(ess_core::proofs::TypeEquations::pure_field_ty_is))]
fn equal_each(
    alloc: Global,
    first: &[FieldTy],
    second: &[FieldTy],
    a: &Node,
    b: &Node,
) -> Result<Boxed<Node>, NoMemory>
    ensures { IfOk result (λ n. pure_node n ≡
        equal_each (names_in first.now) (types_in first.now) (types_in second.now) (pure_node a.now) (pure_node b.now)) }
{
    match first.split_first() {
        None => truth(alloc, true),
        Some((field, first)) => match second.split_first() {
            None => truth(alloc, true),
            Some((other, second)) => {
                let behind = equal_each(alloc, first, second, a, b)?;
                both(
                    alloc,
                    equal_field(alloc, &field.name, &field.ty, &other.ty, a, b)?,
                    behind,
                )
            }
        },
    }
}

/// That the fields of this name, of these types, are equal.
fn equal_field(
    alloc: Global,
    name: &Text,
    first: &Ty,
    second: &Ty,
    a: &Node,
    b: &Node,
) -> Result<Boxed<Node>, NoMemory>
    ensures { IfOk result (λ n. pure_node n ≡ ex2 true Op2.Eq (field_of (pure_ty first.now) name.now (pure_node a.now))
        (field_of (pure_ty second.now) name.now (pure_node b.now))) }
{
    let a = field_of(alloc, first, name, a)?;
    let b = field_of(alloc, second, name, b)?;
    binary(alloc, true, Op2::Eq, a, b)
}

/// The field of this name, which is of this type, of a record.
fn field_of(alloc: Global, ty: &Ty, name: &Text, place: &Node) -> Result<Boxed<Node>, NoMemory>
    ensures { IfOk result (λ n. pure_node n ≡ field_of (pure_ty ty.now) name.now (pure_node place.now)) }
{
    let operands = only(alloc, place.copy(alloc)?)?;
    let mut steps = Row::new(alloc);
    steps.push(Step::Field(name.copy(alloc)?))?;
    Boxed::new(alloc, Node::Op(is_truth(ty), Op::Index(steps), operands))
}
