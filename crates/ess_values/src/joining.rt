ghost use Rattle.std.specs.Prelude.{◌≡◌, map, option_map, IfOk};
ghost use Rattle.ess_semantics.specs.Lists.{when};
ghost use Rattle.ess_semantics.specs.Order.{same_kind as same_kinds, same_text, same_texts};
ghost use Rattle.ess_semantics.specs.Types.{join as join_of, join_all as join_of_all, named_ty, compound, is_open, is_relation};
ghost use Rattle.ess_values.specs.Shapes.{pure_kind, pure_shape, pure_shapes, join_lists};

use crate::naming::same_name;
use crate::shapes::{Kind, Shape, copy_shapes};
use ess_core::{Boxed, NoMemory, Row, Text};
use std::alloc::Global;

/// The type with which both agree, where there is one. `NoMemory` where there is no room for it.
#[cycle(join)]
pub fn join(alloc: Global, a: &Shape, b: &Shape) -> Result<Option<Boxed<Shape>>, NoMemory>
    ensures { IfOk result (λ o. option_map pure_shape o ≡ join_of (pure_shape a.now) (pure_shape b.now)) }
{
    match (a, b) {
        (Shape::Any, _) => Ok(Some(Boxed::new(alloc, b.copy(alloc)?)?)),
        (_, Shape::Any) => Ok(Some(Boxed::new(alloc, a.copy(alloc)?)?)),
        (Shape::Bool, Shape::Bool) => Ok(Some(Boxed::new(alloc, Shape::Bool)?)),
        (Shape::Int, Shape::Int) => Ok(Some(Boxed::new(alloc, Shape::Int)?)),
        (Shape::Named(x), Shape::Named(y)) => join_names(alloc, x, y),
        (Shape::Node(kind, xs), Shape::Node(other, ys)) => {
            if same_kind(kind, other) {
                Ok(join_nodes(alloc, kind, xs.as_slice(), ys.as_slice())?)
            } else {
                Ok(None)
            }
        }
        (_, _) => Ok(None),
    }
}

/// The type of two names, where they are equal.
fn join_names(alloc: Global, a: &Text, b: &Text) -> Result<Option<Boxed<Shape>>, NoMemory>
    ensures { IfOk result (λ o. option_map pure_shape o ≡ when (same_text a.now b.now) (named_ty a.now)) }
{
    if same_name(a, b) {
        Ok(Some(Boxed::new(alloc, Shape::Named(a.copy(alloc)?))?))
    } else {
        Ok(None)
    }
}

/// The join of two types of one kind: a relation of unknown arity has the parts of the other one.
#[cycle(join)]
#[tactic(auto, using(crate::proofs::Joins::node_none))]
fn join_nodes(
    alloc: Global,
    kind: &Kind,
    xs: &[Shape],
    ys: &[Shape],
) -> Result<Option<Boxed<Shape>>, NoMemory>
    ensures { IfOk result (λ o. option_map pure_shape o ≡ join_of (compound (pure_kind kind.now) (pure_shapes xs.now)) (compound (pure_kind kind.now) (pure_shapes ys.now))) }
{
    if is_open(kind, xs) {
        let parts = copy_shapes(alloc, ys)?;
        return Ok(Some(Boxed::new(alloc, Shape::Node(kind.copy(alloc)?, parts))?));
    }
    if is_open(kind, ys) {
        let parts = copy_shapes(alloc, xs)?;
        return Ok(Some(Boxed::new(alloc, Shape::Node(kind.copy(alloc)?, parts))?));
    }
    match join_each(alloc, xs, ys)? {
        Some(parts) => Ok(Some(Boxed::new(alloc, Shape::Node(kind.copy(alloc)?, parts))?)),
        None => Ok(None),
    }
}

/// Whether these are the parts of a relation of unknown arity.
#[tactic(auto, using(crate::proofs::Joins::open_relation, crate::proofs::Joins::open_other))]
fn is_open(kind: &Kind, parts: &[Shape]) -> bool
    ensures { result ≡ is_open (pure_kind kind.now) (pure_shapes parts.now) }
{
    parts.is_empty() && is_relation(kind)
}

/// Whether the kind is that of relations.
fn is_relation(kind: &Kind) -> bool
    ensures { result ≡ is_relation (pure_kind kind.now) }
{
    match kind {
        Kind::Relation => true,
        Kind::Tuple => false,
        Kind::Matrix => false,
        Kind::Set => false,
        Kind::MSet => false,
        Kind::Function => false,
        Kind::Partition => false,
        Kind::Rec(_) => false,
    }
}

/// The joins of types in pairs, where there are as many on both sides and each pair has one.
#[cycle(join)]
#[tactic(auto, using(crate::proofs::Joins::each_step, crate::proofs::Joins::each_none, crate::proofs::Joins::each_end, crate::proofs::Joins::each_short, crate::proofs::Joins::each_long))]
fn join_each(alloc: Global, xs: &[Shape], ys: &[Shape]) -> Result<Option<Row<Shape>>, NoMemory>
    ensures { IfOk result (λ o. option_map (map pure_shape) o ≡ join_lists (map pure_shape xs.now) (map pure_shape ys.now)) }
{
    let mut joined = Row::new(alloc);
    for (i, x) in xs.iter().enumerate() {
        if i >= ys.len() {
            return Ok(None);
        }
        match join(alloc, x, &ys[i])? {
            Some(shape) => joined.push(shape.into_inner())?,
            None => return Ok(None),
        }
    }
    if xs.len() < ys.len() {
        Ok(None)
    } else {
        Ok(Some(joined))
    }
}

/// The type with which all agree, where there is one. `NoMemory` where there is no room for it.
#[tactic(auto, using(crate::proofs::Joins::all_more, crate::proofs::Joins::all_none))]
pub fn join_all(alloc: Global, shapes: &[Shape]) -> Result<Option<Boxed<Shape>>, NoMemory>
    ensures { IfOk result (λ o. option_map pure_shape o ≡ join_of_all (map pure_shape shapes.now)) }
{
    let mut joined = Boxed::new(alloc, Shape::Any)?;
    for k in 0..shapes.len() {
        match join(alloc, &shapes[shapes.len() - 1 - k], joined.get())? {
            Some(shape) => joined = shape,
            None => return Ok(None),
        }
    }
    Ok(Some(joined))
}

/// Whether two kinds are equal.
fn same_kind(a: &Kind, b: &Kind) -> bool
    ensures { result ≡ same_kinds (pure_kind a.now) (pure_kind b.now) }
{
    match (a, b) {
        (Kind::Tuple, Kind::Tuple) => true,
        (Kind::Matrix, Kind::Matrix) => true,
        (Kind::Set, Kind::Set) => true,
        (Kind::MSet, Kind::MSet) => true,
        (Kind::Function, Kind::Function) => true,
        (Kind::Relation, Kind::Relation) => true,
        (Kind::Partition, Kind::Partition) => true,
        (Kind::Rec(names), Kind::Rec(others)) => same_names(names.as_slice(), others.as_slice()),
        (_, _) => false,
    }
}

/// Whether two lists of names are equal.
#[tactic(auto, using(crate::proofs::Joins::more_names, crate::proofs::Joins::other_name, crate::proofs::Joins::less_names, crate::proofs::Joins::longer_names, crate::proofs::Joins::no_more_names))]
fn same_names(a: &[Text], b: &[Text]) -> bool
    ensures { result ≡ same_texts a.now b.now }
{
    for (i, x) in a.iter().enumerate() {
        if i >= b.len() {
            return false;
        }
        if !same_name(x, &b[i]) {
            return false;
        }
    }
    if a.len() < b.len() {
        return false;
    }
    true
}
