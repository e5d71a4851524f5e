//! The type of a domain's members.
ghost use Rattle.std.specs.Prelude.{◌≡◌, map, IfOk};
ghost use Rattle.ess_semantics.specs.Types.{type_of_dom, types_of_doms, nested_ty};
ghost use Rattle.ess_semantics.specs.OperatorTypes.{record_ty};
ghost use Rattle.ess_types_operators.specs.Paired.{record_of};
ghost use Rattle.ess_core.specs.TreeViews.{pure_dom, pure_doms, pure_field_dom};
ghost use Rattle.ess_core.specs.TypeViews.{pure_ty, pure_tys, pure_field_ty};

use ess_core::{Boxed, Dom, FieldDom, FieldTy, NoMemory, Row, Ty};
use std::alloc::Global;

/// The type of a domain's members. A matrix of several indices is nested. `NoMemory` where there is no room for it.
#[cycle(type_of_dom)]
pub fn type_of_dom(alloc: Global, dom: &Dom) -> Result<Boxed<Ty>, NoMemory>
    ensures { IfOk result (λ t. pure_ty t ≡ type_of_dom (pure_dom dom.now)) }
{
    match dom {
        Dom::Bool => Boxed::new(alloc, Ty::Bool),
        Dom::Int(_) => Boxed::new(alloc, Ty::Int),
        Dom::Name(name) => Boxed::new(alloc, Ty::Named(name.copy(alloc)?)),
        Dom::Tuple(doms) => Boxed::new(alloc, Ty::Tuple(types_of_doms(alloc, doms.as_slice())?)),
        Dom::Rec(fields) => Boxed::new(alloc, Ty::Rec(types_of_fields(alloc, fields.as_slice())?)),
        Dom::Matrix(axes, item) => {
            let item = type_of_dom(alloc, item.get())?;
            nested(alloc, axes.as_slice(), item)
        }
        Dom::Set(_, member) => Boxed::new(alloc, Ty::Set(type_of_dom(alloc, member.get())?)),
        Dom::MSet(_, member) => Boxed::new(alloc, Ty::MSet(type_of_dom(alloc, member.get())?)),
        Dom::Function(_, from, to) => {
            let from = type_of_dom(alloc, from.get())?;
            let to = type_of_dom(alloc, to.get())?;
            Boxed::new(alloc, Ty::Function(from, to))
        }
        Dom::Relation(_, doms) => {
            Boxed::new(alloc, Ty::Relation(types_of_doms(alloc, doms.as_slice())?))
        }
        Dom::Partition(_, member) => {
            Boxed::new(alloc, Ty::Partition(type_of_dom(alloc, member.get())?))
        }
    }
}

/// The types of several domains' members.
#[cycle(type_of_dom)]
fn types_of_doms(alloc: Global, doms: &[Dom]) -> Result<Row<Ty>, NoMemory>
    ensures { IfOk result (λ r. pure_tys r ≡ types_of_doms (pure_doms doms.now)) }
{
    Ok(each_type(alloc, doms)?)
}

/// The types of several domains' members, one by one.
#[cycle(type_of_dom)]
fn each_type(alloc: Global, doms: &[Dom]) -> Result<Row<Ty>, NoMemory>
    ensures { IfOk result (λ r. map pure_ty r ≡ map (λ d. type_of_dom (pure_dom d)) doms.now) }
{
    let mut tys = Row::with_capacity(alloc, doms.len())?;
    for dom in doms {
        tys.push(type_of_dom(alloc, dom)?.into_inner())?;
    }
    Ok(tys)
}

/// The fields of a record's type.
#[cycle(type_of_dom)]
fn types_of_fields(alloc: Global, fields: &[FieldDom]) -> Result<Row<FieldTy>, NoMemory>
    ensures { IfOk result (λ r. record_ty (map pure_field_ty r) ≡ type_of_dom (record_of (map pure_field_dom fields.now))) }
{
    Ok(each_field(alloc, fields)?)
}

/// The fields of a record's type, one by one.
#[cycle(type_of_dom)]
fn each_field(alloc: Global, fields: &[FieldDom]) -> Result<Row<FieldTy>, NoMemory>
    ensures { IfOk result (λ r. map pure_field_ty r ≡ map (λ f. ((pure_field_dom f).0, type_of_dom (pure_field_dom f).1)) fields.now) }
{
    let mut tys = Row::with_capacity(alloc, fields.len())?;
    for field in fields {
        tys.push(type_of_field(alloc, field)?.into_inner())?;
    }
    Ok(tys)
}

/// A field of a record's type.
#[cycle(type_of_dom)]
fn type_of_field(alloc: Global, field: &FieldDom) -> Result<Boxed<FieldTy>, NoMemory>
    ensures { IfOk result (λ t. pure_field_ty t ≡ ((pure_field_dom field.now).0, type_of_dom (pure_field_dom field.now).1)) }
{
    let ty = type_of_dom(alloc, &field.dom)?;
    let name = field.name.copy(alloc)?;
    Boxed::new(
        alloc,
        FieldTy {
            name,
            ty: ty.into_inner(),
        },
    )
}

/// The type of a matrix over these index domains with items of this type.
#[cycle(type_of_dom)]
#[tactic(auto, using(crate::proofs::DomainTypes::nested_more))]
fn nested(alloc: Global, axes: &[Dom], item: Boxed<Ty>) -> Result<Boxed<Ty>, NoMemory>
    ensures { IfOk result (λ t. pure_ty t ≡ nested_ty (pure_doms axes.now) (pure_ty item)) }
{
    let mut ty = item;
    for k in 0..axes.len() {
        let index = type_of_dom(alloc, &axes[axes.len() - 1 - k])?;
        ty = Boxed::new(alloc, Ty::Matrix(index, ty))?;
    }
    Ok(ty)
}
