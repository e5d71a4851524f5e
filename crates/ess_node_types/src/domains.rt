//! The type of a domain's members.
ghost use Rattle.std.specs.Prelude.{◌≡◌, map, IfOk};
ghost use Rattle.ess_semantics.specs.Types.{type_of_dom, types_of_doms, nested_ty};
ghost use Rattle.ess_core.specs.TypeViews.{pure_ty, pure_tys};
ghost use Rattle.ess_core_nodes.specs.NodeViews.{pure_dom, pure_doms};

use crate::records::record_type;
use ess_core::Ty;
use ess_core_nodes::NodeDom;
use ess_rows::{Boxed, NoMemory, Row};
use std::alloc::Global;

/// The type of a domain's members. A matrix of several indices is nested. `NoMemory` where there is no room for it, and where a
/// record hasn't as many names as domains.
#[cycle(type_of_dom)]
pub fn type_of_dom(alloc: Global, dom: &NodeDom) -> Result<Boxed<Ty>, NoMemory>
    ensures { IfOk result (λ t. pure_ty t ≡ type_of_dom (pure_dom dom.now)) }
{
    match dom {
        NodeDom::Bool => Boxed::new(alloc, Ty::Bool),
        NodeDom::Int(_, _) => Boxed::new(alloc, Ty::Int),
        NodeDom::Name(name) => Boxed::new(alloc, Ty::Named(name.copy(alloc)?)),
        NodeDom::Tuple(doms) => {
            Boxed::new(alloc, Ty::Tuple(types_of_doms(alloc, doms.as_slice())?))
        }
        NodeDom::Record(names, doms) => {
            let tys = types_of_doms(alloc, doms.as_slice())?;
            record_type(alloc, names.as_slice(), tys.as_slice())
        }
        NodeDom::Matrix(axes, item) => {
            let item = type_of_dom(alloc, item.get())?;
            nested(alloc, axes.as_slice(), item)
        }
        NodeDom::Set(_, _, member) => Boxed::new(alloc, Ty::Set(type_of_dom(alloc, member.get())?)),
        NodeDom::MSet(_, _, member) => {
            Boxed::new(alloc, Ty::MSet(type_of_dom(alloc, member.get())?))
        }
        NodeDom::Function(_, _, from, to) => {
            let from = type_of_dom(alloc, from.get())?;
            let to = type_of_dom(alloc, to.get())?;
            Boxed::new(alloc, Ty::Function(from, to))
        }
        NodeDom::Relation(_, _, doms) => {
            Boxed::new(alloc, Ty::Relation(types_of_doms(alloc, doms.as_slice())?))
        }
        NodeDom::Partition(_, _, member) => {
            Boxed::new(alloc, Ty::Partition(type_of_dom(alloc, member.get())?))
        }
    }
}

/// The types of several domains' members.
#[cycle(type_of_dom)]
#[tactic(auto, using(crate::proofs::DomainTypes::all_types))]
fn types_of_doms(alloc: Global, doms: &[NodeDom]) -> Result<Row<Ty>, NoMemory>
    ensures { IfOk result (λ r. pure_tys r ≡ types_of_doms (pure_doms doms.now)) }
{
    Ok(each_type(alloc, doms)?)
}

/// The types of several domains' members, one by one.
#[cycle(type_of_dom)]
fn each_type(alloc: Global, doms: &[NodeDom]) -> Result<Row<Ty>, NoMemory>
    ensures { IfOk result (λ r. map pure_ty r ≡ map (λ d. type_of_dom (pure_dom d)) doms.now) }
{
    let mut tys = Row::with_capacity(alloc, doms.len())?;
    for dom in doms {
        tys.push(type_of_dom(alloc, dom)?.into_inner())?;
    }
    Ok(tys)
}

/// The type of a matrix over these index domains with items of this type.
#[cycle(type_of_dom)]
#[tactic(auto, using(crate::proofs::DomainTypes::nested_more))]
fn nested(alloc: Global, axes: &[NodeDom], item: Boxed<Ty>) -> Result<Boxed<Ty>, NoMemory>
    ensures { IfOk result (λ t. pure_ty t ≡ nested_ty (pure_doms axes.now) (pure_ty item)) }
{
    let mut ty = item;
    for k in 0..axes.len() {
        let index = type_of_dom(alloc, &axes[axes.len() - 1 - k])?;
        ty = Boxed::new(alloc, Ty::Matrix(index, ty))?;
    }
    Ok(ty)
}
