ghost use Rattle.std.specs.Prelude.{◌≡◌, IfOk};

use super::{both, boxed};
use crate::{FieldTy, Ty};
use ess_rows::{NoMemory, Row};
use std::alloc::Global;

impl Ty {
    /// A copy, which equals this type. `NoMemory` where there is no room for it.
    #[cycle(copy_ty)]
    pub fn copy(&self, alloc: Global) -> Result<Ty, NoMemory>
        ensures { IfOk result (λ t. t ≡ self.now) }
    {
        match self {
            Ty::Any => Ok(Ty::Any),
            Ty::Bool => Ok(Ty::Bool),
            Ty::Int => Ok(Ty::Int),
            Ty::Named(name) => match name.copy(alloc) {
                Ok(copy) => Ok(Ty::Named(copy)),
                Err(no) => Err(no)
            },
            Ty::Tuple(items) => match copy_tys(alloc, items) {
                Ok(copy) => Ok(Ty::Tuple(copy)),
                Err(no) => Err(no)
            },
            Ty::Rec(fields) => match copy_fields(alloc, fields) {
                Ok(copy) => Ok(Ty::Rec(copy)),
                Err(no) => Err(no)
            },
            Ty::Matrix(index, item) => {
                let index = boxed(alloc, index.get().copy(alloc));
                let (index, item) = both(index, boxed(alloc, item.get().copy(alloc)))?;
                Ok(Ty::Matrix(index, item))
            }
            Ty::Set(member) => match boxed(alloc, member.get().copy(alloc)) {
                Ok(copy) => Ok(Ty::Set(copy)),
                Err(no) => Err(no)
            },
            Ty::MSet(member) => match boxed(alloc, member.get().copy(alloc)) {
                Ok(copy) => Ok(Ty::MSet(copy)),
                Err(no) => Err(no)
            },
            Ty::Function(from, to) => {
                let from = boxed(alloc, from.get().copy(alloc));
                let (from, to) = both(from, boxed(alloc, to.get().copy(alloc)))?;
                Ok(Ty::Function(from, to))
            }
            Ty::Relation(items) => match copy_tys(alloc, items) {
                Ok(copy) => Ok(Ty::Relation(copy)),
                Err(no) => Err(no)
            },
            Ty::Partition(member) => match boxed(alloc, member.get().copy(alloc)) {
                Ok(copy) => Ok(Ty::Partition(copy)),
                Err(no) => Err(no)
            },
        }
    }
}

impl FieldTy {
    /// A copy, which equals this field. `NoMemory` where there is no room for it.
    #[cycle(copy_ty)]
    pub fn copy(&self, alloc: Global) -> Result<FieldTy, NoMemory>
        ensures { IfOk result (λ f. f ≡ self.now) }
    {
        match both(self.name.copy(alloc), self.ty.copy(alloc)) {
            Ok((name, ty)) => Ok(FieldTy { name, ty }),
            Err(no) => Err(no),
        }
    }
}

#[cycle(copy_ty)]
fn copy_tys(alloc: Global, tys: &Row<Ty>) -> Result<Row<Ty>, NoMemory>
    ensures { IfOk result (λ ts. ts ≡ tys.now) }
{
    let mut copies = Row::with_capacity(alloc, tys.len())?;
    for ty in tys.as_slice() {
        match ty.copy(alloc) {
            Ok(copy) => copies.push(copy)?,
            Err(no) => return Err(no),
        }
    }
    Ok(copies)
}

#[cycle(copy_ty)]
fn copy_fields(alloc: Global, fields: &Row<FieldTy>) -> Result<Row<FieldTy>, NoMemory>
    ensures { IfOk result (λ fs. fs ≡ fields.now) }
{
    let mut copies = Row::with_capacity(alloc, fields.len())?;
    for field in fields.as_slice() {
        match field.copy(alloc) {
            Ok(copy) => copies.push(copy)?,
            Err(no) => return Err(no),
        }
    }
    Ok(copies)
}
