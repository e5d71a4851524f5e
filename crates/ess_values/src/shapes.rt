ghost use Rattle.std.specs.Prelude.{◌≡◌, [], ◌∷◌, map, option_map, IfOk};
ghost use Rattle.ess_semantics.specs.Names.{keys};
ghost use Rattle.ess_core.specs.TypeViews.{pure_ty, pure_field_ty};
ghost use Rattle.ess_values.specs.Shapes.{pure_shape};

use ess_core::{Boxed, FieldTy, NoMemory, Row, Text, Ty};
use std::alloc::Global;

/// What a compound type is.
#[derive(Drop)]
pub enum Kind {
    Tuple,
    Matrix,
    Set,
    MSet,
    Function,
    Relation,
    Partition,
    /// A record, by the names of its fields in the order of their bytes.
    Rec(Row<Text>),
}

/// A type, with the parts of each compound one in one list.
#[derive(Drop)]
#[cycle(shape)]
pub enum Shape {
    /// The type of the members of an empty literal.
    Any,
    Bool,
    Int,
    Named(Text),
    Node(Kind, Row<Shape>),
}

impl Kind {
    /// A copy. `NoMemory` where there is no room for it.
    pub fn copy(&self, alloc: Global) -> Result<Kind, NoMemory>
        ensures { IfOk result (λ k. k ≡ self.now) }
    {
        match self {
            Kind::Tuple => Ok(Kind::Tuple),
            Kind::Matrix => Ok(Kind::Matrix),
            Kind::Set => Ok(Kind::Set),
            Kind::MSet => Ok(Kind::MSet),
            Kind::Function => Ok(Kind::Function),
            Kind::Relation => Ok(Kind::Relation),
            Kind::Partition => Ok(Kind::Partition),
            Kind::Rec(names) => Ok(Kind::Rec(copy_names(alloc, names.as_slice())?)),
        }
    }
}

/// Copies of several names.
fn copy_names(alloc: Global, names: &[Text]) -> Result<Row<Text>, NoMemory>
    ensures { IfOk result (λ r. r ≡ names.now) }
{
    let mut copies = Row::with_capacity(alloc, names.len())?;
    for name in names {
        copies.push(name.copy(alloc)?)?;
    }
    Ok(copies)
}

impl Shape {
    /// A copy. `NoMemory` where there is no room for it.
    #[cycle(copy_shape)]
    pub fn copy(&self, alloc: Global) -> Result<Shape, NoMemory>
        ensures { IfOk result (λ s. s ≡ self.now) }
    {
        match self {
            Shape::Any => Ok(Shape::Any),
            Shape::Bool => Ok(Shape::Bool),
            Shape::Int => Ok(Shape::Int),
            Shape::Named(name) => Ok(Shape::Named(name.copy(alloc)?)),
            Shape::Node(kind, parts) => {
                let copies = copy_shapes(alloc, parts.as_slice())?;
                Ok(Shape::Node(kind.copy(alloc)?, copies))
            }
        }
    }
}

/// Copies of several shapes. `NoMemory` where there is no room for them.
#[cycle(copy_shape)]
pub fn copy_shapes(alloc: Global, shapes: &[Shape]) -> Result<Row<Shape>, NoMemory>
    ensures { IfOk result (λ r. r ≡ shapes.now) }
{
    let mut copies = Row::with_capacity(alloc, shapes.len())?;
    for shape in shapes {
        copies.push(shape.copy(alloc)?)?;
    }
    Ok(copies)
}

/// A shape alone in a row. `NoMemory` where there is no room for it.
pub fn one_shape(alloc: Global, shape: Boxed<Shape>) -> Result<Row<Shape>, NoMemory>
    ensures { IfOk result (λ r. r ≡ shape ∷ []) }
{
    let mut row = Row::with_capacity(alloc, 1)?;
    row.push(shape.into_inner())?;
    Ok(row)
}

/// Two shapes in a row. `NoMemory` where there is no room for them.
pub fn two_shapes(alloc: Global, a: Boxed<Shape>, b: Boxed<Shape>) -> Result<Row<Shape>, NoMemory>
    ensures { IfOk result (λ r. r ≡ a ∷ b ∷ []) }
{
    let mut row = Row::with_capacity(alloc, 2)?;
    row.push(a.into_inner())?;
    row.push(b.into_inner())?;
    Ok(row)
}

/// The shape of a type. `NoMemory` where there is no room for it.
#[cycle(shape_of)]
pub fn shape_of(alloc: Global, ty: &Ty) -> Result<Shape, NoMemory>
    ensures { IfOk result (λ s. pure_shape s ≡ pure_ty ty.now) }
{
    match ty {
        Ty::Any => Ok(Shape::Any),
        Ty::Bool => Ok(Shape::Bool),
        Ty::Int => Ok(Shape::Int),
        Ty::Named(name) => Ok(Shape::Named(name.copy(alloc)?)),
        Ty::Tuple(parts) => {
            let shapes = shapes_of(alloc, parts.as_slice())?;
            Ok(Shape::Node(Kind::Tuple, shapes))
        }
        Ty::Rec(fields) => {
            let shapes = field_shapes(alloc, fields.as_slice())?;
            let names = field_names(alloc, fields.as_slice())?;
            Ok(Shape::Node(Kind::Rec(names), shapes))
        }
        Ty::Matrix(index, item) => {
            let first = Boxed::new(alloc, shape_of(alloc, index.get())?)?;
            let last = Boxed::new(alloc, shape_of(alloc, item.get())?)?;
            let shapes = two_shapes(alloc, first, last)?;
            Ok(Shape::Node(Kind::Matrix, shapes))
        }
        Ty::Set(member) => {
            let part = Boxed::new(alloc, shape_of(alloc, member.get())?)?;
            let shapes = one_shape(alloc, part)?;
            Ok(Shape::Node(Kind::Set, shapes))
        }
        Ty::MSet(member) => {
            let part = Boxed::new(alloc, shape_of(alloc, member.get())?)?;
            let shapes = one_shape(alloc, part)?;
            Ok(Shape::Node(Kind::MSet, shapes))
        }
        Ty::Function(from, to) => {
            let first = Boxed::new(alloc, shape_of(alloc, from.get())?)?;
            let last = Boxed::new(alloc, shape_of(alloc, to.get())?)?;
            let shapes = two_shapes(alloc, first, last)?;
            Ok(Shape::Node(Kind::Function, shapes))
        }
        Ty::Relation(parts) => {
            let shapes = shapes_of(alloc, parts.as_slice())?;
            Ok(Shape::Node(Kind::Relation, shapes))
        }
        Ty::Partition(member) => {
            let part = Boxed::new(alloc, shape_of(alloc, member.get())?)?;
            let shapes = one_shape(alloc, part)?;
            Ok(Shape::Node(Kind::Partition, shapes))
        }
    }
}

/// The shapes of several types.
#[cycle(shape_of)]
fn shapes_of(alloc: Global, tys: &[Ty]) -> Result<Row<Shape>, NoMemory>
    ensures { IfOk result (λ r. map pure_shape r ≡ map pure_ty tys.now) }
{
    let mut shapes = Row::with_capacity(alloc, tys.len())?;
    for ty in tys {
        shapes.push(shape_of(alloc, ty)?)?;
    }
    Ok(shapes)
}

/// The shapes of the types of several fields.
#[cycle(shape_of)]
fn field_shapes(alloc: Global, fields: &[FieldTy]) -> Result<Row<Shape>, NoMemory>
    ensures { IfOk result (λ r. map pure_shape r ≡ map (λ f. f.1) (map pure_field_ty fields.now)) }
{
    let mut shapes = Row::with_capacity(alloc, fields.len())?;
    for field in fields {
        shapes.push(shape_of(alloc, &field.ty)?)?;
    }
    Ok(shapes)
}

/// The names of several fields.
fn field_names(alloc: Global, fields: &[FieldTy]) -> Result<Row<Text>, NoMemory>
    ensures { IfOk result (λ r. r ≡ keys (map pure_field_ty fields.now)) }
{
    let mut names = Row::with_capacity(alloc, fields.len())?;
    for field in fields {
        names.push(field.name.copy(alloc)?)?;
    }
    Ok(names)
}
