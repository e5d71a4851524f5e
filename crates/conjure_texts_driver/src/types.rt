use ess_core::{Boxed, Env, FieldTy, NoMemory, Row, Text, Ty, TypeEntry};
use std::alloc::Global;

/// The type that a word of a case names.
pub fn type_of(alloc: Global, word: &str) -> Result<Ty, NoMemory> {
    match word {
        "int" => Ok(Ty::Int),
        "set" => Ok(Ty::Set(Boxed::new(alloc, Ty::Int)?)),
        "function" => two_of_int(alloc, false),
        "matrix" => two_of_int(alloc, true),
        "record" => Ok(Ty::Rec(Row::from_array(alloc, [field(alloc, "a")?, field(alloc, "b")?])?)),
        "partition" => Ok(Ty::Partition(Boxed::new(alloc, Ty::Int)?)),
        "U" => Ok(Ty::Named(Text::from_str(alloc, "U")?)),
        _ => Ok(Ty::Any),
    }
}

/// Functions or matrices from int to int.
fn two_of_int(alloc: Global, matrix: bool) -> Result<Ty, NoMemory> {
    let from = Boxed::new(alloc, Ty::Int)?;
    let to = Boxed::new(alloc, Ty::Int)?;
    if matrix {
        Ok(Ty::Matrix(from, to))
    } else {
        Ok(Ty::Function(from, to))
    }
}

/// A field of type int.
fn field(alloc: Global, name: &str) -> Result<FieldTy, NoMemory> {
    let name = Text::from_str(alloc, name)?;
    Ok(FieldTy { name, ty: Ty::Int })
}

/// The enumerated type `E` of `red` and `green`, and the unnamed type `U` of 12 values.
pub fn types(alloc: Global) -> Result<Env, NoMemory> {
    let red = Text::from_str(alloc, "red")?;
    let green = Text::from_str(alloc, "green")?;
    let colours = TypeEntry {
        name: Text::from_str(alloc, "E")?,
        count: 2,
        names: Row::from_array(alloc, [red, green])?,
    };
    let unnamed = TypeEntry {
        name: Text::from_str(alloc, "U")?,
        count: 12,
        names: Row::new(alloc),
    };
    Ok(Env {
        types: Row::from_array(alloc, [colours, unnamed])?,
        vals: Row::new(alloc),
    })
}
