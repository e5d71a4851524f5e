ghost use Rattle.std.specs.Prelude.{◌≡◌, map, true, IfOk};
ghost use Rattle.std.specs.List.{list_all};
ghost use Rattle.ess_core.specs.ValueViews.{pure_val};
ghost use Rattle.ess_semantics.specs.Membership.{is_set};

use crate::specifications::refusal;
use crate::types::{type_of, types};
use ess_core::{Boxed, Env, Ex, NoMemory, Pair, Row, Text, Ty, Val};
use ess_parse::{Letting, Lettings, read_lettings};
use ess_values::{
    FunctionNo, PartitionNo, ValNo, function_of, mset_of, order, partition_of, print_val, set_of,
    val_of,
};
use std::alloc::Global;
use std::cmp::Ordering;

/// The file with one letting of a text.
fn file(alloc: Global, text: &str) -> Result<Text, NoMemory> {
    let mut out = Text::from_str(alloc, "letting v be ")?;
    out.push_str(text)?;
    Ok(out)
}

/// The expression of the first letting.
fn first(file: &Lettings) -> Option<&Ex> {
    match file.list.first() {
        Some(Letting::Value(_, ex)) => Some(ex),
        _ => None,
    }
}

/// What is printed of a value.
fn printed(alloc: Global, val: Val) -> Result<Text, NoMemory> {
    let env = types(alloc);
    let val = Boxed::new(alloc, val)?;
    print_val(alloc, val.get(), &env?)
}

/// The value of a literal in a box, where it has one.
fn boxed_value(alloc: Global, ex: &Ex, ty: &Ty) -> Result<Option<Boxed<Val>>, NoMemory> {
    let env = types(alloc)?;
    match val_of(alloc, ex, ty, &env) {
        Ok(val) => Ok(Some(Boxed::new(alloc, val)?)),
        Err(ValNo::NotAValue) => Ok(None),
        Err(ValNo::NoMemory) => Err(NoMemory),
    }
}

/// What is printed of the value of an expression.
fn said(alloc: Global, ex: &Ex, ty: &Ty) -> Result<Text, NoMemory> {
    match boxed_value(alloc, ex, ty)? {
        Some(val) => print_val(alloc, val.get(), &types(alloc)?),
        None => Text::from_str(alloc, "no value"),
    }
}

/// What is printed of the value of a text.
fn said_of(alloc: Global, text: &str, ty: &Ty) -> Result<Text, NoMemory> {
    let file = file(alloc, text)?;
    match read_lettings(alloc, file.as_bytes()) {
        Ok(lettings) => match first(&lettings) {
            Some(ex) => said(alloc, ex, ty),
            None => Text::from_str(alloc, "no expression"),
        },
        Err(why) => refusal(alloc, why),
    }
}

/// What is printed of the value of a text, at whatever type it has.
pub fn value(alloc: Global, text: &str) -> Result<Text, NoMemory> {
    said_of(alloc, text, &Ty::Any)
}

/// What is printed of the value of a text at a type.
pub fn value_at(alloc: Global, case: &str) -> Result<Text, NoMemory> {
    match case.split_once(" ~ ") {
        Some((word, text)) => {
            let ty = Boxed::new(alloc, type_of(alloc, word)?)?;
            said_of(alloc, text, ty.get())
        }
        None => Text::from_str(alloc, "no type and text"),
    }
}

/// The items of the matrix that an expression has as its value; none of any other.
fn items_of(alloc: Global, ex: &Ex) -> Result<Row<Val>, NoMemory> {
    match boxed_value(alloc, ex, &Ty::Any)? {
        Some(val) => match val.into_inner() {
            Val::Matrix(_, items) => Ok(items),
            other => {
                drop(other);
                Ok(Row::new(alloc))
            }
        },
        None => Ok(Row::new(alloc)),
    }
}

/// The items of the matrix that a text has as its value; none of any other.
fn items(alloc: Global, text: &str) -> Result<Row<Val>, NoMemory> {
    let file = file(alloc, text)?;
    match read_lettings(alloc, file.as_bytes()) {
        Ok(lettings) => match first(&lettings) {
            Some(ex) => items_of(alloc, ex),
            None => Ok(Row::new(alloc)),
        },
        Err(_) => Ok(Row::new(alloc)),
    }
}

/// The word for an order.
fn word(order: Ordering) -> &'static str {
    match order {
        Ordering::Less => "less",
        Ordering::Equal => "equal",
        Ordering::Greater => "greater",
    }
}

/// The order of the first two items, and that of the two turned round.
pub fn order_of_two(alloc: Global, text: &str) -> Result<Text, NoMemory> {
    let items = items(alloc, text)?;
    if items.len() != 2 {
        return Text::from_str(alloc, "no two values");
    }
    let pair = items.as_slice();
    let mut out = Text::from_str(alloc, word(order(&pair[0], &pair[1])))?;
    out.push_str(", ")?;
    out.push_str(word(order(&pair[1], &pair[0])))?;
    Ok(out)
}

/// The set of the items.
pub fn set(alloc: Global, text: &str) -> Result<Text, NoMemory> {
    printed(alloc, set_of(alloc, items(alloc, text)?)?)
}

/// The multiset of the items.
pub fn mset(alloc: Global, text: &str) -> Result<Text, NoMemory> {
    printed(alloc, mset_of(alloc, items(alloc, text)?)?)
}

/// The pairs of functions, one behind the other.
fn pairs_of(alloc: Global, functions: Row<Val>) -> Result<Row<Pair>, NoMemory> {
    let mut pairs = Row::new(alloc);
    for function in functions.into_vec() {
        match function {
            Val::Function(own) => {
                let mut own = own;
                pairs.append(&mut own)?;
            }
            other => drop(other),
        }
    }
    Ok(pairs)
}

/// The function of the pairs of all items.
pub fn function(alloc: Global, text: &str) -> Result<Text, NoMemory> {
    match function_of(alloc, pairs_of(alloc, items(alloc, text)?)?) {
        Ok(val) => printed(alloc, val),
        Err(FunctionNo::DoubleArgument) => Text::from_str(alloc, "DoubleArgument"),
        Err(FunctionNo::NoMemory) => Err(NoMemory),
    }
}

/// Those of the values that are sets.
#[tactic(auto, using(crate::proofs::SetLists::sets_more))]
fn sets_of(alloc: Global, vals: Row<Val>) -> Result<Row<Val>, NoMemory>
    ensures { IfOk result (λ r. list_all is_set (map pure_val r) ≡ true) }
{
    let mut sets = Row::new(alloc);
    for val in vals.into_vec() {
        match val {
            Val::Set(members) => sets.push(Val::Set(members))?,
            other => drop(other),
        }
    }
    Ok(sets)
}

/// The partition whose parts are the items.
pub fn partition(alloc: Global, text: &str) -> Result<Text, NoMemory> {
    match partition_of(alloc, sets_of(alloc, items(alloc, text)?)?) {
        Ok(val) => printed(alloc, val),
        Err(PartitionNo::EmptyPart) => Text::from_str(alloc, "EmptyPart"),
        Err(PartitionNo::Overlap) => Text::from_str(alloc, "Overlap"),
        Err(PartitionNo::NoMemory) => Err(NoMemory),
    }
}
