ghost use Rattle.std.specs.Prelude.{OnOk};
ghost use Rattle.ess_core.specs.TreeViews.{pure_exs};
ghost use Rattle.ess_print_laws.specs.Parts.{tuple_pieces};
ghost use Rattle.ess_print_laws.specs.Expressions.{operands, wholes};
ghost use Rattle.ess_print.specs.Written.{Puts, record_pieces, function_pieces};

use crate::expressions::{put_between, put_ex};
use crate::parts::{opening_of_tuple, put_comma};
use ess_core::{Ex, FieldEx, NoMemory, PairEx, Text};

/// Writes a tuple.
#[cycle(put)]
pub(crate) fn put_tuple(out: &mut Text, items: &[Ex]) -> Result<(), NoMemory>
    ensures { OnOk result (Puts out.old out.new (tuple_pieces (wholes (operands (pure_exs items.now))))) }
{
    put_between(out, opening_of_tuple(items.len()), items, ")")
}

/// Writes a record, with its fields in their order.
#[cycle(put)]
pub(crate) fn put_record(out: &mut Text, fields: &[FieldEx]) -> Result<(), NoMemory>
    ensures { OnOk result (Puts out.old out.new (record_pieces fields.now)) }
{
    out.push_str("record {")?;
    for (index, field) in fields.iter().enumerate() {
        put_comma(out, index)?;
        out.push_str(field.name.as_str())?;
        out.push_str(" = ")?;
        put_ex(out, &field.ex)?;
    }
    out.push_str("}")
}

/// Writes a function by its pairs.
#[cycle(put)]
pub(crate) fn put_function(out: &mut Text, pairs: &[PairEx]) -> Result<(), NoMemory>
    ensures { OnOk result (Puts out.old out.new (function_pieces pairs.now)) }
{
    out.push_str("function(")?;
    for (index, pair) in pairs.iter().enumerate() {
        put_comma(out, index)?;
        put_ex(out, &pair.from)?;
        out.push_str(" --> ")?;
        put_ex(out, &pair.to)?;
    }
    out.push_str(")")
}
