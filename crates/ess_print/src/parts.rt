// What stands between and before the parts of a list.
ghost use Rattle.std.specs.Prelude.{◌≡◌, ◌++◌, OnOk};
ghost use Rattle.ess_print_laws.specs.Parts.{comma_before};
ghost use Rattle.ess_print.specs.Written.{times_before, tuple_opening};

use ess_core::{NoMemory, Text};

/// Writes a comma and a space before each item of a list but the first.
pub(crate) fn put_comma(out: &mut Text, index: usize) -> Result<(), NoMemory>
    ensures { OnOk result (out.new ≡ out.old ++ comma_before index) }
{
    if index == 0 {
        return Ok(());
    }
    out.push_str(", ")
}

/// Writes a star between spaces before each domain of a relation but the first.
pub(crate) fn put_times(out: &mut Text, index: usize) -> Result<(), NoMemory>
    ensures { OnOk result (out.new ≡ out.old ++ times_before index) }
{
    if index == 0 {
        return Ok(());
    }
    out.push_str(" * ")
}

/// What opens a tuple of so many parts: one of a single part has its word.
pub(crate) fn opening_of_tuple(count: usize) -> &'static str
    ensures { result.now ≡ tuple_opening count }
{
    if count == 1 { "tuple (" } else { "(" }
}
