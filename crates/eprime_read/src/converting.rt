ghost use Rattle.std.specs.Prelude.{◌≡◌, IfOk};
ghost use Rattle.std.specs.Option.{option_map};
ghost use Rattle.ess_grammar.specs.Readable.{ReadableEx};
ghost use Rattle.ess_core.specs.TreeViews.{pure_ex as read_ex};
ghost use Rattle.eprime_tree.specs.Views.{pure_ex};
ghost use Rattle.eprime_read_convert.specs.Lines.{scope_of};
ghost use Rattle.eprime_read_convert.specs.Converted.{model_ex};

use eprime_read_convert::expressions::convert_ex;
use eprime_read_convert::{Lines, Scopes};
use eprime_tree::PEx;
use ess_core::Ex;
use ess_rows::{Boxed, NoMemory};
use std::alloc::Global;

/// The expression in the box, where there is one.
fn unboxed(boxed: Option<Boxed<PEx>>) -> Option<PEx>
    ensures { result ≡ boxed }
{
    match boxed {
        Some(ex) => Some(ex.into_inner()),
        None => None,
    }
}

/// The model's expression that a tree stands for where these lines declare names, if it is one. `NoMemory` where there is no
/// room for it.
pub(crate) fn model_expression(
    alloc: Global,
    lines: &Lines,
    finds: bool,
    bound: &Scopes,
    ex: &Ex,
) -> Result<Option<PEx>, NoMemory>
    requires { ReadableEx (read_ex ex.now) }
    ensures { IfOk result (λ o. option_map (pure_ex (scope_of lines.now)) o ≡ model_ex (scope_of lines.now) finds bound.now (read_ex ex.now)) }
{
    match convert_ex(alloc, lines, finds, bound, ex) {
        Ok(boxed) => Ok(unboxed(boxed)),
        Err(no) => Err(no),
    }
}
