ghost use Rattle.std.specs.Prelude.{◌≡◌, ◌||◌, IfOk, map, option_map};
ghost use Rattle.ess_semantics.specs.Lists.{each_of};
ghost use Rattle.ess_grammar.specs.Readable.{ReadableDom, ReadableExs};
ghost use Rattle.ess_core.specs.TreeViews.{pure_dom as read_dom, pure_range as read_range, exs_of, within};
ghost use Rattle.eprime_tree.specs.Views.{pure_dom, pure_range};
ghost use Rattle.eprime_read_convert.specs.Lines.{scope_of};
ghost use Rattle.eprime_read_convert.specs.Converted.{model_dom, model_range, some_ranges, ReadableRange};

use crate::expressions::convert_ex;
use crate::lines::Lines;
use crate::nodes::{from, int_of, span, up_to, value};
use crate::scopes::Scopes;
use eprime_tree::{PDom, PRange};
use ess_core::{Dom, Range};
use ess_rows::{NoMemory, Row};
use std::alloc::Global;

/// Whether there are ranges, or need be none.
fn has_ranges(half_open: bool, ranges: &[Range]) -> bool
    ensures { result ≡ (half_open || some_ranges (map read_range ranges.now)) }
{
    half_open || !ranges.is_empty()
}

/// Converts a domain that a text was read as, in the same way: `bool` or `int(..)`, in whose ranges a bound may be left out
/// where `half_open` says so. No find may stand in it. The answer is None where it is no domain of a model, and `NoMemory`
/// comes where there is no room for the copy.
#[cycle(convert)]
pub fn convert_dom(
    alloc: Global,
    lines: &Lines,
    half_open: bool,
    bound: &Scopes,
    dom: &Dom,
) -> Result<Option<PDom>, NoMemory>
    requires { ReadableDom (read_dom dom.now) }
    ensures { IfOk result (λ o. option_map (pure_dom (scope_of lines.now)) o ≡ model_dom (scope_of lines.now) half_open bound.now (read_dom dom.now)) }
{
    match dom {
        Dom::Bool => Ok(Some(PDom::Bool)),
        Dom::Int(ranges) => {
            if has_ranges(half_open, ranges.as_slice()) {
                Ok(int_of(convert_ranges(alloc, lines, half_open, bound, ranges.as_slice())?))
            } else {
                Ok(None)
            }
        }
        _ => Ok(None),
    }
}

/// The ranges of an int domain.
#[cycle(convert)]
fn convert_ranges(
    alloc: Global,
    lines: &Lines,
    half_open: bool,
    bound: &Scopes,
    ranges: &[Range],
) -> Result<Option<Row<PRange>>, NoMemory>
    requires { ReadableExs (exs_of (within (map read_range ranges.now))) }
    ensures { IfOk result (λ o. option_map (map (pure_range (scope_of lines.now))) o ≡ each_of (map read_range ranges.now) (model_range (scope_of lines.now) half_open bound.now)) }
{
    let mut items = Row::new(alloc);
    for range in ranges {
        match convert_range(alloc, lines, half_open, bound, range)? {
            Some(item) => items.push(item)?,
            None => return Ok(None),
        }
    }
    Ok(Some(items))
}

/// A range.
#[cycle(convert)]
fn convert_range(
    alloc: Global,
    lines: &Lines,
    half_open: bool,
    bound: &Scopes,
    range: &Range,
) -> Result<Option<PRange>, NoMemory>
    requires { ReadableRange (read_range range.now) }
    ensures { IfOk result (λ o. option_map (pure_range (scope_of lines.now)) o ≡ model_range (scope_of lines.now) half_open bound.now (read_range range.now)) }
{
    match range {
        Range::One(ex) => Ok(value(convert_ex(alloc, lines, false, bound, ex)?)),
        Range::Span(low, high) => match low {
            Some(a) => match high {
                Some(b) => {
                    let first = convert_ex(alloc, lines, false, bound, a)?;
                    let last = convert_ex(alloc, lines, false, bound, b)?;
                    Ok(span(first, last))
                }
                None if half_open => Ok(from(convert_ex(alloc, lines, false, bound, a)?)),
                None => Ok(None),
            },
            None => match high {
                Some(b) if half_open => Ok(up_to(convert_ex(alloc, lines, false, bound, b)?)),
                _ => Ok(None),
            },
        },
    }
}
