ghost use Rattle.std.specs.Prelude.{◌≡◌, map, ◌&&◌, nat_le, int_le};
ghost use Rattle.std.specs.List.{list_any};
ghost use Rattle.ess_semantics.specs.Lists.{is_none_or};
ghost use Rattle.ess_semantics.specs.Order.{same_text};
ghost use Rattle.ess_semantics.specs.Membership.{in_span as span_holds, in_spans as spans_hold};
ghost use Rattle.ess_eval_domains.specs.ClosedViews.{pure_span};

use ess_core::Text;
use ess_eval_domains::Span;
use std::cmp::Ordering;

/// Whether some range holds the number. Without a range, all numbers are held.
#[tactic(auto, using(crate::proofs::SpanLemmas::no_spans, crate::proofs::SpanLemmas::some_spans))]
pub fn in_spans(spans: &[Span], number: i64) -> bool
    ensures { result ≡ spans_hold (map pure_span spans.now) number }
{
    if spans.len() == 0 {
        return true;
    }
    in_some_span(spans, number)
}

/// Whether some range holds the number.
fn in_some_span(spans: &[Span], number: i64) -> bool
    ensures { result ≡ list_any (span_holds number) (map pure_span spans.now) }
{
    for span in spans {
        if in_span(*span, number) {
            return true;
        }
    }
    false
}

/// Whether a range holds the number.
fn in_span(span: Span, number: i64) -> bool
    ensures { result ≡ span_holds number (pure_span span) }
{
    match span.low {
        Some(low) => {
            if number < low {
                return false;
            }
            is_below(span, number)
        }
        None => is_below(span, number),
    }
}

/// Whether the number is at most the upper bound of a range, where it has one.
fn is_below(span: Span, number: i64) -> bool
    ensures { result ≡ is_none_or span.high (λ b. int_le number b) }
{
    match span.high {
        Some(high) => number <= high,
        None => true,
    }
}

/// Whether this is the name of the type, and the position one of its values'.
pub fn is_item(name: &Text, count: u64, own: &Text, position: u64) -> bool
    ensures { result ≡ same_text name.now own.now && nat_le 1 position && nat_le position count }
{
    if name.cmp(own) != Ordering::Equal {
        return false;
    }
    1 <= position && position <= count
}
