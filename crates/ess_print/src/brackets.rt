// Which parts stand in brackets, or behind a word, so that the text is read as its tree.
ghost use Rattle.std.specs.Prelude.{◌≡◌, ◌&&◌, map};
ghost use Rattle.ess_grammar.specs.Patterns.{are_several};
ghost use Rattle.ess_print_laws.specs.Brackets.{is_operators, is_written_as_pattern, are_written_as_patterns, begins_as_quantifier, begins_as_attributes};
ghost use Rattle.ess_core.specs.TreeViews.{words_of, pure_ex, pure_exs, pure_dom, pure_attr};
ghost use Rattle.ess_print.specs.Written.{only_first, argument_opening, names_attribute};

use crate::words::is_attribute_word;
use ess_core::{Attr, Dom, Ex, Fun, Op1};

/// Is the expression an operator's, which stands in brackets as an operand?
pub(crate) fn is_operation(ex: &Ex) -> bool
    ensures { result ≡ is_operators (pure_ex ex.now) }
{
    match ex {
        Ex::One(op, _) => *op != Op1::Bar,
        Ex::Two(_, _, _) => true,
        _ => false,
    }
}

/// Is the expression printed as a pattern is: as a name, or as two or more patterns in round brackets?
#[cycle(pattern)]
pub(crate) fn is_pattern(ex: &Ex) -> bool
    ensures { result ≡ is_written_as_pattern (pure_ex ex.now) }
{
    match ex {
        Ex::Name(_) => true,
        Ex::Tuple(items) => are_patterns(items.as_slice()),
        Ex::Cell(_, _, at) => at.is_empty(),
        _ => false,
    }
}

/// Are there two or more expressions, each printed as a pattern is?
#[cycle(pattern)]
fn are_patterns(exs: &[Ex]) -> bool
    ensures { result ≡ (are_several (pure_exs exs.now) && are_written_as_patterns (pure_exs exs.now)) }
{
    for ex in exs {
        if !is_pattern(ex) {
            return false;
        }
    }
    exs.len() >= 2
}

/// Does the first operand of a call stand in brackets? `sum (x, y)` with two or more patterns would begin a quantifier.
pub(crate) fn would_begin_quantifier(fun: Fun, args: &[Ex]) -> bool
    ensures { result ≡ begins_as_quantifier fun (pure_exs args.now) }
{
    fun == Fun::Sum && are_patterns(args)
}

/// Does only the first of the operands stand in brackets, and is this the first?
pub(crate) fn is_first_in_brackets(brackets: bool, index: usize) -> bool
    ensures { result ≡ only_first brackets index }
{
    brackets && index == 0
}

/// What stands before the first domain of a function behind these attributes: the word `tuple` before a tuple that would be
/// read as attributes where there are none.
pub(crate) fn before_argument(attrs: &[Attr], dom: &Dom) -> &'static str
    ensures { result.now ≡ argument_opening (words_of (map pure_attr attrs.now)) (pure_dom dom.now) }
{
    if attrs.is_empty() && would_begin_attributes(dom) {
        " tuple "
    } else {
        " "
    }
}

/// Is the first domain of a function a tuple that begins with an attribute word? In brackets alone it would be read as
/// attributes.
fn would_begin_attributes(dom: &Dom) -> bool
    ensures { result ≡ begins_as_attributes (pure_dom dom.now) }
{
    match dom {
        Dom::Tuple(doms) => match doms.first() {
            Some(first) => doms.len() >= 2 && is_attribute_name(first),
            None => false,
        },
        _ => false,
    }
}

/// Is the domain a name that is an attribute word?
fn is_attribute_name(dom: &Dom) -> bool
    ensures { result ≡ names_attribute (pure_dom dom.now) }
{
    match dom {
        Dom::Name(name) => is_attribute_word(name.as_bytes()),
        _ => false,
    }
}
