ghost use Rattle.std.specs.Prelude.{◌≡◌, [], ◌∷◌, ◌++◌, IfOk, OnOk, IsTrue, map, option_map};
ghost use Rattle.ess_semantics.specs.Trees.{Op, binary, cell_ex, name_ex};
ghost use Rattle.ess_grammar.specs.Readable.{is_name_token};
ghost use Rattle.ess_grammar.specs.Models.{Scope, is_truth_table};
ghost use Rattle.eprime_tree.specs.Views.{pure_ex, pure_list, pure_gen, pure_dom, pure_range, pure_op1, pure_op2, pure_fun, exs_of, over_item, cond_item, int_of as dom_of};
ghost use Rattle.eprime_read_convert.specs.Lines.{scope_of};
ghost use Rattle.eprime_read_convert.specs.Converted.{model_ex, under, between, comprehension, as_value, as_span, as_low, as_high, items_ex};

use crate::lines::{Lines, is_found, truth_of};
use crate::scopes::Scopes;
use eprime_tree::{PDom, PEx, PFun, PGen, PList, POp1, POp2, PRange};
use ess_rows::{Boxed, NoMemory, Row, Text};
use std::alloc::Global;

/// A name: one that a generator binds, a declared cell, or any other.
pub fn converted_name(
    alloc: Global,
    lines: &Lines,
    finds: bool,
    bound: &Scopes,
    name: &Text,
) -> Result<Option<Boxed<PEx>>, NoMemory>
    requires { IsTrue (is_name_token name.now) }
    ensures { IfOk result (λ o. option_map (pure_ex (scope_of lines.now)) o ≡ model_ex (scope_of lines.now) finds bound.now (name_ex name.now)) }
{
    if bound.has(name) || truth_of(lines, name).is_none() {
        Ok(Some(Boxed::new(alloc, PEx::Name(name.copy(alloc)?))?))
    } else if finds || !is_found(lines, name) {
        Ok(Some(Boxed::new(alloc, PEx::Cell(name.copy(alloc)?, Row::new(alloc)))?))
    } else {
        Ok(None)
    }
}

/// Puts an expression behind others.
pub fn push_ex(exs: &mut Row<PEx>, ex: Boxed<PEx>) -> Result<(), NoMemory>
    ensures ok { OnOk result (exs.new ≡ exs.old ++ ex ∷ []) }
{
    exs.push(ex.into_inner())
}

/// An operator over its operand, where that is one of a model.
#[tactic(auto, using(crate::proofs::NodeViews::one_there))]
pub fn one(alloc: Global, op: POp1, a: Option<Boxed<PEx>>) -> Result<Option<Boxed<PEx>>, NoMemory>
    ensures { IfOk result (λ o. (s : Scope) → option_map (pure_ex s) o ≡ under (pure_op1 op) (option_map (pure_ex s) a)) }
{
    match a {
        Some(ex) => Ok(Some(Boxed::new(alloc, PEx::One(op, ex))?)),
        None => Ok(None),
    }
}

/// An operator between its operands, where both are those of a model.
#[tactic(auto, using(crate::proofs::NodeViews::two_there))]
pub fn two(
    alloc: Global,
    op: POp2,
    a: Option<Boxed<PEx>>,
    b: Option<Boxed<PEx>>,
) -> Result<Option<Boxed<PEx>>, NoMemory>
    ensures { IfOk result (λ o. (s : Scope) → option_map (pure_ex s) o ≡ between (binary (pure_op2 op)) (option_map (pure_ex s) a) (option_map (pure_ex s) b)) }
{
    match (a, b) {
        (Some(left), Some(right)) => Ok(Some(Boxed::new(alloc, PEx::Two(op, left, right))?)),
        (_, _) => Ok(None),
    }
}

/// A lex sign between two lists, where both are those of a model.
#[tactic(auto, using(crate::proofs::NodeViews::lex_there))]
pub fn lex(
    alloc: Global,
    op: POp2,
    a: Option<PList>,
    b: Option<PList>,
) -> Result<Option<Boxed<PEx>>, NoMemory>
    ensures { IfOk result (λ o. (s : Scope) → option_map (pure_ex s) o ≡ between (binary (pure_op2 op)) (option_map (pure_list s) a) (option_map (pure_list s) b)) }
{
    match (a, b) {
        (Some(left), Some(right)) => Ok(Some(Boxed::new(alloc, PEx::Lex(op, left, right))?)),
        (_, _) => Ok(None),
    }
}

/// A word over a list, where that is one of a model.
#[tactic(auto, using(crate::proofs::NodeViews::fold_there))]
pub fn fold(alloc: Global, fun: PFun, list: Option<PList>) -> Result<Option<Boxed<PEx>>, NoMemory>
    ensures { IfOk result (λ o. (s : Scope) → option_map (pure_ex s) o ≡ under (Op.word (pure_fun fun)) (option_map (pure_list s) list)) }
{
    match list {
        Some(items) => Ok(Some(Boxed::new(alloc, PEx::Fold(fun, items))?)),
        None => Ok(None),
    }
}

/// A table at its indices, where these are those of a model.
#[tactic(auto, using(crate::proofs::NodeViews::cell_there))]
pub fn cell(
    alloc: Global,
    name: &Text,
    indices: Option<Row<PEx>>,
) -> Result<Option<Boxed<PEx>>, NoMemory>
    ensures { IfOk result (λ o. (s : Scope) → option_map (pure_ex s) o ≡ option_map (λ es. cell_ex (is_truth_table s name.now) name.now (exs_of es)) (option_map (map (pure_ex s)) indices)) }
{
    match indices {
        Some(exs) => Ok(Some(Boxed::new(alloc, PEx::Cell(name.copy(alloc)?, exs))?)),
        None => Ok(None),
    }
}

/// A list of items, where these are those of a model.
#[tactic(auto, using(crate::proofs::NodeViews::items_there))]
pub fn items_of(items: Option<Row<PEx>>) -> Option<PList>
    ensures { (s : Scope) → option_map (pure_list s) result ≡ option_map items_ex (option_map (map (pure_ex s)) items) }
{
    match items {
        Some(exs) => Some(PList::Items(exs)),
        None => None,
    }
}

/// A comprehension, where its body and its items are those of a model.
#[tactic(auto, using(crate::proofs::NodeViews::comp_there))]
pub fn comp(body: Option<Boxed<PEx>>, items: Option<Row<PGen>>) -> Option<PList>
    ensures { (s : Scope) → option_map (pure_list s) result ≡ comprehension (option_map (pure_ex s) body) (option_map (map (pure_gen s)) items) }
{
    match (body, items) {
        (Some(ex), Some(gens)) => Some(PList::Comp(ex, gens)),
        (_, _) => None,
    }
}

/// A generator of a name over a domain, where that is one of a model.
#[tactic(auto, using(crate::proofs::NodeViews::over_there))]
pub fn over(alloc: Global, name: &Text, dom: Option<PDom>) -> Result<Option<PGen>, NoMemory>
    ensures { IfOk result (λ o. (s : Scope) → option_map (pure_gen s) o ≡ option_map (over_item name.now) (option_map (pure_dom s) dom)) }
{
    match dom {
        Some(members) => Ok(Some(PGen::Over(name.copy(alloc)?, members))),
        None => Ok(None),
    }
}

/// A condition, where it is one of a model.
#[tactic(auto, using(crate::proofs::NodeViews::test_there))]
pub fn test(ex: Option<Boxed<PEx>>) -> Option<PGen>
    ensures { (s : Scope) → option_map (pure_gen s) result ≡ option_map cond_item (option_map (pure_ex s) ex) }
{
    match ex {
        Some(condition) => Some(PGen::If(condition.into_inner())),
        None => None,
    }
}

/// An int domain of ranges, where these are those of a model.
#[tactic(auto, using(crate::proofs::NodeViews::int_there))]
pub fn int_of(ranges: Option<Row<PRange>>) -> Option<PDom>
    ensures { (s : Scope) → option_map (pure_dom s) result ≡ option_map dom_of (option_map (map (pure_range s)) ranges) }
{
    match ranges {
        Some(row) => Some(PDom::Int(row)),
        None => None,
    }
}

/// A range of one number.
#[tactic(auto, using(crate::proofs::NodeViews::value_there))]
pub fn value(ex: Option<Boxed<PEx>>) -> Option<PRange>
    ensures { (s : Scope) → option_map (pure_range s) result ≡ as_value (option_map (pure_ex s) ex) }
{
    match ex {
        Some(number) => Some(PRange::One(number.into_inner())),
        None => None,
    }
}

/// A range with both bounds.
#[tactic(auto, using(crate::proofs::NodeViews::span_there))]
pub fn span(low: Option<Boxed<PEx>>, high: Option<Boxed<PEx>>) -> Option<PRange>
    ensures { (s : Scope) → option_map (pure_range s) result ≡ as_span (option_map (pure_ex s) low) (option_map (pure_ex s) high) }
{
    match (low, high) {
        (Some(a), Some(b)) => Some(PRange::Span(Some(a.into_inner()), Some(b.into_inner()))),
        (_, _) => None,
    }
}

/// A range with a lower bound alone.
#[tactic(auto, using(crate::proofs::NodeViews::low_there))]
pub fn from(low: Option<Boxed<PEx>>) -> Option<PRange>
    ensures { (s : Scope) → option_map (pure_range s) result ≡ as_low (option_map (pure_ex s) low) }
{
    match low {
        Some(a) => Some(PRange::Span(Some(a.into_inner()), None)),
        None => None,
    }
}

/// A range with an upper bound alone.
#[tactic(auto, using(crate::proofs::NodeViews::high_there))]
pub fn up_to(high: Option<Boxed<PEx>>) -> Option<PRange>
    ensures { (s : Scope) → option_map (pure_range s) result ≡ as_high (option_map (pure_ex s) high) }
{
    match high {
        Some(b) => Some(PRange::Span(None, Some(b.into_inner()))),
        None => None,
    }
}
