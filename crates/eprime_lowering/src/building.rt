//! The trees of models over parts, where these are there.
ghost use Rattle.std.specs.Prelude.{◌≡◌, IfOk, map, option_map};
ghost use Rattle.ess_semantics.specs.Trees.{Op, binary, cell_ex};
ghost use Rattle.ess_grammar.specs.Models.{Scope, is_truth_table};
ghost use Rattle.eprime_tree.specs.Views.{pure_ex, pure_list, pure_gen, pure_dom, pure_op1, pure_op2, pure_fun, exs_of, over_item, cond_item};
ghost use Rattle.eprime_read_convert.specs.Converted.{under, between, comprehension, items_ex};

use eprime_tree::{PDom, PEx, PFun, PGen, PList, POp1, POp2};
use ess_rows::{Boxed, NoMemory, Row, Text};
use std::alloc::Global;

/// An operator over its operand.
#[tactic(auto, using(eprime_read_convert::proofs::NodeViews::one_there))]
pub(crate) fn one(
    alloc: Global,
    op: POp1,
    a: Option<Boxed<PEx>>,
) -> Result<Option<Boxed<PEx>>, NoMemory>
    ensures { IfOk result (λ o. (s : Scope) → option_map (pure_ex s) o ≡ under (pure_op1 op) (option_map (pure_ex s) a)) }
{
    match a {
        Some(ex) => Ok(Some(Boxed::new(alloc, PEx::One(op, ex))?)),
        None => Ok(None),
    }
}

/// An operator between its operands.
#[tactic(auto, using(eprime_read_convert::proofs::NodeViews::two_there))]
pub(crate) fn two(
    alloc: Global,
    op: POp2,
    a: Option<Boxed<PEx>>,
    b: Option<Boxed<PEx>>,
) -> Result<Option<Boxed<PEx>>, NoMemory>
    ensures { IfOk result (λ o. (s : Scope) → option_map (pure_ex s) o
        ≡ between (binary (pure_op2 op)) (option_map (pure_ex s) a) (option_map (pure_ex s) b)) }
{
    match (a, b) {
        (Some(left), Some(right)) => Ok(Some(Boxed::new(alloc, PEx::Two(op, left, right))?)),
        (_, _) => Ok(None),
    }
}

/// A lex sign between two lists.
#[tactic(auto, using(eprime_read_convert::proofs::NodeViews::lex_there))]
pub(crate) fn lex(
    alloc: Global,
    op: POp2,
    a: Option<PList>,
    b: Option<PList>,
) -> Result<Option<Boxed<PEx>>, NoMemory>
    ensures { IfOk result (λ o. (s : Scope) → option_map (pure_ex s) o
        ≡ between (binary (pure_op2 op)) (option_map (pure_list s) a) (option_map (pure_list s) b)) }
{
    match (a, b) {
        (Some(left), Some(right)) => Ok(Some(Boxed::new(alloc, PEx::Lex(op, left, right))?)),
        (_, _) => Ok(None),
    }
}

/// A word over a list.
#[tactic(auto, using(eprime_read_convert::proofs::NodeViews::fold_there))]
pub(crate) fn fold(
    alloc: Global,
    fun: PFun,
    list: Option<PList>,
) -> Result<Option<Boxed<PEx>>, NoMemory>
    ensures { IfOk result (λ o. (s : Scope) → option_map (pure_ex s) o ≡ under (Op.word (pure_fun fun)) (option_map (pure_list s) list)) }
{
    match list {
        Some(items) => Ok(Some(Boxed::new(alloc, PEx::Fold(fun, items))?)),
        None => Ok(None),
    }
}

/// A table at its indices.
#[tactic(auto, using(eprime_read_convert::proofs::NodeViews::cell_there))]
pub(crate) fn cell(
    alloc: Global,
    name: &Text,
    indices: Option<Row<PEx>>,
) -> Result<Option<Boxed<PEx>>, NoMemory>
    ensures { IfOk result (λ o. (s : Scope) → option_map (pure_ex s) o
        ≡ option_map (λ es. cell_ex (is_truth_table s name.now) name.now (exs_of es)) (option_map (map (pure_ex s)) indices)) }
{
    match indices {
        Some(exs) => Ok(Some(Boxed::new(alloc, PEx::Cell(name.copy(alloc)?, exs))?)),
        None => Ok(None),
    }
}

/// A list of items.
#[tactic(auto, using(eprime_read_convert::proofs::NodeViews::items_there))]
pub(crate) fn items_of(items: Option<Row<PEx>>) -> Option<PList>
    ensures { (s : Scope) → option_map (pure_list s) result ≡ option_map items_ex (option_map (map (pure_ex s)) items) }
{
    match items {
        Some(exs) => Some(PList::Items(exs)),
        None => None,
    }
}

/// A comprehension of its body and its items.
#[tactic(auto, using(eprime_read_convert::proofs::NodeViews::comp_there))]
pub(crate) fn comp(body: Option<Boxed<PEx>>, items: Option<Row<PGen>>) -> Option<PList>
    ensures { (s : Scope) → option_map (pure_list s) result
        ≡ comprehension (option_map (pure_ex s) body) (option_map (map (pure_gen s)) items) }
{
    match (body, items) {
        (Some(ex), Some(gens)) => Some(PList::Comp(ex, gens)),
        (_, _) => None,
    }
}

/// A generator of a name over a domain.
#[tactic(auto, using(eprime_read_convert::proofs::NodeViews::over_there))]
pub(crate) fn over(alloc: Global, name: &Text, dom: Option<PDom>) -> Result<Option<PGen>, NoMemory>
    ensures { IfOk result (λ o. (s : Scope) → option_map (pure_gen s) o ≡ option_map (over_item name.now) (option_map (pure_dom s) dom)) }
{
    match dom {
        Some(members) => Ok(Some(PGen::Over(name.copy(alloc)?, members))),
        None => Ok(None),
    }
}

/// A condition.
#[tactic(auto, using(eprime_read_convert::proofs::NodeViews::test_there))]
pub(crate) fn test(ex: Option<Boxed<PEx>>) -> Option<PGen>
    ensures { (s : Scope) → option_map (pure_gen s) result ≡ option_map cond_item (option_map (pure_ex s) ex) }
{
    match ex {
        Some(condition) => Some(PGen::If(condition.into_inner())),
        None => None,
    }
}
