ghost use Rattle.std.specs.Prelude.{◌≡◌, IfOk, OnOk, true, map, option_map};
ghost use Rattle.ess_semantics.specs.Lists.{all_some};
ghost use Rattle.ess_semantics.specs.Trees.{word, cell_ex, more_exs, no_exs, plain_node, ex2, is_truth_op2};
ghost use Rattle.ess_semantics.specs.Meaning.{meaning, meanings};
ghost use Rattle.ess_semantics.specs.Large.{is_large, any_large};
ghost use Rattle.eprime_tree.specs.Views.{pure_op1, pure_op2, pure_fun, exs_of};
ghost use Rattle.eprime_eval_kinds.specs.KindedViews.{pure_kex, pure_klist, name_at};
ghost use Rattle.eprime_eval_scalars.specs.ScalarViews.{pure_scalar};
ghost use Rattle.eprime_eval_scalars.specs.declared.Stop.TheVariants.{Big};
ghost use Rattle.eprime_eval.specs.KnownTables.{IsKnown};
ghost use Rattle.eprime_eval.specs.Environments.{env_at};
ghost use Rattle.eprime_eval.specs.Items.{Gathered, items_in};

use crate::cells::{cell_of_one, cell_of_two, cell_value, only, pair};
use crate::generating::runs;
use crate::known::Known;
use crate::names::{Bound, value_of_name};
use crate::operators::{fold_value, lex_value, nothing_folded, one_value, two_value};
use crate::{Row, Scalar, Stop};
use eprime_eval_kinds::{KEx, KList};
use eprime_tree::{PFun, POp1, POp2, Text};
use std::alloc::Global;

/// What an expression means below generators that have bound names.
#[cycle(value)]
pub(crate) fn value_at(
    alloc: Global,
    ex: &KEx,
    known: &Known,
    bound: &mut Row<Bound>,
) -> Result<Option<Scalar>, Stop>
    requires known { IsKnown known.now }
    ensures ok { IfOk result (λ o. option_map pure_scalar o ≡ meaning (pure_kex known.now.names ex.now) (env_at known.now bound.old)) }
    ensures kept { OnOk result (bound.new ≡ bound.old) }
    ensures big { result ≡ Err Big → is_large (pure_kex known.now.names ex.now) (env_at known.now bound.old) ≡ true }
{
    match ex {
        KEx::Num(number) => Ok(Some(Scalar::Num(*number))),
        KEx::Truth(truth) => Ok(Some(Scalar::Truth(*truth))),
        KEx::Nothing => {
            let empty = Text::new(alloc);
            Ok(value_of_name(&empty, bound.as_slice()))
        }
        KEx::Name(name) => Ok(value_of_name(name, bound.as_slice())),
        KEx::Cell(mark, number, index) => {
            cell_at(alloc, *mark, *number, index.as_slice(), known, bound)
        }
        KEx::One(op, a) => one_at(alloc, *op, a.get(), known, bound),
        KEx::Two(op, a, b) => two_at(alloc, *op, a.get(), b.get(), known, bound),
        KEx::Fold(fun, list) => fold_at(alloc, *fun, list.get(), known, bound),
        KEx::Lex(op, a, b) => lex_at(alloc, *op, a.get(), b.get(), known, bound),
    }
}

/// A cell.
#[cycle(value)]
#[tactic(auto, using(crate::proofs::CellValues::cell_there, crate::proofs::CellValues::short_cells, crate::proofs::Excuses::large_in_cell))]
fn cell_at(
    alloc: Global,
    mark: bool,
    number: usize,
    index: &[KEx],
    known: &Known,
    bound: &mut Row<Bound>,
) -> Result<Option<Scalar>, Stop>
    requires known { IsKnown known.now }
    ensures ok { IfOk result (λ o. option_map pure_scalar o
        ≡ meaning (cell_ex mark (name_at known.now.names number) (exs_of (map (pure_kex known.now.names) index.now))) (env_at known.now bound.old)) }
    ensures kept { OnOk result (bound.new ≡ bound.old) }
    ensures big { result ≡ Err Big
        → is_large (cell_ex mark (name_at known.now.names number) (exs_of (map (pure_kex known.now.names) index.now))) (env_at known.now bound.old) ≡ true }
{
    if let Some(a) = only(index) {
        let a = operand_at(alloc, a, known, bound)?;
        let value = cell_of_one(known, mark, number, a)?;
        return Ok(value);
    }
    if let Some((a, b)) = pair(index) {
        let a = operand_at(alloc, a, known, bound)?;
        let b = operand_at(alloc, b, known, bound)?;
        let value = cell_of_two(known, mark, number, a, b)?;
        return Ok(value);
    }
    let mut at = Row::new(alloc);
    let there = values_at(alloc, index, known, bound, &mut at)?;
    let value = cell_value(known, mark, number, there, at.as_slice())?;
    Ok(value)
}

/// What an operand means. One that is a number, a name or a cell is looked at where it stands.
#[cycle(value)]
fn operand_at(
    alloc: Global,
    ex: &KEx,
    known: &Known,
    bound: &mut Row<Bound>,
) -> Result<Option<Scalar>, Stop>
    requires known { IsKnown known.now }
    ensures ok { IfOk result (λ o. option_map pure_scalar o ≡ meaning (pure_kex known.now.names ex.now) (env_at known.now bound.old)) }
    ensures kept { OnOk result (bound.new ≡ bound.old) }
    ensures big { result ≡ Err Big → is_large (pure_kex known.now.names ex.now) (env_at known.now bound.old) ≡ true }
{
    match ex {
        KEx::Num(number) => Ok(Some(Scalar::Num(*number))),
        KEx::Name(name) => Ok(value_of_name(name, bound.as_slice())),
        KEx::Cell(mark, number, index) => {
            cell_at(alloc, *mark, *number, index.as_slice(), known, bound)
        }
        _ => value_at(alloc, ex, known, bound),
    }
}

/// An operator over one operand.
#[cycle(value)]
#[tactic(auto, using(crate::proofs::Excuses::large_in_operand, crate::proofs::Excuses::large_one))]
fn one_at(
    alloc: Global,
    op: POp1,
    a: &KEx,
    known: &Known,
    bound: &mut Row<Bound>,
) -> Result<Option<Scalar>, Stop>
    requires known { IsKnown known.now }
    ensures ok { IfOk result (λ o. option_map pure_scalar o
        ≡ meaning (plain_node (pure_op1 op) (more_exs (pure_kex known.now.names a.now) no_exs)) (env_at known.now bound.old)) }
    ensures kept { OnOk result (bound.new ≡ bound.old) }
    ensures big { result ≡ Err Big
        → is_large (plain_node (pure_op1 op) (more_exs (pure_kex known.now.names a.now) no_exs)) (env_at known.now bound.old) ≡ true }
{
    let a = value_at(alloc, a, known, bound)?;
    one_value(op, a)
}

/// An operator between two operands.
#[cycle(value)]
#[tactic(auto, using(crate::proofs::Excuses::large_in_left, crate::proofs::Excuses::large_in_right, crate::proofs::Excuses::large_two))]
fn two_at(
    alloc: Global,
    op: POp2,
    a: &KEx,
    b: &KEx,
    known: &Known,
    bound: &mut Row<Bound>,
) -> Result<Option<Scalar>, Stop>
    requires known { IsKnown known.now }
    ensures ok { IfOk result (λ o. option_map pure_scalar o
        ≡ meaning (ex2 (is_truth_op2 (pure_op2 op)) (pure_op2 op) (pure_kex known.now.names a.now) (pure_kex known.now.names b.now)) (env_at known.now bound.old)) }
    ensures kept { OnOk result (bound.new ≡ bound.old) }
    ensures big { result ≡ Err Big
        → is_large (ex2 (is_truth_op2 (pure_op2 op)) (pure_op2 op) (pure_kex known.now.names a.now) (pure_kex known.now.names b.now)) (env_at known.now bound.old) ≡ true }
{
    let a = operand_at(alloc, a, known, bound)?;
    let b = operand_at(alloc, b, known, bound)?;
    two_value(alloc, op, a, b)
}

/// A word over a list. Its items have room for 16 before they are moved.
#[cycle(value)]
#[tactic(auto, using(crate::proofs::Lists::folds, crate::proofs::Excuses::large_in_operand))]
fn fold_at(
    alloc: Global,
    fun: PFun,
    list: &KList,
    known: &Known,
    bound: &mut Row<Bound>,
) -> Result<Option<Scalar>, Stop>
    requires known { IsKnown known.now }
    ensures ok { IfOk result (λ o. option_map pure_scalar o
        ≡ meaning (plain_node (word (pure_fun fun)) (more_exs (pure_klist known.now.names list.now) no_exs)) (env_at known.now bound.old)) }
    ensures kept { OnOk result (bound.new ≡ bound.old) }
    ensures big { result ≡ Err Big
        → is_large (plain_node (word (pure_fun fun)) (more_exs (pure_klist known.now.names list.now) no_exs)) (env_at known.now bound.old) ≡ true }
{
    let mut items = Row::with_capacity(alloc, 16)?;
    if list_at(alloc, list, known, bound, &mut items)? {
        let value = fold_value(fun, items.as_slice())?;
        Ok(value)
    } else {
        Ok(nothing_folded(fun))
    }
}

/// A sign between two lists.
#[cycle(value)]
#[tactic(auto, using(crate::proofs::Lists::lex_there, crate::proofs::Excuses::large_in_left, crate::proofs::Excuses::large_in_right))]
fn lex_at(
    alloc: Global,
    op: POp2,
    a: &KList,
    b: &KList,
    known: &Known,
    bound: &mut Row<Bound>,
) -> Result<Option<Scalar>, Stop>
    requires known { IsKnown known.now }
    ensures ok { IfOk result (λ o. option_map pure_scalar o
        ≡ meaning (ex2 (is_truth_op2 (pure_op2 op)) (pure_op2 op) (pure_klist known.now.names a.now) (pure_klist known.now.names b.now)) (env_at known.now bound.old)) }
    ensures kept { OnOk result (bound.new ≡ bound.old) }
    ensures big { result ≡ Err Big
        → is_large (ex2 (is_truth_op2 (pure_op2 op)) (pure_op2 op) (pure_klist known.now.names a.now) (pure_klist known.now.names b.now)) (env_at known.now bound.old) ≡ true }
{
    let a = list_of(alloc, a, known, bound)?;
    let b = list_of(alloc, b, known, bound)?;
    let value = lex_value(op, &a, &b)?;
    Ok(value)
}

/// The items of a list, where it has a value.
#[cycle(value)]
#[tactic(auto, using(crate::proofs::Lists::list_found))]
fn list_of(
    alloc: Global,
    list: &KList,
    known: &Known,
    bound: &mut Row<Bound>,
) -> Result<Option<Row<Scalar>>, Stop>
    requires known { IsKnown known.now }
    ensures ok { IfOk result (λ o. option_map (map pure_scalar) o ≡ items_in (meaning (pure_klist known.now.names list.now) (env_at known.now bound.old))) }
    ensures kept { OnOk result (bound.new ≡ bound.old) }
    ensures big { result ≡ Err Big → is_large (pure_klist known.now.names list.now) (env_at known.now bound.old) ≡ true }
{
    let mut items = Row::new(alloc);
    if list_at(alloc, list, known, bound, &mut items)? {
        Ok(Some(items))
    } else {
        Ok(None)
    }
}

/// Puts the items of a list behind others. False where it has no value.
#[cycle(value)]
#[tactic(auto, using(crate::proofs::Lists::lists))]
fn list_at(
    alloc: Global,
    list: &KList,
    known: &Known,
    bound: &mut Row<Bound>,
    items: &mut Row<Scalar>,
) -> Result<bool, Stop>
    requires known { IsKnown known.now }
    ensures ok { IfOk result (λ b. Gathered b (map pure_scalar items.old) (map pure_scalar items.new)
        (items_in (meaning (pure_klist known.now.names list.now) (env_at known.now bound.old)))) }
    ensures kept { OnOk result (bound.new ≡ bound.old) }
    ensures big { result ≡ Err Big → is_large (pure_klist known.now.names list.now) (env_at known.now bound.old) ≡ true }
{
    match list {
        KList::Items(exs) => {
            let there = values_at(alloc, exs.as_slice(), known, bound, items)?;
            Ok(there)
        }
        KList::Comp(item, gens) => {
            let there = runs(alloc, item.get(), gens.as_slice(), known, bound, items)?;
            Ok(there)
        }
    }
}

/// Puts the values of expressions behind others. False where one has none.
#[cycle(value)]
#[tactic(auto, using(crate::proofs::Excuses::large_first, crate::proofs::Excuses::large_later, crate::proofs::Gathering::values_more, crate::proofs::Gathering::none_first))]
fn values_at(
    alloc: Global,
    exs: &[KEx],
    known: &Known,
    bound: &mut Row<Bound>,
    vals: &mut Row<Scalar>,
) -> Result<bool, Stop>
    requires known { IsKnown known.now }
    ensures ok { IfOk result (λ b. Gathered b (map pure_scalar vals.old) (map pure_scalar vals.new)
        (all_some (meanings (exs_of (map (pure_kex known.now.names) exs.now)) (env_at known.now bound.old)))) }
    ensures kept { OnOk result (bound.new ≡ bound.old) }
    ensures big { result ≡ Err Big → any_large (exs_of (map (pure_kex known.now.names) exs.now)) (env_at known.now bound.old) ≡ true }
{
    match exs.split_first() {
        None => Ok(true),
        Some((ex, rest)) => match value_at(alloc, ex, known, bound)? {
            Some(val) => {
                vals.push(val)?;
                values_at(alloc, rest, known, bound, vals)
            }
            None => Ok(false),
        },
    }
}
