ghost use Rattle.std.specs.Prelude.{◌≡◌, [], ◌∷◌, List, Some, is_some, IfOk};
ghost use Rattle.ess_semantics.specs.Values as values;
ghost use Rattle.ess_semantics.specs.Values.{a_matrix};
ghost use Rattle.ess_semantics.specs.Types.{compound2};
ghost use Rattle.ess_semantics.specs.Trees.{binary, word, no_exs, more_exs};
ghost use Rattle.ess_semantics.specs.OperatorTypes.{type_of_op};
ghost use Rattle.ess_semantics.specs.ModelMeaning.{kinded_node};
ghost use Rattle.eprime_tree.specs.Views.{pure_op1, pure_op2, pure_fun};
ghost use Rattle.eprime_eval_kinds.specs.KindedViews.{pure_kex, pure_kind, pure_kinded};
ghost use Rattle.eprime_eval_kinds.specs.KindedLists.{pure_listed};
ghost use Rattle.eprime_eval_kinds.specs.Standing.{stands};

use crate::kinds::{
    compares_lists, kind_of_fold, kind_of_one, kind_of_two, takes_list, takes_one, takes_two,
};
use crate::lists::KindedList;
use crate::nodes::{KindedEx, broken, is_nothing};
use crate::tree::KEx;
use eprime_tree::{PFun, POp1, POp2};
use ess_rows::{Boxed, NoMemory};
use std::alloc::Global;

/// An operator with one operand.
#[tactic(auto, using(crate::proofs::MadeNodes::one_stands, crate::proofs::MadeNodes::one_breaks))]
pub(crate) fn one(alloc: Global, op: POp1, a: KindedEx) -> Result<KindedEx, NoMemory>
    ensures { IfOk result (λ k. (names : List values.Text) → pure_kinded names k ≡ kinded_node (pure_op1 op) (more_exs (pure_kex names a.ex) no_exs) [] (type_of_op (pure_op1 op) (pure_kind a.kind ∷ []))) }
{
    let kind = kind_of_one(op);
    if stands_one(op, &a) {
        Ok(KindedEx {
            ex: Boxed::new(alloc, KEx::One(op, a.ex))?,
            kind,
        })
    } else {
        drop(a);
        broken(alloc, kind)
    }
}

/// Whether an operator takes its operand, and that has something.
fn stands_one(op: POp1, a: &KindedEx) -> bool
    ensures { result ≡ stands (more_exs (pure_kex [] a.now.ex) no_exs) (type_of_op (pure_op1 op) (pure_kind a.now.kind ∷ [])) }
{
    takes_one(op, a.kind) && !is_nothing(a.ex.get())
}

/// An operator with two operands.
#[tactic(auto, using(crate::proofs::MadeNodes::two_stands, crate::proofs::MadeNodes::two_breaks))]
pub(crate) fn two(alloc: Global, op: POp2, a: KindedEx, b: KindedEx) -> Result<KindedEx, NoMemory>
    ensures { IfOk result (λ k. (names : List values.Text) → pure_kinded names k ≡ kinded_node (binary (pure_op2 op)) (more_exs (pure_kex names a.ex) (more_exs (pure_kex names b.ex) no_exs)) [] (type_of_op (binary (pure_op2 op)) (pure_kind a.kind ∷ pure_kind b.kind ∷ []))) }
{
    let kind = kind_of_two(op);
    if stands_two(op, &a, &b) {
        Ok(KindedEx {
            ex: Boxed::new(alloc, KEx::Two(op, a.ex, b.ex))?,
            kind,
        })
    } else {
        drop(a);
        drop(b);
        broken(alloc, kind)
    }
}

/// Whether an operator takes its operands, and each has something.
fn stands_two(op: POp2, a: &KindedEx, b: &KindedEx) -> bool
    ensures { result ≡ stands (more_exs (pure_kex [] a.now.ex) (more_exs (pure_kex [] b.now.ex) no_exs)) (type_of_op (binary (pure_op2 op)) (pure_kind a.now.kind ∷ pure_kind b.now.kind ∷ [])) }
{
    takes_two(op, a.kind, b.kind) && !is_nothing(a.ex.get()) && !is_nothing(b.ex.get())
}

/// A word over a list, or over what has nothing.
#[tactic(auto, using(crate::proofs::MadeNodes::fold_none))]
pub(crate) fn fold(alloc: Global, fun: PFun, list: Option<KindedList>) -> Result<KindedEx, NoMemory>
    ensures { IfOk result (λ k. (names : List values.Text) → pure_kinded names k ≡ kinded_node (word (pure_fun fun)) (more_exs (pure_listed names list).0 no_exs) [] (type_of_op (word (pure_fun fun)) ((pure_listed names list).1 ∷ []))) }
{
    match list {
        Some(list) => fold_list(alloc, fun, list),
        None => broken(alloc, kind_of_fold(fun)),
    }
}

/// A word over a list.
#[tactic(auto, using(crate::proofs::MadeNodes::fold_stands, crate::proofs::MadeNodes::fold_breaks))]
fn fold_list(alloc: Global, fun: PFun, list: KindedList) -> Result<KindedEx, NoMemory>
    ensures { IfOk result (λ k. (names : List values.Text) → pure_kinded names k ≡ kinded_node (word (pure_fun fun)) (more_exs (pure_listed names (Some list)).0 no_exs) [] (type_of_op (word (pure_fun fun)) ((pure_listed names (Some list)).1 ∷ []))) }
{
    let kind = kind_of_fold(fun);
    if takes_list(fun, list.item) {
        Ok(KindedEx {
            ex: Boxed::new(alloc, KEx::Fold(fun, list.list))?,
            kind,
        })
    } else {
        drop(list);
        broken(alloc, kind)
    }
}

/// A lex sign between two lists, or what has nothing.
#[tactic(auto, using(crate::proofs::MadeNodes::lex_none, crate::proofs::MadeNodes::lex_second_none))]
pub(crate) fn lex(
    alloc: Global,
    op: POp2,
    a: Option<KindedList>,
    b: Option<KindedList>,
) -> Result<KindedEx, NoMemory>
    ensures { IfOk result (λ k. (names : List values.Text) → pure_kinded names k ≡ kinded_node (binary (pure_op2 op)) (more_exs (pure_listed names a).0 (more_exs (pure_listed names b).0 no_exs)) [] (type_of_op (binary (pure_op2 op)) ((pure_listed names a).1 ∷ (pure_listed names b).1 ∷ []))) }
{
    match (a, b) {
        (Some(a), Some(b)) => lex_lists(alloc, op, a, b),
        (Some(a), None) => {
            drop(a);
            broken(alloc, kind_of_two(op))
        }
        (None, b) => {
            drop(b);
            broken(alloc, kind_of_two(op))
        }
    }
}

/// A lex sign between two lists.
#[tactic(auto, using(crate::proofs::MadeNodes::lex_stands, crate::proofs::MadeNodes::lex_breaks))]
fn lex_lists(alloc: Global, op: POp2, a: KindedList, b: KindedList) -> Result<KindedEx, NoMemory>
    ensures { IfOk result (λ k. (names : List values.Text) → pure_kinded names k ≡ kinded_node (binary (pure_op2 op)) (more_exs (pure_listed names (Some a)).0 (more_exs (pure_listed names (Some b)).0 no_exs)) [] (type_of_op (binary (pure_op2 op)) ((pure_listed names (Some a)).1 ∷ (pure_listed names (Some b)).1 ∷ []))) }
{
    let kind = kind_of_two(op);
    if takes_lists(op, &a, &b) {
        Ok(KindedEx {
            ex: Boxed::new(alloc, KEx::Lex(op, a.list, b.list))?,
            kind,
        })
    } else {
        drop(a);
        drop(b);
        broken(alloc, kind)
    }
}

/// Whether an operator takes these two lists.
#[tactic(auto, using(crate::proofs::MadeNodes::lists_taken, crate::proofs::MadeNodes::lists_apart))]
fn takes_lists(op: POp2, a: &KindedList, b: &KindedList) -> bool
    ensures { result ≡ is_some (type_of_op (binary (pure_op2 op)) (compound2 a_matrix (pure_kind a.now.index) (pure_kind a.now.item) ∷ compound2 a_matrix (pure_kind b.now.index) (pure_kind b.now.item) ∷ [])) }
{
    match (a.index.joined(b.index), a.item.joined(b.item)) {
        (Some(_), Some(_)) => compares_lists(op),
        (Some(_), None) => false,
        (None, _) => false,
    }
}
