ghost use Rattle.std.specs.Prelude.{◌≡◌, ◌∷◌, [], IfOk, IfErr, true, Some, None, map, option_map};
ghost use Rattle.ess_semantics.specs.Meaning.{is_true};
ghost use Rattle.ess_grammar.specs.Models.{is_lex_operator};
ghost use Rattle.ess_semantics.specs.Large.{is_big};
ghost use Rattle.ess_semantics.specs.Trees.{binary, is_truth_op, is_truth_op2};
ghost use Rattle.ess_semantics.specs.Operators.{as_truth, value_of_node, value_of_binary, false_where_undefined};
ghost use Rattle.eprime_tree.specs.Views.{pure_op1, pure_op2};
ghost use Rattle.eprime_eval_scalars.specs.ScalarViews.{pure_scalar};
ghost use Rattle.eprime_eval_scalars.specs.declared.Stop.TheVariants.{Big, NoMemory};
ghost use Rattle.eprime_eval.specs.Operating.{folded, compared};

use crate::powers::divided;
use crate::{Row, Scalar, Stop};
use eprime_eval_scalars::{
    all_different, all_true, any_true, below, greatest, least, lists_below, minus, negative,
    number_in, plus, product, same, size, sum, times, truth_in,
};
use eprime_tree::{PFun, POp1, POp2};
use ess_semantics::words::Op2;
use std::alloc::Global;

/// The truth value that a connective reads: false for a number and for what isn't there.
pub(crate) fn truth_of(found: Option<Scalar>) -> bool
    ensures truth { result ≡ as_truth (option_map pure_scalar found) }
    ensures holds { result ≡ is_true (option_map pure_scalar found) }
{
    match found {
        Some(scalar) => truth_in(scalar),
        None => false,
    }
}

/// The value of an operator over one operand. `Big` where it is a number outside 64 bits.
#[tactic(auto, using(crate::proofs::OperatorValues::one_operand))]
pub(crate) fn one_value(op: POp1, a: Option<Scalar>) -> Result<Option<Scalar>, Stop>
    ensures ok { IfOk result (λ o. option_map pure_scalar o
        ≡ false_where_undefined (is_truth_op (pure_op1 op)) (value_of_node (pure_op1 op) (option_map pure_scalar a ∷ []))) }
    ensures big { result ≡ Err Big
        → is_big (false_where_undefined (is_truth_op (pure_op1 op)) (value_of_node (pure_op1 op) (option_map pure_scalar a ∷ []))) ≡ true }
{
    match (op, a) {
        (POp1::Not, a) => Ok(Some(Scalar::Truth(!truth_of(a)))),
        (POp1::Minus, Some(a)) => Ok(Some(Scalar::Num(negative(number_in(a))?))),
        (POp1::Bar, Some(a)) => Ok(Some(Scalar::Num(size(number_in(a))?))),
        (POp1::ToInt, Some(a)) => Ok(Some(Scalar::Num(if truth_in(a) { 1 } else { 0 }))),
        (_, None) => Ok(None),
    }
}

/// The value of an operator between two operands. `Big` where it is a number outside 64 bits.
pub(crate) fn two_value(
    alloc: Global,
    op: POp2,
    a: Option<Scalar>,
    b: Option<Scalar>,
) -> Result<Option<Scalar>, Stop>
    ensures ok { IfOk result (λ o. option_map pure_scalar o
        ≡ false_where_undefined (is_truth_op2 (pure_op2 op)) (value_of_node (binary (pure_op2 op)) (option_map pure_scalar a ∷ option_map pure_scalar b ∷ []))) }
    ensures big { result ≡ Err Big
        → is_big (false_where_undefined (is_truth_op2 (pure_op2 op)) (value_of_node (binary (pure_op2 op)) (option_map pure_scalar a ∷ option_map pure_scalar b ∷ []))) ≡ true }
{
    match op {
        POp2::And => Ok(Some(Scalar::Truth(truth_of(a) && truth_of(b)))),
        POp2::Or => Ok(Some(Scalar::Truth(truth_of(a) || truth_of(b)))),
        POp2::Implies => Ok(Some(Scalar::Truth(!truth_of(a) || truth_of(b)))),
        POp2::Iff => Ok(Some(Scalar::Truth(truth_of(a) == truth_of(b)))),
        _ => match (a, b) {
            (Some(a), Some(b)) => both_value(alloc, op, a, b),
            (_, _) => Ok(nothing_for(op)),
        },
    }
}

/// What an operator that is no connective gives where an operand isn't there.
fn nothing_for(op: POp2) -> Option<Scalar>
    ensures { option_map pure_scalar result ≡ false_where_undefined (is_truth_op2 (pure_op2 op)) None }
{
    match op {
        POp2::Pow | POp2::Times | POp2::Div | POp2::Mod | POp2::Plus | POp2::Minus => None,
        _ => Some(Scalar::Truth(false)),
    }
}

/// The value of an operator between two scalars. `Big` where it is a number outside 64 bits; `NoMemory` for a sign between
/// lists.
#[tactic(auto, using(crate::proofs::OperatorValues::minus_scalars))]
fn both_value(alloc: Global, op: POp2, a: Scalar, b: Scalar) -> Result<Option<Scalar>, Stop>
    ensures ok { IfOk result (λ o. option_map pure_scalar o
        ≡ false_where_undefined (is_truth_op2 (pure_op2 op)) (value_of_binary (pure_op2 op) (pure_scalar a) (pure_scalar b))) }
    ensures big { result ≡ Err Big
        → is_big (false_where_undefined (is_truth_op2 (pure_op2 op)) (value_of_binary (pure_op2 op) (pure_scalar a) (pure_scalar b))) ≡ true }
{
    match op {
        POp2::Pow => divided(alloc, Op2::Pow, a, b),
        POp2::Times => Ok(Some(Scalar::Num(times(number_in(a), number_in(b))?))),
        POp2::Div => divided(alloc, Op2::Div, a, b),
        POp2::Mod => divided(alloc, Op2::Mod, a, b),
        POp2::Plus => Ok(Some(Scalar::Num(plus(number_in(a), number_in(b))?))),
        POp2::Minus => Ok(Some(Scalar::Num(minus(number_in(a), number_in(b))?))),
        POp2::Eq => Ok(Some(Scalar::Truth(same(a, b)))),
        POp2::Ne => Ok(Some(Scalar::Truth(!same(a, b)))),
        POp2::Lt => Ok(Some(Scalar::Truth(below(a, b)))),
        POp2::Le => Ok(Some(Scalar::Truth(!below(b, a)))),
        POp2::Gt => Ok(Some(Scalar::Truth(below(b, a)))),
        POp2::Ge => Ok(Some(Scalar::Truth(!below(a, b)))),
        POp2::And => Ok(Some(Scalar::Truth(truth_in(a) && truth_in(b)))),
        POp2::Or => Ok(Some(Scalar::Truth(truth_in(a) || truth_in(b)))),
        POp2::Implies => Ok(Some(Scalar::Truth(!truth_in(a) || truth_in(b)))),
        POp2::Iff => Ok(Some(Scalar::Truth(truth_in(a) == truth_in(b)))),
        POp2::LexLt | POp2::LexLe | POp2::LexGt | POp2::LexGe => Err(Stop::NoMemory),
    }
}

/// The value of a word over the items of a list. `Big` where it is a number outside 64 bits.
pub(crate) fn fold_value(fun: PFun, items: &[Scalar]) -> Result<Option<Scalar>, Stop>
    ensures ok { IfOk result (λ o. option_map pure_scalar o ≡ folded fun (Some (map pure_scalar items.now))) }
    ensures big { result ≡ Err Big → is_big (folded fun (Some (map pure_scalar items.now))) ≡ true }
{
    match fun {
        PFun::And => Ok(Some(Scalar::Truth(all_true(items)))),
        PFun::Or => Ok(Some(Scalar::Truth(any_true(items)))),
        PFun::Sum => Ok(Some(Scalar::Num(sum(items)?))),
        PFun::Product => Ok(Some(Scalar::Num(product(items)?))),
        PFun::Min => Ok(least(items)),
        PFun::Max => Ok(greatest(items)),
        PFun::AllDiff => Ok(Some(Scalar::Truth(all_different(items)))),
    }
}

/// What a word gives where its list isn't there: false where it gives a truth value.
pub(crate) fn nothing_folded(fun: PFun) -> Option<Scalar>
    ensures { option_map pure_scalar result ≡ folded fun None }
{
    match fun {
        PFun::And | PFun::Or | PFun::AllDiff => Some(Scalar::Truth(false)),
        PFun::Sum | PFun::Product | PFun::Min | PFun::Max => None,
    }
}

/// The value of a sign between two lists, false where one isn't there. `NoMemory` for an operator that is none.
pub(crate) fn lex_value(
    op: POp2,
    a: &Option<Row<Scalar>>,
    b: &Option<Row<Scalar>>,
) -> Result<Option<Scalar>, Stop>
    ensures ok { IfOk result (λ o. option_map pure_scalar o ≡ compared op (option_map (map pure_scalar) a.now) (option_map (map pure_scalar) b.now)) }
    ensures sign { IfOk result (λ o. is_lex_operator (pure_op2 op) ≡ true) }
    ensures never { IfErr result (λ no. no ≡ NoMemory) }
{
    match (a, b) {
        (Some(a), Some(b)) => both_lists(op, a.as_slice(), b.as_slice()),
        (_, _) => match op {
            POp2::LexLt | POp2::LexLe | POp2::LexGt | POp2::LexGe => {
                Ok(Some(Scalar::Truth(false)))
            }
            _ => Err(Stop::NoMemory),
        },
    }
}

/// The value of a sign between two lists. `NoMemory` for an operator that is none.
fn both_lists(op: POp2, a: &[Scalar], b: &[Scalar]) -> Result<Option<Scalar>, Stop>
    ensures ok { IfOk result (λ o. option_map pure_scalar o ≡ compared op (Some (map pure_scalar a.now)) (Some (map pure_scalar b.now))) }
    ensures sign { IfOk result (λ o. is_lex_operator (pure_op2 op) ≡ true) }
    ensures never { IfErr result (λ no. no ≡ NoMemory) }
{
    match op {
        POp2::LexLt => Ok(Some(Scalar::Truth(lists_below(a, b)))),
        POp2::LexLe => Ok(Some(Scalar::Truth(!lists_below(b, a)))),
        POp2::LexGt => Ok(Some(Scalar::Truth(lists_below(b, a)))),
        POp2::LexGe => Ok(Some(Scalar::Truth(!lists_below(a, b)))),
        _ => Err(Stop::NoMemory),
    }
}
