ghost use Rattle.std.specs.Prelude.{◌≡◌, IfOk, true, map, option_map};
ghost use Rattle.ess_semantics.specs.Trees.{word as a_word};
ghost use Rattle.ess_semantics.specs.Large.{is_big};
ghost use Rattle.ess_semantics.specs.Operators.{value_of_node};
ghost use Rattle.ess_core.specs.ValueViews.{pure_val};
ghost use Rattle.ess_eval_operators.specs.declared.OperateNo.TheVariants.{Big};

use crate::OperateNo;
use crate::operands::present;
use crate::words::{value_of_word1, value_of_word2};
use ess_core::Val;
use ess_semantics::words::Fun;
use std::alloc::Global;

/// The value of a call of a function word on any number of operands, each of which may have no value: then the call has
/// none. `Big` where the answer is a number outside 64 bits, `NoMemory` where there is no room for it.
#[tactic(auto, using(crate::proofs::WordOperands::word_operands))]
pub fn value_of_word(
    alloc: Global,
    word: Fun,
    operands: &[Option<Val>],
) -> Result<Option<Val>, OperateNo>
    ensures ok { IfOk result (λ o. option_map pure_val o ≡ value_of_node (a_word word) (map (option_map pure_val) operands.now)) }
    ensures big { result ≡ Err Big → is_big (value_of_node (a_word word) (map (option_map pure_val) operands.now)) ≡ true }
{
    if operands.len() == 1 {
        return value_of_word1(alloc, word, operands[0].as_ref());
    }
    if operands.len() == 2 {
        return value_of_word2(alloc, word, operands[0].as_ref(), operands[1].as_ref());
    }
    match present(alloc, operands)? {
        Some(vals) => {
            drop(vals);
            Ok(Some(Val::Truth(false)))
        }
        None => Ok(None),
    }
}
