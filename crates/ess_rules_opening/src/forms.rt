//! A function word of a comprehension alone.
ghost use Rattle.std.specs.Prelude.{◌≡◌, option_map};
ghost use Rattle.ess_semantics.specs.ExpressionJudgements.{forgets_order as order_forgotten};
ghost use Rattle.ess_core_nodes.specs.NodeViews.{pure_node, pure_gens, pure_op};
ghost use Rattle.ess_rules_opening.specs.OpenedViews.{comp_word, pure_comp_word};

use ess_core::Fun;
use ess_core_nodes::{Gen, Node, Op};
use ess_rules_folds::forms::{are_none, first_comp, word_in};

/// A function word of a comprehension.
#[derive(Clone, Copy)]
pub struct CompWord<'a> {
    /// Whether the word is Boolean.
    pub mark: bool,
    /// The word.
    pub fun: Fun,
    /// The body of the comprehension.
    pub body: &'a Node,
    /// Its generators and conditions.
    pub gens: &'a [Gen],
}

/// The parts of a function word of a comprehension alone.
#[tactic(auto, using(crate::proofs::WordForms::word_by_parts))]
pub fn comp_word(node: &Node) -> Option<CompWord<'_>>
    ensures { option_map pure_comp_word result ≡ comp_word (pure_node node.now) }
{
    let Some((mark, fun, operands)) = word_in(node) else {
        return None;
    };
    let Some((body, gens, others)) = first_comp(operands) else {
        return None;
    };
    if !are_none(others) {
        return None;
    }
    Some(CompWord {
        mark,
        fun,
        body,
        gens,
    })
}

/// Whether order doesn't count in the operand of the word.
pub fn forgets_order(fun: Fun) -> bool
    ensures { result ≡ order_forgotten (pure_op (Op.Word fun)) }
{
    match fun {
        Fun::Sum | Fun::Product | Fun::And | Fun::Or => true,
        Fun::Min | Fun::Max | Fun::AllDiff | Fun::ToSet | Fun::ToMSet => true,
        _ => false,
    }
}
