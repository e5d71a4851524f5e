//! What is found of a node, from what is found of its operands.
ghost use Rattle.std.specs.Prelude.{◌≡◌};
ghost use Rattle.ess_semantics.specs.ExpressionJudgements.{compares as compares_operands, forgets_order as order_is_forgotten};
ghost use Rattle.ess_semantics.specs.Trees.{word, binary};
ghost use Rattle.ess_types_judging.specs.Findings.{pure_node};

use ess_core::{FieldEx, Fun, Op1, Op2};

/// What stands at a node but an index.
#[derive(Clone, Copy)]
pub enum Node<'a> {
    Unary(Op1),
    Binary(Op2),
    Word(Fun),
    Application,
    Tuple,
    Record(&'a [FieldEx]),
    Set,
    MSet,
    Function,
    Relation,
    Partition,
    List,
}

/// Whether the operator compares its operands by order.
fn compares_two(op: Op2) -> bool
    ensures { result ≡ compares_operands (binary op) }
{
    match op {
        Op2::Lt => true,
        Op2::Le => true,
        Op2::Gt => true,
        Op2::Ge => true,
        Op2::LexLt => true,
        Op2::LexLe => true,
        Op2::LexGt => true,
        Op2::LexGe => true,
        _ => false,
    }
}

/// Whether the word compares the items of its operand by order.
fn compares_items(fun: Fun) -> bool
    ensures { result ≡ compares_operands (word fun) }
{
    match fun {
        Fun::Min => true,
        Fun::Max => true,
        _ => false,
    }
}

/// Whether order doesn't count in the word's operand.
fn word_forgets_order(fun: Fun) -> bool
    ensures { result ≡ order_is_forgotten (word fun) }
{
    match fun {
        Fun::Sum => true,
        Fun::Product => true,
        Fun::And => true,
        Fun::Or => true,
        Fun::Min => true,
        Fun::Max => true,
        Fun::AllDiff => true,
        Fun::ToSet => true,
        Fun::ToMSet => true,
        _ => false,
    }
}

/// Whether a node compares its operands, or their items, by order.
pub(crate) fn compares(node: &Node<'_>) -> bool
    ensures { result ≡ compares_operands (pure_node node.now) }
{
    match node {
        Node::Binary(op) => compares_two(*op),
        Node::Word(fun) => compares_items(*fun),
        _ => false,
    }
}

/// Whether order doesn't count in a node's operands.
pub(crate) fn forgets_order(node: &Node<'_>) -> bool
    ensures { result ≡ order_is_forgotten (pure_node node.now) }
{
    match node {
        Node::Word(fun) => word_forgets_order(*fun),
        _ => false,
    }
}
