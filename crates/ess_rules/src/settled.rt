//! Where conditions that read cells have to leave a list: they leave the inner one before the outer one.
ghost use Rattle.std.specs.Prelude.{◌≡◌, [], ◌∷◌};
ghost use Rattle.ess_core.specs.TreeViews.{gens_of};
ghost use Rattle.ess_core_nodes.specs.NodeViews.{pure_node, pure_nodes, pure_gen, pure_gens, pure_op};
ghost use Rattle.ess_rules.specs.WaitingConditions.{is_open, has_open_parts, has_open, is_open_word, any_has_open, gens_have_open, has_leaving, says_there, is_true, may_leave as conditions_may_leave};

use ess_core::Fun;
use ess_core_nodes::{Gen, Node, Op};
use ess_rules_conditions::at_last_condition;

/// Whether conditions that read cells may leave the root's own list: one has to, and those of the parts have left.
pub(crate) fn may_leave(node: &Node) -> bool
    ensures { result ≡ conditions_may_leave (pure_node node.now) }
{
    is_open(node) && !has_open_parts(node)
}

/// Whether a word has a list of its own with a condition that reads cells, and that has to leave it.
fn is_open(node: &Node) -> bool
    ensures { result ≡ is_open (pure_node node.now) }
{
    match node {
        Node::Op(_, op, operands) => is_open_word(op, operands.as_slice()),
        _ => false,
    }
}

/// Whether a word within the body or the generators of a word has a list with a condition that reads cells. The condition of the root's
/// own list doesn't count.
fn has_open_parts(node: &Node) -> bool
    ensures { result ≡ has_open_parts (pure_node node.now) }
{
    match node {
        Node::Op(_, Op::Word(_), operands) => match operands.as_slice().first() {
            Some(Node::Comp(body, gens)) => has_open(body.get()) || gens_have_open(gens.as_slice()),
            _ => false,
        },
        _ => false,
    }
}

/// Whether it or a part of it is a word of a list with a condition that reads cells.
#[cycle(has_open)]
fn has_open(node: &Node) -> bool
    ensures { result ≡ has_open (pure_node node.now) }
{
    match node {
        Node::Op(_, op, operands) => is_open_word(op, operands.as_slice())
            || any_has_open(operands.as_slice()),
        Node::MatrixOn(items, _) => any_has_open(items.as_slice()),
        Node::Comp(body, gens) => has_open(body.get()) || gens_have_open(gens.as_slice()),
        Node::Cell(_, _, at) => any_has_open(at.as_slice()),
        _ => false,
    }
}

/// Whether the operator is a word of a list with such a condition.
fn is_open_word(op: &Op, operands: &[Node]) -> bool
    ensures { result ≡ is_open_word (pure_op op.now) (pure_nodes operands.now) }
{
    match op {
        Op::Word(_) => match operands.first() {
            Some(Node::Comp(_, gens)) => has_open_condition(gens.as_slice()),
            _ => false,
        },
        _ => false,
    }
}

/// Whether one of these conditions reads cells and has to leave: not so the only one that does, where it says that generators have a
/// binding.
fn has_open_condition(gens: &[Gen]) -> bool
    ensures { result ≡ has_leaving (pure_gens gens.now) }
{
    match at_last_condition(gens) {
        Some(parts) => { !says_there(parts.condition) || at_last_condition(parts.before).is_some() }
        None => false,
    }
}

/// Whether it is `or([true | gens])`, which stands before the least or greatest of numbers that is made to be there everywhere. Where it
/// reads cells without an open part of its own, these stand in bounds of generators, so they are cells of givens: it may stay. Taken out
/// it would be made again, and so on for ever.
fn says_there(condition: &Node) -> bool
    ensures { result ≡ says_there (pure_node condition.now) }
{
    match condition {
        Node::Op(_, Op::Word(Fun::Or), operands) => match operands.as_slice().first() {
            Some(Node::Comp(body, _)) => is_true(body.get()),
            _ => false,
        },
        _ => false,
    }
}

/// Whether it is `true`.
fn is_true(node: &Node) -> bool
    ensures { result ≡ is_true (pure_node node.now) }
{
    match node {
        Node::Truth(truth) => *truth,
        _ => false,
    }
}

/// Whether one of these is.
#[cycle(has_open)]
fn any_has_open(nodes: &[Node]) -> bool
    ensures { result ≡ any_has_open (pure_nodes nodes.now) }
{
    for node in nodes {
        if has_open(node) {
            return true;
        }
    }
    false
}

/// Whether a condition or a source of these is.
#[cycle(has_open)]
#[tactic(auto, using(crate::proofs::OpenParts::gens_more, crate::proofs::OpenParts::gens_found, crate::proofs::OpenParts::gens_none))]
fn gens_have_open(gens: &[Gen]) -> bool
    ensures { result ≡ gens_have_open (pure_gens gens.now) }
{
    for item in gens {
        if gen_has_open(item) {
            return true;
        }
    }
    false
}

/// Whether the condition or the source is.
#[cycle(has_open)]
#[tactic(auto, using(crate::proofs::OpenParts::domain_alone, crate::proofs::OpenParts::source_alone, crate::proofs::OpenParts::condition_alone, ess_core_nodes::proofs::NodeEquations::pure_gen_over, ess_core_nodes::proofs::NodeEquations::pure_gen_from, ess_core_nodes::proofs::NodeEquations::pure_gen_if))]
fn gen_has_open(item: &Gen) -> bool
    ensures { result ≡ gens_have_open (gens_of (pure_gen item.now ∷ [])) }
{
    match item {
        Gen::Over(_, _) => false,
        Gen::From(_, source) => has_open(source.get()),
        Gen::If(condition) => has_open(condition.get()),
    }
}
