//! Terms whose values differ, as their form tells. No call takes memory.
ghost use Rattle.std.specs.Prelude.{◌≡◌};
ghost use Rattle.ess_core_nodes.specs.NodeViews.{pure_node, pure_nodes};
ghost use Rattle.ess_rules_laws.specs.Apart.{are_apart as apart, any_apart as one_apart};

use ess_core_nodes::{Node, Op};

/// Whether two terms have different values wherever both have one, by their form: different numerals, different truth values, and
/// tuples with such components.
#[cycle(apart)]
#[tactic(auto, using(ess_core_nodes::proofs::NodeEquations::pure_seen_is))]
pub fn are_apart(first: &Node, second: &Node) -> bool
    ensures { result ≡ apart (pure_node first.now) (pure_node second.now) }
{
    match first {
        Node::Number(number) => match second {
            Node::Number(other) => *number != *other,
            _ => false,
        },
        Node::Truth(truth) => match second {
            Node::Truth(other) => *truth != *other,
            _ => false,
        },
        Node::Op(false, Op::Tuple, items) => match second {
            Node::Op(false, Op::Tuple, others) => any_apart(items.as_slice(), others.as_slice()),
            _ => false,
        },
        _ => false,
    }
}

/// Whether two items at one place are.
#[cycle(apart)]
fn any_apart(items: &[Node], others: &[Node]) -> bool
    ensures { result ≡ one_apart (pure_nodes items.now) (pure_nodes others.now) }
{
    let mut rest = others;
    for item in items {
        match rest.split_first() {
            None => return false,
            Some((other, behind)) => {
                if are_apart(item, other) {
                    return true;
                }
                rest = behind;
            }
        }
    }
    false
}
