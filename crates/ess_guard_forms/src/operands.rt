//! Rows of operands that have a certain number of items.
ghost use Rattle.std.specs.Prelude.{◌≡◌, [], ◌∷◌, IfSome, option_map};
ghost use Rattle.ess_core_nodes.specs.NodeViews.{pure_node, pure_nodes};
ghost use Rattle.ess_guard_laws.specs.Origins.{is_one as is_just_one, are_two as are_just_two};
ghost use Rattle.ess_guard_forms.specs.PartForms.{both_operands};

use ess_core_nodes::Node;

/// Whether there is one operand.
pub(crate) fn is_one(operands: &[Node]) -> bool
    ensures { result ≡ is_just_one (pure_nodes operands.now) }
{
    match operands.split_first() {
        None => false,
        Some((_, rest)) => match rest.split_first() {
            None => true,
            Some(_) => false,
        },
    }
}

/// Whether there are two.
pub(crate) fn are_two(operands: &[Node]) -> bool
    ensures { result ≡ are_just_two (pure_nodes operands.now) }
{
    match operands.split_first() {
        None => false,
        Some((_, rest)) => match rest.split_first() {
            None => false,
            Some((_, more)) => match more.split_first() {
                None => true,
                Some(_) => false,
            },
        },
    }
}

/// Two operands, where they are the only ones.
pub fn pair_in(operands: &[Node]) -> Option<(&Node, &Node)>
    ensures parts { option_map (λ p. (pure_node p.0.now, pure_node p.1.now)) result ≡ both_operands (pure_nodes operands.now) }
    ensures whole { IfSome result (λ p. operands.now ≡ p.0.now ∷ p.1.now ∷ []) }
{
    match operands.split_first() {
        None => None,
        Some((a, rest)) => match rest.split_first() {
            None => None,
            Some((b, more)) => match more.split_first() {
                None => Some((a, b)),
                Some(_) => None,
            },
        },
    }
}
