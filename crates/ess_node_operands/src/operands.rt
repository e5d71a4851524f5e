//! Operands by their number.
ghost use Rattle.std.specs.Prelude.{◌≡◌};
ghost use Rattle.ess_node_operands.specs.Counted.{operands_of};

use ess_core_nodes::Node;

/// Operands by their number.
#[derive(Clone, Copy)]
pub enum Operands<'a> {
    /// There are none.
    None,
    /// There is one.
    One(&'a Node),
    /// There are two.
    Two(&'a Node, &'a Node),
    /// There are more: the first three, and those behind.
    More(&'a Node, &'a Node, &'a Node, &'a [Node]),
}

/// These operands by their number.
pub fn by_number<'a>(operands: &'a [Node]) -> Operands<'a>
    ensures { operands.now ≡ operands_of result }
{
    let Some((a, rest)) = operands.split_first() else {
        return Operands::None;
    };
    let Some((b, rest)) = rest.split_first() else {
        return Operands::One(a);
    };
    match rest.split_first() {
        None => Operands::Two(a, b),
        Some((c, rest)) => Operands::More(a, b, c, rest),
    }
}
