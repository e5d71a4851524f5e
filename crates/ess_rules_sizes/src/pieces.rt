//! Trees that several rules make.
ghost use Rattle.std.specs.Prelude.{◌≡◌, pos, false, IfOk};
ghost use Rattle.ess_semantics.specs.Trees.{name_pat, number_ex, comp_ex, fun1, from as from_gen, no_gens};
ghost use Rattle.ess_core_nodes.specs.NodeViews.{pure_node};

use ess_core::Fun;
use ess_core_nodes::Node;
use ess_node_building::{comprehension, from, number, word};
use ess_rows::{Boxed, NoMemory, Row, Text};
use std::alloc::Global;

/// A comprehension whose one generator binds a name over a value.
pub(crate) fn over_one(
    alloc: Global,
    body: Boxed<Node>,
    bound: &Text,
    source: Boxed<Node>,
) -> Result<Boxed<Node>, NoMemory>
    ensures { IfOk result (λ n. pure_node n ≡ comp_ex (pure_node body) (from_gen (name_pat bound.now) (pure_node source) no_gens)) }
{
    let mut gens = Row::new(alloc);
    gens.push(from(alloc, bound, source)?)?;
    comprehension(alloc, body, gens)
}

/// `sum([1 | x <- s])`
pub(crate) fn ones_over(alloc: Global, bound: &Text, source: &Node) -> Result<Boxed<Node>, NoMemory>
    ensures { IfOk result (λ n. pure_node n
        ≡ fun1 false Fun.Sum (comp_ex (number_ex (pos 1)) (from_gen (name_pat bound.now) (pure_node source.now) no_gens))) }
{
    let source = source.copy(alloc)?;
    let one = number(alloc, 1)?;
    let ones = over_one(alloc, one, bound, source)?;
    word(alloc, false, Fun::Sum, ones)
}
