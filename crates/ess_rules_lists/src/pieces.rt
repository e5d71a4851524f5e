//! Trees that several rules make.
ghost use Rattle.std.specs.Prelude.{◌≡◌, IfOk};
ghost use Rattle.ess_semantics.specs.Trees.{name_pat, comp_ex, from as from_gen, no_gens};
ghost use Rattle.ess_core_nodes.specs.NodeViews.{pure_node};
ghost use Rattle.ess_rules_laws.specs.InclusionRules.{every as for_every, frequency as frequency_of};
ghost use Rattle.ess_rules_laws.specs.ListRules.{members_list as list_of_members};

use ess_core::Fun;
use ess_core_nodes::{Node, Op};
use ess_node_building::{comprehension, from, literal, name, two, word};
use ess_rows::{Boxed, NoMemory, Row, Text};
use std::alloc::Global;

/// A comprehension whose one generator binds a name over a value.
pub(crate) fn over_one(
    alloc: Global,
    body: Boxed<Node>,
    bound: &Text,
    source: Boxed<Node>,
) -> Result<Boxed<Node>, NoMemory>
    ensures { IfOk result (λ n. pure_node n ≡ comp_ex (pure_node body) (from_gen (name_pat bound.now) (pure_node source) no_gens)) }
{
    let mut gens = Row::new(alloc);
    gens.push(from(alloc, bound, source)?)?;
    comprehension(alloc, body, gens)
}

/// `and([body | x <- s])`
pub(crate) fn every(
    alloc: Global,
    bound: &Text,
    source: Boxed<Node>,
    body: Boxed<Node>,
) -> Result<Boxed<Node>, NoMemory>
    ensures { IfOk result (λ n. pure_node n ≡ for_every bound.now (pure_node source) (pure_node body)) }
{
    let each = over_one(alloc, body, bound, source)?;
    word(alloc, true, Fun::And, each)
}

/// `[x | x <- s]`
pub(crate) fn members_list(
    alloc: Global,
    bound: &Text,
    source: &Node,
) -> Result<Boxed<Node>, NoMemory>
    ensures { IfOk result (λ n. pure_node n ≡ list_of_members bound.now (pure_node source.now)) }
{
    let source = source.copy(alloc)?;
    let member = name(alloc, bound)?;
    over_one(alloc, member, bound, source)
}

/// `freq(m, x)`
pub(crate) fn frequency(
    alloc: Global,
    container: Boxed<Node>,
    member: Boxed<Node>,
) -> Result<Boxed<Node>, NoMemory>
    ensures { IfOk result (λ n. pure_node n ≡ frequency_of (pure_node container) (pure_node member)) }
{
    let operands = two(alloc, container, member)?;
    literal(alloc, Op::Word(Fun::Freq), operands)
}
