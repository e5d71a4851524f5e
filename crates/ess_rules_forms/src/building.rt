//! What the rules build: that something holds of each or of some member, how often a member stands in a container, and conjunctions.
ghost use Rattle.std.specs.Prelude.{◌≡◌, [], ◌∷◌, IfOk, true, false};
ghost use Rattle.ess_semantics.specs.Trees.{name_ex, comp_ex, ex1, ex2, name_pat, fun1, no_gens};
ghost use Rattle.ess_semantics.specs.Trees as pure;
ghost use Rattle.ess_core.specs.TreeViews.{gens_of};
ghost use Rattle.ess_core_nodes.specs.NodeViews.{pure_node, pure_gen, pure_dom};
ghost use Rattle.ess_rules_laws.specs.InclusionRules.{every, frequency};
ghost use Rattle.ess_rules_laws.specs.PartitionRules.{lie_together};
ghost use Rattle.ess_rules_laws.specs.MatrixRules.{every_over, some_over};

use ess_core::{Fun, Op1, Op2};
use ess_core_nodes::{Gen, Node, NodeDom, Op};
use ess_node_building::{binary, comprehension, from, name, over, two, unary, word};
use ess_rows::{Boxed, NoMemory, Row, Text};
use std::alloc::Global;

/// The body for each value that the generator binds.
fn running(alloc: Global, generator: Gen, body: Boxed<Node>) -> Result<Boxed<Node>, NoMemory>
    ensures { IfOk result (λ n. pure_node n ≡ comp_ex (pure_node body) (gens_of (pure_gen generator ∷ []))) }
{
    let mut gens = Row::new(alloc);
    gens.push(generator)?;
    comprehension(alloc, body, gens)
}

/// That the body holds of each member of a container, called by the name.
pub fn every(
    alloc: Global,
    member: &Text,
    source: Boxed<Node>,
    body: Boxed<Node>,
) -> Result<Boxed<Node>, NoMemory>
    ensures { IfOk result (λ n. pure_node n ≡ every member.now (pure_node source) (pure_node body)) }
{
    let generator = from(alloc, member, source)?;
    word(alloc, true, Fun::And, running(alloc, generator, body)?)
}

/// That the body holds of some member of a container, called by the name.
pub fn some(
    alloc: Global,
    member: &Text,
    source: Boxed<Node>,
    body: Boxed<Node>,
) -> Result<Boxed<Node>, NoMemory>
    ensures { IfOk result (λ n. pure_node n ≡
        fun1 true Fun.Or (comp_ex (pure_node body) (pure.from (name_pat member.now) (pure_node source) no_gens))) }
{
    let generator = from(alloc, member, source)?;
    word(alloc, true, Fun::Or, running(alloc, generator, body)?)
}

/// That the body holds of each member of a domain, called by the name.
pub fn every_over(
    alloc: Global,
    member: &Text,
    dom: &NodeDom,
    body: Boxed<Node>,
) -> Result<Boxed<Node>, NoMemory>
    ensures { IfOk result (λ n. pure_node n ≡ every_over member.now (pure_dom dom.now) (pure_node body)) }
{
    let dom = dom.copy(alloc)?;
    let generator = over(alloc, member, dom)?;
    word(alloc, true, Fun::And, running(alloc, generator, body)?)
}

/// That the body holds of some member of a domain, called by the name.
pub fn some_over(
    alloc: Global,
    member: &Text,
    dom: &NodeDom,
    body: Boxed<Node>,
) -> Result<Boxed<Node>, NoMemory>
    ensures { IfOk result (λ n. pure_node n ≡ some_over member.now (pure_dom dom.now) (pure_node body)) }
{
    let dom = dom.copy(alloc)?;
    let generator = over(alloc, member, dom)?;
    word(alloc, true, Fun::Or, running(alloc, generator, body)?)
}

/// How often the member of this name is in a container.
pub fn frequency(alloc: Global, container: &Node, member: &Text) -> Result<Boxed<Node>, NoMemory>
    ensures { IfOk result (λ n. pure_node n ≡ frequency (pure_node container.now) (name_ex member.now)) }
{
    let container = container.copy(alloc)?;
    let operands = two(alloc, container, name(alloc, member)?)?;
    Boxed::new(alloc, Node::Op(false, Op::Word(Fun::Freq), operands))
}

/// That the part of this name lies in one part of a partition.
pub fn lie_together(alloc: Global, part: &Text, partition: &Node) -> Result<Boxed<Node>, NoMemory>
    ensures { IfOk result (λ n. pure_node n ≡ lie_together (name_ex part.now) (pure_node partition.now)) }
{
    let partition = partition.copy(alloc)?;
    let operands = two(alloc, name(alloc, part)?, partition)?;
    Boxed::new(alloc, Node::Op(true, Op::Word(Fun::Together), operands))
}

/// A Boolean operator between copies of two terms.
pub fn compared(
    alloc: Global,
    op: Op2,
    first: &Node,
    second: &Node,
) -> Result<Boxed<Node>, NoMemory>
    ensures { IfOk result (λ n. pure_node n ≡ ex2 true op (pure_node first.now) (pure_node second.now)) }
{
    let first = first.copy(alloc)?;
    let second = second.copy(alloc)?;
    binary(alloc, true, op, first, second)
}

/// That the member of this name is in a container.
pub fn is_in(alloc: Global, member: &Text, container: Boxed<Node>) -> Result<Boxed<Node>, NoMemory>
    ensures { IfOk result (λ n. pure_node n ≡ ex2 true Op2.Member (name_ex member.now) (pure_node container)) }
{
    let member = name(alloc, member)?;
    binary(alloc, true, Op2::Member, member, container)
}

/// That both hold.
pub fn both(alloc: Global, first: Boxed<Node>, second: Boxed<Node>) -> Result<Boxed<Node>, NoMemory>
    ensures { IfOk result (λ n. pure_node n ≡ ex2 true Op2.And (pure_node first) (pure_node second)) }
{
    binary(alloc, true, Op2::And, first, second)
}

/// That it doesn't hold.
pub fn negated(alloc: Global, truth: Boxed<Node>) -> Result<Boxed<Node>, NoMemory>
    ensures { IfOk result (λ n. pure_node n ≡ ex1 true Op1.Not (pure_node truth)) }
{
    unary(alloc, true, Op1::Not, truth)
}
