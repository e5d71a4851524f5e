//! Alternatives of terms: the members of a term under a condition.
ghost use Rattle.std.specs.Prelude.{◌≡◌, [], ◌∷◌, true, IfOk, map};
ghost use Rattle.ess_semantics.specs.Trees as pure;
ghost use Rattle.ess_semantics.specs.Trees.{cond, no_gens, name_ex, ex1, ex2};
ghost use Rattle.ess_core_nodes.specs.NodeViews.{pure_node, pure_gens};
ghost use Rattle.ess_rules_laws.specs.Listings.{those};
ghost use Rattle.ess_rules_forms.specs.PureAlternatives.{pure_alternative};
ghost use Rattle.ess_rules_listings.specs.Marks.{component_by, arguments_by, members_in_parts};

use ess_core::{Op1, Op2};
use ess_core_nodes::{Gen, Node};
use ess_node_building::{binary, component, condition, from, name, unary};
use ess_rows::{Boxed, NoMemory, Row, Text};
use ess_rules_forms::Alternative;
use std::alloc::Global;

/// The members of a term, each of which is called x, under conditions.
pub(crate) fn those(
    alloc: Global,
    one: &Text,
    source: &Node,
    mut conditions: Row<Gen>,
) -> Result<Alternative, NoMemory>
    ensures { IfOk result (λ a. pure_alternative a ≡ those one.now (pure_node source.now) (pure_gens conditions)) }
{
    let gens = members_under(alloc, one, source, &mut conditions)?;
    let item = name(alloc, one)?;
    Ok(Alternative { gens, item })
}

/// A generator over a term, before conditions, which are taken.
fn members_under(
    alloc: Global,
    one: &Text,
    source: &Node,
    conditions: &mut Row<Gen>,
) -> Result<Row<Gen>, NoMemory>
    ensures { IfOk result (λ gs. pure_gens gs
        ≡ pure.from (pure.name_pat one.now) (pure_node source.now) (pure_gens conditions.old)) }
{
    let source = source.copy(alloc)?;
    let mut gens = Row::new(alloc);
    gens.push(from(alloc, one, source)?)?;
    gens.append(conditions)?;
    Ok(gens)
}

/// One condition.
#[tactic(auto, using(ess_core_nodes::proofs::NodeEquations::pure_gen_if))]
pub(crate) fn under(alloc: Global, truth: Boxed<Node>) -> Result<Row<Gen>, NoMemory>
    ensures { IfOk result (λ gs. pure_gens gs ≡ cond (pure_node truth) no_gens) }
{
    let mut gens = Row::new(alloc);
    gens.push(condition(truth))?;
    Ok(gens)
}

/// That the member of this name is in a term.
pub(crate) fn is_in(alloc: Global, one: &Text, term: &Node) -> Result<Boxed<Node>, NoMemory>
    ensures { IfOk result (λ n. pure_node n ≡ ex2 true Op2.Member (name_ex one.now) (pure_node term.now)) }
{
    let member = name(alloc, one)?;
    let term = term.copy(alloc)?;
    binary(alloc, true, Op2::Member, member, term)
}

/// That it isn't.
pub(crate) fn is_not_in(alloc: Global, one: &Text, term: &Node) -> Result<Boxed<Node>, NoMemory>
    ensures { IfOk result (λ n. pure_node n ≡ ex1 true Op1.Not (ex2 true Op2.Member (name_ex one.now) (pure_node term.now))) }
{
    unary(alloc, true, Op1::Not, is_in(alloc, one, term)?)
}

/// A component of the pair of this name, Boolean where the mark says so.
pub(crate) fn component_by(
    alloc: Global,
    mark: bool,
    at: u64,
    one: &Text,
) -> Result<Boxed<Node>, NoMemory>
    ensures { IfOk result (λ n. pure_node n ≡ component_by mark at (name_ex one.now)) }
{
    component(alloc, mark, at, name(alloc, one)?)
}

/// The first component of each pair of a function, under conditions on the pair.
pub(crate) fn arguments_by(
    alloc: Global,
    mark: bool,
    one: &Text,
    function: &Node,
    mut conditions: Row<Gen>,
) -> Result<Alternative, NoMemory>
    ensures { IfOk result (λ a. pure_alternative a ≡ arguments_by mark one.now (pure_node function.now) (pure_gens conditions)) }
{
    let gens = members_under(alloc, one, function, &mut conditions)?;
    let item = component_by(alloc, mark, 1, one)?;
    Ok(Alternative { gens, item })
}

/// Each member of each part of a partition.
pub(crate) fn members_in_parts(
    alloc: Global,
    one: &Text,
    other: &Text,
    partition: &Node,
) -> Result<Alternative, NoMemory>
    ensures { IfOk result (λ a. pure_alternative a ≡ members_in_parts one.now other.now (pure_node partition.now)) }
{
    let partition = partition.copy(alloc)?;
    let part = name(alloc, other)?;
    let mut gens = Row::new(alloc);
    gens.push(from(alloc, other, partition)?)?;
    gens.push(from(alloc, one, part)?)?;
    let item = name(alloc, one)?;
    Ok(Alternative { gens, item })
}

/// A row of one alternative.
pub(crate) fn only(alloc: Global, alternative: Alternative) -> Result<Row<Alternative>, NoMemory>
    ensures { IfOk result (λ l. map pure_alternative l ≡ pure_alternative alternative ∷ []) }
{
    let Alternative { gens, item } = alternative;
    let mut all = Row::new(alloc);
    all.push(Alternative { gens, item })?;
    Ok(all)
}

/// All members of a term, as the one alternative.
pub(crate) fn whole(alloc: Global, one: &Text, source: &Node) -> Result<Row<Alternative>, NoMemory>
    ensures { IfOk result (λ l. map pure_alternative l ≡ those one.now (pure_node source.now) no_gens ∷ []) }
{
    let all = those(alloc, one, source, Row::new(alloc))?;
    only(alloc, all)
}
