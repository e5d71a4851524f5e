//! Index lists, and generators over axes.
ghost use Rattle.std.specs.Prelude.{◌≡◌, [], ◌∷◌, IfOk, OnOk, map};
ghost use Rattle.ess_semantics.specs.Trees.{name_ex, name_pat, no_gens, over};
ghost use Rattle.ess_core_nodes.specs.NodeViews.{pure_node, pure_nodes, pure_dom, pure_gen, pure_gens};
ghost use Rattle.ess_repr_laws.specs.StructureParts.{add_ex, upto, level_behind, row_gens, row_index, each_ex, next_ex};
ghost use Rattle.conjure_model_laws.specs.ToldApart.{reserved};
ghost use Rattle.ess_structure_terms.specs.RowItems.{row_items};

use crate::names::{bound_name, counted_on, reserved_name};
use crate::terms::all_over;
use ess_core::Op2;
use ess_core_nodes::{Ends, Gen, Node, NodeDom, copy_nodes};
use ess_node_building::{binary, number, over, two};
use ess_rows::{Boxed, NoMemory, Row};
use std::alloc::Global;

/// A copy of the index list with one more index. `NoMemory` where there is no room for it.
#[tactic(auto, using(crate::proofs::IndexLists::added))]
pub fn with_index(alloc: Global, at: &[Node], index: Boxed<Node>) -> Result<Row<Node>, NoMemory>
    ensures { IfOk result (λ is. pure_nodes is ≡ add_ex (pure_nodes at.now) (pure_node index)) }
{
    let mut list = copy_nodes(alloc, at)?;
    list.push(index.into_inner())?;
    Ok(list)
}

/// The same with the name of this number.
pub fn with_name(alloc: Global, at: &[Node], level: u64) -> Result<Row<Node>, NoMemory>
    ensures { IfOk result (λ is. pure_nodes is ≡ add_ex (pure_nodes at.now) (name_ex (reserved level))) }
{
    let index = bound_name(alloc, level)?;
    with_index(alloc, at, index)
}

/// The number of the slot behind the one that the name of this number has.
pub fn next_slot(alloc: Global, level: u64) -> Result<Boxed<Node>, NoMemory>
    ensures { IfOk result (λ n. pure_node n ≡ next_ex reserved level) }
{
    let name = bound_name(alloc, level)?;
    let one = number(alloc, 1)?;
    binary(alloc, false, Op2::Plus, name, one)
}

/// A copy of the index list with the number of the next slot.
pub fn with_next(alloc: Global, at: &[Node], level: u64) -> Result<Row<Node>, NoMemory>
    ensures { IfOk result (λ is. pure_nodes is ≡ add_ex (pure_nodes at.now) (next_ex reserved level)) }
{
    let index = next_slot(alloc, level)?;
    with_index(alloc, at, index)
}

/// A copy of the index list with the names that run over the axes, the first of this number. `NoMemory` where there is no room for it.
#[tactic(auto, using(crate::proofs::IndexLists::index_step, crate::proofs::IndexLists::index_all))]
pub fn row_index(
    alloc: Global,
    level: u64,
    axes: &[NodeDom],
    at: &[Node],
) -> Result<Row<Node>, NoMemory>
    ensures { IfOk result (λ is. pure_nodes is ≡ row_index reserved level (map pure_dom axes.now) (pure_nodes at.now)) }
{
    let mut index = copy_nodes(alloc, at)?;
    let mut next = level;
    for _axis in axes {
        add_name(alloc, &mut index, next)?;
        next = counted_on(next)?;
    }
    Ok(index)
}

/// Puts the name of this number behind an index list.
#[tactic(auto, using(crate::proofs::IndexLists::index_more))]
fn add_name(alloc: Global, index: &mut Row<Node>, level: u64) -> Result<(), NoMemory>
    ensures { OnOk result (pure_nodes index.new ≡ add_ex (pure_nodes index.old) (name_ex (reserved level))) }
{
    let name = bound_name(alloc, level)?;
    index.push(name.into_inner())
}

/// The number of the first name behind those of the axes. `NoMemory` where it can't be counted.
#[tactic(auto, using(crate::proofs::IndexLists::level_step, crate::proofs::IndexLists::level_all))]
pub fn level_behind(level: u64, axes: &[NodeDom]) -> Result<u64, NoMemory>
    ensures { IfOk result (λ l. l ≡ level_behind level (map pure_dom axes.now)) }
{
    let mut next = level;
    for _axis in axes {
        next = counted_on(next)?;
    }
    Ok(next)
}

/// Generators over the axes, which bind the names from this number on.
#[tactic(auto, using(crate::proofs::IndexLists::row_items_are))]
pub fn row_gens(alloc: Global, level: u64, axes: &[NodeDom]) -> Result<Row<Gen>, NoMemory>
    ensures { IfOk result (λ gs. pure_gens gs ≡ row_gens reserved level (map pure_dom axes.now)) }
{
    row_items(alloc, level, axes)
}

/// The same, one by one.
fn row_items(alloc: Global, level: u64, axes: &[NodeDom]) -> Result<Row<Gen>, NoMemory>
    ensures { IfOk result (λ gs. map pure_gen gs ≡ row_items level (map pure_dom axes.now)) }
{
    let mut gens = Row::with_capacity(alloc, axes.len())?;
    let mut next = level;
    for axis in axes {
        let name = reserved_name(alloc, next)?;
        let axis = axis.copy(alloc)?;
        gens.push(over(alloc, &name, axis)?)?;
        next = counted_on(next)?;
    }
    Ok(gens)
}

/// The test holds at each place of the axes.
pub fn each(
    alloc: Global,
    level: u64,
    axes: &[NodeDom],
    test: Boxed<Node>,
) -> Result<Boxed<Node>, NoMemory>
    ensures { IfOk result (λ n. pure_node n ≡ each_ex reserved level (map pure_dom axes.now) (pure_node test)) }
{
    let gens = row_gens(alloc, level, axes)?;
    all_over(alloc, test, gens)
}

/// A generator of the name of this number over a copy of the domain.
pub fn over_one(alloc: Global, level: u64, dom: &NodeDom) -> Result<Row<Gen>, NoMemory>
    ensures { IfOk result (λ gs. pure_gens gs ≡ over (name_pat (reserved level)) (pure_dom dom.now) no_gens) }
{
    let name = reserved_name(alloc, level)?;
    let dom = dom.copy(alloc)?;
    let item = over(alloc, &name, dom)?;
    Row::from_array(alloc, [item])
}

/// The numbers 1 to n. `NoMemory` where there is no room for them.
pub fn upto(alloc: Global, last: Boxed<Node>) -> Result<Boxed<NodeDom>, NoMemory>
    ensures { IfOk result (λ d. pure_dom d ≡ upto (pure_node last)) }
{
    let one = number(alloc, 1)?;
    let bounds = two(alloc, one, last)?;
    let ends = Row::from_array(alloc, [Ends::Both])?;
    Boxed::new(alloc, NodeDom::Int(ends, bounds))
}

/// The axis of so many slots, alone in a row. `NoMemory` where there is no room for it.
pub fn slot_axis(alloc: Global, size: &Node) -> Result<Row<NodeDom>, NoMemory>
    ensures { IfOk result (λ as'. map pure_dom as' ≡ upto (pure_node size.now) ∷ []) }
{
    let size = size.copy(alloc)?;
    let axis = upto(alloc, size)?;
    Row::from_array(alloc, [axis.into_inner()])
}

/// A copy of the domain, alone in a row. `NoMemory` where there is no room for it.
pub fn only_axis(alloc: Global, dom: &NodeDom) -> Result<Row<NodeDom>, NoMemory>
    ensures { IfOk result (λ as'. as' ≡ dom.now ∷ []) }
{
    let axis = dom.copy(alloc)?;
    Row::from_array(alloc, [axis.into_inner()])
}
