//! Functions with a value for each argument, and with a flag and a value for each.
ghost use Rattle.std.specs.Prelude.{◌≡◌, true, IfOk, map};
ghost use Rattle.ess_core.specs.TreeViews.{pure_repr};
ghost use Rattle.ess_core_nodes.specs.NodeViews.{pure_node, pure_nodes, pure_dom, pure_mark};
ghost use Rattle.ess_repr_laws.specs.StructureParts.{and_ex, implies_ex, keys_ex, each_ex, row_index, level_behind, zeros_ex};
ghost use Rattle.ess_repr_laws.specs.FunctionParts.{is_one_cell as is_one_cell_repr, differ_ex, value_key_ex, total_ex, flag_key_ex, partial_ex};
ghost use Rattle.ess_semantics.specs.Trees.{cell_ex, ex1};
ghost use Rattle.ess_semantics.specs.declared.words.Op1.TheVariants.{Not};
ghost use Rattle.conjure_model_laws.specs.ToldApart.{reserved};
ghost use Rattle.ess_structure_terms.specs.ShapeViews.{pure_shapes};
ghost use Rattle.ess_structure_attributes.specs.SizeKeys.{is_atom_kind};

use crate::function_pairs::{components_differ, pair_key};
use ess_core::{Key, Repr, ReprKind};
use ess_core_nodes::{Mark, Node, NodeDom};
use ess_node_building::truth;
use ess_rows::{Boxed, NoMemory, Text};
use ess_structure_terms::{
    Shape, both, cell_over, differ_over, each, implies, level_behind, negated, place_count,
    row_gens, row_index, sizes, true_count, zeros,
};
use std::alloc::Global;

/// Whether a kind is that of atoms.
fn is_atom(kind: ReprKind) -> bool
    ensures { result ≡ is_atom_kind kind }
{
    matches!(kind, ReprKind::Atom)
}

/// Whether a view is one cell.
#[tactic(auto, using(crate::proofs::OneCells::one_cell, crate::proofs::OneCells::many_cells, crate::proofs::OneCells::no_atom))]
fn is_one_cell(repr: &Repr) -> bool
    ensures { result ≡ is_one_cell_repr (pure_repr repr.now) }
{
    if !is_atom(repr.kind) {
        return false;
    }
    match repr.children.as_slice().split_first() {
        None => true,
        Some(_) => false,
    }
}

/// The values at the places differ, where each is one cell.
fn differ(
    alloc: Global,
    level: u64,
    axes: &[NodeDom],
    shapes: &[Shape],
    at: &[Node],
) -> Result<Boxed<Node>, NoMemory>
    ensures { IfOk result (λ n. pure_node n ≡ differ_ex reserved level (map pure_dom axes.now) (pure_shapes shapes.now) (pure_nodes
        at.now)) }
{
    match shapes.split_first() {
        None => truth(alloc, false),
        Some((shape, rest)) => match rest.split_first() {
            None => {
                let cell = cell_over(alloc, shape.truth, level, axes, &shape.name, at)?;
                let gens = row_gens(alloc, level, axes)?;
                differ_over(alloc, cell, gens)
            }
            Some(_) => truth(alloc, false),
        },
    }
}

/// What an attribute without a number asks of a function to a domain with a value for each argument.
fn value_key(
    alloc: Global,
    level: u64,
    axes: &[NodeDom],
    shapes: &[Shape],
    at: &[Node],
    repr: &Repr,
    to: &NodeDom,
    view: &Node,
    key: Key,
) -> Result<Boxed<Node>, NoMemory>
    ensures { IfOk result (λ n. pure_node n ≡ value_key_ex reserved level (map pure_dom axes.now) (pure_shapes shapes.now) (pure_nodes
        at.now)
        (pure_repr repr.now) (pure_dom to.now) (pure_node view.now) key) }
{
    match key {
        Key::Injective => {
            if is_one_cell(repr) {
                differ(alloc, level, axes, shapes, at)
            } else {
                components_differ(alloc, level, to, 2, view)
            }
        }
        other => pair_key(alloc, level, to, view, other),
    }
}

/// What all attributes without a number ask of it.
fn value_keys(
    alloc: Global,
    level: u64,
    axes: &[NodeDom],
    shapes: &[Shape],
    at: &[Node],
    repr: &Repr,
    to: &NodeDom,
    view: &Node,
    marks: &[Mark],
) -> Result<Boxed<Node>, NoMemory>
    ensures { IfOk result (λ n. pure_node n ≡ keys_ex (value_key_ex reserved level (map pure_dom axes.now) (pure_shapes shapes.now)
        (pure_nodes at.now) (pure_repr repr.now) (pure_dom to.now) (pure_node view.now)) (map pure_mark marks.now)) }
{
    match marks.split_first() {
        None => truth(alloc, true),
        Some((Mark::Flag(key), rest)) => {
            let here = value_key(alloc, level, axes, shapes, at, repr, to, view, *key)?;
            let others = value_keys(alloc, level, axes, shapes, at, repr, to, view, rest)?;
            both(alloc, here, others)
        }
        Some((Mark::Valued(_), rest)) => {
            value_keys(alloc, level, axes, shapes, at, repr, to, view, rest)
        }
    }
}

/// A value at each place of the axes: each is canonical (`part`). The view has the attributes without a number. The representation and
/// the domain are those of values. `NoMemory` where there is no room for it.
pub fn total(
    alloc: Global,
    level: u64,
    marks: &[Mark],
    numbers: &[Node],
    axes: &[NodeDom],
    shapes: &[Shape],
    at: &[Node],
    repr: &Repr,
    to: &NodeDom,
    view: &Node,
    part: Boxed<Node>,
) -> Result<Boxed<Node>, NoMemory>
    ensures { IfOk result (λ n. pure_node n ≡ total_ex reserved level (map pure_mark marks.now) (pure_nodes numbers.now) (map pure_dom
        axes.now)
        (pure_shapes shapes.now) (pure_nodes at.now) (pure_repr repr.now) (pure_dom to.now) (pure_node view.now) (pure_node part)) }
{
    let values = each(alloc, level, axes, part)?;
    let places = place_count(alloc, level, axes)?;
    let sizes = sizes(alloc, marks, numbers, places.get())?;
    let keys = value_keys(alloc, level, axes, shapes, at, repr, to, view, marks)?;
    let asked = both(alloc, sizes, keys)?;
    both(alloc, values, asked)
}

/// What an attribute without a number asks of a function to a domain with flags.
fn flag_key(
    alloc: Global,
    level: u64,
    axes: &[NodeDom],
    name: &Text,
    at: &[Node],
    to: &NodeDom,
    view: &Node,
    key: Key,
) -> Result<Boxed<Node>, NoMemory>
    ensures { IfOk result (λ n. pure_node n ≡ flag_key_ex reserved level (map pure_dom axes.now) name.now (pure_nodes at.now) (pure_dom
        to.now)
        (pure_node view.now) key) }
{
    match key {
        Key::Total => {
            let flag = cell_over(alloc, true, level, axes, name, at)?;
            each(alloc, level, axes, flag)
        }
        other => pair_key(alloc, level, to, view, other),
    }
}

/// What all attributes without a number ask of it.
fn flag_keys(
    alloc: Global,
    level: u64,
    axes: &[NodeDom],
    name: &Text,
    at: &[Node],
    to: &NodeDom,
    view: &Node,
    marks: &[Mark],
) -> Result<Boxed<Node>, NoMemory>
    ensures { IfOk result (λ n. pure_node n ≡ keys_ex (flag_key_ex reserved level (map pure_dom axes.now) name.now (pure_nodes at.now)
        (pure_dom to.now) (pure_node view.now)) (map pure_mark marks.now)) }
{
    match marks.split_first() {
        None => truth(alloc, true),
        Some((Mark::Flag(key), rest)) => {
            let here = flag_key(alloc, level, axes, name, at, to, view, *key)?;
            let others = flag_keys(alloc, level, axes, name, at, to, view, rest)?;
            both(alloc, here, others)
        }
        Some((Mark::Valued(_), rest)) => flag_keys(alloc, level, axes, name, at, to, view, rest),
    }
}

/// At each place: where the flag is true the value is canonical, elsewhere its cells are 0 or false.
fn flagged(
    alloc: Global,
    level: u64,
    axes: &[NodeDom],
    name: &Text,
    at: &[Node],
    shapes: &[Shape],
    part: Boxed<Node>,
) -> Result<Boxed<Node>, NoMemory>
    ensures { IfOk result (λ n. pure_node n ≡ each_ex reserved level (map pure_dom axes.now)
        (and_ex (implies_ex (cell_ex true name.now (row_index reserved level (map pure_dom axes.now) (pure_nodes at.now))) (pure_node
        part))
        (implies_ex (ex1 true Not (cell_ex true name.now (row_index reserved level (map pure_dom axes.now) (pure_nodes at.now))))
        (zeros_ex reserved (level_behind level (map pure_dom axes.now)) (pure_shapes shapes.now)
        (row_index reserved level (map pure_dom axes.now) (pure_nodes at.now)))))) }
{
    let flag = cell_over(alloc, true, level, axes, name, at)?;
    let there = implies(alloc, flag, part)?;
    let flag = cell_over(alloc, true, level, axes, name, at)?;
    let index = row_index(alloc, level, axes, at)?;
    let empty = zeros(alloc, level_behind(level, axes)?, shapes, index.as_slice())?;
    let other = implies(alloc, negated(alloc, flag)?, empty)?;
    let test = both(alloc, there, other)?;
    each(alloc, level, axes, test)
}

/// A flag and a value at each place of the axes: where the flag is true the value is canonical (`part`), elsewhere its cells are 0 or
/// false. The view has the attributes without a number. The domain is that of values. `NoMemory` where there is no room for it.
pub fn partial(
    alloc: Global,
    level: u64,
    marks: &[Mark],
    numbers: &[Node],
    axes: &[NodeDom],
    name: &Text,
    at: &[Node],
    shapes: &[Shape],
    to: &NodeDom,
    view: &Node,
    part: Boxed<Node>,
) -> Result<Boxed<Node>, NoMemory>
    ensures { IfOk result (λ n. pure_node n ≡ partial_ex reserved level (map pure_mark marks.now) (pure_nodes numbers.now) (map
        pure_dom axes.now)
        name.now (pure_nodes at.now) (pure_shapes shapes.now) (pure_dom to.now) (pure_node view.now) (pure_node part)) }
{
    let values = flagged(alloc, level, axes, name, at, shapes, part)?;
    let defined = true_count(alloc, level, axes, name, at)?;
    let sizes = sizes(alloc, marks, numbers, defined.get())?;
    let keys = flag_keys(alloc, level, axes, name, at, to, view, marks)?;
    let asked = both(alloc, sizes, keys)?;
    both(alloc, values, asked)
}
