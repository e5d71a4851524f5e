//! Sets and multisets: of which is kept which members occur or how often, or that stand in slots.
ghost use Rattle.std.specs.Prelude.{◌≡◌, true, pos, [], ◌∷◌, IfOk, map};
ghost use Rattle.ess_semantics.specs.Trees.{number_ex, name_ex, cell_ex, ex2};
ghost use Rattle.ess_semantics.specs.declared.words.Op2.TheVariants.{Eq, Lt};
ghost use Rattle.ess_core_nodes.specs.NodeViews.{pure_node, pure_nodes, pure_dom, pure_mark};
ghost use Rattle.ess_repr_laws.specs.StructureParts.{upto, add_ex, next_ex, or_ex, le_ex, each_ex, each_pair, marker_ex, explicit_ex, flags_ex, counted_ex, member_count_ex, dummy_ex, occurrence_ex};
ghost use Rattle.ess_repr_declare_laws.specs.SizeTerms.{inside_ex};
ghost use Rattle.conjure_model_laws.specs.ToldApart.{reserved};
ghost use Rattle.ess_structure_terms.specs.ShapeViews.{pure_shapes};

use ess_core::Op2;
use ess_core_nodes::{Mark, Node, NodeDom};
use ess_node_building::{binary, number};
use ess_rows::{Boxed, NoMemory, Text};
use ess_size_terms::inside;
use ess_structure_terms::{
    Shape, at_most, both, cell_at, count_over, counts, each, each_pair, either, equal, first_slots,
    negated, only_axis, row_gens, sizes, slot_axis, true_count, used_slots, with_name, with_next,
};
use std::alloc::Global;

/// A set of which is kept which members occur. `NoMemory` where there is no room for it.
pub fn occurrence(
    alloc: Global,
    level: u64,
    marks: &[Mark],
    numbers: &[Node],
    member: &NodeDom,
    name: &Text,
    at: &[Node],
) -> Result<Boxed<Node>, NoMemory>
    ensures { IfOk result (λ n. pure_node n ≡ occurrence_ex reserved level (map pure_mark marks.now) (pure_nodes numbers.now)
        (pure_dom member.now) name.now (pure_nodes at.now)) }
{
    let axes = only_axis(alloc, member)?;
    let members = true_count(alloc, level, axes.as_slice(), name, at)?;
    sizes(alloc, marks, numbers, members.get())
}

/// Slots up to a marker. `NoMemory` where there is no room for it.
pub fn marker(
    alloc: Global,
    level: u64,
    marks: &[Mark],
    numbers: &[Node],
    size: &Node,
    name: &Text,
    shapes: &[Shape],
    at: &[Node],
    part: Boxed<Node>,
) -> Result<Boxed<Node>, NoMemory>
    ensures { IfOk result (λ n. pure_node n ≡ marker_ex reserved level (map pure_mark marks.now) (pure_nodes numbers.now)
        (pure_node size.now) name.now (pure_shapes shapes.now) (pure_nodes at.now) (pure_node part)) }
{
    let used = cell_at(alloc, false, name, at)?;
    let slots = first_slots(alloc, level, size, used.get(), shapes, at, part)?;
    let sizes = sizes(alloc, marks, numbers, used.get())?;
    both(alloc, sizes, slots)
}

/// Slots that are all in use. `NoMemory` where there is no room for it.
pub fn explicit(
    alloc: Global,
    level: u64,
    marks: &[Mark],
    numbers: &[Node],
    size: &Node,
    shapes: &[Shape],
    at: &[Node],
    part: Boxed<Node>,
) -> Result<Boxed<Node>, NoMemory>
    ensures { IfOk result (λ n. pure_node n ≡ explicit_ex reserved level (map pure_mark marks.now) (pure_nodes numbers.now)
        (pure_node size.now) (pure_shapes shapes.now) (pure_nodes at.now) (pure_node part)) }
{
    let slots = first_slots(alloc, level, size, size, shapes, at, part)?;
    let sizes = sizes(alloc, marks, numbers, size)?;
    both(alloc, sizes, slots)
}

/// The cell in the slot that the name of this number has, and the one in the next slot.
fn slot_cells(
    alloc: Global,
    is_bool: bool,
    level: u64,
    name: &Text,
    at: &[Node],
) -> Result<(Boxed<Node>, Boxed<Node>), NoMemory>
    ensures here { IfOk result (λ r. pure_node r.0 ≡ cell_ex is_bool name.now (add_ex (pure_nodes at.now) (name_ex (reserved level)))) }
    ensures next { IfOk result (λ r. pure_node r.1 ≡ cell_ex is_bool name.now (add_ex (pure_nodes at.now) (next_ex reserved level))) }
{
    let place = with_name(alloc, at, level)?;
    let here = cell_at(alloc, is_bool, name, place.as_slice())?;
    let place = with_next(alloc, at, level)?;
    let next = cell_at(alloc, is_bool, name, place.as_slice())?;
    Ok((here, next))
}

/// Slots with flags. `NoMemory` where there is no room for it.
pub fn flags(
    alloc: Global,
    level: u64,
    marks: &[Mark],
    numbers: &[Node],
    size: &Node,
    name: &Text,
    shapes: &[Shape],
    at: &[Node],
    part: Boxed<Node>,
) -> Result<Boxed<Node>, NoMemory>
    ensures { IfOk result (λ n. pure_node n ≡ flags_ex reserved level (map pure_mark marks.now) (pure_nodes numbers.now)
        (pure_node size.now) name.now (pure_shapes shapes.now) (pure_nodes at.now) (pure_node part)) }
{
    let (here, next) = slot_cells(alloc, true, level, name, at)?;
    let slots = used_slots(alloc, level, size, here.get(), next.get(), shapes, at, part)?;
    let axes = slot_axis(alloc, size)?;
    let members = true_count(alloc, level, axes.as_slice(), name, at)?;
    let sizes = sizes(alloc, marks, numbers, members.get())?;
    both(alloc, slots, sizes)
}

/// The number is at least 1.
fn is_some(alloc: Global, times: Boxed<Node>) -> Result<Boxed<Node>, NoMemory>
    ensures { IfOk result (λ n. pure_node n ≡ le_ex (number_ex (pos 1)) (pure_node times)) }
{
    let one = number(alloc, 1)?;
    at_most(alloc, one, times)
}

/// Slots with numbers of times. `NoMemory` where there is no room for it.
pub fn counted(
    alloc: Global,
    level: u64,
    marks: &[Mark],
    numbers: &[Node],
    size: &Node,
    name: &Text,
    shapes: &[Shape],
    at: &[Node],
    part: Boxed<Node>,
) -> Result<Boxed<Node>, NoMemory>
    ensures { IfOk result (λ n. pure_node n ≡ counted_ex reserved level (map pure_mark marks.now) (pure_nodes numbers.now)
        (pure_node size.now) name.now (pure_shapes shapes.now) (pure_nodes at.now) (pure_node part)) }
{
    let (here, next) = slot_cells(alloc, false, level, name, at)?;
    let here = is_some(alloc, here)?;
    let next = is_some(alloc, next)?;
    let slots = used_slots(alloc, level, size, here.get(), next.get(), shapes, at, part)?;
    let axes = slot_axis(alloc, size)?;
    let counts = counts(alloc, level, marks, numbers, axes.as_slice(), name, at)?;
    both(alloc, slots, counts)
}

/// How many slots hold another number than the dummy.
fn member_count(
    alloc: Global,
    level: u64,
    size: &Node,
    dummy: &Node,
    name: &Text,
    at: &[Node],
) -> Result<Boxed<Node>, NoMemory>
    ensures { IfOk result (λ n. pure_node n ≡ member_count_ex reserved level (pure_node size.now) (pure_node dummy.now) name.now
        (pure_nodes at.now)) }
{
    let place = with_name(alloc, at, level)?;
    let cell = cell_at(alloc, false, name, place.as_slice())?;
    let test = equal(alloc, dummy.copy(alloc)?, cell)?;
    let test = negated(alloc, test)?;
    let axes = slot_axis(alloc, size)?;
    let gens = row_gens(alloc, level, axes.as_slice())?;
    count_over(alloc, test, gens)
}

/// Slots with a dummy: each holds a member of the domain or the dummy, and a slot that holds a member stands above the slot before
/// it. `NoMemory` where there is no room for it.
pub fn with_dummy(
    alloc: Global,
    level: u64,
    marks: &[Mark],
    numbers: &[Node],
    size: &Node,
    dummy: &Node,
    member: &NodeDom,
    name: &Text,
    at: &[Node],
) -> Result<Boxed<Node>, NoMemory>
    ensures { IfOk result (λ n. pure_node n ≡ dummy_ex reserved level (map pure_mark marks.now) (pure_nodes numbers.now)
        (pure_node size.now) (pure_node dummy.now) (inside_ex (pure_dom member.now)) name.now (pure_nodes at.now)) }
{
    let (here, next) = slot_cells(alloc, false, level, name, at)?;
    let hold = slots_hold(alloc, level, size, dummy, member, here.get())?;
    let rise = slots_rise(alloc, level, size, dummy, here, next)?;
    let members = member_count(alloc, level, size, dummy, name, at)?;
    let sizes = sizes(alloc, marks, numbers, members.get())?;
    let slots = both(alloc, hold, rise)?;
    both(alloc, slots, sizes)
}

/// Each slot holds a member of the domain or the dummy.
fn slots_hold(
    alloc: Global,
    level: u64,
    size: &Node,
    dummy: &Node,
    member: &NodeDom,
    here: &Node,
) -> Result<Boxed<Node>, NoMemory>
    ensures { IfOk result (λ n. pure_node n ≡ each_ex reserved level (upto (pure_node size.now) ∷ [])
        (or_ex (inside_ex (pure_dom member.now) (pure_node here.now)) (ex2 true Eq (pure_node dummy.now) (pure_node here.now)))) }
{
    let inside = inside(alloc, member, here)?;
    let empty = equal(alloc, dummy.copy(alloc)?, here.copy(alloc)?)?;
    let test = either(alloc, inside, empty)?;
    let axes = slot_axis(alloc, size)?;
    each(alloc, level, axes.as_slice(), test)
}

/// A slot that doesn't hold the dummy stands above the slot before it.
fn slots_rise(
    alloc: Global,
    level: u64,
    size: &Node,
    dummy: &Node,
    here: Boxed<Node>,
    next: Boxed<Node>,
) -> Result<Boxed<Node>, NoMemory>
    ensures { IfOk result (λ n. pure_node n ≡ each_pair reserved level (pure_node size.now)
        (or_ex (ex2 true Eq (pure_node dummy.now) (pure_node next)) (ex2 true Lt (pure_node here) (pure_node next)))) }
{
    let again = next.get().copy(alloc)?;
    let empty = equal(alloc, dummy.copy(alloc)?, again)?;
    let above = binary(alloc, true, Op2::Lt, here, next)?;
    let test = either(alloc, empty, above)?;
    each_pair(alloc, level, size, test)
}
