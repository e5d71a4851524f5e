//! Slots of which those in use stand first or are told by a test: each of these is canonical, they rise, and the others hold 0 or false.
ghost use Rattle.std.specs.Prelude.{◌≡◌, suc, true, IfOk};
ghost use Rattle.ess_semantics.specs.Trees.{name_ex, name_pat, no_gens, over as over_gen, cond};
ghost use Rattle.ess_core_nodes.specs.NodeViews.{pure_node, pure_nodes, pure_dom, pure_gens};
ghost use Rattle.ess_repr_laws.specs.StructureParts.{and_ex, le_ex, add_ex, next_ex, less_ex, zeros_ex, over_slots, over_pairs, each_pair, pairs_dom, slots_ex, use_ex, first_ex};
ghost use Rattle.conjure_model_laws.specs.ToldApart.{reserved};
ghost use Rattle.ess_structure_terms.specs.ShapeViews.{pure_shapes};

use crate::indices::{next_slot, over_one, upto, with_name, with_next};
use crate::names::{bound_name, counted_on, reserved_name};
use crate::ordering::less;
use crate::shapes::{Shape, zeros};
use crate::terms::{all_over, at_most, both, implies, negated};
use ess_core::Op2;
use ess_core_nodes::{Gen, Node, NodeDom};
use ess_node_building::{binary, condition, number, over};
use ess_rows::{Boxed, NoMemory, Row};
use std::alloc::Global;

/// A generator of the name of this number over a domain, and a condition.
pub fn where_holds(
    alloc: Global,
    level: u64,
    dom: Boxed<NodeDom>,
    test: Boxed<Node>,
) -> Result<Row<Gen>, NoMemory>
    ensures { IfOk result (λ gs. pure_gens gs ≡ over_gen (name_pat (reserved level)) (pure_dom dom) (cond (pure_node test) no_gens)) }
{
    let name = reserved_name(alloc, level)?;
    let item = over(alloc, &name, dom)?;
    let mut gens = Row::new(alloc);
    gens.push(item)?;
    gens.push(condition(test))?;
    Ok(gens)
}

/// The term of each slot where the test holds.
pub fn over_slots(
    alloc: Global,
    level: u64,
    size: &Node,
    test: Boxed<Node>,
    term: Boxed<Node>,
) -> Result<Boxed<Node>, NoMemory>
    ensures { IfOk result (λ n. pure_node n ≡ over_slots reserved level (pure_node size.now) (pure_node test) (pure_node term)) }
{
    let slots = upto(alloc, size.copy(alloc)?)?;
    let gens = where_holds(alloc, level, slots, test)?;
    all_over(alloc, term, gens)
}

/// The numbers of all slots but the last.
fn pairs_dom(alloc: Global, size: &Node) -> Result<Boxed<NodeDom>, NoMemory>
    ensures { IfOk result (λ d. pure_dom d ≡ pairs_dom reserved (pure_node size.now)) }
{
    let size = size.copy(alloc)?;
    let one = number(alloc, 1)?;
    let last = binary(alloc, false, Op2::Minus, size, one)?;
    upto(alloc, last)
}

/// The term of each slot but the last where the test holds.
fn over_pairs(
    alloc: Global,
    level: u64,
    size: &Node,
    test: Boxed<Node>,
    term: Boxed<Node>,
) -> Result<Boxed<Node>, NoMemory>
    ensures { IfOk result (λ n. pure_node n ≡ over_pairs reserved level (pure_node size.now) (pure_node test) (pure_node term)) }
{
    let slots = pairs_dom(alloc, size)?;
    let gens = where_holds(alloc, level, slots, test)?;
    all_over(alloc, term, gens)
}

/// The term of each slot but the last.
pub fn each_pair(
    alloc: Global,
    level: u64,
    size: &Node,
    term: Boxed<Node>,
) -> Result<Boxed<Node>, NoMemory>
    ensures { IfOk result (λ n. pure_node n ≡ each_pair reserved level (pure_node size.now) (pure_node term)) }
{
    let slots = pairs_dom(alloc, size)?;
    let gens = over_one(alloc, level, slots.get())?;
    all_over(alloc, term, gens)
}

/// The slot that the name of this number has is one of the first so many.
pub fn is_used(alloc: Global, level: u64, used: &Node) -> Result<Boxed<Node>, NoMemory>
    ensures { IfOk result (λ n. pure_node n ≡ le_ex (name_ex (reserved level)) (pure_node used.now)) }
{
    let slot = bound_name(alloc, level)?;
    let used = used.copy(alloc)?;
    at_most(alloc, slot, used)
}

/// The slot behind it is.
pub fn is_next_used(alloc: Global, level: u64, used: &Node) -> Result<Boxed<Node>, NoMemory>
    ensures { IfOk result (λ n. pure_node n ≡ le_ex (next_ex reserved level) (pure_node used.now)) }
{
    let slot = next_slot(alloc, level)?;
    let used = used.copy(alloc)?;
    at_most(alloc, slot, used)
}

/// The cells in the slot that the name of this number has are below those in the next one.
pub fn rises(
    alloc: Global,
    level: u64,
    shapes: &[Shape],
    at: &[Node],
) -> Result<Boxed<Node>, NoMemory>
    ensures { IfOk result (λ n. pure_node n ≡ less_ex reserved (suc level) (pure_shapes shapes.now)
        (add_ex (pure_nodes at.now) (name_ex (reserved level))) (add_ex (pure_nodes at.now) (next_ex reserved level))) }
{
    let behind = counted_on(level)?;
    let here = with_name(alloc, at, level)?;
    let next = with_next(alloc, at, level)?;
    less(alloc, behind, shapes, here.as_slice(), next.as_slice())
}

/// The cells in the slot that the name of this number has are 0 or false.
fn is_empty(
    alloc: Global,
    level: u64,
    shapes: &[Shape],
    at: &[Node],
) -> Result<Boxed<Node>, NoMemory>
    ensures { IfOk result (λ n. pure_node n ≡ zeros_ex reserved (suc level) (pure_shapes shapes.now)
        (add_ex (pure_nodes at.now) (name_ex (reserved level)))) }
{
    let behind = counted_on(level)?;
    let here = with_name(alloc, at, level)?;
    zeros(alloc, behind, shapes, here.as_slice())
}

/// Of the slots the first `used` are in use: each of these is canonical (`part`), they rise, and all others hold 0 or false.
pub fn first_slots(
    alloc: Global,
    level: u64,
    size: &Node,
    used: &Node,
    shapes: &[Shape],
    at: &[Node],
    part: Boxed<Node>,
) -> Result<Boxed<Node>, NoMemory>
    ensures { IfOk result (λ n. pure_node n ≡ slots_ex reserved level (pure_node size.now) (pure_node used.now) (pure_shapes shapes.now)
        (pure_nodes at.now) (pure_node part)) }
{
    let test = is_used(alloc, level, used)?;
    let canonical = over_slots(alloc, level, size, test, part)?;
    let test = is_next_used(alloc, level, used)?;
    let rising = over_pairs(alloc, level, size, test, rises(alloc, level, shapes, at)?)?;
    let test = negated(alloc, is_used(alloc, level, used)?)?;
    let others = over_slots(
        alloc,
        level,
        size,
        test,
        is_empty(alloc, level, shapes, at)?,
    )?;
    let behind = both(alloc, rising, others)?;
    both(alloc, canonical, behind)
}

/// Slots of which those in use rise, where `here` says of a slot that it is in use, `next` of the next one, and `rise` that both
/// rise: each of these is canonical (`part`), and all others hold 0 or false.
pub fn slots_in_use(
    alloc: Global,
    level: u64,
    size: &Node,
    here: &Node,
    next: &Node,
    rise: Boxed<Node>,
    shapes: &[Shape],
    at: &[Node],
    part: Boxed<Node>,
) -> Result<Boxed<Node>, NoMemory>
    ensures { IfOk result (λ n. pure_node n ≡ use_ex reserved level (pure_node size.now) (pure_node here.now) (pure_node next.now)
        (pure_node rise) (pure_shapes shapes.now) (pure_nodes at.now) (pure_node part)) }
{
    let canonical = over_slots(alloc, level, size, here.copy(alloc)?, part)?;
    let rising = implies(alloc, next.copy(alloc)?, rise)?;
    let rising = each_pair(alloc, level, size, rising)?;
    let test = negated(alloc, here.copy(alloc)?)?;
    let others = over_slots(
        alloc,
        level,
        size,
        test,
        is_empty(alloc, level, shapes, at)?,
    )?;
    let behind = both(alloc, rising, others)?;
    both(alloc, canonical, behind)
}

/// The slots in use stand first.
fn stand_first(
    alloc: Global,
    level: u64,
    size: &Node,
    here: &Node,
    next: &Node,
) -> Result<Boxed<Node>, NoMemory>
    ensures { IfOk result (λ n. pure_node n ≡ first_ex reserved level (pure_node size.now) (pure_node here.now) (pure_node next.now)) }
{
    let test = implies(alloc, next.copy(alloc)?, here.copy(alloc)?)?;
    each_pair(alloc, level, size, test)
}

/// The slots in use, of which `here` and `next` say that they are, stand first and rise.
pub fn used_slots(
    alloc: Global,
    level: u64,
    size: &Node,
    here: &Node,
    next: &Node,
    shapes: &[Shape],
    at: &[Node],
    part: Boxed<Node>,
) -> Result<Boxed<Node>, NoMemory>
    ensures { IfOk result (λ n. pure_node n ≡
        and_ex (first_ex reserved level (pure_node size.now) (pure_node here.now) (pure_node next.now))
        (use_ex reserved level (pure_node size.now) (pure_node here.now) (pure_node next.now)
        (less_ex reserved (suc level) (pure_shapes shapes.now) (add_ex (pure_nodes at.now) (name_ex (reserved level)))
        (add_ex (pure_nodes at.now) (next_ex reserved level)))
        (pure_shapes shapes.now) (pure_nodes at.now) (pure_node part))) }
{
    let rise = rises(alloc, level, shapes, at)?;
    let used = slots_in_use(alloc, level, size, here, next, rise, shapes, at, part)?;
    let first = stand_first(alloc, level, size, here, next)?;
    both(alloc, first, used)
}
