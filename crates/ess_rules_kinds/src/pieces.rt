//! What listings are put together of: numbers of slots, cells at them, views in them.
ghost use Rattle.std.specs.Prelude.{◌≡◌, true, false, ◌∷◌, [], map, IfOk};
ghost use Rattle.ess_semantics.specs.Trees.{repr, no_reprs, name_pat, name_ex, cell_ex, seen_ex, ex2};
ghost use Rattle.ess_core.specs.TreeViews.{pure_repr, over_item, cond_item};
ghost use Rattle.ess_core_nodes.specs.NodeViews.{pure_node, pure_nodes, pure_gen, pure_gens, pure_dom};
ghost use Rattle.ess_rules_laws.specs.SetListings.{put_last};
ghost use Rattle.ess_rules_laws.specs.SlotListings.{slots_dom};
ghost use Rattle.ess_views_laws.specs.MultisetViews.{number_at, is_there};

use ess_core::{Op2, Repr, ReprKind};
use ess_core_nodes::{Ends, Gen, Node, NodeDom, Seen, copy_nodes, copy_texts};
use ess_node_building::{binary, condition, name, number, over, two};
use ess_rows::{Boxed, NoMemory, Row, Text};
use std::alloc::Global;

/// The numbers from 1 to that of the slots. `NoMemory` where there is no room for it.
pub fn slots_dom(alloc: Global, slots: &Node) -> Result<Boxed<NodeDom>, NoMemory>
    ensures { IfOk result (λ d. pure_dom d ≡ slots_dom (pure_node slots.now)) }
{
    let one = number(alloc, 1)?;
    let bounds = two(alloc, one, slots.copy(alloc)?)?;
    let mut ends = Row::new(alloc);
    ends.push(Ends::Both)?;
    Boxed::new(alloc, NodeDom::Int(ends, bounds))
}

/// The index list with a name behind. `NoMemory` where there is no room for it.
#[tactic(auto, using(crate::proofs::LastOperand::last_behind))]
pub fn behind(alloc: Global, at: &[Node], last: &Text) -> Result<Row<Node>, NoMemory>
    ensures { IfOk result (λ ns. pure_nodes ns ≡ put_last (pure_nodes at.now) (name_ex last.now)) }
{
    let mut all = copy_nodes(alloc, at)?;
    all.push(name(alloc, last)?.into_inner())?;
    Ok(all)
}

/// A cell. `NoMemory` where there is no room for it.
pub fn cell(alloc: Global, mark: bool, table: &Text, at: Row<Node>) -> Result<Boxed<Node>, NoMemory>
    ensures { IfOk result (λ n. pure_node n ≡ cell_ex mark table.now (pure_nodes at)) }
{
    let table = table.copy(alloc)?;
    Boxed::new(alloc, Node::Cell(mark, table, at))
}

/// The cell of a slot. `NoMemory` where there is no room for it.
pub fn slot_cell(
    alloc: Global,
    mark: bool,
    table: &Text,
    at: &[Node],
    slot: &Text,
) -> Result<Boxed<Node>, NoMemory>
    ensures { IfOk result (λ n. pure_node n ≡ cell_ex mark table.now (put_last (pure_nodes at.now) (name_ex slot.now))) }
{
    cell(alloc, mark, table, behind(alloc, at, slot)?)
}

/// The view in a slot. `NoMemory` where there is no room for it.
#[tactic(auto, using(ess_core_nodes::proofs::NodeEquations::pure_seen_is))]
pub fn slot_view(
    alloc: Global,
    child: &Repr,
    dom: &NodeDom,
    cells: &[Text],
    at: &[Node],
    slot: &Text,
) -> Result<Boxed<Node>, NoMemory>
    ensures { IfOk result (λ n. pure_node n
        ≡ seen_ex (pure_repr child.now) (pure_dom dom.now) cells.now (put_last (pure_nodes at.now) (name_ex slot.now))) }
{
    let at = behind(alloc, at, slot)?;
    let cells = copy_texts(alloc, cells)?;
    let dom = dom.copy(alloc)?;
    let repr = child.copy(alloc)?;
    let seen = Boxed::new(
        alloc,
        Seen {
            repr,
            dom,
            cells,
            at,
        },
    )?;
    Boxed::new(alloc, Node::Seen(seen))
}

/// The view of the atom in a slot. `NoMemory` where there is no room for it.
#[tactic(auto, using(ess_core_nodes::proofs::NodeEquations::pure_seen_is, ess_core::proofs::RepresentationEquations::pure_repr_is))]
pub fn atom_slot(
    alloc: Global,
    dom: &NodeDom,
    table: &Text,
    at: &[Node],
    slot: &Text,
) -> Result<Boxed<Node>, NoMemory>
    ensures { IfOk result (λ n. pure_node n
        ≡ seen_ex (repr ReprKind.Atom no_reprs) (pure_dom dom.now) (table.now ∷ []) (put_last (pure_nodes at.now) (name_ex slot.now))) }
{
    let mut cells = Row::new(alloc);
    cells.push(table.copy(alloc)?)?;
    let atom = Repr {
        kind: ReprKind::Atom,
        children: Row::new(alloc),
    };
    slot_view(alloc, &atom, dom, cells.as_slice(), at, slot)
}

/// That a slot is one of those up to a marker. `NoMemory` where there is no room for it.
pub fn up_to(
    alloc: Global,
    slot: &Text,
    marker: &Text,
    at: &[Node],
) -> Result<Boxed<Node>, NoMemory>
    ensures { IfOk result (λ n. pure_node n ≡ ex2 true Op2.Le (name_ex slot.now) (cell_ex false marker.now (pure_nodes at.now))) }
{
    let last = cell(alloc, false, marker, copy_nodes(alloc, at)?)?;
    binary(alloc, true, Op2::Le, name(alloc, slot)?, last)
}

/// That a number is one of those up to the number of a slot. `NoMemory` where there is no room for it.
pub fn counted(
    alloc: Global,
    number: &Text,
    table: &Text,
    at: &[Node],
    slot: &Text,
) -> Result<Boxed<Node>, NoMemory>
    ensures { IfOk result (λ n. pure_node n ≡ ex2 true Op2.Le (name_ex number.now) (number_at table.now (pure_nodes at.now) slot.now)) }
{
    let last = slot_cell(alloc, false, table, at, slot)?;
    binary(alloc, true, Op2::Le, name(alloc, number)?, last)
}

/// That the number of a slot is above 0. `NoMemory` where there is no room for it.
pub fn is_there(
    alloc: Global,
    table: &Text,
    at: &[Node],
    slot: &Text,
) -> Result<Boxed<Node>, NoMemory>
    ensures { IfOk result (λ n. pure_node n ≡ is_there table.now (pure_nodes at.now) slot.now) }
{
    let held = slot_cell(alloc, false, table, at, slot)?;
    binary(alloc, true, Op2::Gt, held, number(alloc, 0)?)
}

/// A name over a domain, alone. `NoMemory` where there is no room for it.
pub fn gens_over(alloc: Global, name: &Text, dom: Boxed<NodeDom>) -> Result<Row<Gen>, NoMemory>
    ensures { IfOk result (λ gs. map pure_gen gs ≡ over_item (name_pat name.now) (pure_dom dom) ∷ []) }
{
    let mut gens = Row::new(alloc);
    gens.push(over(alloc, name, dom)?)?;
    Ok(gens)
}

/// A name over a domain, under a condition. `NoMemory` where there is no room for it.
pub fn gens_where(
    alloc: Global,
    name: &Text,
    dom: Boxed<NodeDom>,
    test: Boxed<Node>,
) -> Result<Row<Gen>, NoMemory>
    ensures { IfOk result (λ gs. map pure_gen gs ≡ over_item (name_pat name.now) (pure_dom dom) ∷ cond_item (pure_node test) ∷ []) }
{
    let mut gens = gens_over(alloc, name, dom)?;
    gens.push(condition(test))?;
    Ok(gens)
}

/// A name over a domain, another over numbers, under a condition. `NoMemory` where there is no room for it.
pub fn gens_counted(
    alloc: Global,
    name: &Text,
    dom: Boxed<NodeDom>,
    other: &Text,
    numbers: Boxed<NodeDom>,
    test: Boxed<Node>,
) -> Result<Row<Gen>, NoMemory>
    ensures { IfOk result (λ gs. map pure_gen gs ≡ over_item (name_pat name.now) (pure_dom dom)
        ∷ over_item (name_pat other.now) (pure_dom numbers) ∷ cond_item (pure_node test) ∷ []) }
{
    let mut gens = gens_over(alloc, name, dom)?;
    gens.push(over(alloc, other, numbers)?)?;
    gens.push(condition(test))?;
    Ok(gens)
}
