//! Generators, conditions and views as nodes.
ghost use Rattle.std.specs.Prelude.{◌≡◌, IfOk, map};
ghost use Rattle.ess_core.specs.TreeViews.{pure_gen as pure_code_gen, pure_view};
ghost use Rattle.ess_core_nodes.specs.NodeViews.{pure_node, pure_gen};

use crate::converting::{node_of, nodes_of};
use crate::converting_domains::dom_of;
use crate::nodes::{Gen, Node, Seen};
use ess_core::{Gen as Item, View};
use ess_rows::{Boxed, NoMemory, Row, Text};
use std::alloc::Global;

/// Generators and conditions.
#[cycle(convert)]
pub(crate) fn gens_of(alloc: Global, items: &[Item]) -> Result<Row<Gen>, NoMemory>
    ensures { IfOk result (λ gs. map pure_gen gs ≡ map pure_code_gen items.now) }
{
    let mut gens = Row::with_capacity(alloc, items.len())?;
    for item in items {
        let gen_node = gen_of(alloc, item)?;
        gens.push(gen_node.into_inner())?;
    }
    Ok(gens)
}

/// A generator or condition.
#[cycle(convert)]
#[tactic(auto, using(ess_core::proofs::PartEquations::pure_gen_over, ess_core::proofs::PartEquations::pure_gen_from, ess_core::proofs::PartEquations::pure_gen_if))]
fn gen_of(alloc: Global, item: &Item) -> Result<Boxed<Gen>, NoMemory>
    ensures { IfOk result (λ g. pure_gen g ≡ pure_code_gen item.now) }
{
    match item {
        Item::Over(pat, dom) => {
            let dom = dom_of(alloc, dom)?;
            let pat = pat.copy(alloc)?;
            Boxed::new(alloc, Gen::Over(pat, dom))
        }
        Item::From(pat, ex) => {
            let node = node_of(alloc, ex)?;
            let pat = pat.copy(alloc)?;
            Boxed::new(alloc, Gen::From(pat, node))
        }
        Item::If(ex) => {
            let node = node_of(alloc, ex)?;
            Boxed::new(alloc, Gen::If(node))
        }
    }
}

/// A view.
#[cycle(convert)]
#[tactic(auto, using(ess_core::proofs::PartEquations::pure_view_is))]
pub(crate) fn seen_of(alloc: Global, view: &View) -> Result<Boxed<Node>, NoMemory>
    ensures { IfOk result (λ n. pure_node n ≡ pure_view view.now) }
{
    let dom = dom_of(alloc, &view.dom)?;
    let at = nodes_of(alloc, view.at.as_slice())?;
    let cells = copy_texts(alloc, view.cells.as_slice())?;
    let repr = view.repr.copy(alloc)?;
    let seen = Boxed::new(
        alloc,
        Seen {
            repr,
            dom,
            cells,
            at,
        },
    )?;
    Boxed::new(alloc, Node::Seen(seen))
}

/// Copies of texts, which equal these. `NoMemory` where there is no room for them.
pub fn copy_texts(alloc: Global, texts: &[Text]) -> Result<Row<Text>, NoMemory>
    ensures { IfOk result (λ ts. ts ≡ texts.now) }
{
    let mut copies = Row::with_capacity(alloc, texts.len())?;
    for text in texts {
        let copy = text.copy(alloc)?;
        copies.push(copy)?;
    }
    Ok(copies)
}
