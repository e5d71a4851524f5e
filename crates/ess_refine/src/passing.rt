//! One pass over a tree: the rules at the root, and where none fires there at the parts.
ghost use Rattle.std.specs.Prelude.{IfOk, OnOk, option_map};
ghost use Rattle.ess_core_nodes.specs.NodeViews.{pure_node, pure_nodes, pure_seen};
ghost use Rattle.ess_node_types.specs.TypedNames.{pure_names};
ghost use Rattle.ess_refine.specs.Passes.{IsTaken, Passes, AllPass};

use crate::passing_domains::pass_boxed_dom;
use crate::passing_generators::pass_gens;
use ess_core_nodes::{Node, Seen};
use ess_node_types::{NameTypes, names_behind};
use ess_rows::{Boxed, NoMemory, Row};
use ess_rules::rule_at;
use std::alloc::Global;
use std::mem;

/// What passes count and tell.
#[derive(Clone, Copy)]
pub(crate) struct Turns {
    /// The number of the next reserved name.
    pub(crate) next: u64,
    /// Whether a rule fired.
    pub(crate) fired: bool,
    /// Whether the parts of views and of domains of compound values are gone through, too.
    pub(crate) everywhere: bool,
}

/// What the first rule that fires makes of the root of a tree, or nothing where none fires. It is noted where one fires. `NoMemory` where
/// there is no room for it, or the reserved names can't be counted.
fn turn_at(
    alloc: Global,
    node: &Node,
    names: &NameTypes,
    turns: &mut Turns,
) -> Result<Option<Boxed<Node>>, NoMemory>
    ensures { IfOk result (λ o. IsTaken turns.old (pure_names names.now) (pure_node node.now) (option_map pure_node o) turns.new) }
{
    let found = rule_at(alloc, node, names, &mut turns.next)?;
    if found.is_some() {
        turns.fired = true;
    }
    Ok(found)
}

/// The tree rewritten by the rules, where names have these types: once at its root or, where no rule fires there, at its parts.
/// Reserved names are counted on. `NoMemory` where there is no room for it, or the reserved names can't be counted.
#[cycle(pass)]
pub(crate) fn pass(
    alloc: Global,
    node: Node,
    names: &NameTypes,
    turns: &mut Turns,
) -> Result<Node, NoMemory>
    ensures { IfOk result (λ n. Passes turns.old (pure_names names.now) (pure_node node) (pure_node n) turns.new) }
{
    let found = match turn_at(alloc, &node, names, turns) {
        Ok(found) => found,
        Err(no) => {
            drop(node);
            return Err(no);
        }
    };
    if let Some(new) = found {
        drop(node);
        return Ok(new.into_inner());
    }
    match node {
        Node::Op(mark, op, mut operands) => {
            pass_all(alloc, &mut operands, names, turns)?;
            Ok(Node::Op(mark, op, operands))
        }
        Node::MatrixOn(mut items, mut axis) => {
            pass_all(alloc, &mut items, names, turns)?;
            pass_boxed_dom(alloc, &mut axis, names, turns)?;
            Ok(Node::MatrixOn(items, axis))
        }
        Node::Comp(mut body, mut gens) => {
            pass_gens(alloc, &mut gens, names, turns)?;
            let behind = names_behind(alloc, gens.as_slice(), names)?;
            pass_boxed(alloc, &mut body, &behind, turns)?;
            Ok(Node::Comp(body, gens))
        }
        Node::Cell(is_bool, name, mut at) => {
            pass_all(alloc, &mut at, names, turns)?;
            Ok(Node::Cell(is_bool, name, at))
        }
        Node::Number(number) => Ok(Node::Number(number)),
        Node::Truth(value) => Ok(Node::Truth(value)),
        Node::Name(name) => Ok(Node::Name(name)),
        Node::Seen(mut seen) => {
            pass_view(alloc, seen.get_mut(), names, turns)?;
            Ok(Node::Seen(seen))
        }
    }
}

/// The same in a box, in place. The tree is any where there is no memory.
#[cycle(pass)]
pub(crate) fn pass_boxed(
    alloc: Global,
    node: &mut Boxed<Node>,
    names: &NameTypes,
    turns: &mut Turns,
) -> Result<(), NoMemory>
    ensures { OnOk result (Passes turns.old (pure_names names.now) (pure_node node.old) (pure_node node.new) turns.new) }
{
    let old = node.replace(Node::Truth(false));
    let new = pass(alloc, old, names, turns)?;
    drop(node.replace(new));
    Ok(())
}

/// The same of several trees.
#[cycle(pass)]
pub(crate) fn pass_all(
    alloc: Global,
    nodes: &mut Row<Node>,
    names: &NameTypes,
    turns: &mut Turns,
) -> Result<(), NoMemory>
    ensures { OnOk result (AllPass turns.old (pure_names names.now) (pure_nodes nodes.old) (pure_nodes nodes.new) turns.new) }
{
    for i in 0..nodes.len() {
        if let Some(node) = nodes.get_mut(i) {
            let old = mem::replace(node, Node::Truth(false));
            let new = pass(alloc, old, names, turns)?;
            drop(mem::replace(node, new));
        }
    }
    Ok(())
}

/// The same of the parts of a view, where they are gone through.
#[cycle(pass)]
fn pass_view(
    alloc: Global,
    seen: &mut Seen,
    names: &NameTypes,
    turns: &mut Turns,
) -> Result<(), NoMemory>
    ensures { OnOk result (Passes turns.old (pure_names names.now) (pure_seen seen.old) (pure_seen seen.new) turns.new) }
{
    if !turns.everywhere {
        return Ok(());
    }
    pass_boxed_dom(alloc, &mut seen.dom, names, turns)?;
    pass_all(alloc, &mut seen.at, names, turns)
}
