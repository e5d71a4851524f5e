//! Expressions of a specification over tables, with their undefined terms done away with.
ghost use Rattle.std.specs.Prelude.{◌≡◌, IfOk, OnOk};
ghost use Rattle.ess_core_nodes.specs.NodeViews.{pure_node};
ghost use Rattle.conjure_model_laws.specs.ToldApart.{reserved};
ghost use Rattle.conjure_model_laws.specs.IsBuiltFrom.{tree_of, constraint_tree, condition_tree, objective_tree};
ghost use Rattle.ess_model_shown.specs.Tables.{pure_shows};
ghost use Rattle.ess_model_trees.specs.Written.{next_behind};

use ess_core_nodes::Node;
use ess_guard::{has_value, make_natural, make_total};
use ess_model_names::told_apart_from;
use ess_model_shown::{Shows, shown};
use ess_rows::{Boxed, NoMemory, Text};
use std::alloc::Global;

/// A constraint over tables, whose undefined terms are done away with. The number of the reserved name behind those of its bound
/// names is left in `next`. `NoMemory` where there is no room for it, or the reserved names can't be counted.
pub(crate) fn constraint_over(
    alloc: Global,
    shows: &Shows,
    node: &Node,
    next: &mut u64,
) -> Result<Boxed<Node>, NoMemory>
    ensures tree { IfOk result (λ n. pure_node n ≡ constraint_tree (pure_shows shows.now) (pure_node node.now)) }
    ensures next { OnOk result (next.new ≡ next_behind (pure_shows shows.now) (pure_node node.now)) }
{
    let over = over_tables(alloc, shows, node, next)?;
    let first = kept_name(alloc, 0)?;
    let second = kept_name(alloc, 1)?;
    make_natural(alloc, &first, &second, over.get())
}

/// That an objective over tables has a value. Reserved names and `NoMemory` as above.
pub(crate) fn condition_over(
    alloc: Global,
    shows: &Shows,
    node: &Node,
    next: &mut u64,
) -> Result<Boxed<Node>, NoMemory>
    ensures tree { IfOk result (λ n. pure_node n ≡ condition_tree (pure_shows shows.now) (pure_node node.now)) }
    ensures next { OnOk result (next.new ≡ next_behind (pure_shows shows.now) (pure_node node.now)) }
{
    let over = over_tables(alloc, shows, node, next)?;
    let first = kept_name(alloc, 0)?;
    let second = kept_name(alloc, 1)?;
    has_value(alloc, &first, &second, over.get())
}

/// An objective over tables, which isn't asked where it has no value. Reserved names and `NoMemory` as above.
pub(crate) fn objective_over(
    alloc: Global,
    shows: &Shows,
    node: &Node,
    next: &mut u64,
) -> Result<Boxed<Node>, NoMemory>
    ensures tree { IfOk result (λ n. pure_node n ≡ objective_tree (pure_shows shows.now) (pure_node node.now)) }
    ensures next { OnOk result (next.new ≡ next_behind (pure_shows shows.now) (pure_node node.now)) }
{
    let over = over_tables(alloc, shows, node, next)?;
    let first = kept_name(alloc, 0)?;
    let second = kept_name(alloc, 1)?;
    make_total(alloc, &first, &second, over.get())
}

/// The expression over tables, with its bound names told apart. The number of the reserved name behind theirs is left in `next`.
/// `NoMemory` where there is no room for it, or the reserved names can't be counted.
fn over_tables(
    alloc: Global,
    shows: &Shows,
    node: &Node,
    next: &mut u64,
) -> Result<Boxed<Node>, NoMemory>
    ensures tree { IfOk result (λ n. pure_node n ≡ tree_of (pure_shows shows.now) (pure_node node.now)) }
    ensures next { OnOk result (next.new ≡ next_behind (pure_shows shows.now) (pure_node node.now)) }
{
    *next = shows.next;
    let told = told_apart_from(alloc, node, next)?;
    shown(alloc, shows, told.get())
}

/// The reserved name with a number, of those that are kept for conditions.
fn kept_name(alloc: Global, number: u64) -> Result<Text, NoMemory>
    ensures { IfOk result (λ t. t ≡ reserved number) }
{
    let mut name = Text::new(alloc);
    name.push_byte(b'#')?;
    name.push_u64(number)?;
    Ok(name)
}
