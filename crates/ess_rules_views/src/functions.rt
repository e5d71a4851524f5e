//! Views of functions kept by argument, where the argument's own value is an index: the view at the argument, the flag at the argument.
ghost use Rattle.std.specs.Prelude.{◌≡◌, IfOk, true, false, option_map};
ghost use Rattle.ess_semantics.specs.Trees.{ex2};
ghost use Rattle.ess_core_nodes.specs.NodeViews.{pure_node, pure_nodes, pure_dom};
ghost use Rattle.ess_rules_laws.specs.FunctionKeys.{view_at, result_at_argument, is_total_view, defined_everywhere, flag_of};
ghost use Rattle.ess_rules_laws.specs.FunctionKeys.{defined_where_flagged, flagged_view_at, lookup_behind_flag};
ghost use Rattle.ess_rules_views.specs.ViewRules.{view_of, is_total_kind, flag_from, flag_in, flagged_from, flagged_in};
ghost use Rattle.ess_rules_views.specs.CodeViews.{pure_function};

use crate::keys::{fits_mark, flag_at, partial_keys, result_at, total_keys};
use crate::parts::{FunctionParts, applied, by_argument};
use ess_core::{Fun, Op2, ReprKind};
use ess_core_nodes::{Node, NodeDom};
use ess_node_building::{comprehension, condition, truth};
use ess_rows::{Boxed, NoMemory, Row, Text};
use ess_rules_forms::{plain_word, truth_pair};
use std::alloc::Global;

// ---- total functions

/// `f(a)` and `image(f, a)` of a total function become the view at a: an atom is its own index, a tuple that is written as a literal has
/// those of its items. Nothing for another root; `NoMemory` where there is no room for it.
#[tactic(auto, using(crate::proofs::ViewParts::result_by_parts))]
pub fn result_at_argument(alloc: Global, node: &Node) -> Result<Option<Boxed<Node>>, NoMemory>
    ensures { IfOk result (λ o. option_map pure_node o ≡ result_at_argument (pure_node node.now)) }
{
    match applied(node) {
        Some((mark, (function, argument))) => view_at(alloc, mark, function, argument),
        None => Ok(None),
    }
}

/// The view of a total function at an argument, where it may stand in a Boolean place, if it is one.
#[tactic(auto, using(crate::proofs::ViewParts::view_by_argument))]
fn view_at(
    alloc: Global,
    mark: bool,
    function: &Node,
    argument: &Node,
) -> Result<Option<Boxed<Node>>, NoMemory>
    ensures { IfOk result (λ o. option_map pure_node o ≡ view_at mark (pure_node function.now) (pure_node argument.now)) }
{
    match by_argument(function) {
        Some(parts) => view_of(alloc, mark, argument, &parts),
        None => Ok(None),
    }
}

/// The same of the parts of a view.
fn view_of(
    alloc: Global,
    mark: bool,
    argument: &Node,
    parts: &FunctionParts<'_>,
) -> Result<Option<Boxed<Node>>, NoMemory>
    ensures { IfOk result (λ o. option_map pure_node o ≡ view_of mark (pure_node argument.now) (pure_function parts.now)) }
{
    match total_keys(alloc, parts.kind, parts.first, argument)? {
        Some(keys) => {
            if fits_mark(mark, parts.last) {
                Ok(Some(result_at(
                    alloc,
                    parts.child,
                    parts.last,
                    parts.cells,
                    parts.at,
                    keys.as_slice(),
                )?))
            } else {
                Ok(None)
            }
        }
        None => Ok(None),
    }
}

/// Whether it is a view of a total function.
#[tactic(auto, using(crate::proofs::ViewParts::total_by_argument))]
fn is_total_view(node: &Node) -> bool
    ensures { result ≡ is_total_view (pure_node node.now) }
{
    match by_argument(node) {
        Some(parts) => is_total_kind(parts.kind, parts.first),
        None => false,
    }
}

/// Whether it is the kind of a total function from this domain.
fn is_total_kind(kind: ReprKind, first: &NodeDom) -> bool
    ensures { result ≡ is_total_kind kind (pure_dom first.now) }
{
    match kind {
        ReprKind::Function1D => true,
        ReprKind::FunctionND => match first {
            NodeDom::Tuple(_) => true,
            _ => false,
        },
        _ => false,
    }
}

/// `a in defined(f)` of a total function becomes true. Nothing for another root; `NoMemory` where there is no room for it.
#[tactic(auto, using(crate::proofs::ViewParts::everywhere_of_pair))]
pub fn defined_everywhere(alloc: Global, node: &Node) -> Result<Option<Boxed<Node>>, NoMemory>
    ensures { IfOk result (λ o. option_map pure_node o ≡ defined_everywhere (pure_node node.now)) }
{
    match truth_pair(node) {
        Some((Op2::Member, (argument, container))) => in_all(alloc, argument, container),
        _ => Ok(None),
    }
}

/// That it is an argument, which it is of a total function.
#[tactic(auto, using(crate::proofs::ViewParts::everywhere_by_word))]
fn in_all(alloc: Global, argument: &Node, container: &Node) -> Result<Option<Boxed<Node>>, NoMemory>
    ensures { IfOk result (λ o. option_map pure_node o ≡
        defined_everywhere (ex2 true Op2.Member (pure_node argument.now) (pure_node container.now))) }
{
    match plain_word(container) {
        Some((Fun::Defined, function)) => {
            if is_total_view(function) {
                Ok(Some(truth(alloc, true)?))
            } else {
                Ok(None)
            }
        }
        _ => Ok(None),
    }
}

// ---- functions with flags

/// `a in defined(f)` of a function with flags becomes the flag at a. Nothing for another root; `NoMemory` where there is no room for it.
#[tactic(auto, using(crate::proofs::ViewParts::flagged_of_pair))]
pub fn defined_where_flagged(alloc: Global, node: &Node) -> Result<Option<Boxed<Node>>, NoMemory>
    ensures { IfOk result (λ o. option_map pure_node o ≡ defined_where_flagged (pure_node node.now)) }
{
    match truth_pair(node) {
        Some((Op2::Member, (argument, container))) => in_flagged(alloc, argument, container),
        _ => Ok(None),
    }
}

/// That it is an argument of a function with flags.
#[tactic(auto, using(crate::proofs::ViewParts::flagged_by_word))]
fn in_flagged(
    alloc: Global,
    argument: &Node,
    container: &Node,
) -> Result<Option<Boxed<Node>>, NoMemory>
    ensures { IfOk result (λ o. option_map pure_node o ≡
        defined_where_flagged (ex2 true Op2.Member (pure_node argument.now) (pure_node container.now))) }
{
    match plain_word(container) {
        Some((Fun::Defined, function)) => flag_of(alloc, function, argument),
        _ => Ok(None),
    }
}

/// The flag of a function at an argument.
#[tactic(auto, using(crate::proofs::ViewParts::flag_by_argument))]
fn flag_of(alloc: Global, function: &Node, argument: &Node) -> Result<Option<Boxed<Node>>, NoMemory>
    ensures { IfOk result (λ o. option_map pure_node o ≡ flag_of (pure_node function.now) (pure_node argument.now)) }
{
    match by_argument(function) {
        Some(parts) => flag_from(alloc, argument, &parts),
        None => Ok(None),
    }
}

/// The same of the parts of a view.
fn flag_from(
    alloc: Global,
    argument: &Node,
    parts: &FunctionParts<'_>,
) -> Result<Option<Boxed<Node>>, NoMemory>
    ensures { IfOk result (λ o. option_map pure_node o ≡ flag_from (pure_node argument.now) (pure_function parts.now)) }
{
    match partial_keys(alloc, parts.kind, parts.first, argument)? {
        Some(keys) => flag_in(alloc, parts.cells, parts.at, keys.as_slice()),
        None => Ok(None),
    }
}

/// The flag at these indices, where there is a table for flags.
fn flag_in(
    alloc: Global,
    cells: &[Text],
    at: &[Node],
    keys: &[Node],
) -> Result<Option<Boxed<Node>>, NoMemory>
    ensures { IfOk result (λ o. option_map pure_node o ≡ flag_in cells.now (pure_nodes at.now) (pure_nodes keys.now)) }
{
    match cells.split_first() {
        Some((flags, _)) => Ok(Some(flag_at(alloc, flags, at, keys)?)),
        None => Ok(None),
    }
}

/// The lookup of `f(a)` and of `image(f, a)` in a function with flags: `[v | c]`, where v is the view at a and c the flag. Nothing
/// for another root; `NoMemory` where there is no room for it.
#[tactic(auto, using(crate::proofs::ViewParts::lookup_by_parts))]
pub fn lookup_behind_flag(alloc: Global, node: &Node) -> Result<Option<Boxed<Node>>, NoMemory>
    ensures { IfOk result (λ o. option_map pure_node o ≡ lookup_behind_flag (pure_node node.now)) }
{
    match applied(node) {
        Some((_, (function, argument))) => flagged_view_at(alloc, function, argument),
        None => Ok(None),
    }
}

/// The view of a function with flags at an argument, behind its flag.
#[tactic(auto, using(crate::proofs::ViewParts::flagged_by_argument))]
fn flagged_view_at(
    alloc: Global,
    function: &Node,
    argument: &Node,
) -> Result<Option<Boxed<Node>>, NoMemory>
    ensures { IfOk result (λ o. option_map pure_node o ≡ flagged_view_at (pure_node function.now) (pure_node argument.now)) }
{
    match by_argument(function) {
        Some(parts) => flagged_from(alloc, argument, &parts),
        None => Ok(None),
    }
}

/// The same of the parts of a view.
fn flagged_from(
    alloc: Global,
    argument: &Node,
    parts: &FunctionParts<'_>,
) -> Result<Option<Boxed<Node>>, NoMemory>
    ensures { IfOk result (λ o. option_map pure_node o ≡ flagged_from (pure_node argument.now) (pure_function parts.now)) }
{
    match partial_keys(alloc, parts.kind, parts.first, argument)? {
        Some(keys) => flagged_in(alloc, parts, keys.as_slice()),
        None => Ok(None),
    }
}

/// The view at these indices behind its flag, where there is a table for flags.
fn flagged_in(
    alloc: Global,
    parts: &FunctionParts<'_>,
    keys: &[Node],
) -> Result<Option<Boxed<Node>>, NoMemory>
    ensures { IfOk result (λ o. option_map pure_node o ≡ flagged_in (pure_function parts.now) parts.now.cells.now (pure_nodes keys.now)) }
{
    match parts.cells.split_first() {
        Some((flags, cells)) => {
            let body = result_at(alloc, parts.child, parts.last, cells, parts.at, keys)?;
            let flag = flag_at(alloc, flags, parts.at, keys)?;
            let mut gens = Row::new(alloc);
            gens.push(condition(flag))?;
            Ok(Some(comprehension(alloc, body, gens)?))
        }
        None => Ok(None),
    }
}
