//! Lookups in views of functions from atoms, at any argument: a name runs over the first domain, and is the argument.
ghost use Rattle.std.specs.Prelude.{◌≡◌, IfOk, true, option_map};
ghost use Rattle.ess_semantics.specs.Trees.{name_pat, name_ex, ex2, no_exs, more_exs, no_gens, over as over_gen, cond};
ghost use Rattle.ess_core.specs.TreeViews.{pure_repr};
ghost use Rattle.ess_core_nodes.specs.NodeViews.{pure_node, pure_nodes, pure_gens, pure_dom};
ghost use Rattle.ess_rules_laws.specs.FunctionViews.{result_at, flag_at};
ghost use Rattle.ess_rules_laws.specs.Function1DViews.{function_1d_result, function_1d_lookup};
ghost use Rattle.ess_rules_laws.specs.Function1DPartialViews.{function_1d_partial_result, function_1d_partial_lookup};
ghost use Rattle.ess_rules_views.specs.ViewRules.{result_where, flagged_where};
ghost use Rattle.ess_rules_views.specs.CodeViews.{pure_function};

use crate::keys::{flag_at, result_at};
use crate::parts::{FunctionParts, applied, by_argument};
use ess_core::{Op2, ReprKind};
use ess_core_nodes::{Gen, Node, NodeDom};
use ess_node_building::{binary, comprehension, condition, name, only, over};
use ess_rows::{Boxed, NoMemory, Row, Text};
use std::alloc::Global;

/// The lookup of `f(a)` and of `image(f, a)` in a view of a total function from atoms: x over the first domain, where x is a, the result
/// at x. Nothing for another root; `NoMemory` where there is no room for it.
#[tactic(auto, using(crate::proofs::LookupParts::single_by_parts))]
pub fn function_1d_lookup(
    alloc: Global,
    one: &Text,
    node: &Node,
) -> Result<Option<Boxed<Node>>, NoMemory>
    ensures { IfOk result (λ o. option_map pure_node o ≡ function_1d_lookup one.now (pure_node node.now)) }
{
    match applied(node) {
        Some((_, (function, argument))) => total_at(alloc, one, function, argument),
        None => Ok(None),
    }
}

/// The result of a total function at an argument.
#[tactic(auto, using(crate::proofs::LookupParts::result_by_argument))]
fn total_at(
    alloc: Global,
    one: &Text,
    function: &Node,
    argument: &Node,
) -> Result<Option<Boxed<Node>>, NoMemory>
    ensures { IfOk result (λ o. option_map pure_node o ≡ function_1d_result one.now (pure_node function.now) (pure_node argument.now)) }
{
    match by_argument(function) {
        Some(parts) => result_where(alloc, one, argument, &parts),
        None => Ok(None),
    }
}

/// The same of the parts of a view.
fn result_where(
    alloc: Global,
    one: &Text,
    argument: &Node,
    parts: &FunctionParts<'_>,
) -> Result<Option<Boxed<Node>>, NoMemory>
    ensures { IfOk result (λ o. option_map pure_node o
        ≡ result_where parts.now.kind one.now (pure_node argument.now) (pure_function parts.now)) }
{
    match parts.kind {
        ReprKind::Function1D => {
            let body = result_by_name(alloc, one, parts, parts.cells)?;
            let gens = run_where(alloc, one, parts.first, argument)?;
            Ok(Some(comprehension(alloc, body, gens)?))
        }
        _ => Ok(None),
    }
}

/// The result at a name.
fn result_by_name(
    alloc: Global,
    one: &Text,
    parts: &FunctionParts<'_>,
    cells: &[Text],
) -> Result<Boxed<Node>, NoMemory>
    ensures { IfOk result (λ n. pure_node n ≡ result_at (pure_repr parts.now.child.now) (pure_dom parts.now.last.now) cells.now
        (pure_nodes parts.now.at.now) (more_exs (name_ex one.now) no_exs)) }
{
    let keys = only(alloc, name(alloc, one)?)?;
    result_at(
        alloc,
        parts.child,
        parts.last,
        cells,
        parts.at,
        keys.as_slice(),
    )
}

/// `x : d, x = a`.
fn run_where(
    alloc: Global,
    one: &Text,
    dom: &NodeDom,
    argument: &Node,
) -> Result<Row<Gen>, NoMemory>
    ensures { IfOk result (λ gs. pure_gens gs ≡ over_gen (name_pat one.now) (pure_dom dom.now)
        (cond (ex2 true Op2.Eq (name_ex one.now) (pure_node argument.now)) no_gens)) }
{
    let equal = is_value(alloc, one, argument)?;
    let dom = dom.copy(alloc)?;
    let mut gens = Row::new(alloc);
    gens.push(over(alloc, one, dom)?)?;
    gens.push(condition(equal))?;
    Ok(gens)
}

/// `x = a`.
fn is_value(alloc: Global, one: &Text, value: &Node) -> Result<Boxed<Node>, NoMemory>
    ensures { IfOk result (λ n. pure_node n ≡ ex2 true Op2.Eq (name_ex one.now) (pure_node value.now)) }
{
    let value = value.copy(alloc)?;
    let name = name(alloc, one)?;
    binary(alloc, true, Op2::Eq, name, value)
}

// ---- functions with flags

/// The same of a function with flags, where the flag at x is true.
#[tactic(auto, using(crate::proofs::LookupParts::partial_by_parts))]
pub fn function_1d_partial_lookup(
    alloc: Global,
    one: &Text,
    node: &Node,
) -> Result<Option<Boxed<Node>>, NoMemory>
    ensures { IfOk result (λ o. option_map pure_node o ≡ function_1d_partial_lookup one.now (pure_node node.now)) }
{
    match applied(node) {
        Some((_, (function, argument))) => partial_at(alloc, one, function, argument),
        None => Ok(None),
    }
}

/// The result of a function with flags at an argument.
#[tactic(auto, using(crate::proofs::LookupParts::partial_by_argument))]
fn partial_at(
    alloc: Global,
    one: &Text,
    function: &Node,
    argument: &Node,
) -> Result<Option<Boxed<Node>>, NoMemory>
    ensures { IfOk result (λ o. option_map pure_node o
        ≡ function_1d_partial_result one.now (pure_node function.now) (pure_node argument.now)) }
{
    match by_argument(function) {
        Some(parts) => flagged_where(alloc, one, argument, &parts),
        None => Ok(None),
    }
}

/// The same of the parts of a view.
fn flagged_where(
    alloc: Global,
    one: &Text,
    argument: &Node,
    parts: &FunctionParts<'_>,
) -> Result<Option<Boxed<Node>>, NoMemory>
    ensures { IfOk result (λ o. option_map pure_node o
        ≡ flagged_where parts.now.kind parts.now.cells.now one.now (pure_node argument.now) (pure_function parts.now)) }
{
    match parts.kind {
        ReprKind::Function1DPartial => match parts.cells.split_first() {
            None => Ok(None),
            Some((flags, cells)) => {
                let body = result_by_name(alloc, one, parts, cells)?;
                let flag = flag_by_name(alloc, one, flags, parts.at)?;
                let gens = run_under(alloc, one, parts.first, argument, flag)?;
                Ok(Some(comprehension(alloc, body, gens)?))
            }
        },
        _ => Ok(None),
    }
}

/// The flag at a name.
fn flag_by_name(
    alloc: Global,
    one: &Text,
    flags: &Text,
    at: &[Node],
) -> Result<Boxed<Node>, NoMemory>
    ensures { IfOk result (λ n. pure_node n ≡ flag_at flags.now (pure_nodes at.now) (more_exs (name_ex one.now) no_exs)) }
{
    let keys = only(alloc, name(alloc, one)?)?;
    flag_at(alloc, flags, at, keys.as_slice())
}

/// `x : d, x = a, c`.
fn run_under(
    alloc: Global,
    one: &Text,
    dom: &NodeDom,
    argument: &Node,
    flag: Boxed<Node>,
) -> Result<Row<Gen>, NoMemory>
    ensures { IfOk result (λ gs. pure_gens gs ≡ over_gen (name_pat one.now) (pure_dom dom.now)
        (cond (ex2 true Op2.Eq (name_ex one.now) (pure_node argument.now)) (cond (pure_node flag) no_gens))) }
{
    let equal = is_value(alloc, one, argument)?;
    let dom = dom.copy(alloc)?;
    let mut gens = Row::new(alloc);
    gens.push(over(alloc, one, dom)?)?;
    gens.push(condition(equal))?;
    gens.push(condition(flag))?;
    Ok(gens)
}
