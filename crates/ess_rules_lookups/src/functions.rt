//! The lookup of a function at an argument, whatever term gives the function: over its pairs, where the first component is the argument,
//! the second one.
ghost use Rattle.std.specs.Prelude.{◌≡◌, true, Some, option_map, IfOk};
ghost use Rattle.ess_semantics.specs.Trees.{name_pat, name_ex, ex2, comp_ex, from as from_gen, cond, no_gens};
ghost use Rattle.ess_semantics.specs.Types.{is_bool as is_truth};
ghost use Rattle.ess_semantics.specs.Typing.{type_of as type_under};
ghost use Rattle.ess_core.specs.TypeViews.{pure_ty};
ghost use Rattle.ess_core_nodes.specs.NodeViews.{pure_node};
ghost use Rattle.ess_node_types.specs.TypedNames.{pure_names};
ghost use Rattle.ess_rules_laws.specs.ComponentRules.{component_of as part_of};
ghost use Rattle.ess_rules_laws.specs.FunctionLookups.{function_lookup as looked_up, pairs_at as found_at, unmarked as without_mark};

use ess_core::{Fun, Op2, Ty};
use ess_core_nodes::{Node, Op, copy_nodes};
use ess_node_building::{binary, component, comprehension, condition, from, name};
use ess_node_operands::{Operands, by_number};
use ess_node_types::{NameTypes, type_of};
use ess_rows::{Boxed, NoMemory, Row, Text};
use std::alloc::Global;

/// The lookup of `f(a)` and of `image(f, a)`, where f is a function, or of a type without values: `[y[2] | y <- f, y[1] = a]`.
/// `NoMemory` where there is no room for it.
#[tactic(auto, using(ess_core_nodes::proofs::NodeEquations::pure_seen_is))]
pub fn function_lookup(
    alloc: Global,
    types: &NameTypes,
    bound: &Text,
    node: &Node,
) -> Result<Option<Boxed<Node>>, NoMemory>
    ensures { IfOk result (λ o. option_map pure_node o ≡ looked_up (pure_names types.now) bound.now (pure_node node.now)) }
{
    match node {
        Node::Op(_, Op::Apply | Op::Word(Fun::Image), operands) => match by_number(
            operands.as_slice(),
        ) {
            Operands::Two(function, argument) => looked_up_at(
                alloc, types, bound, function, argument,
            ),
            _ => Ok(None),
        },
        _ => Ok(None),
    }
}

/// The pairs of a function at an argument.
fn looked_up_at(
    alloc: Global,
    types: &NameTypes,
    bound: &Text,
    function: &Node,
    argument: &Node,
) -> Result<Option<Boxed<Node>>, NoMemory>
    ensures { IfOk result (λ o. option_map pure_node o
        ≡ found_at (type_under (pure_node function.now) (pure_names types.now)) bound.now (pure_node function.now)
        (pure_node argument.now)) }
{
    let ty = type_of(alloc, function, types)?;
    pairs_at(alloc, &ty, bound, function, argument)
}

/// The same where the type is that of a function, or one without values.
fn pairs_at(
    alloc: Global,
    ty: &Option<Boxed<Ty>>,
    bound: &Text,
    function: &Node,
    argument: &Node,
) -> Result<Option<Boxed<Node>>, NoMemory>
    ensures { IfOk result (λ o. option_map pure_node o
        ≡ found_at (option_map pure_ty ty.now) bound.now (pure_node function.now) (pure_node argument.now)) }
{
    match ty {
        None => Ok(None),
        Some(ty) => match ty.get() {
            Ty::Function(from, to) => Ok(Some(pairs(
                alloc,
                from.get(),
                to.get(),
                bound,
                function,
                argument,
            )?)),
            Ty::Any => Ok(Some(pairs(alloc, &Ty::Any, &Ty::Any, bound, function, argument)?)),
            _ => Ok(None),
        },
    }
}

/// `[y[2] | y <- f, y[1] = a]`
fn pairs(
    alloc: Global,
    from_ty: &Ty,
    to_ty: &Ty,
    bound: &Text,
    function: &Node,
    argument: &Node,
) -> Result<Boxed<Node>, NoMemory>
    ensures { IfOk result (λ n. pure_node n ≡ comp_ex (part_of (pure_ty to_ty.now) 2 (name_ex bound.now))
        (from_gen (name_pat bound.now) (pure_node function.now)
        (cond (ex2 true Op2.Eq (part_of (pure_ty from_ty.now) 1 (name_ex bound.now)) (pure_node argument.now)) no_gens))) }
{
    let key = part(alloc, from_ty, 1, bound)?;
    let is_equal = binary(alloc, true, Op2::Eq, key, argument.copy(alloc)?)?;
    let result = part(alloc, to_ty, 2, bound)?;
    let mut gens = Row::new(alloc);
    gens.push(from(alloc, bound, function.copy(alloc)?)?)?;
    gens.push(condition(is_equal))?;
    comprehension(alloc, result, gens)
}

/// A component of the pair with a name; it is Boolean where the type is that of truth values.
fn part(alloc: Global, ty: &Ty, at: u64, pair: &Text) -> Result<Boxed<Node>, NoMemory>
    ensures { IfOk result (λ n. pure_node n ≡ part_of (pure_ty ty.now) at (name_ex pair.now)) }
{
    let mark = is_bool(ty);
    component(alloc, mark, at, name(alloc, pair)?)
}

/// Whether the type is that of truth values.
fn is_bool(ty: &Ty) -> bool
    ensures { result ≡ is_truth (Some (pure_ty ty.now)) }
{
    match ty {
        Ty::Bool => true,
        _ => false,
    }
}

/// The tree not read as Boolean at its root: it has nothing where its operator has nothing. `NoMemory` where there is no room for it.
#[tactic(auto, using(ess_core_nodes::proofs::NodeEquations::pure_seen_is))]
pub fn unmarked(alloc: Global, node: &Node) -> Result<Boxed<Node>, NoMemory>
    ensures { IfOk result (λ n. pure_node n ≡ without_mark (pure_node node.now)) }
{
    match node {
        Node::Op(_, op, operands) => {
            let operands = copy_nodes(alloc, operands.as_slice())?;
            let op = op.copy(alloc)?;
            Boxed::new(alloc, Node::Op(false, op, operands))
        }
        _ => node.copy(alloc),
    }
}
