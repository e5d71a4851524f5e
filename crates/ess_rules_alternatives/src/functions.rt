//! The lookup of a function literal at an argument.
ghost use Rattle.std.specs.Prelude.{◌≡◌, map, option_map, IfOk};
ghost use Rattle.ess_core_nodes.specs.NodeViews.{pure_node};
ghost use Rattle.ess_rules_laws.specs.AlternativeLookups.{function_literal_lookup as looked_up, pairs_by_cases as by_cases};
ghost use Rattle.ess_rules_forms.specs.PureAlternatives.{pure_alternative};

use crate::cases::results;
use ess_core::Fun;
use ess_core_nodes::{Node, Op};
use ess_node_operands::{Operands, by_number};
use ess_rows::{NoMemory, Row};
use ess_rules_forms::Alternative;
use std::alloc::Global;

/// `function(a1 --> b1, ..)(x)`, and `image` of it, is looked up by each result where x is its argument and none of those before it.
/// `NoMemory` where there is no room for it.
#[tactic(auto, using(ess_core_nodes::proofs::NodeEquations::pure_seen_is))]
pub fn function_literal_lookup(
    alloc: Global,
    node: &Node,
) -> Result<Option<Row<Alternative>>, NoMemory>
    ensures { IfOk result (λ o. option_map (map pure_alternative) o ≡ looked_up (pure_node node.now)) }
{
    match node {
        Node::Op(_, Op::Apply | Op::Word(Fun::Image), operands) => match by_number(
            operands.as_slice(),
        ) {
            Operands::Two(function, argument) => pairs_by_cases(alloc, function, argument),
            _ => Ok(None),
        },
        _ => Ok(None),
    }
}

/// The pairs of a function literal at a term.
#[tactic(auto, using(ess_core_nodes::proofs::NodeEquations::pure_seen_is))]
fn pairs_by_cases(
    alloc: Global,
    function: &Node,
    term: &Node,
) -> Result<Option<Row<Alternative>>, NoMemory>
    ensures { IfOk result (λ o. option_map (map pure_alternative) o ≡ by_cases (pure_node function.now) (pure_node term.now)) }
{
    match function {
        Node::Op(false, Op::Function, pairs) => results(alloc, term, pairs.as_slice()),
        _ => Ok(None),
    }
}
