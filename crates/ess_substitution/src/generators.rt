//! Generators and conditions with an expression in the place of a name.
ghost use Rattle.std.specs.Prelude.{◌≡◌, IfOk, map};
ghost use Rattle.ess_semantics.specs.Substitution.{substitute_gens, for_name};
ghost use Rattle.ess_core_nodes.specs.NodeViews.{pure_node, pure_gen, pure_gens};
ghost use Rattle.ess_substitution.specs.Items.{substitute_item};

use crate::domains::substitute_dom;
use crate::expressions::substitute;
use ess_core_nodes::{Gen, Node};
use ess_rows::{Boxed, NoMemory, Row, Text};
use std::alloc::Global;

/// The generators and conditions with a value in the place of a name. `NoMemory` where there is no room for them.
#[cycle(substituted)]
#[tactic(auto, using(crate::proofs::Rows::substituted_gens))]
pub fn substitute_gens(
    alloc: Global,
    gens: &[Gen],
    name: &Text,
    value: &Node,
) -> Result<Row<Gen>, NoMemory>
    ensures { IfOk result (λ gs. pure_gens gs
        ≡ substitute_gens (for_name name.now (pure_node value.now)) (pure_gens gens.now)) }
{
    Ok(each_gen(alloc, gens, name, value)?)
}

/// The same one by one.
#[cycle(substituted)]
fn each_gen(alloc: Global, gens: &[Gen], name: &Text, value: &Node) -> Result<Row<Gen>, NoMemory>
    ensures { IfOk result (λ gs. map pure_gen gs
        ≡ map (substitute_item (for_name name.now (pure_node value.now))) (map pure_gen gens.now)) }
{
    let mut all = Row::with_capacity(alloc, gens.len())?;
    for item in gens {
        let item = substitute_gen(alloc, item, name, value)?;
        all.push(item.into_inner())?;
    }
    Ok(all)
}

/// The same of one generator or condition.
#[cycle(substituted)]
#[tactic(auto, using(ess_core_nodes::proofs::NodeEquations::pure_gen_over, ess_core_nodes::proofs::NodeEquations::pure_gen_from, ess_core_nodes::proofs::NodeEquations::pure_gen_if))]
fn substitute_gen(
    alloc: Global,
    item: &Gen,
    name: &Text,
    value: &Node,
) -> Result<Boxed<Gen>, NoMemory>
    ensures { IfOk result (λ g. pure_gen g ≡ substitute_item (for_name name.now (pure_node value.now)) (pure_gen item.now)) }
{
    match item {
        Gen::Over(pat, dom) => {
            let dom = substitute_dom(alloc, dom.get(), name, value)?;
            let pat = pat.copy(alloc)?;
            Boxed::new(alloc, Gen::Over(pat, dom))
        }
        Gen::From(pat, source) => {
            let source = substitute(alloc, source.get(), name, value)?;
            let pat = pat.copy(alloc)?;
            Boxed::new(alloc, Gen::From(pat, source))
        }
        Gen::If(condition) => {
            let condition = substitute(alloc, condition.get(), name, value)?;
            Boxed::new(alloc, Gen::If(condition))
        }
    }
}
