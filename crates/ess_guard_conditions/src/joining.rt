//! What is built of conditions: a Boolean under them, and conditions at each binding of a generator.
ghost use Rattle.std.specs.Prelude.{◌≡◌, [], ◌∷◌, true, IfOk, map};
ghost use Rattle.ess_core.specs.TreeViews.{cond_item};
ghost use Rattle.ess_core_nodes.specs.NodeViews.{pure_node, pure_gen, pure_gens};
ghost use Rattle.ess_guard_laws.specs.Conditions.{chained as chained_under, all_of as all_hold, every as every_one};
ghost use Rattle.ess_guard_laws.specs.Conditions.{given_that as given_this, summed as summed_under};

use ess_core::{Fun, Op2};
use ess_core_nodes::{Gen, Node};
use ess_node_building::{binary, comprehension, condition as asked, only, truth, word};
use ess_rows::{Boxed, NoMemory, Row};
use std::alloc::Global;

/// A row of one generator or condition.
pub fn one_gen(alloc: Global, item: Gen) -> Result<Row<Gen>, NoMemory>
    ensures { IfOk result (λ gs. map pure_gen gs ≡ pure_gen item ∷ []) }
{
    let mut gens = Row::new(alloc);
    gens.push(item)?;
    Ok(gens)
}

/// Conditions as those of a comprehension.
#[tactic(auto, using(std::proofs::lemmas::List::map_push))]
fn conds(alloc: Global, conditions: Row<Node>) -> Result<Row<Gen>, NoMemory>
    ensures { IfOk result (λ gs. map pure_gen gs ≡ map (λ c. cond_item c) (map pure_node conditions)) }
{
    let mut gens = Row::with_capacity(alloc, conditions.len())?;
    for condition in conditions.into_vec() {
        let condition = Boxed::new(alloc, condition)?;
        gens.push(Gen::If(condition))?;
    }
    Ok(gens)
}

/// The Boolean under conditions, which is false where one of them fails. Without conditions it stays as it is.
#[tactic(auto, using(crate::proofs::Chains::conds_items))]
pub fn chained(
    alloc: Global,
    conditions: Row<Node>,
    node: Boxed<Node>,
) -> Result<Boxed<Node>, NoMemory>
    ensures { IfOk result (λ n. pure_node n ≡ chained_under (map pure_node conditions) (pure_node node)) }
{
    match conditions.as_slice().split_first() {
        None => Ok(node),
        Some(_) => {
            let gens = conds(alloc, conditions)?;
            let under = comprehension(alloc, node, gens)?;
            word(alloc, true, Fun::Or, under)
        }
    }
}

/// The number under conditions, which is 0 where one of them fails. Without conditions it stays as it is.
#[tactic(auto, using(crate::proofs::Chains::conds_items))]
pub fn summed(
    alloc: Global,
    conditions: Row<Node>,
    node: Boxed<Node>,
) -> Result<Boxed<Node>, NoMemory>
    ensures { IfOk result (λ n. pure_node n ≡ summed_under (map pure_node conditions) (pure_node node)) }
{
    match conditions.as_slice().split_first() {
        None => Ok(node),
        Some(_) => {
            let gens = conds(alloc, conditions)?;
            let under = comprehension(alloc, node, gens)?;
            word(alloc, false, Fun::Sum, under)
        }
    }
}

/// That all conditions hold, each asked under those before it.
#[tactic(auto, using(crate::proofs::Chains::all_last, crate::proofs::Chains::under_last, std::proofs::lemmas::List::map_push))]
pub fn all_of(alloc: Global, mut conditions: Row<Node>) -> Result<Boxed<Node>, NoMemory>
    ensures { IfOk result (λ n. pure_node n ≡ all_hold (map pure_node conditions)) }
{
    let Some(last) = conditions.pop() else {
        return truth(alloc, true);
    };
    let mut all = Boxed::new(alloc, last)?;
    while let Some(condition) = conditions.pop() {
        all = under(alloc, Boxed::new(alloc, condition)?, all)?;
    }
    Ok(all)
}

/// The Boolean under one condition.
fn under(alloc: Global, condition: Boxed<Node>, node: Boxed<Node>) -> Result<Boxed<Node>, NoMemory>
    ensures { IfOk result (λ n. pure_node n ≡ chained_under (pure_node condition ∷ []) (pure_node node)) }
{
    let gens = one_gen(alloc, asked(condition))?;
    let under = comprehension(alloc, node, gens)?;
    word(alloc, true, Fun::Or, under)
}

/// That conditions hold at each binding of generators; nothing is asked where there are none.
pub fn every(alloc: Global, gens: Row<Gen>, conditions: Row<Node>) -> Result<Row<Node>, NoMemory>
    ensures { IfOk result (λ ns. map pure_node ns ≡ every_one (pure_gens gens) (map pure_node conditions)) }
{
    match conditions.as_slice().split_first() {
        None => Ok(conditions),
        Some(_) => {
            let all = all_of(alloc, conditions)?;
            let each = comprehension(alloc, all, gens)?;
            only(alloc, word(alloc, true, Fun::And, each)?)
        }
    }
}

/// That conditions hold where another one does; nothing is asked where there are none.
pub fn given_that(
    alloc: Global,
    condition: Boxed<Node>,
    conditions: Row<Node>,
) -> Result<Row<Node>, NoMemory>
    ensures { IfOk result (λ ns. map pure_node ns ≡ given_this (pure_node condition) (map pure_node conditions)) }
{
    match conditions.as_slice().split_first() {
        None => Ok(conditions),
        Some(_) => {
            let all = all_of(alloc, conditions)?;
            only(alloc, binary(alloc, true, Op2::Implies, condition, all)?)
        }
    }
}
