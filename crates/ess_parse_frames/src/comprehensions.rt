//! Comprehensions that an operand ends.
#![tactic(auto, using(ess_core::proofs::ExpressionEquations::pure_comp))]

ghost use Rattle.std.specs.Prelude.{◌≡◌, IfOk};
ghost use Rattle.ess_semantics.specs.Trees.{comp_ex, no_exs, more_exs, no_gens};
ghost use Rattle.ess_parse_laws.specs.Reversed.{push_conditions, push_all_from, reverse_gens};
ghost use Rattle.ess_core.specs.TreeViews.{pure_ex};
ghost use Rattle.ess_parse_frames.specs.Rows.{back_gens};
ghost use Rattle.ess_parse_frames.specs.Patterns.{back_pats, pats_in_order, view_operand};

use crate::Operand;
use crate::items::{all_conditions, all_from};
use ess_core::{Ex, Gen, Pat};
use ess_rows::{Boxed, NoMemory, Row};
use std::alloc::Global;

/// A comprehension whose last item is a condition. `NoMemory` where there is no room for it.
pub fn comprehension_where(
    alloc: Global,
    body: Boxed<Ex>,
    items: Row<Gen>,
    patterns: Row<Pat>,
    condition: Operand,
) -> Result<Ex, NoMemory>
    ensures { IfOk result (λ e. pure_ex e ≡ comp_ex (pure_ex body) (reverse_gens (push_conditions (more_exs (view_operand condition) (back_pats patterns no_exs)) (back_gens items)) no_gens)) }
{
    let condition = condition.into_expression(alloc)?;
    let items = all_conditions(alloc, items, patterns, condition)?;
    Ok(Ex::Comp(body, items))
}

/// A comprehension whose last item is a generator over a value. `NoMemory` where there is no room for it.
pub fn comprehension_from(
    alloc: Global,
    body: Boxed<Ex>,
    items: Row<Gen>,
    patterns: Row<Pat>,
    value: Operand,
) -> Result<Ex, NoMemory>
    ensures { IfOk result (λ e. pure_ex e ≡ comp_ex (pure_ex body) (reverse_gens (push_all_from (pats_in_order patterns) (view_operand value) (back_gens items)) no_gens)) }
{
    let value = value.into_expression(alloc)?;
    let items = all_from(alloc, items, patterns, value)?;
    Ok(Ex::Comp(body, items))
}
