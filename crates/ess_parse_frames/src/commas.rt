//! Commas behind the last part of a statement.
ghost use Rattle.std.specs.Prelude.{[], ◌∷◌, false, IfOk};
ghost use Rattle.ess_parse_laws.specs.AfterOperands.{operand_then_comma};
ghost use Rattle.ess_parse_frames.specs.Patterns.{view_operand, is_pattern_operand};
ghost use Rattle.ess_parse_frames.specs.Views.{view_frame, Steps};
ghost use Rattle.ess_parse_frames.specs.declared.frames.Frame.TheVariants as F;

use crate::rows::with_statement;
use crate::stack::{alone, outside};
use crate::{Frame, Mode, Operand, State};
use ess_core::Stm;
use ess_rows::{NoMemory, Row, Text};
use std::alloc::Global;

/// Another letting, behind one of an expression. `NoMemory` where there is no room.
pub fn next_letting(
    alloc: Global,
    name: Text,
    before: Row<Stm>,
    operand: Operand,
) -> Result<Option<State>, NoMemory>
    ensures { IfOk result (Steps (operand_then_comma (view_frame (F.Letting name before) ∷ []) false (is_pattern_operand operand) (view_operand operand))) }
{
    let value = operand.into_expression(alloc)?;
    let statements = with_statement(before, Stm::LetEx(name, value))?;
    Ok(outside(alloc, Mode::LettingWanted(statements)))
}

/// Another letting, behind one of an unnamed type. `NoMemory` where there is no room.
pub fn next_unnamed(
    alloc: Global,
    name: Text,
    before: Row<Stm>,
    operand: Operand,
) -> Result<Option<State>, NoMemory>
    ensures { IfOk result (Steps (operand_then_comma (view_frame (F.Unnamed name before) ∷ []) false (is_pattern_operand operand) (view_operand operand))) }
{
    let size = operand.into_expression(alloc)?;
    let statements = with_statement(before, Stm::LetUnnamed(name, size))?;
    Ok(outside(alloc, Mode::LettingWanted(statements)))
}

/// Another condition. `NoMemory` where there is no room.
pub fn next_condition(
    alloc: Global,
    before: Row<Stm>,
    operand: Operand,
) -> Result<Option<State>, NoMemory>
    ensures { IfOk result (Steps (operand_then_comma (view_frame (F.Where before) ∷ []) false (is_pattern_operand operand) (view_operand operand))) }
{
    let condition = operand.into_expression(alloc)?;
    let statements = with_statement(before, Stm::Needs(condition))?;
    alone(alloc, Mode::OperandWanted, Frame::Where(statements))
}

/// Another constraint. `NoMemory` where there is no room.
pub fn next_constraint(
    alloc: Global,
    before: Row<Stm>,
    operand: Operand,
) -> Result<Option<State>, NoMemory>
    ensures { IfOk result (Steps (operand_then_comma (view_frame (F.SuchThat before) ∷ []) false (is_pattern_operand operand) (view_operand operand))) }
{
    let constraint = operand.into_expression(alloc)?;
    let statements = with_statement(before, Stm::SuchThat(constraint))?;
    alone(alloc, Mode::OperandWanted, Frame::SuchThat(statements))
}
