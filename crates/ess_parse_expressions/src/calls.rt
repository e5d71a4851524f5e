//! Calls of function words, and what stands in brackets directly behind `sum`: behind the last item of their list.
#![tactic(auto, using(ess_parse_frames::proofs::RowLaws::exs_closed, ess_parse_frames::proofs::PatternLaws::pats_closed, crate::proofs::ListLaws::no_items, crate::proofs::ListLaws::some_items))]

ghost use Rattle.std.specs.Prelude.{◌&&◌, true, false, IfOk};
ghost use Rattle.ess_semantics.specs.Trees.{no_exs, more_exs, plain_node, word};
ghost use Rattle.ess_parse_laws.specs.Reversed.{reverse_exs};
ghost use Rattle.ess_parse_laws.specs.AfterOperands.{end_list};
ghost use Rattle.ess_semantics.specs.declared.words.Fun.{Fun};
ghost use Rattle.ess_parse_laws.specs.Modes.{at_state, operand_read};
ghost use Rattle.ess_core.specs.TreeViews.{pure_exs};
ghost use Rattle.ess_parse_frames.specs.Patterns.{view_operand, is_pattern_operand, pats_in_order, back_listed, are_patterns};
ghost use Rattle.ess_parse_frames.specs.Views.{view_frames, Steps};
ghost use Rattle.ess_parse_expressions.specs.Lists.{begin_sum};

use crate::items::may_quantify;
use ess_bound_names::BoundNames;
use ess_core::{Ex, Fun, Pat};
use ess_parse_frames::operands::{expressions_of, with_operand};
use ess_parse_frames::stack::{expression_read, inside};
use ess_parse_frames::stops::{refuse, stop_frames};
use ess_parse_frames::{Frame, Head, Listed, Mode, Operand, State};
use ess_rows::{NoMemory, Row};
use std::alloc::Global;

/// Behind the last item of a function word's list. `NoMemory` where there is no room.
pub(crate) fn close_call(
    alloc: Global,
    function: Fun,
    listed: Listed,
    frames: Row<Frame>,
    operand: Operand,
) -> Result<Option<State>, NoMemory>
    ensures { IfOk result (Steps (end_list (word function) (are_patterns listed && is_pattern_operand operand) (reverse_exs (back_listed listed no_exs) (more_exs (view_operand operand) no_exs)) (view_frames frames))) }
{
    match with_operand(alloc, listed, operand) {
        Ok(listed) => end_call(alloc, function, listed, frames),
        Err(no) => refuse(no, frames),
    }
}

/// Behind the whole list of a function word: a call, or the first pattern behind `sum`. `NoMemory` where there is no room.
#[tactic(auto, using(crate::proofs::ListLaws::call_is_held, crate::proofs::ListLaws::call_of_patterns, crate::proofs::ListLaws::exs_of_pats, ess_parse_frames::proofs::RowLaws::exs_closed, ess_parse_frames::proofs::PatternLaws::pats_closed))]
fn end_call(
    alloc: Global,
    function: Fun,
    listed: Listed,
    frames: Row<Frame>,
) -> Result<Option<State>, NoMemory>
    ensures { IfOk result (Steps (end_list (word function) (are_patterns listed) (reverse_exs (back_listed listed no_exs) no_exs) (view_frames frames))) }
{
    match listed {
        Listed::Patterns(patterns) => match function {
            Fun::Sum => end_sum(alloc, patterns, frames),
            _ => match expressions_of(alloc, &patterns) {
                Ok(operands) => called(alloc, function, operands, frames),
                Err(no) => refuse(no, frames),
            },
        },
        Listed::Expressions(operands) => called(alloc, function, operands, frames),
    }
}

/// Behind a call. `NoMemory` where there is no room for it.
#[tactic(auto, using(ess_core::proofs::ExpressionEquations::pure_call))]
fn called(
    alloc: Global,
    function: Fun,
    operands: Row<Ex>,
    frames: Row<Frame>,
) -> Result<Option<State>, NoMemory>
    ensures { IfOk result (Steps (at_state (operand_read false (plain_node (word function) (pure_exs operands))) (view_frames frames))) }
{
    expression_read(alloc, Ex::Call(false, function, operands), frames)
}

/// Behind a bracket with patterns that stands directly behind `sum`. `NoMemory` where there is no room.
#[tactic(auto, using(crate::proofs::ListLaws::one_is_summed, crate::proofs::ListLaws::several_are_drawn, crate::proofs::ListLaws::exs_of_pats, ess_parse_frames::proofs::PatternLaws::pats_closed, ess_parse_frames::proofs::PatternLaws::pats_as_exs))]
fn end_sum(alloc: Global, patterns: Row<Pat>, frames: Row<Frame>) -> Result<Option<State>, NoMemory>
    ensures { IfOk result (Steps (end_list (word Fun.Sum) true (pats_in_order patterns) (view_frames frames))) }
{
    if patterns.len() > 1 {
        return end_pattern(alloc, patterns, frames);
    }
    match expressions_of(alloc, &patterns) {
        Ok(operands) => called(alloc, Fun::Sum, operands, frames),
        Err(no) => refuse(no, frames),
    }
}

/// Behind a tuple of patterns that stands directly behind `sum`: it is the first pattern of a generator.
/// `NoMemory` where there is no room.
#[tactic(auto, using(ess_parse_frames::proofs::PatternLaws::pats_none, ess_parse_frames::proofs::RowLaws::gens_none, crate::proofs::ListLaws::pattern_of_pats))]
fn end_pattern(
    alloc: Global,
    patterns: Row<Pat>,
    frames: Row<Frame>,
) -> Result<Option<State>, NoMemory>
    ensures { IfOk result (Steps (begin_sum (pats_in_order patterns) (view_frames frames))) }
{
    if !may_quantify(&frames) {
        return stop_frames(frames);
    }
    let items = Frame::Items(
        Head::Sum,
        BoundNames::new(alloc),
        Row::new(alloc),
        Row::new(alloc),
    );
    inside(
        Mode::OperandRead(Operand::Pattern(Pat::Tuple(patterns))),
        items,
        frames,
    )
}
