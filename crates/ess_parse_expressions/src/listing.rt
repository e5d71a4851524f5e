//! Lists in brackets, behind their last item.
#![tactic(auto, using(ess_parse_frames::proofs::RowLaws::exs_closed, ess_parse_frames::proofs::PatternLaws::pats_closed, crate::proofs::ListLaws::no_items, crate::proofs::ListLaws::some_items))]

ghost use Rattle.std.specs.Prelude.{◌≡◌, ◌∷◌, Bool, false, IfOk};
ghost use Rattle.ess_semantics.specs.Trees.{no_exs, more_exs, plain_node, application, tuple_literal, set_literal, matrix_literal};
ghost use Rattle.ess_grammar.specs.Grammar.{indexed as indexed_ex};
ghost use Rattle.ess_parse_laws.specs.Reversed.{reverse_exs};
ghost use Rattle.ess_parse_laws.specs.AfterOperands.{indexed_of, operand_then_close_round};
ghost use Rattle.ess_parse_frames.specs.declared.frames.Frame.TheVariants as F;
ghost use Rattle.ess_parse_frames.specs.declared.frames.Listing.TheVariants as K;
ghost use Rattle.ess_parse_laws.specs.Frames.{index_domain_frame};
ghost use Rattle.ess_parse_laws.specs.Modes.{at_state, domain_wanted, operand_read};
ghost use Rattle.ess_core.specs.TreeViews.{pure_ex, pure_exs};
ghost use Rattle.ess_parse_frames.specs.Patterns.{view_operand, is_pattern_operand, back_listed, are_patterns};
ghost use Rattle.ess_parse_frames.specs.Views.{literal_op, view_frame, view_frames, Steps};
ghost use Rattle.ess_parse_expressions.specs.Lists.{has_no_items};

use ess_core::{Ex, Pat};
use ess_parse_frames::operands::with_operand;
use ess_parse_frames::parts::{expressions_with, other_operand, steps_by};
use ess_parse_frames::stack::{at, expression_read, inside};
use ess_parse_frames::stops::{let_list_go, refuse, refuse_behind};
use ess_parse_frames::{Frame, Listed, Literal, Mode, Operand, State};
use ess_rows::{Boxed, NoMemory, Row};
use std::alloc::Global;

/// Has the list no items?
#[tactic(auto, using(crate::proofs::ListLaws::no_pats_are_none, crate::proofs::ListLaws::pats_are_some, crate::proofs::ListLaws::no_exs_are_none, crate::proofs::ListLaws::exs_are_some))]
pub(crate) fn is_empty(listed: &Listed) -> bool
    ensures { result ≡ has_no_items (back_listed listed.now no_exs) }
{
    match listed {
        Listed::Patterns(patterns) => patterns.is_empty(),
        Listed::Expressions(expressions) => expressions.is_empty(),
    }
}

/// Behind the whole list in round brackets: an expression in brackets, or a tuple. `NoMemory` where there is no room.
pub(crate) fn end_round(
    alloc: Global,
    listed: Listed,
    frames: Row<Frame>,
    operand: Operand,
) -> Result<Option<State>, NoMemory>
    ensures { (w : Bool) → IfOk result (Steps (operand_then_close_round (view_frame (F.List K.Round listed) ∷ view_frames frames) w (is_pattern_operand operand) (view_operand operand))) }
{
    if is_empty(&listed) {
        let_list_go(listed);
        return end_brackets(alloc, frames, operand);
    }
    match with_operand(alloc, listed, operand) {
        Ok(listed) => end_tuple(alloc, listed, frames),
        Err(no) => refuse(no, frames),
    }
}

/// Behind an expression in brackets. `NoMemory` where there is no room for it.
fn end_brackets(
    alloc: Global,
    frames: Row<Frame>,
    operand: Operand,
) -> Result<Option<State>, NoMemory>
    ensures { IfOk result (Steps (at_state (operand_read false (view_operand operand)) (view_frames frames))) }
{
    match operand.into_expression(alloc) {
        Ok(expression) => Ok(at(Mode::OperandRead(Operand::Other(expression)), frames)),
        Err(no) => refuse(no, frames),
    }
}

/// Behind a tuple of these components. `NoMemory` where there is no room for it.
fn end_tuple(alloc: Global, listed: Listed, frames: Row<Frame>) -> Result<Option<State>, NoMemory>
    ensures { IfOk result (Steps (at_state (operand_read (are_patterns listed) (plain_node tuple_literal (reverse_exs (back_listed listed no_exs) no_exs))) (view_frames frames))) }
{
    match tuple_of(alloc, listed) {
        Ok(tuple) => Ok(at(Mode::OperandRead(tuple), frames)),
        Err(no) => refuse(no, frames),
    }
}

/// The tuple of these components. `NoMemory` where there is no room for it.
#[tactic(auto, using(ess_core::proofs::ExpressionEquations::pure_tuple, ess_core::proofs::PartEquations::pure_pat_tuple, ess_parse_frames::proofs::RowLaws::exs_closed, ess_parse_frames::proofs::PatternLaws::pats_closed, crate::proofs::ListLaws::pattern_of_pats))]
fn tuple_of(alloc: Global, listed: Listed) -> Result<Operand, NoMemory>
    ensures pattern { IfOk result (λ t. is_pattern_operand t ≡ are_patterns listed) }
    ensures tuple { IfOk result (λ t. view_operand t ≡ plain_node tuple_literal (reverse_exs (back_listed listed no_exs) no_exs)) }
{
    match listed {
        Listed::Patterns(patterns) => Ok(Operand::Pattern(Pat::Tuple(patterns))),
        Listed::Expressions(expressions) => other_operand(alloc, Ex::Tuple(expressions)),
    }
}

/// The literal with these members.
#[tactic(auto, using(ess_core::proofs::ExpressionEquations::pure_tuple, ess_core::proofs::ExpressionEquations::pure_mset, ess_core::proofs::ExpressionEquations::pure_relation, ess_core::proofs::ExpressionEquations::pure_partition))]
pub(crate) fn literal_of(literal: Literal, members: Row<Ex>) -> Ex
    ensures { pure_ex result ≡ plain_node (literal_op literal) (pure_exs members) }
{
    match literal {
        Literal::Tuple => Ex::Tuple(members),
        Literal::MSet => Ex::MSet(members),
        Literal::Relation => Ex::Relation(members),
        Literal::Partition => Ex::Partition(members),
    }
}

/// Behind the whole list of a literal. `NoMemory` where there is no room.
pub(crate) fn end_literal(
    alloc: Global,
    literal: Literal,
    listed: Listed,
    frames: Row<Frame>,
    operand: Operand,
) -> Result<Option<State>, NoMemory>
    ensures { IfOk result (Steps (at_state (operand_read false (plain_node (literal_op literal) (reverse_exs (back_listed listed no_exs) (more_exs (view_operand operand) no_exs)))) (view_frames frames))) }
{
    match expressions_with(alloc, listed, operand) {
        Ok(members) => expression_read(alloc, literal_of(literal, members), frames),
        Err(no) => refuse(no, frames),
    }
}

/// Behind the whole list of a set. `NoMemory` where there is no room.
#[tactic(auto, using(ess_parse_frames::proofs::RowLaws::exs_closed, ess_core::proofs::ExpressionEquations::pure_set))]
pub(crate) fn end_set(
    alloc: Global,
    listed: Listed,
    frames: Row<Frame>,
    operand: Operand,
) -> Result<Option<State>, NoMemory>
    ensures { IfOk result (Steps (at_state (operand_read false (plain_node set_literal (reverse_exs (back_listed listed no_exs) (more_exs (view_operand operand) no_exs)))) (view_frames frames))) }
{
    match expressions_with(alloc, listed, operand) {
        Ok(members) => expression_read(alloc, Ex::Set(members), frames),
        Err(no) => refuse(no, frames),
    }
}

/// Behind the whole list of a matrix without an index domain. `NoMemory` where there is no room.
#[tactic(auto, using(ess_parse_frames::proofs::RowLaws::exs_closed, ess_core::proofs::ExpressionEquations::pure_plain_matrix))]
pub(crate) fn end_matrix(
    alloc: Global,
    listed: Listed,
    frames: Row<Frame>,
    operand: Operand,
) -> Result<Option<State>, NoMemory>
    ensures { IfOk result (Steps (at_state (operand_read false (plain_node matrix_literal (reverse_exs (back_listed listed no_exs) (more_exs (view_operand operand) no_exs)))) (view_frames frames))) }
{
    match expressions_with(alloc, listed, operand) {
        Ok(items) => expression_read(alloc, Ex::Matrix(items, None), frames),
        Err(no) => refuse(no, frames),
    }
}

/// Behind the whole list of a matrix its index domain is wanted. `NoMemory` where there is no room.
pub(crate) fn end_items(
    alloc: Global,
    listed: Listed,
    frames: Row<Frame>,
    operand: Operand,
) -> Result<Option<State>, NoMemory>
    ensures { IfOk result (Steps (at_state domain_wanted (index_domain_frame (reverse_exs (back_listed listed no_exs) (more_exs (view_operand operand) no_exs)) ∷ view_frames frames))) }
{
    match expressions_with(alloc, listed, operand) {
        Ok(items) => inside(Mode::DomainWanted, Frame::IndexDomain(items), frames),
        Err(no) => refuse(no, frames),
    }
}

/// Behind the whole list of an application. `NoMemory` where there is no room.
#[tactic(auto, using(ess_core::proofs::ExpressionEquations::pure_apply, ess_parse_frames::proofs::RowLaws::exs_closed))]
pub(crate) fn end_application(
    alloc: Global,
    applied: Boxed<Ex>,
    listed: Listed,
    frames: Row<Frame>,
    operand: Operand,
) -> Result<Option<State>, NoMemory>
    ensures { IfOk result (Steps (at_state (operand_read false (plain_node application (reverse_exs (back_listed listed (more_exs (pure_ex applied) no_exs)) (more_exs (view_operand operand) no_exs)))) (view_frames frames))) }
{
    match expressions_with(alloc, listed, operand) {
        Ok(arguments) => expression_read(alloc, Ex::Apply(false, applied, arguments), frames),
        Err(no) => refuse_behind(no, applied, frames),
    }
}

/// Behind an index by these values. `NoMemory` where there is no room for it.
#[tactic(auto, using(ess_core::proofs::ExpressionEquations::pure_at, crate::proofs::ListLaws::index_by_values))]
fn index_read(
    alloc: Global,
    indexed: Boxed<Ex>,
    values: Row<Ex>,
    frames: Row<Frame>,
) -> Result<Option<State>, NoMemory>
    ensures { IfOk result (Steps (at_state (operand_read false (indexed_ex (pure_ex indexed) (pure_exs values))) (view_frames frames))) }
{
    match steps_by(alloc, values) {
        Ok(steps) => expression_read(alloc, Ex::At(false, indexed, steps), frames),
        Err(no) => refuse_behind(no, indexed, frames),
    }
}

/// Behind the whole list of an index. `NoMemory` where there is no room.
#[tactic(auto, using(ess_core::proofs::ExpressionEquations::pure_at, ess_parse_frames::proofs::RowLaws::exs_closed, crate::proofs::ListLaws::index_by_values))]
pub(crate) fn end_index(
    alloc: Global,
    indexed: Boxed<Ex>,
    listed: Listed,
    frames: Row<Frame>,
    operand: Operand,
) -> Result<Option<State>, NoMemory>
    ensures { IfOk result (Steps (at_state (operand_read false (indexed_of (reverse_exs (back_listed listed (more_exs (pure_ex indexed) no_exs)) (more_exs (view_operand operand) no_exs)))) (view_frames frames))) }
{
    match expressions_with(alloc, listed, operand) {
        Ok(values) => index_read(alloc, indexed, values, frames),
        Err(no) => refuse_behind(no, indexed, frames),
    }
}
