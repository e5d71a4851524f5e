//! Tokens behind an expression that goes no further.
#![tactic(auto, using(crate::proofs::TokenLaws::is_operator, crate::proofs::FrameLaws::frames_last, crate::proofs::FrameLaws::no_last_frame, ess_parse_frames::proofs::StackLaws::frames_none))]

ghost use Rattle.std.specs.Prelude.{◌≡◌, List, ◌∷◌, Bool, true, false, IfOk, ℕ, None};
ghost use Rattle.ess_grammar.specs.Words.{Text};
ghost use Rattle.ess_grammar.specs.Kinds.{token};
ghost use Rattle.ess_grammar.specs.Patterns.{is_member};
ghost use Rattle.ess_parse_laws.specs.Frames as machine;
ghost use Rattle.ess_parse_laws.specs.AfterOperands.{operand_then, operand_then_operator};
ghost use Rattle.ess_parse_laws.specs.Items.{in_is_sign};
ghost use Rattle.ess_parse_laws.specs.Reducing.{reduced};
ghost use Rattle.ess_core.specs.TreeViews.{pure_ex, pure_pat};
ghost use Rattle.ess_parse_frames.specs.Patterns.{pattern_ex, view_operand, is_pattern_operand};
ghost use Rattle.ess_parse_frames.specs.Reduced.{view_reduced};
ghost use Rattle.ess_parse_frames.specs.Roles.{operator_in};
ghost use Rattle.ess_parse_frames.specs.Views.{view_frame, view_frames, Steps};
ghost use Rattle.ess_parse_expressions.specs.Lists.{takes_patterns, minds_patterns, goes_on, pattern_then_operator};

use crate::close_curly::operand_then_close_curly;
use crate::close_round::operand_then_close_round;
use crate::close_square::operand_then_close_square;
use crate::commas::operand_then_comma;
use crate::dot::operand_then_dot;
use crate::items::{begin_source, in_is_sign};
use crate::separators::{
    operand_then_bar, operand_then_colon, operand_then_dots, operand_then_drawn_from,
    operand_then_maps_to, operand_then_semicolon,
};
use ess_core::{Ex, Op2, Pat};
use ess_grammar::Kind;
use ess_parse_frames::kinds::operator_of;
use ess_parse_frames::levels::least_on_the_left;
use ess_parse_frames::reducing::Reduced;
use ess_parse_frames::stack::{Top, innermost, inside};
use ess_parse_frames::statements::{begin_after, stated};
use ess_parse_frames::stops::{let_frames_go, refuse, stop_behind, stop_operand};
use ess_parse_frames::{Frame, Mode, Operand, State};
use ess_rows::{Boxed, NoMemory, Row};
use std::alloc::Global;

/// What a token does behind a reduced expression: it is an operator behind its left operand, goes on with the innermost frame
/// that stays open, or begins the next statement. None where no text goes on so. `NoMemory` where there is no room.
pub fn operand_then(alloc: Global, kind: Kind, reduced: Reduced) -> Result<Option<State>, NoMemory>
    ensures { (bytes : Text) → IfOk result (Steps (operand_then (token kind bytes) (view_reduced reduced))) }
{
    if let Some(operator) = operator_of(kind) {
        return operand_then_operator(alloc, operator, reduced);
    }
    let Reduced {
        frames,
        ends_in_body,
        level: _,
        operand,
    } = reduced;
    match kind {
        Kind::DrawnFrom => operand_then_drawn_from(frames, operand),
        Kind::Comma
        | Kind::CloseRound
        | Kind::CloseSquare
        | Kind::CloseCurly
        | Kind::Semicolon
        | Kind::Colon => operand_then_symbol(alloc, kind, frames, ends_in_body, operand),
        _ => {
            match operand.into_expression(alloc) {
                Ok(expression) => expression_then(alloc, kind, frames, ends_in_body, expression),
                Err(no) => refuse(no, frames),
            }
        }
    }
}

/// What a symbol does that may stand behind patterns. `NoMemory` where there is no room.
fn operand_then_symbol(
    alloc: Global,
    kind: Kind,
    frames: Row<Frame>,
    ends_in_body: bool,
    operand: Operand,
) -> Result<Option<State>, NoMemory>
    requires { takes_patterns kind ≡ true }
    ensures { (bytes : Text) (level : ℕ) → IfOk result (Steps (operand_then (token kind bytes) (reduced (view_frames frames) ends_in_body (is_pattern_operand operand) level (view_operand operand)))) }
{
    match innermost(frames) {
        Some(top) => operand_then_symbol_in(alloc, kind, top, ends_in_body, operand),
        None => stop_operand(Row::new(alloc), operand),
    }
}

/// The same in this innermost frame. `NoMemory` where there is no room.
fn operand_then_symbol_in(
    alloc: Global,
    kind: Kind,
    top: Top,
    ends_in_body: bool,
    operand: Operand,
) -> Result<Option<State>, NoMemory>
    requires { takes_patterns kind ≡ true }
    ensures { (bytes : Text) (level : ℕ) → IfOk result (Steps (operand_then (token kind bytes) (reduced (view_frame top.frame ∷ view_frames top.frames) ends_in_body (is_pattern_operand operand) level (view_operand operand)))) }
{
    let Top { frame, frames } = top;
    match kind {
        Kind::Comma => operand_then_comma(alloc, frame, frames, ends_in_body, operand),
        Kind::CloseRound => operand_then_close_round(alloc, frame, frames, ends_in_body, operand),
        Kind::CloseSquare => operand_then_close_square(alloc, frame, frames, ends_in_body, operand),
        Kind::CloseCurly => operand_then_close_curly(alloc, frame, frames, operand),
        Kind::Semicolon => operand_then_semicolon(alloc, frame, frames, operand),
        Kind::Colon => operand_then_colon(frame, frames, operand),
        _ => stop_behind(frame, frames, operand),
    }
}

/// What a token does behind an expression where it makes no difference whether that is written as a pattern.
/// `NoMemory` where there is no room.
fn expression_then(
    alloc: Global,
    kind: Kind,
    frames: Row<Frame>,
    ends_in_body: bool,
    expression: Boxed<Ex>,
) -> Result<Option<State>, NoMemory>
    requires symbol { minds_patterns kind ≡ false }
    requires operator { (bytes : Text) → operator_in (token kind bytes) ≡ None }
    ensures { (bytes : Text) (p : Bool) (level : ℕ) → IfOk result (Steps (operand_then (token kind bytes) (reduced (view_frames frames) ends_in_body p level (pure_ex expression)))) }
{
    match innermost(frames) {
        Some(top) => expression_then_in(alloc, kind, top, ends_in_body, expression),
        None => stop_operand(Row::new(alloc), Operand::Other(expression)),
    }
}

/// The same in this innermost frame. `NoMemory` where there is no room.
fn expression_then_in(
    alloc: Global,
    kind: Kind,
    top: Top,
    ends_in_body: bool,
    expression: Boxed<Ex>,
) -> Result<Option<State>, NoMemory>
    requires symbol { minds_patterns kind ≡ false }
    requires operator { (bytes : Text) → operator_in (token kind bytes) ≡ None }
    ensures { (bytes : Text) (p : Bool) (level : ℕ) → IfOk result (Steps (operand_then (token kind bytes) (reduced (view_frame top.frame ∷ view_frames top.frames) ends_in_body p level (pure_ex expression)))) }
{
    let Top { frame, frames } = top;
    match kind {
        Kind::Dot => operand_then_dot(alloc, frame, frames, ends_in_body, expression),
        Kind::Bar => operand_then_bar(alloc, frame, frames, ends_in_body, expression),
        Kind::MapsTo => operand_then_maps_to(frame, frames, expression),
        Kind::Dots => operand_then_dots(frame, frames, ends_in_body, expression),
        _ => {
            let_frames_go(frames);
            begin_statement(alloc, kind, frame, expression)
        }
    }
}

/// What any other token does: a word begins the next statement, where the expression ends one. `NoMemory` where there is no
/// room.
#[tactic(auto, using(crate::proofs::OtherTokens::other_token))]
fn begin_statement(
    alloc: Global,
    kind: Kind,
    frame: Frame,
    expression: Boxed<Ex>,
) -> Result<Option<State>, NoMemory>
    requires symbol { (bytes : Text) → goes_on (token kind bytes) ≡ false }
    requires operator { (bytes : Text) → operator_in (token kind bytes) ≡ None }
    ensures { (bytes : Text) (outer : List machine.Frame) (w p : Bool) (level : ℕ) → IfOk result (Steps (operand_then (token kind bytes) (reduced (view_frame frame ∷ outer) w p level (pure_ex expression)))) }
{
    match stated(frame, expression) {
        Ok(ended) => begin_after(alloc, kind, ended),
        Err(no) => Err(no),
    }
}

/// A binary operator: the expression is its left operand, or `in` makes it a generator's pattern.
/// `NoMemory` where there is no room.
fn operand_then_operator(
    alloc: Global,
    operator: Op2,
    reduced: Reduced,
) -> Result<Option<State>, NoMemory>
    ensures { IfOk result (Steps (operand_then_operator operator (view_reduced reduced))) }
{
    let Reduced {
        frames,
        ends_in_body,
        level,
        operand,
    } = reduced;
    if level < least_on_the_left(operator) || ends_in_body {
        return stop_operand(frames, operand);
    }
    match operand {
        Operand::Pattern(pattern) => pattern_then_operator(alloc, operator, pattern, frames),
        Operand::Other(left) => inside(Mode::OperandWanted, Frame::Binary(operator, left), frames),
    }
}

/// An operator behind a pattern. `NoMemory` where there is no room.
fn pattern_then_operator(
    alloc: Global,
    operator: Op2,
    pattern: Pat,
    frames: Row<Frame>,
) -> Result<Option<State>, NoMemory>
    ensures { IfOk result (Steps (pattern_then_operator operator (view_frames frames) (pattern_ex (pure_pat pattern)))) }
{
    if is_member(operator) && has_sign(&frames, &pattern) {
        return begin_source(frames, pattern);
    }
    match Operand::Pattern(pattern).into_expression(alloc) {
        Ok(left) => inside(Mode::OperandWanted, Frame::Binary(operator, left), frames),
        Err(no) => refuse(no, frames),
    }
}

/// Is the operator `in`?
fn is_member(operator: Op2) -> bool
    ensures { result ≡ is_member operator }
{
    matches!(operator, Op2::Member)
}

/// Is `in` behind this pattern, in these frames, a generator's sign?
fn has_sign(frames: &Row<Frame>, pattern: &Pat) -> bool
    ensures { result ≡ in_is_sign (view_frames frames.now) (pattern_ex (pure_pat pattern.now)) }
{
    match frames.last() {
        Some(frame) => in_is_sign(frame, pattern),
        None => false,
    }
}
