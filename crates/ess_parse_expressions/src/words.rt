//! Steps behind the words and atoms of expressions.
#![tactic(auto, using(ess_parse_frames::proofs::RowLaws::pairs_none, ess_parse_frames::proofs::RowLaws::field_names_none, ess_parse_frames::proofs::RowLaws::field_values_none))]

ghost use Rattle.std.specs.Prelude.{◌≡◌, ◌∷◌, IfOk};
ghost use Rattle.ess_semantics.specs.declared.words.Op2.{Op2};
ghost use Rattle.ess_grammar.specs.Words.{Text, operator};
ghost use Rattle.ess_grammar.specs.Kinds.{token};
ghost use Rattle.ess_lex.specs.Lexing.{IsNatural};
ghost use Rattle.ess_parse_laws.specs.Operands.{is_open_round, is_sum_word, continue_atom, step_literal_begun, step_function_word_read, step_function_literal_begun, step_record_literal_begun, step_field_wanted, step_field_read};
ghost use Rattle.ess_parse_frames.specs.Patterns.{view_operand};
ghost use Rattle.ess_parse_frames.specs.Views.{literal_op, view_frame, view_frames, Steps};

use crate::items::quantifier_begun;
use crate::operand::{begin_list, step_operand_wanted};
use ess_core::Fun;
use ess_grammar::Kind;
use ess_parse_frames::stack::{Top, at, innermost, inside};
use ess_parse_frames::stops::{no_state, refuse, stop_frames, stop_in, stop_operand};
use ess_parse_frames::{Frame, Listing, Literal, Mode, Operand, State};
use ess_rows::{NoMemory, Row, Text};
use std::alloc::Global;

/// What a bracket behind an atom does: it begins an index or an application of the operand. None at any other token.
/// `NoMemory` where there is no room.
pub fn continue_atom(
    alloc: Global,
    kind: Kind,
    operand: Operand,
    frames: Row<Frame>,
) -> Result<Option<State>, NoMemory>
    ensures { (bytes : Text) → IfOk result (Steps (continue_atom (token kind bytes) (view_operand operand) (view_frames frames))) }
{
    match kind {
        Kind::OpenSquare => {
            match operand.into_expression(alloc) {
                Ok(indexed) => begin_list(alloc, Listing::Index(indexed), frames),
                Err(no) => refuse(no, frames),
            }
        }
        Kind::OpenRound => {
            match operand.into_expression(alloc) {
                Ok(applied) => begin_list(alloc, Listing::Application(applied), frames),
                Err(no) => refuse(no, frames),
            }
        }
        _ => stop_operand(frames, operand),
    }
}

/// What a token does behind the word of a literal: a round bracket opens its list. None at any other token. `NoMemory`
/// where there is no room.
pub fn step_literal_begun(
    alloc: Global,
    kind: Kind,
    literal: Literal,
    frames: Row<Frame>,
) -> Result<Option<State>, NoMemory>
    ensures { (bytes : Text) → IfOk result (Steps (step_literal_begun (token kind bytes) (literal_op literal) (view_frames frames))) }
{
    match kind {
        Kind::OpenRound => begin_list(alloc, Listing::Literal(literal), frames),
        _ => stop_frames(frames),
    }
}

/// Is the token an opening round bracket?
fn is_open_round(kind: Kind) -> bool
    ensures { (bytes : Text) → result ≡ is_open_round (token kind bytes) }
{
    matches!(kind, Kind::OpenRound)
}

/// Is the function word `sum`?
fn is_sum_word(word: Fun) -> bool
    ensures { result ≡ is_sum_word word }
{
    matches!(word, Fun::Sum)
}

/// What a token does behind a function word: a round bracket opens a call's list, and any other token is the first of a
/// quantifier's items behind `sum`. `name` has the token's bytes where it is a name. None where no text goes on so.
/// `NoMemory` where there is no room.
pub fn step_function_word_read(
    alloc: Global,
    kind: Kind,
    name: Text,
    word: Fun,
    frames: Row<Frame>,
) -> Result<Option<State>, NoMemory>
    requires natural { IsNatural kind }
    ensures { IfOk result (Steps (step_function_word_read (token kind name) word (view_frames frames))) }
{
    if is_open_round(kind) {
        return begin_list(alloc, Listing::Call(word), frames);
    }
    if !is_sum_word(word) {
        return stop_frames(frames);
    }
    match quantifier_begun(alloc, Fun::Sum, frames) {
        Ok(Some(frames)) => step_operand_wanted(alloc, kind, name, frames),
        Ok(None) => Ok(None),
        Err(no) => Err(no),
    }
}

/// What a token does behind `function` in an expression: a round bracket opens the list of its pairs. None at any other
/// token. `NoMemory` where there is no room.
pub fn step_function_literal_begun(
    alloc: Global,
    kind: Kind,
    frames: Row<Frame>,
) -> Result<Option<State>, NoMemory>
    ensures { (bytes : Text) → IfOk result (Steps (step_function_literal_begun (token kind bytes) (view_frames frames))) }
{
    match kind {
        Kind::OpenRound => inside(
            Mode::OperandWanted,
            Frame::PairLeft(Row::new(alloc)),
            frames,
        ),
        _ => stop_frames(frames),
    }
}

/// What a token does behind `record` in an expression: a curly bracket opens the list of its fields. None at any other
/// token. `NoMemory` where there is no room.
pub fn step_record_literal_begun(
    alloc: Global,
    kind: Kind,
    frames: Row<Frame>,
) -> Result<Option<State>, NoMemory>
    ensures { (bytes : Text) → IfOk result (Steps (step_record_literal_begun (token kind bytes) (view_frames frames))) }
{
    match kind {
        Kind::OpenCurly => inside(Mode::FieldWanted, Frame::Fields(Row::new(alloc)), frames),
        _ => stop_frames(frames),
    }
}

/// What a token does where the name of a record literal's field is wanted. `name` has its bytes where it is a name. None at
/// any other token.
pub fn step_field_wanted(kind: Kind, name: Text, frames: Row<Frame>) -> Option<State>
    ensures { Steps (step_field_wanted (token kind name) (view_frames frames)) result }
{
    match kind {
        Kind::Name => at(Mode::FieldRead(name), frames),
        _ => no_state(frames),
    }
}

/// What a token does behind that name: `=` stands before the field's value. None at any other token. `NoMemory` where there
/// is no room.
pub fn step_field_read(
    kind: Kind,
    field: Text,
    frames: Row<Frame>,
) -> Result<Option<State>, NoMemory>
    ensures { (bytes : Text) → IfOk result (Steps (step_field_read (token kind bytes) field (view_frames frames))) }
{
    match innermost(frames) {
        Some(top) => field_read_in(kind, field, top),
        None => Ok(None),
    }
}

/// Behind the name of a field in this innermost frame. `NoMemory` where there is no room.
fn field_read_in(kind: Kind, field: Text, top: Top) -> Result<Option<State>, NoMemory>
    ensures { (bytes : Text) → IfOk result (Steps (step_field_read (token kind bytes) field (view_frame top.frame ∷ view_frames top.frames))) }
{
    let Top { frame, frames } = top;
    match kind {
        Kind::Equal => begin_field(frame, field, frames),
        _ => stop_in(frame, frames),
    }
}

/// Behind `=` in this innermost frame. `NoMemory` where there is no room.
fn begin_field(frame: Frame, field: Text, frames: Row<Frame>) -> Result<Option<State>, NoMemory>
    ensures { IfOk result (Steps (step_field_read (operator Op2.Eq) field (view_frame frame ∷ view_frames frames))) }
{
    match frame {
        Frame::Fields(fields) => inside(
            Mode::OperandWanted,
            Frame::FieldValue(fields, field),
            frames,
        ),
        other => stop_in(other, frames),
    }
}
