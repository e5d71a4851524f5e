//! Steps where an operand is wanted.
#![tactic(auto, using(crate::proofs::TokenLaws::is_function, ess_parse_frames::proofs::PatternLaws::pats_none, ess_core::proofs::PartEquations::pure_pat_name, ess_core::proofs::ExpressionEquations::pure_num, ess_core::proofs::ExpressionEquations::pure_truth))]

ghost use Rattle.std.specs.Prelude.{[], ◌∷◌, true, IfOk};
ghost use Rattle.ess_grammar.specs.Kinds.{token};
ghost use Rattle.ess_lex.specs.Lexing.{IsNatural};
ghost use Rattle.ess_parse_laws.specs.Frames.{list_frame};
ghost use Rattle.ess_parse_laws.specs.Modes.{at_state, operand_wanted};
ghost use Rattle.ess_parse_laws.specs.Operands.{step_operand_wanted};
ghost use Rattle.ess_parse_frames.specs.Views.{view_frame, view_listing, list_end, list_start, view_frames, Steps};
ghost use Rattle.ess_parse_expressions.specs.Lists.{EndsNothing};

use crate::items::begin_quantifier;
use crate::nothing::{
    nothing_then_close_curly, nothing_then_close_round, nothing_then_close_square,
    nothing_then_comma, nothing_then_dots,
};
use ess_core::{Ex, Fun, Pat};
use ess_grammar::Kind;
use ess_parse_frames::kinds::function_of;
use ess_parse_frames::stack::{Top, at, expression_read, innermost, inside};
use ess_parse_frames::stops::{stop_frames, stop_in};
use ess_parse_frames::{Frame, Listed, Listing, Literal, Mode, Operand, State};
use ess_rows::{NoMemory, Row, Text};
use std::alloc::Global;

/// What a token does where an operand is wanted: it is one, or begins one, or ends an empty list or a range. `name` has the
/// token's bytes where it is a name. None where no text goes on so. `NoMemory` where there is no room.
pub fn step_operand_wanted(
    alloc: Global,
    kind: Kind,
    name: Text,
    frames: Row<Frame>,
) -> Result<Option<State>, NoMemory>
    requires natural { IsNatural kind }
    ensures { IfOk result (Steps (step_operand_wanted (token kind name) (view_frames frames))) }
{
    match kind {
        Kind::Name => Ok(at(Mode::OperandRead(Operand::Pattern(Pat::Name(name))), frames)),
        Kind::Num(number) => expression_read(alloc, Ex::Num(number), frames),
        Kind::True => expression_read(alloc, Ex::Truth(true), frames),
        Kind::False => expression_read(alloc, Ex::Truth(false), frames),
        Kind::Tuple => Ok(at(Mode::LiteralBegun(Literal::Tuple), frames)),
        Kind::MSet => Ok(at(Mode::LiteralBegun(Literal::MSet), frames)),
        Kind::Relation => Ok(at(Mode::LiteralBegun(Literal::Relation), frames)),
        Kind::Partition => Ok(at(Mode::LiteralBegun(Literal::Partition), frames)),
        Kind::Function => Ok(at(Mode::FunctionLiteralBegun, frames)),
        Kind::Record => Ok(at(Mode::RecordLiteralBegun, frames)),
        Kind::ForAll => begin_quantifier(alloc, Fun::And, frames),
        Kind::Exists => begin_quantifier(alloc, Fun::Or, frames),
        Kind::Minus => inside(Mode::OperandWanted, Frame::Minus, frames),
        Kind::Exclamation => inside(Mode::OperandWanted, Frame::Not, frames),
        Kind::Bar => inside(Mode::OperandWanted, Frame::Bar, frames),
        Kind::OpenRound => begin_list(alloc, Listing::Round, frames),
        Kind::OpenSquare => begin_list(alloc, Listing::Matrix, frames),
        Kind::OpenCurly => begin_list(alloc, Listing::Set, frames),
        Kind::CloseRound | Kind::CloseSquare | Kind::CloseCurly | Kind::Comma | Kind::Dots =>
            nothing_then(alloc, kind, frames),
        _ => match function_of(kind) {
            Some(word) => Ok(at(Mode::FunctionWordRead(word), frames)),
            None => stop_frames(frames),
        },
    }
}

/// Behind the bracket that opens a list. `NoMemory` where there is no room.
pub(crate) fn begin_list(
    alloc: Global,
    listing: Listing,
    frames: Row<Frame>,
) -> Result<Option<State>, NoMemory>
    ensures { IfOk result (Steps (at_state operand_wanted (list_frame (view_listing listing) (list_end listing) true (list_start listing) ∷ view_frames frames))) }
{
    let list = Frame::List(listing, Listed::Patterns(Row::new(alloc)));
    inside(Mode::OperandWanted, list, frames)
}

/// A token that ends something where an operand is wanted. `NoMemory` where there is no room.
fn nothing_then(alloc: Global, kind: Kind, frames: Row<Frame>) -> Result<Option<State>, NoMemory>
    requires { EndsNothing kind }
    ensures { IfOk result (Steps (step_operand_wanted (token kind []) (view_frames frames))) }
{
    match innermost(frames) {
        Some(top) => nothing_then_in(alloc, kind, top),
        None => Ok(None),
    }
}

/// The same in this innermost frame. `NoMemory` where there is no room.
fn nothing_then_in(alloc: Global, kind: Kind, top: Top) -> Result<Option<State>, NoMemory>
    requires { EndsNothing kind }
    ensures { IfOk result (Steps (step_operand_wanted (token kind []) (view_frame top.frame ∷ view_frames top.frames))) }
{
    let Top { frame, frames } = top;
    match kind {
        Kind::CloseRound => nothing_then_close_round(alloc, frame, frames),
        Kind::CloseSquare => nothing_then_close_square(alloc, frame, frames),
        Kind::CloseCurly => nothing_then_close_curly(alloc, frame, frames),
        Kind::Comma => nothing_then_comma(frame, frames),
        Kind::Dots => nothing_then_dots(frame, frames),
        _ => stop_in(frame, frames),
    }
}
