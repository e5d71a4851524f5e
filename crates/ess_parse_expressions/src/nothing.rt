//! Tokens that end something where an operand is wanted: empty lists, and ranges without a bound.
#![tactic(auto, using(crate::proofs::ListLaws::no_items, crate::proofs::ListLaws::some_pairs, ess_parse_frames::proofs::RowLaws::pairs_none, ess_core::proofs::ExpressionEquations::pure_set, ess_core::proofs::ExpressionEquations::pure_plain_matrix))]

ghost use Rattle.std.specs.Prelude.{◌∷◌, IfOk};
ghost use Rattle.ess_parse_laws.specs.Frames.{pair_left_frame};
ghost use Rattle.ess_parse_laws.specs.Operands.{nothing_then_close_round, nothing_then_close_square, nothing_then_close_curly, nothing_then_comma, nothing_then_dots};
ghost use Rattle.ess_parse_frames.specs.Rows.{back_pairs};
ghost use Rattle.ess_parse_frames.specs.Views.{view_frame, view_frames, Steps};
ghost use Rattle.ess_parse_frames.specs.declared.frames.Frame.TheVariants as F;
ghost use Rattle.ess_parse_frames.specs.declared.frames.Listing.TheVariants as K;

use crate::listing::{is_empty, literal_of};
use ess_core::{Ex, PairEx};
use ess_parse_frames::ends::end_ranges;
use ess_parse_frames::rows::{function_of_pairs, with_low};
use ess_parse_frames::stack::{expression_read, inside};
use ess_parse_frames::stops::{let_list_go, refuse, stop_in};
use ess_parse_frames::{Frame, Listed, Listing, Literal, Mode, State};
use ess_rows::{NoMemory, Row};
use std::alloc::Global;

/// A closing round bracket where an operand is wanted. `NoMemory` where there is no room.
pub(crate) fn nothing_then_close_round(
    alloc: Global,
    frame: Frame,
    frames: Row<Frame>,
) -> Result<Option<State>, NoMemory>
    ensures { IfOk result (Steps (nothing_then_close_round (view_frame frame ∷ view_frames frames))) }
{
    match frame {
        Frame::List(listing, listed) => end_no_members(alloc, listing, listed, frames),
        Frame::PairLeft(pairs) => end_no_pairs(alloc, pairs, frames),
        Frame::HighBound(ranges, low) => {
            match with_low(ranges, low) {
                Ok(ranges) => end_ranges(alloc, ranges, frames),
                Err(no) => refuse(no, frames),
            }
        }
        other => stop_in(other, frames),
    }
}

/// A closing round bracket behind no items of a list. `NoMemory` where there is no room.
fn end_no_members(
    alloc: Global,
    listing: Listing,
    listed: Listed,
    frames: Row<Frame>,
) -> Result<Option<State>, NoMemory>
    ensures { IfOk result (Steps (nothing_then_close_round (view_frame (F.List listing listed) ∷ view_frames frames))) }
{
    match listing {
        Listing::Literal(literal) => end_no_literal(alloc, literal, listed, frames),
        other => stop_in(Frame::List(other, listed), frames),
    }
}

/// A closing round bracket behind no items of a literal. `NoMemory` where there is no room.
fn end_no_literal(
    alloc: Global,
    literal: Literal,
    listed: Listed,
    frames: Row<Frame>,
) -> Result<Option<State>, NoMemory>
    ensures { IfOk result (Steps (nothing_then_close_round (view_frame (F.List (K.Literal literal) listed) ∷ view_frames frames))) }
{
    if !is_empty(&listed) {
        return stop_in(Frame::List(Listing::Literal(literal), listed), frames);
    }
    match literal {
        Literal::Tuple => stop_in(Frame::List(Listing::Literal(literal), listed), frames),
        other => {
            let_list_go(listed);
            expression_read(alloc, literal_of(other, Row::new(alloc)), frames)
        }
    }
}

/// A closing round bracket behind no pairs: an empty function. `NoMemory` where there is no room.
fn end_no_pairs(
    alloc: Global,
    pairs: Row<PairEx>,
    frames: Row<Frame>,
) -> Result<Option<State>, NoMemory>
    ensures { IfOk result (Steps (nothing_then_close_round (pair_left_frame (back_pairs pairs) ∷ view_frames frames))) }
{
    if !pairs.is_empty() {
        return stop_in(Frame::PairLeft(pairs), frames);
    }
    expression_read(alloc, function_of_pairs(pairs), frames)
}

/// A closing square bracket there: an empty matrix. `NoMemory` where there is no room.
pub(crate) fn nothing_then_close_square(
    alloc: Global,
    frame: Frame,
    frames: Row<Frame>,
) -> Result<Option<State>, NoMemory>
    ensures { IfOk result (Steps (nothing_then_close_square (view_frame frame ∷ view_frames frames))) }
{
    match frame {
        Frame::List(listing, listed) => end_no_matrix(alloc, listing, listed, frames),
        other => stop_in(other, frames),
    }
}

/// A closing square bracket behind no items of a list. `NoMemory` where there is no room.
fn end_no_matrix(
    alloc: Global,
    listing: Listing,
    listed: Listed,
    frames: Row<Frame>,
) -> Result<Option<State>, NoMemory>
    ensures { IfOk result (Steps (nothing_then_close_square (view_frame (F.List listing listed) ∷ view_frames frames))) }
{
    match listing {
        Listing::Matrix => end_empty_matrix(alloc, listed, frames),
        other => stop_in(Frame::List(other, listed), frames),
    }
}

/// A closing square bracket behind no items of a matrix. `NoMemory` where there is no room.
fn end_empty_matrix(
    alloc: Global,
    listed: Listed,
    frames: Row<Frame>,
) -> Result<Option<State>, NoMemory>
    ensures { IfOk result (Steps (nothing_then_close_square (view_frame (F.List K.Matrix listed) ∷ view_frames frames))) }
{
    if !is_empty(&listed) {
        return stop_in(Frame::List(Listing::Matrix, listed), frames);
    }
    let_list_go(listed);
    expression_read(alloc, Ex::Matrix(Row::new(alloc), None), frames)
}

/// A closing curly bracket there: an empty set. `NoMemory` where there is no room.
pub(crate) fn nothing_then_close_curly(
    alloc: Global,
    frame: Frame,
    frames: Row<Frame>,
) -> Result<Option<State>, NoMemory>
    ensures { IfOk result (Steps (nothing_then_close_curly (view_frame frame ∷ view_frames frames))) }
{
    match frame {
        Frame::List(listing, listed) => end_no_set(alloc, listing, listed, frames),
        other => stop_in(other, frames),
    }
}

/// A closing curly bracket behind no items of a list. `NoMemory` where there is no room.
fn end_no_set(
    alloc: Global,
    listing: Listing,
    listed: Listed,
    frames: Row<Frame>,
) -> Result<Option<State>, NoMemory>
    ensures { IfOk result (Steps (nothing_then_close_curly (view_frame (F.List listing listed) ∷ view_frames frames))) }
{
    match listing {
        Listing::Set => end_empty_set(alloc, listed, frames),
        other => stop_in(Frame::List(other, listed), frames),
    }
}

/// A closing curly bracket behind no items of a set. `NoMemory` where there is no room.
fn end_empty_set(
    alloc: Global,
    listed: Listed,
    frames: Row<Frame>,
) -> Result<Option<State>, NoMemory>
    ensures { IfOk result (Steps (nothing_then_close_curly (view_frame (F.List K.Set listed) ∷ view_frames frames))) }
{
    if !is_empty(&listed) {
        return stop_in(Frame::List(Listing::Set, listed), frames);
    }
    let_list_go(listed);
    expression_read(alloc, Ex::Set(Row::new(alloc)), frames)
}

/// A comma there: a range without its upper bound. `NoMemory` where there is no room.
pub(crate) fn nothing_then_comma(
    frame: Frame,
    frames: Row<Frame>,
) -> Result<Option<State>, NoMemory>
    ensures { IfOk result (Steps (nothing_then_comma (view_frame frame ∷ view_frames frames))) }
{
    match frame {
        Frame::HighBound(ranges, low) => {
            match with_low(ranges, low) {
                Ok(ranges) => inside(Mode::OperandWanted, Frame::Ranges(ranges), frames),
                Err(no) => refuse(no, frames),
            }
        }
        other => stop_in(other, frames),
    }
}

/// Two dots there: a range without its lower bound. `NoMemory` where there is no room.
pub(crate) fn nothing_then_dots(frame: Frame, frames: Row<Frame>) -> Result<Option<State>, NoMemory>
    ensures { IfOk result (Steps (nothing_then_dots (view_frame frame ∷ view_frames frames))) }
{
    match frame {
        Frame::Ranges(ranges) => inside(Mode::OperandWanted, Frame::LoneHighBound(ranges), frames),
        other => stop_in(other, frames),
    }
}
