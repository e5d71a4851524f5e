//! Symbols behind an expression that neither close a bracket nor go on with a list.
#![tactic(auto, using(crate::proofs::ListLaws::no_items, ess_parse_frames::proofs::RowLaws::gens_none, ess_parse_frames::proofs::RowLaws::gens_closed, ess_parse_frames::proofs::PatternLaws::pats_none, ess_parse_frames::proofs::PatternLaws::pats_whole))]

ghost use Rattle.std.specs.Prelude.{◌∷◌, Bool, false, IfOk};
ghost use Rattle.ess_parse_laws.specs.Frames.{bar_frame};
ghost use Rattle.ess_parse_laws.specs.AfterOperands.{operand_then_bar, operand_then_semicolon, operand_then_maps_to, operand_then_colon, operand_then_drawn_from, operand_then_dots};
ghost use Rattle.ess_core.specs.TreeViews.{pure_ex};
ghost use Rattle.ess_parse_frames.specs.Patterns.{view_operand, is_pattern_operand};
ghost use Rattle.ess_parse_frames.specs.Views.{view_frame, view_frames, Steps};
ghost use Rattle.ess_parse_frames.specs.declared.frames.Frame.TheVariants as F;
ghost use Rattle.ess_parse_frames.specs.declared.frames.Listing.TheVariants as K;

use crate::items::begin_source;
use crate::listing::{end_items, is_empty};
use ess_bound_names::BoundNames;
use ess_core::{Ex, Gen, Op1, Pat};
use ess_parse_frames::items::domain_begun;
use ess_parse_frames::reducing::one_operand;
use ess_parse_frames::stack::{at, inside};
use ess_parse_frames::stops::{let_list_go, refuse, stop_behind, stop_operand};
use ess_parse_frames::{Frame, Head, Listed, Listing, Mode, Operand, State};
use ess_rows::{Boxed, NoMemory, Row, Text};
use std::alloc::Global;

/// `<-` makes patterns those of a generator over a value. `NoMemory` where there is no room.
pub(crate) fn operand_then_drawn_from(
    frames: Row<Frame>,
    operand: Operand,
) -> Result<Option<State>, NoMemory>
    ensures { IfOk result (Steps (operand_then_drawn_from (view_frames frames) false (is_pattern_operand operand) (view_operand operand))) }
{
    match operand {
        Operand::Pattern(pattern) => begin_source(frames, pattern),
        other => stop_operand(frames, other),
    }
}

/// A colon makes patterns those of a generator over a domain. `NoMemory` where there is no room.
pub(crate) fn operand_then_colon(
    frame: Frame,
    frames: Row<Frame>,
    operand: Operand,
) -> Result<Option<State>, NoMemory>
    ensures { (w : Bool) → IfOk result (Steps (operand_then_colon (view_frame frame ∷ view_frames frames) w (is_pattern_operand operand) (view_operand operand))) }
{
    match frame {
        Frame::Items(head, names, items, patterns) => begin_domain(
            head, names, items, patterns, frames, operand,
        ),
        other => stop_behind(other, frames, operand),
    }
}

/// A colon behind an item. `NoMemory` where there is no room.
fn begin_domain(
    head: Head,
    names: BoundNames,
    items: Row<Gen>,
    patterns: Row<Pat>,
    frames: Row<Frame>,
    operand: Operand,
) -> Result<Option<State>, NoMemory>
    ensures { IfOk result (Steps (operand_then_colon (view_frame (F.Items head names items patterns) ∷ view_frames frames) false (is_pattern_operand operand) (view_operand operand))) }
{
    match operand {
        Operand::Pattern(pattern) => match domain_begun(head, names, items, patterns, pattern) {
            Ok(frame) => inside(Mode::DomainWanted, frame, frames),
            Err(no) => refuse(no, frames),
        },
        other => stop_behind(Frame::Items(head, names, items, patterns), frames, other),
    }
}

/// A semicolon stands before the index domain of a matrix. `NoMemory` where there is no room.
pub(crate) fn operand_then_semicolon(
    alloc: Global,
    frame: Frame,
    frames: Row<Frame>,
    operand: Operand,
) -> Result<Option<State>, NoMemory>
    ensures { (w : Bool) → IfOk result (Steps (operand_then_semicolon (view_frame frame ∷ view_frames frames) w (is_pattern_operand operand) (view_operand operand))) }
{
    match frame {
        Frame::List(Listing::Matrix, listed) => end_items(alloc, listed, frames, operand),
        other => stop_behind(other, frames, operand),
    }
}

/// A bar ends a bar's expression, or the body of a comprehension. `NoMemory` where there is no room.
pub(crate) fn operand_then_bar(
    alloc: Global,
    frame: Frame,
    frames: Row<Frame>,
    ends_in_body: bool,
    expression: Boxed<Ex>,
) -> Result<Option<State>, NoMemory>
    ensures { (p : Bool) → IfOk result (Steps (operand_then_bar (view_frame frame ∷ view_frames frames) ends_in_body p (pure_ex expression))) }
{
    match frame {
        Frame::Bar => end_bar(alloc, frames, ends_in_body, expression),
        Frame::List(Listing::Matrix, listed) => end_body(alloc, listed, frames, expression),
        other => stop_behind(other, frames, Operand::Other(expression)),
    }
}

/// A bar behind a bar's expression. `NoMemory` where there is no room.
fn end_bar(
    alloc: Global,
    frames: Row<Frame>,
    ends_in_body: bool,
    expression: Boxed<Ex>,
) -> Result<Option<State>, NoMemory>
    ensures { (p : Bool) → IfOk result (Steps (operand_then_bar (bar_frame ∷ view_frames frames) ends_in_body p (pure_ex expression))) }
{
    if ends_in_body {
        return stop_operand(frames, Operand::Other(expression));
    }
    match one_operand(alloc, Op1::Bar, expression) {
        Ok(bar) => Ok(at(Mode::OperandRead(Operand::Other(bar)), frames)),
        Err(no) => refuse(no, frames),
    }
}

/// A bar behind the first expression of a matrix: it is the body of a comprehension. `NoMemory` where there is no room.
fn end_body(
    alloc: Global,
    listed: Listed,
    frames: Row<Frame>,
    body: Boxed<Ex>,
) -> Result<Option<State>, NoMemory>
    ensures { (w p : Bool) → IfOk result (Steps (operand_then_bar (view_frame (F.List K.Matrix listed) ∷ view_frames frames) w p (pure_ex body))) }
{
    if !is_empty(&listed) {
        return stop_behind(
            Frame::List(Listing::Matrix, listed),
            frames,
            Operand::Other(body),
        );
    }
    let_list_go(listed);
    let items = Frame::Items(
        Head::Comprehension(body),
        BoundNames::new(alloc),
        Row::new(alloc),
        Row::new(alloc),
    );
    inside(Mode::OperandWanted, items, frames)
}

/// A long arrow stands between the parts of a pair. `NoMemory` where there is no room.
pub(crate) fn operand_then_maps_to(
    frame: Frame,
    frames: Row<Frame>,
    expression: Boxed<Ex>,
) -> Result<Option<State>, NoMemory>
    ensures { (w p : Bool) → IfOk result (Steps (operand_then_maps_to (view_frame frame ∷ view_frames frames) w p (pure_ex expression))) }
{
    match frame {
        Frame::PairLeft(pairs) => inside(
            Mode::OperandWanted,
            Frame::PairRight(pairs, expression),
            frames,
        ),
        other => stop_behind(other, frames, Operand::Other(expression)),
    }
}

/// Two dots stand behind the lower bound of a range. `NoMemory` where there is no room.
pub(crate) fn operand_then_dots(
    frame: Frame,
    frames: Row<Frame>,
    ends_in_body: bool,
    expression: Boxed<Ex>,
) -> Result<Option<State>, NoMemory>
    ensures { (p : Bool) → IfOk result (Steps (operand_then_dots (view_frame frame ∷ view_frames frames) ends_in_body p (pure_ex expression))) }
{
    match frame {
        Frame::Ranges(ranges) => {
            if ends_in_body {
                return stop_behind(Frame::Ranges(ranges), frames, Operand::Other(expression));
            }
            inside(
                Mode::OperandWanted,
                Frame::HighBound(ranges, expression),
                frames,
            )
        }
        other => stop_behind(other, frames, Operand::Other(expression)),
    }
}
