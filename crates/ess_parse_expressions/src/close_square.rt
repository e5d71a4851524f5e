//! Square brackets that close behind an expression.
#![tactic(auto, using(crate::proofs::ListLaws::no_items, crate::proofs::ListLaws::some_items, crate::proofs::ListLaws::index_list_closes))]

ghost use Rattle.std.specs.Prelude.{◌∷◌, Bool, IfOk};
ghost use Rattle.ess_parse_laws.specs.AfterOperands.{operand_then_close_square};
ghost use Rattle.ess_parse_frames.specs.Patterns.{view_operand, is_pattern_operand};
ghost use Rattle.ess_parse_frames.specs.Views.{view_frame, view_frames, Steps};
ghost use Rattle.ess_parse_frames.specs.declared.frames.Frame.TheVariants as F;

use crate::listing::{end_index, end_matrix};
use ess_bound_names::BoundNames;
use ess_core::{Gen, Pat};
use ess_parse_frames::comprehensions::{comprehension_from, comprehension_where};
use ess_parse_frames::stack::expression_read;
use ess_parse_frames::stops::{refuse, stop_behind};
use ess_parse_frames::{Frame, Head, Listed, Listing, Operand, State};
use ess_rows::{NoMemory, Row, Text};
use std::alloc::Global;

/// A closing square bracket. `NoMemory` where there is no room.
pub(crate) fn operand_then_close_square(
    alloc: Global,
    frame: Frame,
    frames: Row<Frame>,
    ends_in_body: bool,
    operand: Operand,
) -> Result<Option<State>, NoMemory>
    ensures { IfOk result (Steps (operand_then_close_square (view_frame frame ∷ view_frames frames) ends_in_body (is_pattern_operand operand) (view_operand operand))) }
{
    match frame {
        Frame::List(listing, listed) => close_square_list(alloc, listing, listed, frames, operand),
        Frame::Items(head, names, items, patterns) => close_items(
            alloc,
            head,
            names,
            items,
            patterns,
            frames,
            ends_in_body,
            operand,
        ),
        Frame::GeneratorSource(head, names, items, patterns) => close_generator(
            alloc,
            head,
            names,
            items,
            patterns,
            frames,
            ends_in_body,
            operand,
        ),
        other => stop_behind(other, frames, operand),
    }
}

/// A closing square bracket behind a condition of a comprehension. `NoMemory` where there is no room.
fn close_items(
    alloc: Global,
    head: Head,
    names: BoundNames,
    items: Row<Gen>,
    patterns: Row<Pat>,
    frames: Row<Frame>,
    ends_in_body: bool,
    operand: Operand,
) -> Result<Option<State>, NoMemory>
    ensures { IfOk result (Steps (operand_then_close_square (view_frame (F.Items head names items patterns) ∷ view_frames frames) ends_in_body (is_pattern_operand operand) (view_operand operand))) }
{
    if ends_in_body {
        return stop_behind(Frame::Items(head, names, items, patterns), frames, operand);
    }
    match head {
        Head::Comprehension(body) => match comprehension_where(
            alloc, body, items, patterns, operand,
        ) {
            Ok(comprehension) => expression_read(alloc, comprehension, frames),
            Err(no) => refuse(no, frames),
        },
        other => stop_behind(Frame::Items(other, names, items, patterns), frames, operand),
    }
}

/// A closing square bracket behind the value of a comprehension's generator. `NoMemory` where there is no room.
fn close_generator(
    alloc: Global,
    head: Head,
    names: BoundNames,
    items: Row<Gen>,
    patterns: Row<Pat>,
    frames: Row<Frame>,
    ends_in_body: bool,
    operand: Operand,
) -> Result<Option<State>, NoMemory>
    ensures { IfOk result (Steps (operand_then_close_square (view_frame (F.GeneratorSource head names items patterns) ∷ view_frames frames) ends_in_body (is_pattern_operand operand) (view_operand operand))) }
{
    if ends_in_body {
        return stop_behind(
            Frame::GeneratorSource(head, names, items, patterns),
            frames,
            operand,
        );
    }
    match head {
        Head::Comprehension(body) => match comprehension_from(
            alloc, body, items, patterns, operand,
        ) {
            Ok(comprehension) => expression_read(alloc, comprehension, frames),
            Err(no) => refuse(no, frames),
        },
        other => stop_behind(
            Frame::GeneratorSource(other, names, items, patterns),
            frames,
            operand,
        ),
    }
}

/// A closing square bracket of a list. `NoMemory` where there is no room.
fn close_square_list(
    alloc: Global,
    listing: Listing,
    listed: Listed,
    frames: Row<Frame>,
    operand: Operand,
) -> Result<Option<State>, NoMemory>
    ensures { (w : Bool) → IfOk result (Steps (operand_then_close_square (view_frame (F.List listing listed) ∷ view_frames frames) w (is_pattern_operand operand) (view_operand operand))) }
{
    match listing {
        Listing::Index(indexed) => end_index(alloc, indexed, listed, frames, operand),
        Listing::Matrix => end_matrix(alloc, listed, frames, operand),
        other => stop_behind(Frame::List(other, listed), frames, operand),
    }
}
