//! Curly brackets that close behind an expression.
#![tactic(auto, using(crate::proofs::ListLaws::no_items, crate::proofs::ListLaws::some_items))]

ghost use Rattle.std.specs.Prelude.{◌∷◌, Bool, false, IfOk};
ghost use Rattle.ess_parse_laws.specs.AfterOperands.{operand_then_close_curly};
ghost use Rattle.ess_parse_frames.specs.Patterns.{view_operand, is_pattern_operand};
ghost use Rattle.ess_parse_frames.specs.Views.{view_frame, view_frames, Steps};
ghost use Rattle.ess_parse_frames.specs.declared.frames.Frame.TheVariants as F;

use crate::listing::end_set;
use ess_core::FieldEx;
use ess_parse_frames::parts::fields_with;
use ess_parse_frames::rows::record_of_fields;
use ess_parse_frames::stack::expression_read;
use ess_parse_frames::stops::{refuse, stop_behind};
use ess_parse_frames::{Frame, Listed, Listing, Operand, State};
use ess_rows::{NoMemory, Row, Text};
use std::alloc::Global;

/// A closing curly bracket. `NoMemory` where there is no room.
pub(crate) fn operand_then_close_curly(
    alloc: Global,
    frame: Frame,
    frames: Row<Frame>,
    operand: Operand,
) -> Result<Option<State>, NoMemory>
    ensures { (w : Bool) → IfOk result (Steps (operand_then_close_curly (view_frame frame ∷ view_frames frames) w (is_pattern_operand operand) (view_operand operand))) }
{
    match frame {
        Frame::List(listing, listed) => close_curly_list(alloc, listing, listed, frames, operand),
        Frame::FieldValue(fields, name) => close_fields(alloc, fields, name, frames, operand),
        other => stop_behind(other, frames, operand),
    }
}

/// A closing curly bracket of a list. `NoMemory` where there is no room.
fn close_curly_list(
    alloc: Global,
    listing: Listing,
    listed: Listed,
    frames: Row<Frame>,
    operand: Operand,
) -> Result<Option<State>, NoMemory>
    ensures { (w : Bool) → IfOk result (Steps (operand_then_close_curly (view_frame (F.List listing listed) ∷ view_frames frames) w (is_pattern_operand operand) (view_operand operand))) }
{
    match listing {
        Listing::Set => end_set(alloc, listed, frames, operand),
        other => stop_behind(Frame::List(other, listed), frames, operand),
    }
}

/// Behind the fields of a record literal. `NoMemory` where there is no room.
fn close_fields(
    alloc: Global,
    fields: Row<FieldEx>,
    name: Text,
    frames: Row<Frame>,
    operand: Operand,
) -> Result<Option<State>, NoMemory>
    ensures { IfOk result (Steps (operand_then_close_curly (view_frame (F.FieldValue fields name) ∷ view_frames frames) false (is_pattern_operand operand) (view_operand operand))) }
{
    match fields_with(alloc, fields, name, operand) {
        Ok(fields) => expression_read(alloc, record_of_fields(fields), frames),
        Err(no) => refuse(no, frames),
    }
}
