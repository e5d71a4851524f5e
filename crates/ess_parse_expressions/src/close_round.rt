//! Round brackets that close behind an expression.
#![tactic(auto, using(crate::proofs::ListLaws::no_items, crate::proofs::ListLaws::some_items))]

ghost use Rattle.std.specs.Prelude.{◌∷◌, Bool, false, IfOk};
ghost use Rattle.ess_parse_laws.specs.AfterOperands.{operand_then_close_round};
ghost use Rattle.ess_parse_frames.specs.Patterns.{view_operand, is_pattern_operand};
ghost use Rattle.ess_parse_frames.specs.Views.{view_frame, view_frames, Steps};
ghost use Rattle.ess_parse_frames.specs.declared.frames.Frame.TheVariants as F;

use crate::calls::close_call;
use crate::listing::{end_application, end_literal, end_round};
use ess_core::{Attr, Ex, Key, PairEx, Range};
use ess_parse_frames::ends::{end_attributes, end_ranges};
use ess_parse_frames::parts::{
    attributes_with, pairs_with, ranges_between, ranges_up_to, ranges_with,
};
use ess_parse_frames::rows::function_of_pairs;
use ess_parse_frames::stack::expression_read;
use ess_parse_frames::stops::{refuse, stop_behind};
use ess_parse_frames::{Frame, Listed, Listing, Operand, Owner, State};
use ess_rows::{Boxed, NoMemory, Row};
use std::alloc::Global;

/// A closing round bracket. `ends_in_body`: does the operand end in a quantifier's body? `NoMemory` where there is no room.
pub(crate) fn operand_then_close_round(
    alloc: Global,
    frame: Frame,
    frames: Row<Frame>,
    ends_in_body: bool,
    operand: Operand,
) -> Result<Option<State>, NoMemory>
    ensures { IfOk result (Steps (operand_then_close_round (view_frame frame ∷ view_frames frames) ends_in_body (is_pattern_operand operand) (view_operand operand))) }
{
    match frame {
        Frame::List(listing, listed) => close_round_list(alloc, listing, listed, frames, operand),
        Frame::PairRight(pairs, from) => close_pairs(alloc, pairs, from, frames, operand),
        Frame::AttributeValue(owner, key, attributes) => close_attributes(
            alloc,
            owner,
            key,
            attributes,
            frames,
            ends_in_body,
            operand,
        ),
        Frame::Ranges(ranges) => close_value(alloc, ranges, frames, ends_in_body, operand),
        Frame::HighBound(ranges, low) => close_bounds(
            alloc,
            ranges,
            low,
            frames,
            ends_in_body,
            operand,
        ),
        Frame::LoneHighBound(ranges) => close_high(alloc, ranges, frames, ends_in_body, operand),
        other => stop_behind(other, frames, operand),
    }
}

/// Behind the pairs of a function literal. `NoMemory` where there is no room.
fn close_pairs(
    alloc: Global,
    pairs: Row<PairEx>,
    from: Boxed<Ex>,
    frames: Row<Frame>,
    operand: Operand,
) -> Result<Option<State>, NoMemory>
    ensures { IfOk result (Steps (operand_then_close_round (view_frame (F.PairRight pairs from) ∷ view_frames frames) false (is_pattern_operand operand) (view_operand operand))) }
{
    match pairs_with(alloc, pairs, from, operand) {
        Ok(pairs) => expression_read(alloc, function_of_pairs(pairs), frames),
        Err(no) => refuse(no, frames),
    }
}

/// Behind the number of a domain's last attribute. `NoMemory` where there is no room.
fn close_attributes(
    alloc: Global,
    owner: Owner,
    key: Key,
    attributes: Row<Attr>,
    frames: Row<Frame>,
    ends_in_body: bool,
    operand: Operand,
) -> Result<Option<State>, NoMemory>
    ensures { (p : Bool) → IfOk result (Steps (operand_then_close_round (view_frame (F.AttributeValue owner key attributes) ∷ view_frames frames) ends_in_body p (view_operand operand))) }
{
    if ends_in_body {
        return stop_behind(
            Frame::AttributeValue(owner, key, attributes),
            frames,
            operand,
        );
    }
    match attributes_with(alloc, attributes, key, operand) {
        Ok(attributes) => end_attributes(alloc, owner, attributes, frames),
        Err(no) => refuse(no, frames),
    }
}

/// Behind the last value of an int domain. `NoMemory` where there is no room.
fn close_value(
    alloc: Global,
    ranges: Row<Range>,
    frames: Row<Frame>,
    ends_in_body: bool,
    operand: Operand,
) -> Result<Option<State>, NoMemory>
    ensures { (p : Bool) → IfOk result (Steps (operand_then_close_round (view_frame (F.Ranges ranges) ∷ view_frames frames) ends_in_body p (view_operand operand))) }
{
    if ends_in_body {
        return stop_behind(Frame::Ranges(ranges), frames, operand);
    }
    match ranges_with(alloc, ranges, operand) {
        Ok(ranges) => end_ranges(alloc, ranges, frames),
        Err(no) => refuse(no, frames),
    }
}

/// Behind the last range of an int domain, which has both bounds. `NoMemory` where there is no room.
fn close_bounds(
    alloc: Global,
    ranges: Row<Range>,
    low: Boxed<Ex>,
    frames: Row<Frame>,
    ends_in_body: bool,
    operand: Operand,
) -> Result<Option<State>, NoMemory>
    ensures { (p : Bool) → IfOk result (Steps (operand_then_close_round (view_frame (F.HighBound ranges low) ∷ view_frames frames) ends_in_body p (view_operand operand))) }
{
    if ends_in_body {
        return stop_behind(Frame::HighBound(ranges, low), frames, operand);
    }
    match ranges_between(alloc, ranges, low, operand) {
        Ok(ranges) => end_ranges(alloc, ranges, frames),
        Err(no) => refuse(no, frames),
    }
}

/// Behind the last range of an int domain, which has an upper bound alone. `NoMemory` where there is no room.
fn close_high(
    alloc: Global,
    ranges: Row<Range>,
    frames: Row<Frame>,
    ends_in_body: bool,
    operand: Operand,
) -> Result<Option<State>, NoMemory>
    ensures { (p : Bool) → IfOk result (Steps (operand_then_close_round (view_frame (F.LoneHighBound ranges) ∷ view_frames frames) ends_in_body p (view_operand operand))) }
{
    if ends_in_body {
        return stop_behind(Frame::LoneHighBound(ranges), frames, operand);
    }
    match ranges_up_to(alloc, ranges, operand) {
        Ok(ranges) => end_ranges(alloc, ranges, frames),
        Err(no) => refuse(no, frames),
    }
}

/// A closing round bracket of a list. `NoMemory` where there is no room.
fn close_round_list(
    alloc: Global,
    listing: Listing,
    listed: Listed,
    frames: Row<Frame>,
    operand: Operand,
) -> Result<Option<State>, NoMemory>
    ensures { (w : Bool) → IfOk result (Steps (operand_then_close_round (view_frame (F.List listing listed) ∷ view_frames frames) w (is_pattern_operand operand) (view_operand operand))) }
{
    match listing {
        Listing::Round => end_round(alloc, listed, frames, operand),
        Listing::Application(applied) => end_application(alloc, applied, listed, frames, operand),
        Listing::Call(word) => close_call(alloc, word, listed, frames, operand),
        Listing::Literal(literal) => end_literal(alloc, literal, listed, frames, operand),
        other => stop_behind(Frame::List(other, listed), frames, operand),
    }
}
