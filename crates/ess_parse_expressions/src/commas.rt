//! Commas behind an expression.
ghost use Rattle.std.specs.Prelude.{◌∷◌, Bool, false, IfOk};
ghost use Rattle.ess_parse_laws.specs.AfterOperands.{operand_then_comma};
ghost use Rattle.ess_parse_frames.specs.Patterns.{view_operand, is_pattern_operand};
ghost use Rattle.ess_parse_frames.specs.Views.{view_frame, view_frames, Steps};
ghost use Rattle.ess_parse_frames.specs.declared.frames.Frame.TheVariants as F;

use crate::items::may_end_item;
use ess_bound_names::BoundNames;
use ess_core::{Attr, Ex, FieldEx, Gen, Key, PairEx, Pat, Range};
use ess_parse_frames::commas::{next_condition, next_constraint, next_letting, next_unnamed};
use ess_parse_frames::items::{generator_ended, item_ended};
use ess_parse_frames::parts::{
    attributes_with, fields_with, list_with, pairs_with, ranges_between, ranges_up_to, ranges_with,
};
use ess_parse_frames::stack::inside;
use ess_parse_frames::stops::{let_frames_go, refuse, stop_behind};
use ess_parse_frames::{Frame, Head, Listed, Listing, Mode, Operand, Owner, State};
use ess_rows::{Boxed, NoMemory, Row, Text};
use std::alloc::Global;

/// A comma goes on with a list, with items, ranges, attributes or a list of statements. `ends_in_body`: does the operand
/// end in a quantifier's body? `NoMemory` where there is no room.
pub(crate) fn operand_then_comma(
    alloc: Global,
    frame: Frame,
    frames: Row<Frame>,
    ends_in_body: bool,
    operand: Operand,
) -> Result<Option<State>, NoMemory>
    ensures { IfOk result (Steps (operand_then_comma (view_frame frame ∷ view_frames frames) ends_in_body (is_pattern_operand operand) (view_operand operand))) }
{
    match frame {
        Frame::List(listing, listed) => more_in_list(alloc, listing, listed, frames, operand),
        Frame::PairRight(pairs, from) => more_pairs(alloc, pairs, from, frames, operand),
        Frame::FieldValue(fields, name) => more_fields(alloc, fields, name, frames, operand),
        Frame::Items(head, names, items, patterns) => more_items(
            alloc,
            head,
            names,
            items,
            patterns,
            frames,
            ends_in_body,
            operand,
        ),
        Frame::GeneratorSource(head, names, items, patterns) => more_behind_generator(
            alloc,
            head,
            names,
            items,
            patterns,
            frames,
            ends_in_body,
            operand,
        ),
        Frame::Ranges(ranges) => more_values(alloc, ranges, frames, ends_in_body, operand),
        Frame::HighBound(ranges, low) => more_bounds(
            alloc,
            ranges,
            low,
            frames,
            ends_in_body,
            operand,
        ),
        Frame::LoneHighBound(ranges) => more_high_bounds(
            alloc,
            ranges,
            frames,
            ends_in_body,
            operand,
        ),
        Frame::AttributeValue(owner, key, attributes) => more_attributes(
            alloc,
            owner,
            key,
            attributes,
            frames,
            ends_in_body,
            operand,
        ),
        Frame::Letting(name, before) => {
            let_frames_go(frames);
            next_letting(alloc, name, before, operand)
        }
        Frame::Unnamed(name, before) => {
            let_frames_go(frames);
            next_unnamed(alloc, name, before, operand)
        }
        Frame::Where(before) => {
            let_frames_go(frames);
            next_condition(alloc, before, operand)
        }
        Frame::SuchThat(before) => {
            let_frames_go(frames);
            next_constraint(alloc, before, operand)
        }
        other => stop_behind(other, frames, operand),
    }
}

/// Another item of a list. `NoMemory` where there is no room.
fn more_in_list(
    alloc: Global,
    listing: Listing,
    listed: Listed,
    frames: Row<Frame>,
    operand: Operand,
) -> Result<Option<State>, NoMemory>
    ensures { IfOk result (Steps (operand_then_comma (view_frame (F.List listing listed) ∷ view_frames frames) false (is_pattern_operand operand) (view_operand operand))) }
{
    match list_with(alloc, listing, listed, operand) {
        Ok(list) => inside(Mode::OperandWanted, list, frames),
        Err(no) => refuse(no, frames),
    }
}

/// Another pair of a function literal. `NoMemory` where there is no room.
fn more_pairs(
    alloc: Global,
    pairs: Row<PairEx>,
    from: Boxed<Ex>,
    frames: Row<Frame>,
    operand: Operand,
) -> Result<Option<State>, NoMemory>
    ensures { IfOk result (Steps (operand_then_comma (view_frame (F.PairRight pairs from) ∷ view_frames frames) false (is_pattern_operand operand) (view_operand operand))) }
{
    match pairs_with(alloc, pairs, from, operand) {
        Ok(pairs) => inside(Mode::OperandWanted, Frame::PairLeft(pairs), frames),
        Err(no) => refuse(no, frames),
    }
}

/// Another field of a record literal. `NoMemory` where there is no room.
fn more_fields(
    alloc: Global,
    fields: Row<FieldEx>,
    name: Text,
    frames: Row<Frame>,
    operand: Operand,
) -> Result<Option<State>, NoMemory>
    ensures { IfOk result (Steps (operand_then_comma (view_frame (F.FieldValue fields name) ∷ view_frames frames) false (is_pattern_operand operand) (view_operand operand))) }
{
    match fields_with(alloc, fields, name, operand) {
        Ok(fields) => inside(Mode::FieldWanted, Frame::Fields(fields), frames),
        Err(no) => refuse(no, frames),
    }
}

/// Another item of a quantifier or a comprehension, behind one that is no generator. `NoMemory` where there is no room.
fn more_items(
    alloc: Global,
    head: Head,
    names: BoundNames,
    items: Row<Gen>,
    patterns: Row<Pat>,
    frames: Row<Frame>,
    ends_in_body: bool,
    operand: Operand,
) -> Result<Option<State>, NoMemory>
    ensures { IfOk result (Steps (operand_then_comma (view_frame (F.Items head names items patterns) ∷ view_frames frames) ends_in_body (is_pattern_operand operand) (view_operand operand))) }
{
    if ends_in_body {
        return stop_behind(Frame::Items(head, names, items, patterns), frames, operand);
    }
    if !may_end_item(&head, &operand) {
        return stop_behind(Frame::Items(head, names, items, patterns), frames, operand);
    }
    match item_ended(alloc, head, names, items, patterns, operand) {
        Ok(ended) => inside(Mode::OperandWanted, ended, frames),
        Err(no) => refuse(no, frames),
    }
}

/// Another item of a quantifier or a comprehension, behind a generator over a value. `NoMemory` where there is no room.
fn more_behind_generator(
    alloc: Global,
    head: Head,
    names: BoundNames,
    items: Row<Gen>,
    patterns: Row<Pat>,
    frames: Row<Frame>,
    ends_in_body: bool,
    operand: Operand,
) -> Result<Option<State>, NoMemory>
    ensures { IfOk result (Steps (operand_then_comma (view_frame (F.GeneratorSource head names items patterns) ∷ view_frames frames) ends_in_body (is_pattern_operand operand) (view_operand operand))) }
{
    if ends_in_body {
        return stop_behind(
            Frame::GeneratorSource(head, names, items, patterns),
            frames,
            operand,
        );
    }
    match generator_ended(alloc, head, names, items, patterns, operand) {
        Ok(ended) => inside(Mode::OperandWanted, ended, frames),
        Err(no) => refuse(no, frames),
    }
}

/// Another range of an int domain, behind a value. `NoMemory` where there is no room.
fn more_values(
    alloc: Global,
    ranges: Row<Range>,
    frames: Row<Frame>,
    ends_in_body: bool,
    operand: Operand,
) -> Result<Option<State>, NoMemory>
    ensures { (p : Bool) → IfOk result (Steps (operand_then_comma (view_frame (F.Ranges ranges) ∷ view_frames frames) ends_in_body p (view_operand operand))) }
{
    if ends_in_body {
        return stop_behind(Frame::Ranges(ranges), frames, operand);
    }
    match ranges_with(alloc, ranges, operand) {
        Ok(ranges) => inside(Mode::OperandWanted, Frame::Ranges(ranges), frames),
        Err(no) => refuse(no, frames),
    }
}

/// Another range of an int domain, behind one with both bounds. `NoMemory` where there is no room.
fn more_bounds(
    alloc: Global,
    ranges: Row<Range>,
    low: Boxed<Ex>,
    frames: Row<Frame>,
    ends_in_body: bool,
    operand: Operand,
) -> Result<Option<State>, NoMemory>
    ensures { (p : Bool) → IfOk result (Steps (operand_then_comma (view_frame (F.HighBound ranges low) ∷ view_frames frames) ends_in_body p (view_operand operand))) }
{
    if ends_in_body {
        return stop_behind(Frame::HighBound(ranges, low), frames, operand);
    }
    match ranges_between(alloc, ranges, low, operand) {
        Ok(ranges) => inside(Mode::OperandWanted, Frame::Ranges(ranges), frames),
        Err(no) => refuse(no, frames),
    }
}

/// Another range of an int domain, behind one with an upper bound alone. `NoMemory` where there is no room.
fn more_high_bounds(
    alloc: Global,
    ranges: Row<Range>,
    frames: Row<Frame>,
    ends_in_body: bool,
    operand: Operand,
) -> Result<Option<State>, NoMemory>
    ensures { (p : Bool) → IfOk result (Steps (operand_then_comma (view_frame (F.LoneHighBound ranges) ∷ view_frames frames) ends_in_body p (view_operand operand))) }
{
    if ends_in_body {
        return stop_behind(Frame::LoneHighBound(ranges), frames, operand);
    }
    match ranges_up_to(alloc, ranges, operand) {
        Ok(ranges) => inside(Mode::OperandWanted, Frame::Ranges(ranges), frames),
        Err(no) => refuse(no, frames),
    }
}

/// Another attribute of a domain, behind one with a number. `NoMemory` where there is no room.
fn more_attributes(
    alloc: Global,
    owner: Owner,
    key: Key,
    attributes: Row<Attr>,
    frames: Row<Frame>,
    ends_in_body: bool,
    operand: Operand,
) -> Result<Option<State>, NoMemory>
    ensures { (p : Bool) → IfOk result (Steps (operand_then_comma (view_frame (F.AttributeValue owner key attributes) ∷ view_frames frames) ends_in_body p (view_operand operand))) }
{
    if ends_in_body {
        return stop_behind(
            Frame::AttributeValue(owner, key, attributes),
            frames,
            operand,
        );
    }
    match attributes_with(alloc, attributes, key, operand) {
        Ok(attributes) => inside(
            Mode::AttributeWanted,
            Frame::Attributes(owner, attributes),
            frames,
        ),
        Err(no) => refuse(no, frames),
    }
}
