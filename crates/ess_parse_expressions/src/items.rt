//! The items of quantifiers and comprehensions: generators and conditions, and the patterns that wait for a generator's sign.
#![tactic(auto, using(crate::proofs::FrameLaws::frames_at, crate::proofs::FrameLaws::frames_all, ess_parse_frames::proofs::StackLaws::frames_none, ess_parse_frames::proofs::PatternLaws::pats_none, ess_parse_frames::proofs::RowLaws::gens_none, crate::proofs::ListLaws::one_is_bound, crate::proofs::ListLaws::several_are_not_bound))]

ghost use Rattle.std.specs.Prelude.{◌≡◌, ◌∷◌, List, IfOk};
ghost use Rattle.std.specs.Option.{option_map};
ghost use Rattle.ess_grammar.specs.Patterns.{is_bound_name};
ghost use Rattle.ess_parse_laws.specs.Frames as machine;
ghost use Rattle.ess_parse_laws.specs.Items.{may_quantify, in_is_sign, may_end_item, begin_source, begin_quantifier};
ghost use Rattle.ess_core.specs.TreeViews.{pure_pat};
ghost use Rattle.ess_parse_frames.specs.Patterns.{pattern_ex, is_pattern_operand};
ghost use Rattle.ess_parse_frames.specs.Views.{view_frame, view_frames, view_head, Steps};
ghost use Rattle.ess_parse_expressions.specs.Lists.{wanting_operand};

use ess_bound_names::BoundNames;
use ess_core::{Fun, Pat};
use ess_parse_frames::items::source_begun;
use ess_parse_frames::stack::{Top, at, innermost, inside, within};
use ess_parse_frames::stops::{let_frames_go, refuse, stop_in};
use ess_parse_frames::{Frame, Head, Mode, Operand, State};
use ess_rows::{NoMemory, Row};
use std::alloc::Global;

/// May a quantifier stand as the innermost operand?
pub(crate) fn may_quantify(frames: &Row<Frame>) -> bool
    ensures { result ≡ may_quantify (view_frames frames.now) }
{
    let frames = frames.as_slice();
    let mut depth = frames.len();
    while depth > 0 {
        depth -= 1;
        match &frames[depth] {
            Frame::Minus | Frame::Not | Frame::Binary(_, _) | Frame::Body(_, _) => {}
            Frame::List(_, _) | Frame::PairLeft(_) | Frame::PairRight(_, _) => return true,
            Frame::FieldValue(_, _) | Frame::Letting(_, _) | Frame::Unnamed(_, _) => return true,
            Frame::Where(_) | Frame::SuchThat(_) | Frame::Objective(_, _) => return true,
            _ => return false,
        }
    }
    true
}

/// Is the pattern one of these names?
fn is_bound(names: &BoundNames, pattern: &Pat) -> bool
    ensures { result ≡ is_bound_name names.now (pattern_ex (pure_pat pattern.now)) }
{
    match pattern {
        Pat::Name(name) => names.has(name),
        Pat::Tuple(_) => false,
    }
}

/// Is `in` behind this pattern, in this frame, a generator's sign?
pub(crate) fn in_is_sign(frame: &Frame, pattern: &Pat) -> bool
    ensures { (frames : List machine.Frame) → result ≡ in_is_sign (view_frame frame.now ∷ frames) (pattern_ex (pure_pat pattern.now)) }
{
    match frame {
        Frame::Items(head, names, _, patterns) => match head {
            Head::Comprehension(_) => false,
            Head::Quantifier(_) | Head::Sum => !patterns.is_empty() || !is_bound(names, pattern),
        },
        _ => false,
    }
}

/// May the operand be an item that is no generator?
pub(crate) fn may_end_item(head: &Head, operand: &Operand) -> bool
    ensures { result ≡ may_end_item (view_head head.now) (is_pattern_operand operand.now) }
{
    match operand {
        Operand::Pattern(_) => true,
        Operand::Other(_) => match head {
            Head::Sum => false,
            Head::Quantifier(_) | Head::Comprehension(_) => true,
        },
    }
}

/// Behind a generator's sign its value is wanted. `NoMemory` where there is no room.
pub(crate) fn begin_source(frames: Row<Frame>, pattern: Pat) -> Result<Option<State>, NoMemory>
    ensures { IfOk result (Steps (begin_source (view_frames frames) (pattern_ex (pure_pat pattern)))) }
{
    match innermost(frames) {
        Some(top) => begin_source_in(top, pattern),
        None => Ok(None),
    }
}

/// Behind a generator's sign in this innermost frame. `NoMemory` where there is no room.
fn begin_source_in(top: Top, pattern: Pat) -> Result<Option<State>, NoMemory>
    ensures { IfOk result (Steps (begin_source (view_frame top.frame ∷ view_frames top.frames) (pattern_ex (pure_pat pattern)))) }
{
    let Top { frame, frames } = top;
    match frame {
        Frame::Items(head, names, items, patterns) => match source_begun(
            head, names, items, patterns, pattern,
        ) {
            Ok(source) => inside(Mode::OperandWanted, source, frames),
            Err(no) => refuse(no, frames),
        },
        other => stop_in(other, frames),
    }
}

/// The frames behind a quantifier's word, where a quantifier may stand. `NoMemory` where there is no room.
pub(crate) fn quantifier_begun(
    alloc: Global,
    fold: Fun,
    frames: Row<Frame>,
) -> Result<Option<Row<Frame>>, NoMemory>
    ensures { IfOk result (λ r. begin_quantifier fold (view_frames frames) ≡ option_map wanting_operand r) }
{
    if !may_quantify(&frames) {
        let_frames_go(frames);
        return Ok(None);
    }
    let items = Frame::Items(
        Head::Quantifier(fold),
        BoundNames::new(alloc),
        Row::new(alloc),
        Row::new(alloc),
    );
    match within(frames, items) {
        Ok(frames) => Ok(Some(frames)),
        Err(no) => Err(no),
    }
}

/// Behind a quantifier's word its items are wanted. `NoMemory` where there is no room.
pub(crate) fn begin_quantifier(
    alloc: Global,
    fold: Fun,
    frames: Row<Frame>,
) -> Result<Option<State>, NoMemory>
    ensures { IfOk result (Steps (begin_quantifier fold (view_frames frames))) }
{
    match quantifier_begun(alloc, fold, frames) {
        Ok(Some(frames)) => Ok(at(Mode::OperandWanted, frames)),
        Ok(None) => Ok(None),
        Err(no) => Err(no),
    }
}
