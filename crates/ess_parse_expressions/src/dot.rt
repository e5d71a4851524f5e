//! The dot behind the items of a quantifier.
#![tactic(auto, using(ess_parse_frames::proofs::RowLaws::gens_closed))]

ghost use Rattle.std.specs.Prelude.{◌∷◌, Bool, IfOk};
ghost use Rattle.ess_parse_laws.specs.AfterOperands.{operand_then_dot};
ghost use Rattle.ess_core.specs.TreeViews.{pure_ex};
ghost use Rattle.ess_parse_frames.specs.Views.{view_frame, view_frames, Steps};
ghost use Rattle.ess_parse_frames.specs.declared.frames.Frame.TheVariants as F;

use ess_bound_names::BoundNames;
use ess_core::{Ex, Gen, Pat};
use ess_parse_frames::items::{all_conditions, all_from};
use ess_parse_frames::stack::inside;
use ess_parse_frames::stops::{refuse, stop_behind};
use ess_parse_frames::{Frame, Head, Mode, Operand, State};
use ess_rows::{Boxed, NoMemory, Row, Text};
use std::alloc::Global;

/// A dot ends the items of a quantifier. `NoMemory` where there is no room.
pub(crate) fn operand_then_dot(
    alloc: Global,
    frame: Frame,
    frames: Row<Frame>,
    ends_in_body: bool,
    expression: Boxed<Ex>,
) -> Result<Option<State>, NoMemory>
    ensures { (p : Bool) → IfOk result (Steps (operand_then_dot (view_frame frame ∷ view_frames frames) ends_in_body p (pure_ex expression))) }
{
    match frame {
        Frame::Items(head, names, items, patterns) => end_conditions(
            alloc,
            head,
            names,
            items,
            patterns,
            frames,
            ends_in_body,
            expression,
        ),
        Frame::GeneratorSource(head, names, items, patterns) => end_generator(
            alloc,
            head,
            names,
            items,
            patterns,
            frames,
            ends_in_body,
            expression,
        ),
        other => stop_behind(other, frames, Operand::Other(expression)),
    }
}

/// A dot behind a condition of a quantifier. `NoMemory` where there is no room.
fn end_conditions(
    alloc: Global,
    head: Head,
    names: BoundNames,
    items: Row<Gen>,
    patterns: Row<Pat>,
    frames: Row<Frame>,
    ends_in_body: bool,
    condition: Boxed<Ex>,
) -> Result<Option<State>, NoMemory>
    ensures { (p : Bool) → IfOk result (Steps (operand_then_dot (view_frame (F.Items head names items patterns) ∷ view_frames frames) ends_in_body p (pure_ex condition))) }
{
    if ends_in_body {
        let items = Frame::Items(head, names, items, patterns);
        return stop_behind(items, frames, Operand::Other(condition));
    }
    match head {
        Head::Quantifier(fold) => match all_conditions(alloc, items, patterns, condition) {
            Ok(items) => inside(Mode::OperandWanted, Frame::Body(fold, items), frames),
            Err(no) => refuse(no, frames),
        },
        other => {
            let items = Frame::Items(other, names, items, patterns);
            stop_behind(items, frames, Operand::Other(condition))
        }
    }
}

/// A dot behind the value of a quantifier's generator. `NoMemory` where there is no room.
fn end_generator(
    alloc: Global,
    head: Head,
    names: BoundNames,
    items: Row<Gen>,
    patterns: Row<Pat>,
    frames: Row<Frame>,
    ends_in_body: bool,
    value: Boxed<Ex>,
) -> Result<Option<State>, NoMemory>
    ensures { (p : Bool) → IfOk result (Steps (operand_then_dot (view_frame (F.GeneratorSource head names items patterns) ∷ view_frames frames) ends_in_body p (pure_ex value))) }
{
    if ends_in_body {
        let items = Frame::GeneratorSource(head, names, items, patterns);
        return stop_behind(items, frames, Operand::Other(value));
    }
    match head {
        Head::Quantifier(fold) => match all_from(alloc, items, patterns, value) {
            Ok(items) => inside(Mode::OperandWanted, Frame::Body(fold, items), frames),
            Err(no) => refuse(no, frames),
        },
        other => {
            let items = Frame::GeneratorSource(other, names, items, patterns);
            stop_behind(items, frames, Operand::Other(value))
        }
    }
}
