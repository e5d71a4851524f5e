#![tactic(auto, using(crate::proofs::StackLaws::frames_push, crate::proofs::StackLaws::frames_none))]

ghost use Rattle.std.specs.Prelude.{◌≡◌, [], ◌∷◌, Ok, None, IfOk, false};
ghost use Rattle.ess_parse_laws.specs.Modes.{at_state, operand_read, domain_read};
ghost use Rattle.ess_core.specs.TreeViews.{pure_ex, pure_dom};
ghost use Rattle.ess_parse_frames.specs.Views.{view_frame, view_mode, view_frames, Steps};
ghost use Rattle.ess_parse_frames.specs.Stack.{frames_of};

use crate::{Frame, Mode, Operand, State};
use ess_core::{Dom, Ex};
use ess_rows::{Boxed, NoMemory, Row};
use std::alloc::Global;

/// The innermost frame, with those around it.
#[derive(Drop)]
pub struct Top {
    /// The innermost frame.
    pub frame: Frame,
    /// Those around it.
    pub frames: Row<Frame>,
}

/// Takes the innermost frame off, if there is one.
pub fn innermost(frames: Row<Frame>) -> Option<Top>
    ensures { view_frames frames ≡ frames_of result }
{
    let mut frames = frames;
    let frame = frames.pop()?;
    Some(Top { frame, frames })
}

/// Puts a frame inside the others. `NoMemory` where there is no room for it.
pub fn within(frames: Row<Frame>, frame: Frame) -> Result<Row<Frame>, NoMemory>
    ensures { IfOk result (λ fs. view_frames fs ≡ view_frame frame ∷ view_frames frames) }
{
    let mut frames = frames;
    frames.push(frame)?;
    Ok(frames)
}

/// The state of a mode with these frames.
pub fn at(mode: Mode, frames: Row<Frame>) -> Option<State>
    ensures { Steps (at_state (view_mode mode) (view_frames frames)) result }
{
    Some(State { frames, mode })
}

/// The state of a mode with a frame inside these frames. `NoMemory` where there is no room for it.
pub fn inside(mode: Mode, frame: Frame, frames: Row<Frame>) -> Result<Option<State>, NoMemory>
    ensures { IfOk result (Steps (at_state (view_mode mode) (view_frame frame ∷ view_frames frames))) }
{
    match within(frames, frame) {
        Ok(frames) => Ok(at(mode, frames)),
        Err(no) => {
            drop(mode);
            Err(no)
        }
    }
}

/// The state of a mode with no frames.
pub fn outside(alloc: Global, mode: Mode) -> Option<State>
    ensures { Steps (at_state (view_mode mode) []) result }
{
    at(mode, Row::new(alloc))
}

/// The state of a mode with this frame alone. `NoMemory` where there is no room for it.
pub fn alone(alloc: Global, mode: Mode, frame: Frame) -> Result<Option<State>, NoMemory>
    ensures { IfOk result (Steps (at_state (view_mode mode) (view_frame frame ∷ []))) }
{
    inside(mode, frame, Row::new(alloc))
}

/// Behind an expression that isn't written as a pattern. `NoMemory` where there is no room for it.
pub fn expression_read(
    alloc: Global,
    expression: Ex,
    frames: Row<Frame>,
) -> Result<Option<State>, NoMemory>
    ensures { IfOk result (Steps (at_state (operand_read false (pure_ex expression)) (view_frames frames))) }
{
    let expression = Boxed::new(alloc, expression)?;
    Ok(at(Mode::OperandRead(Operand::Other(expression)), frames))
}

/// Behind a domain. `NoMemory` where there is no room for it.
pub fn domain_read(
    alloc: Global,
    domain: Dom,
    frames: Row<Frame>,
) -> Result<Option<State>, NoMemory>
    ensures { IfOk result (Steps (at_state (domain_read (pure_dom domain)) (view_frames frames))) }
{
    let domain = Boxed::new(alloc, domain)?;
    Ok(at(Mode::DomainRead(domain), frames))
}

/// No text goes on so. What was read of it is let go.
pub fn stop<T: Drop>(read: T) -> Result<Option<State>, NoMemory>
    ensures { result ≡ Ok None }
{
    drop(read);
    Ok(None)
}
