//! Where no text goes on, or there is no room: what was read is let go. A crate that calls these needn't lay out itself what
//! frames and expressions hold.
ghost use Rattle.std.specs.Prelude.{◌≡◌, Ok, Err, None};

use crate::{Frame, Listed, Mode, Operand, State};
use ess_core::Ex;
use ess_rows::{Boxed, NoMemory, Row};

/// Lets frames go.
pub fn let_frames_go(frames: Row<Frame>) {
    drop(frames);
}

/// Lets a list go.
pub fn let_list_go(listed: Listed) {
    drop(listed);
}

/// Lets a mode go.
pub fn let_mode_go(mode: Mode) {
    drop(mode);
}

/// Lets a state go.
pub fn let_state_go(state: State) {
    let State { frames, mode } = state;
    drop(frames);
    drop(mode);
}

/// No text goes on so.
pub fn no_state(frames: Row<Frame>) -> Option<State>
    ensures { result ≡ None }
{
    drop(frames);
    None
}

/// No text goes on so.
pub fn stop_frames(frames: Row<Frame>) -> Result<Option<State>, NoMemory>
    ensures { result ≡ Ok None }
{
    drop(frames);
    Ok(None)
}

/// No text goes on so in this innermost frame.
pub fn stop_in(frame: Frame, frames: Row<Frame>) -> Result<Option<State>, NoMemory>
    ensures { result ≡ Ok None }
{
    drop(frame);
    drop(frames);
    Ok(None)
}

/// No text goes on so behind this operand.
pub fn stop_operand(frames: Row<Frame>, operand: Operand) -> Result<Option<State>, NoMemory>
    ensures { result ≡ Ok None }
{
    drop(frames);
    drop(operand);
    Ok(None)
}

/// No text goes on so behind this operand in this innermost frame.
pub fn stop_behind(
    frame: Frame,
    frames: Row<Frame>,
    operand: Operand,
) -> Result<Option<State>, NoMemory>
    ensures { result ≡ Ok None }
{
    drop(frame);
    drop(frames);
    drop(operand);
    Ok(None)
}

/// There is no room.
pub fn refuse(no: NoMemory, frames: Row<Frame>) -> Result<Option<State>, NoMemory>
    ensures { result ≡ Err no }
{
    drop(frames);
    Err(no)
}

/// There is no room behind this expression.
pub fn refuse_behind(
    no: NoMemory,
    expression: Boxed<Ex>,
    frames: Row<Frame>,
) -> Result<Option<State>, NoMemory>
    ensures { result ≡ Err no }
{
    drop(expression);
    drop(frames);
    Err(no)
}
