//! The ranges of int domains.
#![tactic(auto, using(ess_parse_frames::proofs::RowLaws::ends_none, ess_parse_frames::proofs::RowLaws::bounds_none))]

ghost use Rattle.std.specs.Prelude.{IfOk};
ghost use Rattle.ess_grammar.specs.Words.{Text};
ghost use Rattle.ess_grammar.specs.Kinds.{token};
ghost use Rattle.ess_parse_laws.specs.Domains.{step_int_read};
ghost use Rattle.ess_parse_frames.specs.Views.{view_frames, Steps};

use crate::ends::reduced_domain_then;
use crate::words::is_open_round;
use ess_grammar::Kind;
use ess_parse_frames::domain_parts::whole_int;
use ess_parse_frames::stack::inside;
use ess_parse_frames::stops::refuse;
use ess_parse_frames::{Frame, Mode, State};
use ess_rows::{NoMemory, Row};
use std::alloc::Global;

/// Behind `int`: ranges in brackets, or what goes on behind a domain. `NoMemory` where there is no room.
pub fn step_int_read(
    alloc: Global,
    kind: Kind,
    frames: Row<Frame>,
) -> Result<Option<State>, NoMemory>
    ensures { (bytes : Text) → IfOk result (Steps (step_int_read (token kind bytes) (view_frames frames))) }
{
    if is_open_round(kind) {
        return inside(Mode::OperandWanted, Frame::Ranges(Row::new(alloc)), frames);
    }
    match whole_int(alloc) {
        Ok(domain) => reduced_domain_then(alloc, kind, frames, domain),
        Err(no) => refuse(no, frames),
    }
}
