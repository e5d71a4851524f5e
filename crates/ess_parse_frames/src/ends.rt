//! Where the attributes and the ranges of a domain end.
#![tactic(auto, using(crate::proofs::RowLaws::doms_none, crate::proofs::RowLaws::marks_closed, crate::proofs::RowLaws::numbers_closed))]

ghost use Rattle.std.specs.Prelude.{[], IfOk};
ghost use Rattle.ess_semantics.specs.Trees.{no_exs};
ghost use Rattle.ess_parse_laws.specs.Reversed.{reverse_exs, reverse_list};
ghost use Rattle.ess_parse_laws.specs.AfterOperands.{end_attributes, end_ranges};
ghost use Rattle.ess_parse_frames.specs.Rows.{back_marks, back_numbers, back_ends, back_bounds};
ghost use Rattle.ess_parse_frames.specs.Views.{view_owner, view_frames, Steps};

use crate::rows::int_of_ranges;
use crate::stack::{domain_read, inside};
use crate::{Frame, Mode, Owner, State};
use ess_core::{Attr, Range};
use ess_rows::{NoMemory, Row};
use std::alloc::Global;

/// Behind all attributes of a domain. `NoMemory` where there is no room for a frame.
pub fn end_attributes(
    alloc: Global,
    owner: Owner,
    attributes: Row<Attr>,
    frames: Row<Frame>,
) -> Result<Option<State>, NoMemory>
    ensures { IfOk result (Steps (end_attributes (view_owner owner) (reverse_list (back_marks attributes) []) (reverse_exs (back_numbers attributes) no_exs) (view_frames frames))) }
{
    match owner {
        Owner::Inner(inner) => inside(
            Mode::JoiningWanted(inner),
            Frame::InnerDomain(inner, attributes),
            frames,
        ),
        Owner::Relation => inside(
            Mode::RelationOfWanted,
            Frame::RelationDomains(attributes, Row::new(alloc)),
            frames,
        ),
        Owner::Function => inside(Mode::DomainWanted, Frame::FunctionFrom(attributes), frames),
    }
}

/// Behind all ranges of an int domain. `NoMemory` where there is no room for it.
pub fn end_ranges(
    alloc: Global,
    ranges: Row<Range>,
    frames: Row<Frame>,
) -> Result<Option<State>, NoMemory>
    ensures { IfOk result (Steps (end_ranges (back_ends ranges) (back_bounds ranges) (view_frames frames))) }
{
    domain_read(alloc, int_of_ranges(ranges), frames)
}
