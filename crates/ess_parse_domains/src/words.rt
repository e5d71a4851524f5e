//! Where a domain is wanted, and behind the words of domains.
#![tactic(auto, using(ess_core::proofs::DomainEquations::pure_bool, ess_core::proofs::DomainEquations::pure_name, ess_parse_frames::proofs::RowLaws::doms_none, ess_parse_frames::proofs::RowLaws::dom_names_none, ess_parse_frames::proofs::RowLaws::field_doms_none, ess_parse_frames::proofs::RowLaws::marks_none, ess_parse_frames::proofs::RowLaws::numbers_none, ess_parse_frames::proofs::RowLaws::no_marks, ess_parse_frames::proofs::RowLaws::no_numbers))]

ghost use Rattle.std.specs.Prelude.{◌≡◌, IfOk};
ghost use Rattle.ess_grammar.specs.Words.{Text, symbol, colon};
ghost use Rattle.ess_grammar.specs.Kinds.{token};
ghost use Rattle.ess_parse_laws.specs.Domains.{step_domain_wanted, step_matrix_begun, step_indexed_read, step_by_read, step_axes_read, step_tuple_begun, step_record_begun, step_field_name_wanted, step_field_name_read, step_joining_wanted, step_relation_of_wanted, step_relation_of_read, step_inner_begun, step_relation_begun, step_function_begun};
ghost use Rattle.ess_parse_laws.specs.Operands.{is_open_round};
ghost use Rattle.ess_parse_frames.specs.Views.{view_inner, view_frames, Steps};

use ess_core::Dom;
use ess_grammar::Kind;
use ess_parse_frames::stack::{Top, at, domain_read, innermost, inside, within};
use ess_parse_frames::stops::{no_state, stop_frames, stop_in};
use ess_parse_frames::{AtLeast, Frame, Inner, Mode, Owner, State};
use ess_rows::{NoMemory, Row, Text};
use std::alloc::Global;

/// Where a domain is wanted. `name` has the token's bytes where it is a name. `NoMemory` where there is no room for a frame.
pub fn step_domain_wanted(
    alloc: Global,
    kind: Kind,
    name: Text,
    frames: Row<Frame>,
) -> Result<Option<State>, NoMemory>
    ensures { IfOk result (Steps (step_domain_wanted (token kind name) (view_frames frames))) }
{
    let mode = match kind {
        Kind::Bool => return domain_read(alloc, Dom::Bool, frames),
        Kind::Name => return domain_read(alloc, Dom::Name(name), frames),
        Kind::Int => Mode::IntRead,
        Kind::Matrix => Mode::MatrixBegun,
        Kind::Set => Mode::InnerBegun(Inner::Set),
        Kind::MSet => Mode::InnerBegun(Inner::MSet),
        Kind::Partition => Mode::InnerBegun(Inner::Partition),
        Kind::Relation => Mode::RelationBegun,
        Kind::Function => Mode::FunctionBegun,
        Kind::Tuple => Mode::TupleBegun,
        Kind::Record => Mode::RecordBegun,
        Kind::OpenRound => return inside(
            Mode::DomainWanted,
            Frame::TupleDomains(AtLeast::Two, Row::new(alloc)),
            frames,
        ),
        _ => return stop_frames(frames),
    };
    Ok(at(mode, frames))
}

/// Behind `matrix`.
pub fn step_matrix_begun(kind: Kind, frames: Row<Frame>) -> Option<State>
    ensures { (bytes : Text) → Steps (step_matrix_begun (token kind bytes) (view_frames frames)) result }
{
    match kind {
        Kind::Indexed => at(Mode::IndexedRead, frames),
        _ => no_state(frames),
    }
}

/// Behind `matrix indexed`.
pub fn step_indexed_read(kind: Kind, frames: Row<Frame>) -> Option<State>
    ensures { (bytes : Text) → Steps (step_indexed_read (token kind bytes) (view_frames frames)) result }
{
    match kind {
        Kind::By => at(Mode::ByRead, frames),
        _ => no_state(frames),
    }
}

/// Behind `matrix indexed by`. `NoMemory` where there is no room for a frame.
pub fn step_by_read(
    alloc: Global,
    kind: Kind,
    frames: Row<Frame>,
) -> Result<Option<State>, NoMemory>
    ensures { (bytes : Text) → IfOk result (Steps (step_by_read (token kind bytes) (view_frames frames))) }
{
    match kind {
        Kind::OpenSquare => inside(Mode::DomainWanted, Frame::Axes(Row::new(alloc)), frames),
        _ => stop_frames(frames),
    }
}

/// Behind the index domains of a matrix.
pub fn step_axes_read(kind: Kind, frames: Row<Frame>) -> Option<State>
    ensures { (bytes : Text) → Steps (step_axes_read (token kind bytes) (view_frames frames)) result }
{
    match kind {
        Kind::Of => at(Mode::DomainWanted, frames),
        _ => no_state(frames),
    }
}

/// Behind `tuple` in a domain. `NoMemory` where there is no room for a frame.
pub fn step_tuple_begun(
    alloc: Global,
    kind: Kind,
    frames: Row<Frame>,
) -> Result<Option<State>, NoMemory>
    ensures { (bytes : Text) → IfOk result (Steps (step_tuple_begun (token kind bytes) (view_frames frames))) }
{
    match kind {
        Kind::OpenRound => inside(
            Mode::DomainWanted,
            Frame::TupleDomains(AtLeast::One, Row::new(alloc)),
            frames,
        ),
        _ => stop_frames(frames),
    }
}

/// Behind `record` in a domain. `NoMemory` where there is no room for a frame.
pub fn step_record_begun(
    alloc: Global,
    kind: Kind,
    frames: Row<Frame>,
) -> Result<Option<State>, NoMemory>
    ensures { (bytes : Text) → IfOk result (Steps (step_record_begun (token kind bytes) (view_frames frames))) }
{
    match kind {
        Kind::OpenCurly => inside(
            Mode::FieldNameWanted,
            Frame::FieldNames(Row::new(alloc)),
            frames,
        ),
        _ => stop_frames(frames),
    }
}

/// Where the name of a record domain's field is wanted. `name` has the token's bytes where it is a name.
pub fn step_field_name_wanted(kind: Kind, name: Text, frames: Row<Frame>) -> Option<State>
    ensures { Steps (step_field_name_wanted (token kind name) (view_frames frames)) result }
{
    match kind {
        Kind::Name => at(Mode::FieldNameRead(name), frames),
        _ => no_state(frames),
    }
}

/// Behind that name. `NoMemory` where there is no room for a frame.
pub fn step_field_name_read(
    kind: Kind,
    field: Text,
    frames: Row<Frame>,
) -> Result<Option<State>, NoMemory>
    ensures { (bytes : Text) → IfOk result (Steps (step_field_name_read (token kind bytes) field (view_frames frames))) }
{
    match kind {
        Kind::Colon => begin_field(field, frames),
        _ => stop_frames(frames),
    }
}

/// Behind the name and the colon of a record domain's field.
fn begin_field(field: Text, frames: Row<Frame>) -> Result<Option<State>, NoMemory>
    ensures { IfOk result (Steps (step_field_name_read (symbol colon) field (view_frames frames))) }
{
    match innermost(frames) {
        Some(Top { frame, frames }) => match frame {
            Frame::FieldNames(fields) => inside(
                Mode::DomainWanted,
                Frame::FieldDomain(fields, field),
                frames,
            ),
            other => stop_in(other, frames),
        },
        None => Ok(None),
    }
}

/// Before an inner domain, where its word is wanted.
pub fn step_joining_wanted(kind: Kind, inner: Inner, frames: Row<Frame>) -> Option<State>
    ensures { (bytes : Text) → Steps (step_joining_wanted (token kind bytes) (view_inner inner) (view_frames frames)) result }
{
    match inner {
        Inner::Set | Inner::MSet => match kind {
            Kind::Of => at(Mode::DomainWanted, frames),
            _ => no_state(frames),
        },
        Inner::Partition => match kind {
            Kind::From => at(Mode::DomainWanted, frames),
            _ => no_state(frames),
        },
    }
}

/// Before the domains of a relation, where `of` is wanted.
pub fn step_relation_of_wanted(kind: Kind, frames: Row<Frame>) -> Option<State>
    ensures { (bytes : Text) → Steps (step_relation_of_wanted (token kind bytes) (view_frames frames)) result }
{
    match kind {
        Kind::Of => at(Mode::RelationOfRead, frames),
        _ => no_state(frames),
    }
}

/// Behind that word.
pub fn step_relation_of_read(kind: Kind, frames: Row<Frame>) -> Option<State>
    ensures { (bytes : Text) → Steps (step_relation_of_read (token kind bytes) (view_frames frames)) result }
{
    match kind {
        Kind::OpenRound => at(Mode::DomainWanted, frames),
        _ => no_state(frames),
    }
}

/// Is it an opening round bracket?
pub(crate) fn is_open_round(kind: Kind) -> bool
    ensures { (bytes : Text) → result ≡ is_open_round (token kind bytes) }
{
    matches!(kind, Kind::OpenRound)
}

/// Behind `set`, `mset` or `partition`. `NoMemory` where there is no room for a frame.
pub fn step_inner_begun(
    alloc: Global,
    kind: Kind,
    inner: Inner,
    frames: Row<Frame>,
) -> Result<Option<State>, NoMemory>
    ensures { (bytes : Text) → IfOk result (Steps (step_inner_begun (token kind bytes) (view_inner inner) (view_frames frames))) }
{
    if is_open_round(kind) {
        return inside(
            Mode::AttributeWanted,
            Frame::Attributes(Owner::Inner(inner), Row::new(alloc)),
            frames,
        );
    }
    let frames = within(frames, Frame::InnerDomain(inner, Row::new(alloc)))?;
    Ok(step_joining_wanted(kind, inner, frames))
}

/// Behind `relation` in a domain. `NoMemory` where there is no room for a frame.
pub fn step_relation_begun(
    alloc: Global,
    kind: Kind,
    frames: Row<Frame>,
) -> Result<Option<State>, NoMemory>
    ensures { (bytes : Text) → IfOk result (Steps (step_relation_begun (token kind bytes) (view_frames frames))) }
{
    if is_open_round(kind) {
        return inside(
            Mode::AttributeWanted,
            Frame::Attributes(Owner::Relation, Row::new(alloc)),
            frames,
        );
    }
    let frames = within(
        frames,
        Frame::RelationDomains(Row::new(alloc), Row::new(alloc)),
    )?;
    Ok(step_relation_of_wanted(kind, frames))
}

/// Behind `function` in a domain. `name` has the token's bytes where it is a name. `NoMemory` where there is no room for a
/// frame.
pub fn step_function_begun(
    alloc: Global,
    kind: Kind,
    name: Text,
    frames: Row<Frame>,
) -> Result<Option<State>, NoMemory>
    ensures { IfOk result (Steps (step_function_begun (token kind name) (view_frames frames))) }
{
    if is_open_round(kind) {
        return Ok(at(Mode::FunctionBracketRead, frames));
    }
    let frames = within(frames, Frame::FunctionFrom(Row::new(alloc)))?;
    step_domain_wanted(alloc, kind, name, frames)
}
