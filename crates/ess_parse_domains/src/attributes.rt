//! Attributes of domains. Their words are plain names elsewhere.
#![tactic(auto, using(ess_parse_frames::proofs::RowLaws::doms_none, ess_parse_frames::proofs::RowLaws::marks_none, ess_parse_frames::proofs::RowLaws::numbers_none, ess_parse_frames::proofs::RowLaws::no_marks, ess_parse_frames::proofs::RowLaws::no_numbers, ess_parse_frames::proofs::RowLaws::marks_closed, ess_parse_frames::proofs::RowLaws::numbers_closed))]

ghost use Rattle.std.specs.Prelude.{◌≡◌, [], ◌∷◌, true, IfOk, option_map};
ghost use Rattle.std.specs.Str.{bytes_eq};
ghost use Rattle.ess_semantics.specs.Trees.{no_exs, no_doms};
ghost use Rattle.ess_semantics.specs.Names.{look_by};
ghost use Rattle.ess_grammar.specs.Words.{Text, symbol, comma, close_round};
ghost use Rattle.ess_grammar.specs.Kinds.{token};
ghost use Rattle.ess_parse_laws.specs.Frames.{attributes_frame, tuple_domains_frame, function_from_frame, function_owner};
ghost use Rattle.ess_parse_laws.specs.Modes.{at_state, attribute_read};
ghost use Rattle.ess_parse_laws.specs.Domains.{step_domain_wanted};
ghost use Rattle.ess_parse_laws.specs.AttributeSteps.{step_function_bracket_read, step_attribute_wanted, ends_flag, end_flag};
ghost use Rattle.ess_parse_frames.specs.Views.{view_frames, Steps};
ghost use Rattle.ess_parse_domains.specs.Attributes.{shown_keys, key_named, attribute_in, before_value};

use crate::words::step_domain_wanted;
use ess_core::Key;
use ess_grammar::Kind;
use ess_parse_frames::domain_parts::let_frame_go;
use ess_parse_frames::ends::end_attributes;
use ess_parse_frames::rows::with_flag;
use ess_parse_frames::stack::{Top, at, innermost, inside, within};
use ess_parse_frames::stops::{let_frames_go, no_state, refuse, stop_frames, stop_in};
use ess_parse_frames::{AtLeast, Frame, Mode, Owner, State};
use ess_rows::{NoMemory, Row, Text};
use std::alloc::Global;

/// The words of attributes.
const KEYS: [(&str, Key); 22] = [
    ("size", Key::Size),
    ("minSize", Key::MinSize),
    ("maxSize", Key::MaxSize),
    ("reflexive", Key::Reflexive),
    ("irreflexive", Key::Irreflexive),
    ("symmetric", Key::Symmetric),
    ("antiSymmetric", Key::AntiSymmetric),
    ("aSymmetric", Key::ASymmetric),
    ("transitive", Key::Transitive),
    ("minOccur", Key::MinOccur),
    ("maxOccur", Key::MaxOccur),
    ("total", Key::Total),
    ("injective", Key::Injective),
    ("surjective", Key::Surjective),
    ("bijective", Key::Bijective),
    ("numParts", Key::NumParts),
    ("minNumParts", Key::MinNumParts),
    ("maxNumParts", Key::MaxNumParts),
    ("partSize", Key::PartSize),
    ("minPartSize", Key::MinPartSize),
    ("maxPartSize", Key::MaxPartSize),
    ("regular", Key::Regular),
];

/// The attribute that a name is, where it is one.
#[tactic(auto, unfolding(crate::specs::Attributes::key_named))]
fn key_of(name: &[u8]) -> Option<Key>
    ensures { result ≡ key_named name.now }
{
    key_in(&KEYS, name)
}

/// The attribute that stands beside a word in a table.
fn key_in(table: &[(&str, Key)], word: &[u8]) -> Option<Key>
    ensures { result ≡ look_by bytes_eq (shown_keys table.now) word.now }
{
    for (spelling, key) in table {
        if spelling.as_bytes() == word {
            return Some(*key);
        }
    }
    None
}

/// The attribute that a token is, where it is one. `name` has the token's bytes where it is a name.
fn attribute_of(kind: Kind, name: &Text) -> Option<Key>
    ensures { result ≡ attribute_in (token kind name.now) }
{
    match kind {
        Kind::Name => key_of(name.as_bytes()),
        _ => None,
    }
}

/// Behind `function (` and an attribute's word. `NoMemory` where there is no room for a frame.
fn begin_attributes(alloc: Global, key: Key, frames: Row<Frame>) -> Result<Option<State>, NoMemory>
    ensures { IfOk result (Steps (at_state (attribute_read key) (attributes_frame function_owner [] no_exs ∷ view_frames frames))) }
{
    inside(
        Mode::AttributeRead(key),
        Frame::Attributes(Owner::Function, Row::new(alloc)),
        frames,
    )
}

/// Behind `function (` at any other token: it begins the first domain of a tuple. `NoMemory` where there is no room for a
/// frame.
fn begin_tuple(
    alloc: Global,
    kind: Kind,
    name: Text,
    frames: Row<Frame>,
) -> Result<Option<State>, NoMemory>
    ensures { IfOk result (Steps (step_domain_wanted (token kind name) (tuple_domains_frame true no_doms ∷ function_from_frame [] no_exs ∷ view_frames frames))) }
{
    let frames = within(frames, Frame::FunctionFrom(Row::new(alloc)))?;
    let frames = within(frames, Frame::TupleDomains(AtLeast::Two, Row::new(alloc)))?;
    step_domain_wanted(alloc, kind, name, frames)
}

/// Behind `function (` in a domain: an attribute, or the first domain of a tuple. `name` has the token's bytes where it is a
/// name. `NoMemory` where there is no room for a frame.
pub fn step_function_bracket_read(
    alloc: Global,
    kind: Kind,
    name: Text,
    frames: Row<Frame>,
) -> Result<Option<State>, NoMemory>
    ensures { IfOk result (Steps (step_function_bracket_read (token kind name) (view_frames frames))) }
{
    match attribute_of(kind, &name) {
        Some(key) => begin_attributes(alloc, key, frames),
        None => begin_tuple(alloc, kind, name, frames),
    }
}

/// Where an attribute is wanted. `name` has the token's bytes where it is a name.
pub fn step_attribute_wanted(kind: Kind, name: &Text, frames: Row<Frame>) -> Option<State>
    ensures { Steps (step_attribute_wanted (token kind name.now) (view_frames frames)) result }
{
    match attribute_of(kind, name) {
        Some(key) => at(Mode::AttributeRead(key), frames),
        None => no_state(frames),
    }
}

/// Does a token of this kind end an attribute without a number?
pub fn ends_flag(kind: Kind) -> bool
    ensures { (bytes : Text) → result ≡ ends_flag (token kind bytes) }
{
    matches!(kind, Kind::Comma | Kind::CloseRound)
}

/// Behind the token that ends an attribute without a number. `NoMemory` where there is no room.
pub fn end_flag(
    alloc: Global,
    kind: Kind,
    key: Key,
    frames: Row<Frame>,
) -> Result<Option<State>, NoMemory>
    ensures { (bytes : Text) → IfOk result (Steps (end_flag (token kind bytes) key (view_frames frames))) }
{
    match kind {
        Kind::Comma => flag_then_comma(key, frames),
        Kind::CloseRound => flag_then_close_round(alloc, key, frames),
        _ => stop_frames(frames),
    }
}

/// Behind the comma there. `NoMemory` where there is no room.
fn flag_then_comma(key: Key, frames: Row<Frame>) -> Result<Option<State>, NoMemory>
    ensures { IfOk result (Steps (end_flag (symbol comma) key (view_frames frames))) }
{
    match innermost(frames) {
        Some(Top { frame, frames }) => match frame {
            Frame::Attributes(owner, attributes) => match with_flag(attributes, key) {
                Ok(attributes) => inside(
                    Mode::AttributeWanted,
                    Frame::Attributes(owner, attributes),
                    frames,
                ),
                Err(no) => refuse(no, frames),
            },
            other => stop_in(other, frames),
        },
        None => Ok(None),
    }
}

/// Behind the closing bracket there. `NoMemory` where there is no room.
fn flag_then_close_round(
    alloc: Global,
    key: Key,
    frames: Row<Frame>,
) -> Result<Option<State>, NoMemory>
    ensures { IfOk result (Steps (end_flag (symbol close_round) key (view_frames frames))) }
{
    match innermost(frames) {
        Some(Top { frame, frames }) => match frame {
            Frame::Attributes(owner, attributes) => match with_flag(attributes, key) {
                Ok(attributes) => end_attributes(alloc, owner, attributes, frames),
                Err(no) => refuse(no, frames),
            },
            other => stop_in(other, frames),
        },
        None => Ok(None),
    }
}

/// The frames in which the number of an attribute of this word is read, where attributes are. `NoMemory` where there is no
/// room for a frame.
pub fn before_value(key: Key, frames: Row<Frame>) -> Result<Option<Row<Frame>>, NoMemory>
    ensures { IfOk result (λ r. option_map view_frames r ≡ before_value key (view_frames frames)) }
{
    match innermost(frames) {
        Some(Top { frame, frames }) => match frame {
            Frame::Attributes(owner, attributes) => {
                let frames = within(frames, Frame::AttributeValue(owner, key, attributes))?;
                Ok(Some(frames))
            }
            other => {
                let_frame_go(other);
                let_frames_go(frames);
                Ok(None)
            }
        },
        None => Ok(None),
    }
}
