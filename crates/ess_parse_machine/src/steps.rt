//! One step of the machine: what a token does in each mode.
#![tactic(auto, using(ess_parse_frames::proofs::StackLaws::frames_none))]

ghost use Rattle.std.specs.Prelude.{◌≡◌, false, IfOk};
ghost use Rattle.std.specs.Str.{IsAscii};
ghost use Rattle.ess_grammar.specs.Words.{Text};
ghost use Rattle.ess_grammar.specs.Kinds.{token};
ghost use Rattle.ess_lex.specs.Lexing.{IsNatural};
ghost use Rattle.ess_parse_laws.specs.Machine.{step};
ghost use Rattle.ess_parse_laws.specs.AttributeSteps.{step_attribute_read};
ghost use Rattle.ess_parse_laws.specs.StatementSteps.{step_be_read};
ghost use Rattle.ess_parse_machine.specs.Firsts.{names_no_value};
ghost use Rattle.ess_parse_frames.specs.Rows.{back_stms};
ghost use Rattle.ess_parse_frames.specs.Views.{view_mode, view_frames, Steps};

use crate::atoms::step_operand_read;
use ess_core::{Key, Stm};
use ess_grammar::Kind;
use ess_parse_domains::attributes::{
    before_value, end_flag, ends_flag, step_attribute_wanted, step_function_bracket_read,
};
use ess_parse_domains::ends::reduced_domain_then;
use ess_parse_domains::ranges::step_int_read;
use ess_parse_domains::words::{
    step_axes_read, step_by_read, step_domain_wanted, step_field_name_read, step_field_name_wanted,
    step_function_begun, step_indexed_read, step_inner_begun, step_joining_wanted,
    step_matrix_begun, step_record_begun, step_relation_begun, step_relation_of_read,
    step_relation_of_wanted, step_tuple_begun,
};
use ess_parse_expressions::operand::step_operand_wanted;
use ess_parse_expressions::words::{
    step_field_read, step_field_wanted, step_function_literal_begun, step_function_word_read,
    step_literal_begun, step_record_literal_begun,
};
use ess_parse_frames::stack::{alone, outside, within};
use ess_parse_frames::stops::let_frames_go;
use ess_parse_frames::{Frame, Mode, State};
use ess_parse_statements::beginnings::step_statement_read;
use ess_parse_statements::language::{
    step_first_number_read, step_language_dot_read, step_language_name_read, step_language_read,
    step_nothing_read,
};
use ess_parse_statements::lettings::{
    step_enum_read, step_letting_name_read, step_letting_new_read, step_letting_type_read,
    step_letting_wanted, step_of_read, step_such_read, step_value_name_read,
    step_value_name_wanted,
};
use ess_parse_statements::names::{
    step_given_new_read, step_given_type_read, step_name_read, step_names_wanted,
};
use ess_rows::{NoMemory, Row, Text};
use std::alloc::Global;

/// What a token does in a mode, inside these frames. `name` has the token's bytes where it is a name. `NoMemory` where there
/// is no room.
pub(crate) fn step_in(
    alloc: Global,
    kind: Kind,
    name: Text,
    mode: Mode,
    frames: Row<Frame>,
) -> Result<Option<State>, NoMemory>
    requires ascii { IsAscii name }
    requires natural { IsNatural kind }
    ensures { IfOk result (Steps (step (token kind name) (view_mode mode) (view_frames frames))) }
{
    match mode {
        Mode::OperandWanted => step_operand_wanted(alloc, kind, name, frames),
        Mode::OperandRead(operand) => step_operand_read(alloc, kind, operand, frames),
        Mode::FunctionWordRead(word) => step_function_word_read(alloc, kind, name, word, frames),
        Mode::LiteralBegun(literal) => step_literal_begun(alloc, kind, literal, frames),
        Mode::FunctionLiteralBegun => step_function_literal_begun(alloc, kind, frames),
        Mode::RecordLiteralBegun => step_record_literal_begun(alloc, kind, frames),
        Mode::FieldWanted => Ok(step_field_wanted(kind, name, frames)),
        Mode::FieldRead(field) => step_field_read(kind, field, frames),
        Mode::DomainWanted => step_domain_wanted(alloc, kind, name, frames),
        Mode::DomainRead(domain) => reduced_domain_then(alloc, kind, frames, domain),
        Mode::IntRead => step_int_read(alloc, kind, frames),
        Mode::MatrixBegun => Ok(step_matrix_begun(kind, frames)),
        Mode::IndexedRead => Ok(step_indexed_read(kind, frames)),
        Mode::ByRead => step_by_read(alloc, kind, frames),
        Mode::AxesRead => Ok(step_axes_read(kind, frames)),
        Mode::TupleBegun => step_tuple_begun(alloc, kind, frames),
        Mode::RecordBegun => step_record_begun(alloc, kind, frames),
        Mode::FieldNameWanted => Ok(step_field_name_wanted(kind, name, frames)),
        Mode::FieldNameRead(field) => step_field_name_read(kind, field, frames),
        Mode::InnerBegun(inner) => step_inner_begun(alloc, kind, inner, frames),
        Mode::JoiningWanted(inner) => Ok(step_joining_wanted(kind, inner, frames)),
        Mode::RelationBegun => step_relation_begun(alloc, kind, frames),
        Mode::RelationOfWanted => Ok(step_relation_of_wanted(kind, frames)),
        Mode::RelationOfRead => Ok(step_relation_of_read(kind, frames)),
        Mode::FunctionBegun => step_function_begun(alloc, kind, name, frames),
        Mode::FunctionBracketRead => step_function_bracket_read(alloc, kind, name, frames),
        Mode::AttributeWanted => Ok(step_attribute_wanted(kind, &name, frames)),
        Mode::AttributeRead(key) => attribute_read(alloc, kind, name, key, frames),
        Mode::NothingRead => {
            let_frames_go(frames);
            step_nothing_read(alloc, kind, name.as_bytes())
        }
        Mode::LanguageRead => {
            let_frames_go(frames);
            Ok(step_language_read(alloc, kind, name.as_bytes()))
        }
        Mode::LanguageNameRead => {
            let_frames_go(frames);
            Ok(step_language_name_read(alloc, kind))
        }
        Mode::FirstNumberRead => {
            let_frames_go(frames);
            Ok(step_first_number_read(alloc, kind))
        }
        Mode::LanguageDotRead => {
            let_frames_go(frames);
            Ok(step_language_dot_read(alloc, kind))
        }
        Mode::NamesWanted(declared, names, stms) => {
            let_frames_go(frames);
            step_names_wanted(alloc, kind, name.as_bytes(), declared, names, stms)
        }
        Mode::NameRead(declared, names, stms) => {
            let_frames_go(frames);
            step_name_read(alloc, kind, declared, names, stms)
        }
        Mode::GivenNewRead(given, stms) => {
            let_frames_go(frames);
            Ok(step_given_new_read(alloc, kind, given, stms))
        }
        Mode::GivenTypeRead(given, stms) => {
            let_frames_go(frames);
            step_given_type_read(alloc, kind, given, stms)
        }
        Mode::LettingWanted(stms) => {
            let_frames_go(frames);
            step_letting_wanted(alloc, kind, name.as_bytes(), stms)
        }
        Mode::LettingNameRead(letting, stms) => {
            let_frames_go(frames);
            Ok(step_letting_name_read(alloc, kind, letting, stms))
        }
        Mode::BeRead(letting, stms) => {
            let_frames_go(frames);
            be_read(alloc, kind, name, letting, stms)
        }
        Mode::LettingNewRead(letting, stms) => {
            let_frames_go(frames);
            Ok(step_letting_new_read(alloc, kind, letting, stms))
        }
        Mode::LettingTypeRead(letting, stms) => {
            let_frames_go(frames);
            Ok(step_letting_type_read(alloc, kind, letting, stms))
        }
        Mode::EnumRead(letting, stms) => {
            let_frames_go(frames);
            Ok(step_enum_read(alloc, kind, letting, stms))
        }
        Mode::OfRead(letting, stms) => {
            let_frames_go(frames);
            step_of_read(alloc, kind, name.as_bytes(), letting, stms)
        }
        Mode::ValueNameWanted(letting, values, stms) => {
            let_frames_go(frames);
            step_value_name_wanted(alloc, kind, name.as_bytes(), letting, values, stms)
        }
        Mode::ValueNameRead(letting, values, stms) => {
            let_frames_go(frames);
            step_value_name_read(alloc, kind, letting, values, stms)
        }
        Mode::SuchRead(stms) => {
            let_frames_go(frames);
            step_such_read(alloc, kind, stms)
        }
        Mode::StatementRead(opening, stms) => {
            let_frames_go(frames);
            step_statement_read(alloc, kind, name.as_bytes(), opening, stms)
        }
    }
}

/// Behind an attribute's word. `NoMemory` where there is no room.
#[tactic(auto, using(crate::proofs::FirstTokens::number_of_attribute))]
fn attribute_read(
    alloc: Global,
    kind: Kind,
    name: Text,
    key: Key,
    frames: Row<Frame>,
) -> Result<Option<State>, NoMemory>
    requires natural { IsNatural kind }
    ensures { IfOk result (Steps (step_attribute_read (token kind name) key (view_frames frames))) }
{
    if ends_flag(kind) {
        return end_flag(alloc, kind, key, frames);
    }
    match before_value(key, frames) {
        Ok(Some(frames)) => step_operand_wanted(alloc, kind, name, frames),
        Ok(None) => Ok(None),
        Err(no) => Err(no),
    }
}

/// Behind `be` in a letting. `NoMemory` where there is no room.
fn be_read(
    alloc: Global,
    kind: Kind,
    name: Text,
    letting: Text,
    stms: Row<Stm>,
) -> Result<Option<State>, NoMemory>
    requires natural { IsNatural kind }
    ensures { IfOk result (Steps (step_be_read (token kind name) letting (back_stms stms))) }
{
    match kind {
        Kind::Domain => alone(
            alloc,
            Mode::DomainWanted,
            Frame::LettingDomain(letting, stms),
        ),
        Kind::New => Ok(outside(alloc, Mode::LettingNewRead(letting, stms))),
        _ => begin_value(alloc, kind, name, letting, stms),
    }
}

/// Where the letting is one of a value. `NoMemory` where there is no room.
#[tactic(auto, using(crate::proofs::FirstTokens::value_of_letting, ess_parse_frames::proofs::StackLaws::frames_none))]
fn begin_value(
    alloc: Global,
    kind: Kind,
    name: Text,
    letting: Text,
    stms: Row<Stm>,
) -> Result<Option<State>, NoMemory>
    requires value { (bytes : Text) → names_no_value (token kind bytes) ≡ false }
    requires natural { IsNatural kind }
    ensures { IfOk result (Steps (step_be_read (token kind name) letting (back_stms stms))) }
{
    match within(Row::new(alloc), Frame::Letting(letting, stms)) {
        Ok(frames) => step_operand_wanted(alloc, kind, name, frames),
        Err(no) => Err(no),
    }
}
