//! Behind a domain that goes no further.
#![tactic(auto, using(ess_parse_frames::proofs::RowLaws::names_none))]

ghost use Rattle.std.specs.Prelude.{◌≡◌, List, [], ◌∷◌, false, IfOk};
ghost use Rattle.ess_semantics.specs.Trees.{comp_ex, matrix_ex, no_doms};
ghost use Rattle.ess_grammar.specs.Grammar.{sorted_record};
ghost use Rattle.ess_grammar.specs.Words.{Text};
ghost use Rattle.ess_grammar.specs.Kinds.{token};
ghost use Rattle.ess_parse_laws.specs.Frames as machine;
ghost use Rattle.ess_parse_laws.specs.Modes.{at_state, domain_read};
ghost use Rattle.ess_parse_laws.specs.Reversed.{reverse_doms, reverse_list};
ghost use Rattle.ess_parse_laws.specs.Reducing.{reduce_domain};
ghost use Rattle.ess_parse_laws.specs.AfterDomains.{domain_then, reduced_domain_then, domain_then_comma, domain_then_dot, domain_then_close_square, domain_then_close_curly, domain_then_maps_to};
ghost use Rattle.ess_core.specs.TreeViews.{pure_ex, pure_exs, pure_dom, pure_gens};
ghost use Rattle.ess_parse_frames.specs.Rows.{back_dom_names, back_field_doms};
ghost use Rattle.ess_parse_frames.specs.Views.{view_frame, view_frames, Steps};
ghost use Rattle.ess_parse_domains.specs.Several.{goes_on};

use crate::products::{domain_then_close_round, domain_then_times};
use ess_core::{Dom, Ex, FieldDom, Gen, Stm};
use ess_grammar::Kind;
use ess_parse_frames::domain_parts::{
    all_domains, items_behind_domain, let_domain_go, stop_behind_domain,
};
use ess_parse_frames::generators::all_over;
use ess_parse_frames::records::sorted_record;
use ess_parse_frames::reducing::{ReducedDomain, reduce_domain};
use ess_parse_frames::rows::{with_domain, with_field_domain, with_statement};
use ess_parse_frames::stack::{Top, domain_read, expression_read, innermost, inside, outside};
use ess_parse_frames::statements::{begin_after, declarations, declared};
use ess_parse_frames::stops::{let_frames_go, refuse, refuse_behind};
use ess_parse_frames::{Frame, Head, Mode, State};
use ess_rows::{Boxed, NoMemory, Row};
use std::alloc::Global;

/// What a token does behind a domain: it closes the frames that end with it, and then goes on with the one outside.
/// `NoMemory` where there is no room.
pub fn reduced_domain_then(
    alloc: Global,
    kind: Kind,
    frames: Row<Frame>,
    domain: Boxed<Dom>,
) -> Result<Option<State>, NoMemory>
    ensures { (bytes : Text) → IfOk result (Steps (reduced_domain_then (token kind bytes) (reduce_domain (view_frames frames) (pure_dom domain)))) }
{
    let ReducedDomain { frames, domain } = reduce_domain(alloc, frames, domain)?;
    domain_then(alloc, kind, frames, domain)
}

/// What a token does behind a domain that closes no frame. `NoMemory` where there is no room.
pub fn domain_then(
    alloc: Global,
    kind: Kind,
    frames: Row<Frame>,
    domain: Boxed<Dom>,
) -> Result<Option<State>, NoMemory>
    ensures { (bytes : Text) → IfOk result (Steps (domain_then (token kind bytes) (view_frames frames) (pure_dom domain))) }
{
    match innermost(frames) {
        Some(top) => domain_then_in(alloc, kind, top, domain),
        None => {
            let_domain_go(domain);
            Ok(None)
        }
    }
}

/// The same in this innermost frame. `NoMemory` where there is no room.
fn domain_then_in(
    alloc: Global,
    kind: Kind,
    top: Top,
    domain: Boxed<Dom>,
) -> Result<Option<State>, NoMemory>
    ensures { (bytes : Text) → IfOk result (Steps (domain_then (token kind bytes) (view_frame top.frame ∷ view_frames top.frames) (pure_dom domain))) }
{
    let Top { frame, frames } = top;
    match kind {
        Kind::Comma => domain_then_comma(alloc, frame, frames, domain),
        Kind::Dot => domain_then_dot(alloc, frame, frames, domain),
        Kind::CloseSquare => domain_then_close_square(alloc, frame, frames, domain),
        Kind::CloseRound => domain_then_close_round(alloc, frame, frames, domain),
        Kind::CloseCurly => domain_then_close_curly(alloc, frame, frames, domain),
        Kind::MapsTo => domain_then_maps_to(frame, frames, domain),
        Kind::Star => domain_then_times(frame, frames, domain),
        _ => {
            let_frames_go(frames);
            begin_statement(alloc, kind, frame, domain)
        }
    }
}

/// What any other token does: a word begins the next statement, where the domain ends one. `NoMemory` where there is no room.
fn begin_statement(
    alloc: Global,
    kind: Kind,
    frame: Frame,
    domain: Boxed<Dom>,
) -> Result<Option<State>, NoMemory>
    requires { (bytes : Text) → goes_on (token kind bytes) ≡ false }
    ensures { (bytes : Text) (outer : List machine.Frame) → IfOk result (Steps (domain_then (token kind bytes) (view_frame frame ∷ outer) (pure_dom domain))) }
{
    let ended = declared(alloc, frame, domain)?;
    begin_after(alloc, kind, ended)
}

/// A comma goes on with items, domains of a list, or a list of statements. `NoMemory` where there is no room.
pub fn domain_then_comma(
    alloc: Global,
    frame: Frame,
    frames: Row<Frame>,
    domain: Boxed<Dom>,
) -> Result<Option<State>, NoMemory>
    ensures { IfOk result (Steps (domain_then_comma (view_frame frame ∷ view_frames frames) (pure_dom domain))) }
{
    match frame {
        Frame::GeneratorDomain(head, names, items, patterns) => match items_behind_domain(
            alloc, head, names, items, patterns, domain,
        ) {
            Ok(frame) => inside(Mode::OperandWanted, frame, frames),
            Err(no) => refuse(no, frames),
        },
        Frame::Axes(domains) => match with_domain(domains, domain) {
            Ok(domains) => inside(Mode::DomainWanted, Frame::Axes(domains), frames),
            Err(no) => refuse(no, frames),
        },
        Frame::TupleDomains(at_least, domains) => match with_domain(domains, domain) {
            Ok(domains) => inside(
                Mode::DomainWanted,
                Frame::TupleDomains(at_least, domains),
                frames,
            ),
            Err(no) => refuse(no, frames),
        },
        Frame::FieldDomain(fields, name) => match with_field_domain(fields, name, domain) {
            Ok(fields) => inside(Mode::FieldNameWanted, Frame::FieldNames(fields), frames),
            Err(no) => refuse(no, frames),
        },
        Frame::Declaration(word, names, statements) => {
            let_frames_go(frames);
            let statements = declarations(alloc, word, names, domain, statements)?;
            Ok(outside(alloc, Mode::NamesWanted(word, Row::new(alloc), statements)))
        }
        Frame::LettingDomain(name, statements) => {
            let_frames_go(frames);
            let statements = with_statement(statements, Stm::LetDom(name, domain))?;
            Ok(outside(alloc, Mode::LettingWanted(statements)))
        }
        other => stop_behind_domain(other, frames, domain),
    }
}

/// A dot ends the items of a quantifier. `NoMemory` where there is no room.
pub fn domain_then_dot(
    alloc: Global,
    frame: Frame,
    frames: Row<Frame>,
    domain: Boxed<Dom>,
) -> Result<Option<State>, NoMemory>
    ensures { IfOk result (Steps (domain_then_dot (view_frame frame ∷ view_frames frames) (pure_dom domain))) }
{
    match frame {
        Frame::GeneratorDomain(head, names, items, patterns) => match head {
            Head::Quantifier(fold) => match all_over(alloc, items, patterns, domain) {
                Ok(items) => inside(Mode::OperandWanted, Frame::Body(fold, items), frames),
                Err(no) => refuse(no, frames),
            },
            head => stop_behind_domain(
                Frame::GeneratorDomain(head, names, items, patterns),
                frames,
                domain,
            ),
        },
        other => stop_behind_domain(other, frames, domain),
    }
}

/// A comprehension of a body and items.
#[tactic(auto, using(ess_core::proofs::ExpressionEquations::pure_comp))]
fn comprehension(body: Boxed<Ex>, items: Row<Gen>) -> Ex
    ensures { pure_ex result ≡ comp_ex (pure_ex body) (pure_gens items) }
{
    Ex::Comp(body, items)
}

/// A matrix literal of items with its index domain.
#[tactic(auto, using(ess_core::proofs::ExpressionEquations::pure_matrix_on))]
fn matrix(items: Row<Ex>, axis: Boxed<Dom>) -> Ex
    ensures { pure_ex result ≡ matrix_ex (pure_exs items) (pure_dom axis) }
{
    Ex::Matrix(items, Some(axis))
}

/// A closing square bracket ends a comprehension, a matrix, or the index domains of one. `NoMemory` where there is no room.
pub fn domain_then_close_square(
    alloc: Global,
    frame: Frame,
    frames: Row<Frame>,
    domain: Boxed<Dom>,
) -> Result<Option<State>, NoMemory>
    ensures { IfOk result (Steps (domain_then_close_square (view_frame frame ∷ view_frames frames) (pure_dom domain))) }
{
    match frame {
        Frame::GeneratorDomain(head, names, items, patterns) => match head {
            Head::Comprehension(body) => match all_over(alloc, items, patterns, domain) {
                Ok(items) => expression_read(alloc, comprehension(body, items), frames),
                Err(no) => refuse_behind(no, body, frames),
            },
            head => stop_behind_domain(
                Frame::GeneratorDomain(head, names, items, patterns),
                frames,
                domain,
            ),
        },
        Frame::IndexDomain(items) => expression_read(alloc, matrix(items, domain), frames),
        Frame::Axes(domains) => match all_domains(domains, domain) {
            Ok(domains) => inside(Mode::AxesRead, Frame::Element(domains), frames),
            Err(no) => refuse(no, frames),
        },
        other => stop_behind_domain(other, frames, domain),
    }
}

/// A closing curly bracket ends the fields of a record. `NoMemory` where there is no room.
pub fn domain_then_close_curly(
    alloc: Global,
    frame: Frame,
    frames: Row<Frame>,
    domain: Boxed<Dom>,
) -> Result<Option<State>, NoMemory>
    ensures { IfOk result (Steps (domain_then_close_curly (view_frame frame ∷ view_frames frames) (pure_dom domain))) }
{
    match frame {
        Frame::FieldDomain(fields, name) => match with_field_domain(fields, name, domain) {
            Ok(fields) => record_read(alloc, fields, frames),
            Err(no) => refuse(no, frames),
        },
        other => stop_behind_domain(other, frames, domain),
    }
}

/// Behind all fields of a record. `NoMemory` where there is no room.
fn record_read(
    alloc: Global,
    fields: Row<FieldDom>,
    frames: Row<Frame>,
) -> Result<Option<State>, NoMemory>
    ensures { IfOk result (Steps (at_state (domain_read (sorted_record (reverse_list (back_dom_names fields) []) (reverse_doms (back_field_doms fields) no_doms))) (view_frames frames))) }
{
    match sorted_record(fields) {
        Ok(record) => domain_read(alloc, record, frames),
        Err(no) => refuse(no, frames),
    }
}

/// A long arrow stands between the domains of a function. `NoMemory` where there is no room.
pub fn domain_then_maps_to(
    frame: Frame,
    frames: Row<Frame>,
    domain: Boxed<Dom>,
) -> Result<Option<State>, NoMemory>
    ensures { IfOk result (Steps (domain_then_maps_to (view_frame frame ∷ view_frames frames) (pure_dom domain))) }
{
    match frame {
        Frame::FunctionFrom(attributes) => inside(
            Mode::DomainWanted,
            Frame::FunctionTo(attributes, domain),
            frames,
        ),
        other => stop_behind_domain(other, frames, domain),
    }
}
