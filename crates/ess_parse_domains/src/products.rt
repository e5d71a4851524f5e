//! Behind the domains of a tuple or a relation.
#![tactic(auto)]

ghost use Rattle.std.specs.Prelude.{◌≡◌, ◌∷◌, not, ◌||◌, IfOk};
ghost use Rattle.ess_semantics.specs.Trees.{tuple_dom, relation_dom, no_doms, more_doms};
ghost use Rattle.ess_parse_laws.specs.Frames.{tuple_domains_frame, relation_domains_frame};
ghost use Rattle.ess_parse_laws.specs.Modes.{at_state, domain_read};
ghost use Rattle.ess_parse_laws.specs.Reversed.{reverse_doms};
ghost use Rattle.ess_parse_laws.specs.AfterDomains.{domain_then_close_round, domain_then_times};
ghost use Rattle.ess_core.specs.TreeViews.{pure_dom};
ghost use Rattle.ess_parse_frames.specs.Rows.{back_doms, marks_of, numbers_of};
ghost use Rattle.ess_parse_frames.specs.Views.{two_needed, view_frame, view_frames, Steps};
ghost use Rattle.ess_parse_domains.specs.Several.{are_any};

use ess_core::{Attr, Dom};
use ess_parse_frames::domain_parts::{
    all_domains, let_attributes_go, relation_of, stop_behind_domain,
};
use ess_parse_frames::rows::with_domain;
use ess_parse_frames::stack::{domain_read, inside};
use ess_parse_frames::stops::refuse;
use ess_parse_frames::{AtLeast, Frame, Mode, State};
use ess_rows::{Boxed, NoMemory, Row};
use std::alloc::Global;

/// Are there any domains?
fn are_any(domains: &Row<Dom>) -> bool
    ensures { result ≡ are_any (back_doms domains.now) }
{
    !domains.is_empty()
}

/// May a tuple of at least so many domains end with one domain more?
fn has_enough(at_least: AtLeast, domains: &Row<Dom>) -> bool
    ensures { result ≡ (not (two_needed at_least) || are_any (back_doms domains.now)) }
{
    match at_least {
        AtLeast::One => true,
        AtLeast::Two => are_any(domains),
    }
}

/// A closing round bracket ends a tuple or a relation. A tuple without its word, and a relation, have two domains or more.
/// `NoMemory` where there is no room.
pub fn domain_then_close_round(
    alloc: Global,
    frame: Frame,
    frames: Row<Frame>,
    domain: Boxed<Dom>,
) -> Result<Option<State>, NoMemory>
    ensures { IfOk result (Steps (domain_then_close_round (view_frame frame ∷ view_frames frames) (pure_dom domain))) }
{
    match frame {
        Frame::TupleDomains(at_least, domains) => end_tuple(
            alloc, at_least, domains, domain, frames,
        ),
        Frame::RelationDomains(attributes, domains) => end_relation(
            alloc, attributes, domains, domain, frames,
        ),
        other => stop_behind_domain(other, frames, domain),
    }
}

/// Behind the tuple of all domains, the last of which is `last`. `NoMemory` where there is no room.
#[tactic(auto, using(ess_core::proofs::DomainEquations::pure_tuple))]
fn tuple_read(
    alloc: Global,
    domains: Row<Dom>,
    last: Boxed<Dom>,
    frames: Row<Frame>,
) -> Result<Option<State>, NoMemory>
    ensures { IfOk result (Steps (at_state (domain_read (tuple_dom (reverse_doms (back_doms domains) (more_doms (pure_dom last) no_doms)))) (view_frames frames))) }
{
    match all_domains(domains, last) {
        Ok(domains) => domain_read(alloc, Dom::Tuple(domains), frames),
        Err(no) => refuse(no, frames),
    }
}

/// Behind all domains of a tuple, the last of which is `last`; it has at least so many. `NoMemory` where there is no room.
fn end_tuple(
    alloc: Global,
    at_least: AtLeast,
    domains: Row<Dom>,
    last: Boxed<Dom>,
    frames: Row<Frame>,
) -> Result<Option<State>, NoMemory>
    ensures { IfOk result (Steps (domain_then_close_round (tuple_domains_frame (two_needed at_least) (back_doms domains) ∷ view_frames frames) (pure_dom last))) }
{
    if has_enough(at_least, &domains) {
        tuple_read(alloc, domains, last, frames)
    } else {
        stop_behind_domain(Frame::TupleDomains(at_least, domains), frames, last)
    }
}

/// Behind the relation of all domains, the last of which is `last`. `NoMemory` where there is no room.
fn relation_read(
    alloc: Global,
    attributes: Row<Attr>,
    domains: Row<Dom>,
    last: Boxed<Dom>,
    frames: Row<Frame>,
) -> Result<Option<State>, NoMemory>
    ensures { IfOk result (Steps (at_state (domain_read (relation_dom (marks_of attributes) (numbers_of attributes) (reverse_doms (back_doms domains) (more_doms (pure_dom last) no_doms)))) (view_frames frames))) }
{
    match relation_of(attributes, domains, last) {
        Ok(relation) => domain_read(alloc, relation, frames),
        Err(no) => refuse(no, frames),
    }
}

/// Behind all domains of a relation, the last of which is `last`. `NoMemory` where there is no room.
fn end_relation(
    alloc: Global,
    attributes: Row<Attr>,
    domains: Row<Dom>,
    last: Boxed<Dom>,
    frames: Row<Frame>,
) -> Result<Option<State>, NoMemory>
    ensures { IfOk result (Steps (domain_then_close_round (relation_domains_frame (marks_of attributes) (numbers_of attributes) (back_doms domains) ∷ view_frames frames) (pure_dom last))) }
{
    if are_any(&domains) {
        relation_read(alloc, attributes, domains, last, frames)
    } else {
        stop_behind_domain(Frame::RelationDomains(attributes, domains), frames, last)
    }
}

/// A star stands between the domains of a relation. `NoMemory` where there is no room.
pub fn domain_then_times(
    frame: Frame,
    frames: Row<Frame>,
    domain: Boxed<Dom>,
) -> Result<Option<State>, NoMemory>
    ensures { IfOk result (Steps (domain_then_times (view_frame frame ∷ view_frames frames) (pure_dom domain))) }
{
    match frame {
        Frame::RelationDomains(attributes, domains) => relation_then_times(
            attributes, domains, frames, domain,
        ),
        other => stop_behind_domain(other, frames, domain),
    }
}

/// Behind a domain of a relation and a star another one is wanted. `NoMemory` where there is no room.
fn relation_then_times(
    attributes: Row<Attr>,
    domains: Row<Dom>,
    frames: Row<Frame>,
    domain: Boxed<Dom>,
) -> Result<Option<State>, NoMemory>
    ensures { IfOk result (Steps (domain_then_times (relation_domains_frame (marks_of attributes) (numbers_of attributes) (back_doms domains) ∷ view_frames frames) (pure_dom domain))) }
{
    match with_domain(domains, domain) {
        Ok(domains) => inside(
            Mode::DomainWanted,
            Frame::RelationDomains(attributes, domains),
            frames,
        ),
        Err(no) => {
            let_attributes_go(attributes);
            refuse(no, frames)
        }
    }
}
