//! Parts of domains that another domain ends, and where no text goes on behind a domain.
ghost use Rattle.std.specs.Prelude.{◌≡◌, ◌++◌, [], Ok, None, IfOk};
ghost use Rattle.ess_semantics.specs.Trees.{int_dom, no_doms, no_exs, more_doms, relation_dom};
ghost use Rattle.ess_grammar.specs.Patterns.{all_bound_by};
ghost use Rattle.ess_parse_laws.specs.Frames.{items_frame};
ghost use Rattle.ess_parse_laws.specs.Reversed.{push_all_over, reverse_doms};
ghost use Rattle.ess_core.specs.TreeViews.{pure_dom, pure_doms};
ghost use Rattle.ess_parse_frames.specs.Patterns.{pats_in_order};
ghost use Rattle.ess_parse_frames.specs.Rows.{back_doms, back_gens, marks_of, numbers_of};
ghost use Rattle.ess_parse_frames.specs.Views.{view_frame, view_head};

use crate::generators::{over_each, with_all_names};
use crate::rows::int_of_ranges;
use crate::{Frame, Head, State};
use ess_bound_names::BoundNames;
use ess_core::{Attr, Dom, Gen, Pat};
use ess_rows::{Boxed, NoMemory, Row};
use std::alloc::Global;

/// All domains, in order, the last of which is `last`. `NoMemory` where there is no room for it.
#[tactic(auto, using(crate::proofs::RowLaws::doms_whole))]
pub fn all_domains(domains: Row<Dom>, last: Boxed<Dom>) -> Result<Row<Dom>, NoMemory>
    ensures { IfOk result (λ ds. reverse_doms (back_doms domains) (more_doms (pure_dom last) no_doms) ≡ pure_doms ds) }
{
    let mut domains = domains;
    domains.push(last.into_inner())?;
    Ok(domains)
}

/// The relation of all domains, the last of which is `last`. `NoMemory` where there is no room for it.
#[tactic(auto, using(ess_core::proofs::DomainEquations::pure_relation), unfolding(crate::specs::Rows::marks_of, crate::specs::Rows::numbers_of))]
pub fn relation_of(
    attributes: Row<Attr>,
    domains: Row<Dom>,
    last: Boxed<Dom>,
) -> Result<Dom, NoMemory>
    ensures { IfOk result (λ d. pure_dom d ≡ relation_dom (marks_of attributes) (numbers_of attributes) (reverse_doms (back_doms domains) (more_doms (pure_dom last) no_doms))) }
{
    let domains = all_domains(domains, last)?;
    Ok(Dom::Relation(attributes, domains))
}

/// The int domain without ranges. `NoMemory` where there is no room for it.
#[tactic(auto, using(crate::proofs::RowLaws::ends_none, crate::proofs::RowLaws::bounds_none))]
pub fn whole_int(alloc: Global) -> Result<Boxed<Dom>, NoMemory>
    ensures { IfOk result (λ d. pure_dom d ≡ int_dom [] no_exs) }
{
    Boxed::new(alloc, int_of_ranges(Row::new(alloc)))
}

/// The frame behind a generator over a domain and a comma, where another item is wanted. `NoMemory` where there is no room.
#[tactic(auto, using(crate::proofs::PatternLaws::pats_none))]
pub fn items_behind_domain(
    alloc: Global,
    head: Head,
    names: BoundNames,
    items: Row<Gen>,
    patterns: Row<Pat>,
    domain: Boxed<Dom>,
) -> Result<Frame, NoMemory>
    ensures { IfOk result (λ f. view_frame f ≡ items_frame (view_head head) (names ++ all_bound_by (pats_in_order patterns)) (push_all_over (pats_in_order patterns) (pure_dom domain) (back_gens items)) no_exs) }
{
    let names = with_all_names(alloc, names, &patterns)?;
    let items = over_each(alloc, items, patterns, domain)?;
    Ok(Frame::Items(head, names, items, Row::new(alloc)))
}

/// Lets a frame go.
pub fn let_frame_go(frame: Frame) {
    drop(frame);
}

/// Lets a domain go.
pub fn let_domain_go(domain: Boxed<Dom>) {
    drop(domain);
}

/// Lets attributes go.
pub fn let_attributes_go(attributes: Row<Attr>) {
    drop(attributes);
}

/// No text goes on so behind this domain in this innermost frame.
pub fn stop_behind_domain(
    frame: Frame,
    frames: Row<Frame>,
    domain: Boxed<Dom>,
) -> Result<Option<State>, NoMemory>
    ensures { result ≡ Ok None }
{
    drop(frame);
    drop(frames);
    drop(domain);
    Ok(None)
}
