//! Lettings put into domains.
ghost use Rattle.std.specs.Prelude.{◌≡◌, IfOk, OnOk};
ghost use Rattle.ess_semantics.specs.Names.{look};
ghost use Rattle.ess_semantics.specs.Lettings.{put_dom, put_dom_name};
ghost use Rattle.ess_core.specs.TreeViews.{pure_dom};
ghost use Rattle.ess_types_names.specs.Tables.{pure_table};
ghost use Rattle.ess_types_scopes.specs.Kept.{pure_lettings};

use crate::attributes::put_attrs;
use crate::domain_rows::{put_doms, put_record};
use crate::ranges::put_ranges;
use ess_core::{Boxed, Dom, NoMemory, Text};
use ess_types_names::TypeTable;
use ess_types_scopes::Lettings;
use std::alloc::Global;

/// The domain with lettings put in, under the types of names. The table is as it was. `NoMemory` where there is no room for it;
/// the table may then hold further bound names.
#[cycle(put)]
pub fn put_dom(
    alloc: Global,
    dom: &Dom,
    lettings: &Lettings,
    table: &mut TypeTable,
) -> Result<Boxed<Dom>, NoMemory>
    ensures ok { IfOk result (λ d. pure_dom d ≡ put_dom (pure_dom dom.now) (pure_lettings lettings.now) (pure_table table.old)) }
    ensures kept { OnOk result (table.new ≡ table.old) }
{
    match dom {
        Dom::Bool => Boxed::new(alloc, Dom::Bool),
        Dom::Int(ranges) => {
            let ranges = put_ranges(alloc, ranges.as_slice(), lettings, table)?;
            Boxed::new(alloc, Dom::Int(ranges))
        }
        Dom::Name(name) => put_dom_name(alloc, name, lettings),
        Dom::Tuple(doms) => {
            let doms = put_doms(alloc, doms.as_slice(), lettings, table)?;
            Boxed::new(alloc, Dom::Tuple(doms))
        }
        Dom::Rec(fields) => {
            let fields = put_record(alloc, fields.as_slice(), lettings, table)?;
            Boxed::new(alloc, Dom::Rec(fields))
        }
        Dom::Matrix(axes, item) => {
            let axes = put_doms(alloc, axes.as_slice(), lettings, table)?;
            let item = put_dom(alloc, item.get(), lettings, table)?;
            Boxed::new(alloc, Dom::Matrix(axes, item))
        }
        Dom::Set(attrs, member) => {
            let attrs = put_attrs(alloc, attrs.as_slice(), lettings, table)?;
            let member = put_dom(alloc, member.get(), lettings, table)?;
            Boxed::new(alloc, Dom::Set(attrs, member))
        }
        Dom::MSet(attrs, member) => {
            let attrs = put_attrs(alloc, attrs.as_slice(), lettings, table)?;
            let member = put_dom(alloc, member.get(), lettings, table)?;
            Boxed::new(alloc, Dom::MSet(attrs, member))
        }
        Dom::Function(attrs, from, to) => {
            let attrs = put_attrs(alloc, attrs.as_slice(), lettings, table)?;
            let from = put_dom(alloc, from.get(), lettings, table)?;
            let to = put_dom(alloc, to.get(), lettings, table)?;
            Boxed::new(alloc, Dom::Function(attrs, from, to))
        }
        Dom::Relation(attrs, doms) => {
            let attrs = put_attrs(alloc, attrs.as_slice(), lettings, table)?;
            let doms = put_doms(alloc, doms.as_slice(), lettings, table)?;
            Boxed::new(alloc, Dom::Relation(attrs, doms))
        }
        Dom::Partition(attrs, member) => {
            let attrs = put_attrs(alloc, attrs.as_slice(), lettings, table)?;
            let member = put_dom(alloc, member.get(), lettings, table)?;
            Boxed::new(alloc, Dom::Partition(attrs, member))
        }
    }
}

/// A domain's name, or the domain that it stands for.
fn put_dom_name(alloc: Global, name: &Text, lettings: &Lettings) -> Result<Boxed<Dom>, NoMemory>
    ensures { IfOk result (λ d. pure_dom d ≡ put_dom_name (look (pure_lettings lettings.now).doms name.now) name.now) }
{
    match lettings.dom(name) {
        Some(dom) => Boxed::new(alloc, dom.copy(alloc)?),
        None => Boxed::new(alloc, Dom::Name(name.copy(alloc)?)),
    }
}
