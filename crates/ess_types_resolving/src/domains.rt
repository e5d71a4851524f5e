//! Domains, resolved.
ghost use Rattle.std.specs.Prelude.{◌≡◌, IfOk, OnOk};
ghost use Rattle.ess_semantics.specs.Resolving.{resolve_dom};
ghost use Rattle.ess_core.specs.TreeViews.{pure_dom};
ghost use Rattle.ess_types_names.specs.Tables.{pure_table};

use crate::domain_rows::{resolve_attrs, resolve_dom_fields, resolve_doms, resolve_ranges};
use ess_core::{Boxed, Dom, NoMemory};
use ess_types_names::TypeTable;
use std::alloc::Global;

/// The domain, with the expressions in it resolved under the types of names. The table is as it was. `NoMemory` where there is
/// no room for it; the table may then hold further bound names.
#[cycle(resolve)]
pub fn resolve_dom(alloc: Global, dom: &Dom, table: &mut TypeTable) -> Result<Boxed<Dom>, NoMemory>
    ensures ok { IfOk result (λ d. pure_dom d ≡ resolve_dom (pure_dom dom.now) (pure_table table.old)) }
    ensures kept { OnOk result (table.new ≡ table.old) }
{
    match dom {
        Dom::Bool => Boxed::new(alloc, Dom::Bool),
        Dom::Int(ranges) => {
            let ranges = resolve_ranges(alloc, ranges.as_slice(), table)?;
            Boxed::new(alloc, Dom::Int(ranges))
        }
        Dom::Name(name) => {
            let name = name.copy(alloc)?;
            Boxed::new(alloc, Dom::Name(name))
        }
        Dom::Tuple(doms) => {
            let doms = resolve_doms(alloc, doms.as_slice(), table)?;
            Boxed::new(alloc, Dom::Tuple(doms))
        }
        Dom::Rec(fields) => {
            let fields = resolve_dom_fields(alloc, fields.as_slice(), table)?;
            Boxed::new(alloc, Dom::Rec(fields))
        }
        Dom::Matrix(axes, item) => {
            let axes = resolve_doms(alloc, axes.as_slice(), table)?;
            let item = resolve_dom(alloc, item.get(), table)?;
            Boxed::new(alloc, Dom::Matrix(axes, item))
        }
        Dom::Set(attrs, member) => {
            let attrs = resolve_attrs(alloc, attrs.as_slice(), table)?;
            let member = resolve_dom(alloc, member.get(), table)?;
            Boxed::new(alloc, Dom::Set(attrs, member))
        }
        Dom::MSet(attrs, member) => {
            let attrs = resolve_attrs(alloc, attrs.as_slice(), table)?;
            let member = resolve_dom(alloc, member.get(), table)?;
            Boxed::new(alloc, Dom::MSet(attrs, member))
        }
        Dom::Function(attrs, from, to) => {
            let attrs = resolve_attrs(alloc, attrs.as_slice(), table)?;
            let from = resolve_dom(alloc, from.get(), table)?;
            let to = resolve_dom(alloc, to.get(), table)?;
            Boxed::new(alloc, Dom::Function(attrs, from, to))
        }
        Dom::Relation(attrs, doms) => {
            let attrs = resolve_attrs(alloc, attrs.as_slice(), table)?;
            let doms = resolve_doms(alloc, doms.as_slice(), table)?;
            Boxed::new(alloc, Dom::Relation(attrs, doms))
        }
        Dom::Partition(attrs, member) => {
            let attrs = resolve_attrs(alloc, attrs.as_slice(), table)?;
            let member = resolve_dom(alloc, member.get(), table)?;
            Boxed::new(alloc, Dom::Partition(attrs, member))
        }
    }
}
