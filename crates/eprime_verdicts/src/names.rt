ghost use Rattle.std.specs.Prelude.{◌≡◌, map};
ghost use Rattle.std.specs.Option.{option_copied};
ghost use Rattle.ess_semantics.specs.Names.{keys, is_among};
ghost use Rattle.ess_semantics.specs.Order.{same_text};
ghost use Rattle.ess_core.specs.TableViews.{pure_named_table};
ghost use Rattle.eprime_verdicts.specs.NamesInOrder.{declared_names, missing_of, extra_of};

use eprime_tree::PDecl;
use ess_core::NamedTable;
use ess_rows::Text;
use std::cmp::Ordering;

/// The first declared name that no table has, if there is one.
#[tactic(auto, using(crate::proofs::NamesInOrder::missing))]
pub(crate) fn first_missing<'a>(decls: &'a [PDecl], tables: &[NamedTable]) -> Option<&'a Text>
    ensures { option_copied result ≡ missing_of (declared_names decls.now) (keys (map pure_named_table tables.now)) }
{
    for decl in decls {
        if !is_named(tables, &decl.name) {
            return Some(&decl.name);
        }
    }
    None
}

/// The name of the first table that doesn't stand in the place of its declaration, if there is one.
#[tactic(auto, using(crate::proofs::NamesInOrder::extra))]
pub(crate) fn first_extra<'a>(decls: &[PDecl], tables: &'a [NamedTable]) -> Option<&'a Text>
    ensures { option_copied result ≡ extra_of (declared_names decls.now) (keys (map pure_named_table tables.now)) }
{
    for (place, table) in tables.iter().enumerate() {
        if place >= decls.len() {
            return Some(&table.name);
        }
        if !same_name(&decls[place].name, &table.name) {
            return Some(&table.name);
        }
    }
    None
}

/// Whether a table has the name.
#[tactic(auto, using(crate::proofs::NamesInOrder::named))]
fn is_named(tables: &[NamedTable], name: &Text) -> bool
    ensures { result ≡ is_among (keys (map pure_named_table tables.now)) name.now }
{
    for table in tables {
        if same_name(&table.name, name) {
            return true;
        }
    }
    false
}

/// Whether two names are equal.
fn same_name(a: &Text, b: &Text) -> bool
    ensures { result ≡ same_text a.now b.now }
{
    a.cmp(b) == Ordering::Equal
}
