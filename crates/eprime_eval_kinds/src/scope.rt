ghost use Rattle.std.specs.Prelude.{◌≡◌, ◌∷◌, option_map, reverse, IfOk, OnOk};
ghost use Rattle.std.specs.List.{find};
ghost use Rattle.std.specs.Option.{option_copied};
ghost use Rattle.ess_semantics.specs.Order.{same_text};
ghost use Rattle.ess_semantics.specs.Names.{look};
ghost use Rattle.eprime_eval_kinds.specs.KindedViews.{pure_kind};
ghost use Rattle.eprime_eval_kinds.specs.BoundNames.{scope_kinds};

use crate::tree::Kind;
use ess_rows::{NoMemory, Row, Text};
use std::alloc::Global;
use std::cmp::Ordering;

/// A name that a generator binds, with its kind. The names that are bound around an expression stand in a row, the innermost last.
#[derive(Drop)]
pub struct BoundName {
    pub name: Text,
    pub kind: Kind,
}

/// Binds a name of this kind inside the others. `NoMemory` where there is no room for it.
#[tactic(auto, using(crate::proofs::BoundNames::one_more))]
pub(crate) fn bind(
    alloc: Global,
    scope: &mut Row<BoundName>,
    name: &Text,
    kind: Kind,
) -> Result<(), NoMemory>
    ensures { OnOk result (scope_kinds scope.new ≡ (name.now, pure_kind kind) ∷ scope_kinds scope.old) }
{
    let name = name.copy(alloc)?;
    scope.push(BoundName { name, kind })
}

/// The kind of a name, if it is bound: that of the innermost generator that binds it.
#[tactic(auto, using(crate::proofs::BoundNames::kind_there, crate::proofs::BoundNames::kind_none))]
pub(crate) fn kind_of(scope: &[BoundName], name: &Text) -> Option<Kind>
    ensures { option_map pure_kind result ≡ look (scope_kinds scope.now) name.now }
{
    match newest(scope, name) {
        Some(bound) => Some(bound.kind),
        None => None,
    }
}

/// A copy of the names, in order. `NoMemory` where there is no room for it.
pub(crate) fn copy_names(alloc: Global, names: &[BoundName]) -> Result<Row<BoundName>, NoMemory>
    ensures { IfOk result (λ ns. ns ≡ names.now) }
{
    let mut copies = Row::with_capacity(alloc, names.len())?;
    for bound in names {
        let name = bound.name.copy(alloc)?;
        copies.push(BoundName {
            name,
            kind: bound.kind,
        })?;
    }
    Ok(copies)
}

/// The last of the names that is this one.
fn newest<'a>(names: &'a [BoundName], name: &Text) -> Option<&'a BoundName>
    ensures { option_copied result ≡ find (λ b. same_text b.name name.now) (reverse names.now) }
{
    names
        .iter()
        .rev()
        .find(|bound| same_name(&bound.name, name))
}

/// Whether two names are equal.
fn same_name(a: &Text, b: &Text) -> bool
    ensures { result ≡ same_text a.now b.now }
{
    a.cmp(b) == Ordering::Equal
}
