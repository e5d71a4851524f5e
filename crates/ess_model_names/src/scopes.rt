//! Names that are bound around a place of a tree, with what they have become.
ghost use Rattle.std.specs.Prelude.{◌≡◌, ◌∷◌, reverse, IfOk, OnOk};
ghost use Rattle.std.specs.Option.{option_copied};
ghost use Rattle.std.specs.List.{find};
ghost use Rattle.ess_semantics.specs.Order.{same_text};
ghost use Rattle.ess_semantics.specs.Trees.{name_ex};
ghost use Rattle.ess_core_nodes.specs.NodeViews.{pure_node};
ghost use Rattle.conjure_model_laws.specs.ToldApart.{renamed};
ghost use Rattle.ess_model_names.specs.Renames.{pure_scope, Extends};

use ess_core_nodes::Node;
use ess_rows::{Boxed, NoMemory, Row, Text};
use std::alloc::Global;
use std::cmp::Ordering;

/// A bound name with what it has become. In a row of them the last one counts.
#[derive(Drop)]
pub struct Renamed {
    pub name: Text,
    pub to: Text,
}

/// The node of what a name has become where it is bound, else of the name. `NoMemory` where there is no room for it.
pub fn renamed_name(alloc: Global, scope: &[Renamed], name: &Text) -> Result<Boxed<Node>, NoMemory>
    ensures { IfOk result (λ n. pure_node n ≡ name_ex (renamed (pure_scope scope.now) name.now)) }
{
    let name = new_name(alloc, scope, name)?;
    Boxed::new(alloc, Node::Name(name))
}

/// What a name has become where it is bound, else the name.
#[tactic(auto, using(crate::proofs::ScopeLaws::newest_there, crate::proofs::ScopeLaws::newest_none))]
fn new_name(alloc: Global, scope: &[Renamed], name: &Text) -> Result<Text, NoMemory>
    ensures { IfOk result (λ t. t ≡ renamed (pure_scope scope.now) name.now) }
{
    match newest(scope, name) {
        Some(bound) => bound.to.copy(alloc),
        None => name.copy(alloc),
    }
}

/// The last of the names that is this one.
fn newest<'a>(scope: &'a [Renamed], name: &Text) -> Option<&'a Renamed>
    ensures { option_copied result ≡ find (λ r. same_text r.name name.now) (reverse scope.now) }
{
    scope
        .iter()
        .rev()
        .find(|bound| same_name(&bound.name, name))
}

/// Whether two names are equal.
fn same_name(a: &Text, b: &Text) -> bool
    ensures { result ≡ same_text a.now b.now }
{
    a.cmp(b) == Ordering::Equal
}

/// Binds a name, which has become another. `NoMemory` where there is no room for it.
#[tactic(auto, using(crate::proofs::ScopeLaws::newest_pushed, crate::proofs::ScopeLaws::pushed_kept))]
pub fn bind(alloc: Global, scope: &mut Row<Renamed>, name: &Text, to: &Text) -> Result<(), NoMemory>
    ensures names { OnOk result (pure_scope scope.new ≡ (name.now, to.now) ∷ pure_scope scope.old) }
    ensures kept { OnOk result (Extends scope.old scope.new) }
{
    let name = name.copy(alloc)?;
    let to = to.copy(alloc)?;
    scope.push(Renamed { name, to })
}
