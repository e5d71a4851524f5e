//! What is known around a place of a tree: the bound names that a key stands for, and what the others run over.
ghost use Rattle.std.specs.Prelude.{◌≡◌, reverse, IfOk};
ghost use Rattle.std.specs.List.{find};
ghost use Rattle.std.specs.Option.{option_copied};
ghost use Rattle.ess_semantics.specs.Order.{same_text};
ghost use Rattle.ess_core_nodes.specs.NodeViews.{pure_node};
ghost use Rattle.ess_keys_laws.specs.Keyed.{key_for, key_now};
ghost use Rattle.ess_keys.specs.Views.{pure_keys};

use ess_core_nodes::Node;
use ess_guard_forms::{KnownName, copy_known};
use ess_node_building::name as name_node;
use ess_rows::{Boxed, NoMemory, Row, Text};
use std::alloc::Global;
use std::cmp::Ordering;

/// A bound name that a key stands for. In a row of them the last one counts.
#[derive(Drop)]
pub(crate) struct Key {
    pub name: Text,
    pub key: Boxed<Node>,
}

/// The bound names that keys stand for, and what the others run over.
#[derive(Drop)]
pub(crate) struct Around {
    pub keys: Row<Key>,
    pub known: Row<KnownName>,
}

impl Key {
    /// A copy, which equals this one.
    fn copy(&self, alloc: Global) -> Result<Key, NoMemory>
        ensures { IfOk result (λ k. k ≡ self.now) }
    {
        let name = self.name.copy(alloc)?;
        let key = self.key.get().copy(alloc)?;
        Ok(Key { name, key })
    }
}

impl Around {
    /// A copy, which equals this one.
    pub(crate) fn copy(&self, alloc: Global) -> Result<Around, NoMemory>
        ensures { IfOk result (λ a. a ≡ self.now) }
    {
        let keys = copy_keys(alloc, self.keys.as_slice())?;
        let known = copy_known(alloc, self.known.as_slice())?;
        Ok(Around { keys, known })
    }
}

/// A copy of names with their keys, in order.
fn copy_keys(alloc: Global, keys: &[Key]) -> Result<Row<Key>, NoMemory>
    ensures { IfOk result (λ ks. ks ≡ keys.now) }
{
    let mut copies = Row::with_capacity(alloc, keys.len())?;
    for entry in keys {
        let copy = entry.copy(alloc)?;
        copies.push(copy)?;
    }
    Ok(copies)
}

/// What stands for a name: its key, else the name.
#[tactic(auto, using(crate::proofs::Lookups::key_there, crate::proofs::Lookups::key_none))]
pub(crate) fn key_for(alloc: Global, keys: &[Key], name: &Text) -> Result<Boxed<Node>, NoMemory>
    ensures { IfOk result (λ n. pure_node n ≡ key_for (pure_keys keys.now) name.now) }
{
    match newest(keys, name) {
        Some(entry) => entry.key.get().copy(alloc),
        None => name_node(alloc, name),
    }
}

/// What stands for a key.
#[tactic(auto, using(ess_core_nodes::proofs::NodeEquations::pure_seen_is))]
pub(crate) fn key_now(alloc: Global, keys: &[Key], key: &Node) -> Result<Boxed<Node>, NoMemory>
    ensures { IfOk result (λ n. pure_node n ≡ key_now (pure_keys keys.now) (pure_node key.now)) }
{
    match key {
        Node::Name(name) => key_for(alloc, keys, name),
        _ => key.copy(alloc),
    }
}

/// The last of the names that is this one.
fn newest<'a>(keys: &'a [Key], name: &Text) -> Option<&'a Key>
    ensures { option_copied result ≡ find (λ k. same_text k.name name.now) (reverse keys.now) }
{
    keys.iter().rev().find(|entry| same_name(&entry.name, name))
}

/// Whether two names are equal.
pub(crate) fn same_name(a: &Text, b: &Text) -> bool
    ensures { result ≡ same_text a.now b.now }
{
    a.cmp(b) == Ordering::Equal
}
