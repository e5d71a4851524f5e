//! What stands over tables in the place of names, found by hash.
ghost use Rattle.std.specs.Prelude.{◌≡◌, [], ◌∷◌, option_map, OnOk, OnErr};
ghost use Rattle.std.specs.Option.{option_copied};
ghost use Rattle.std.specs.String.{string_eq};
ghost use Rattle.indexmap.specs.IndexMap.{IsUnique};
ghost use Rattle.ess_semantics.specs.Names.{look};
ghost use Rattle.ess_core_nodes.specs.NodeViews.{pure_node, pure_dom};
ghost use Rattle.ess_types_names.specs.Maps.{entries_of, newest_first};
ghost use Rattle.ess_model_shown.specs.Tables.{pure_names, pure_domains, SameNames};

use ess_core_nodes::{Node, NodeDom};
use ess_rows::{Boxed, NoMemory, Text};
use indexmap::IndexMap;
use std::alloc::Global;
use std::marker::Model;

/// Names with the nodes that stand for them, found by hash.
#[derive(Drop)]
pub struct NodeNames {
    entries: IndexMap<String, Boxed<Node>>,
}

impl Model for NodeNames {
    ghost use Rattle.std.specs.Prelude.{List};
    ghost use Rattle.std.specs.Coded.{coded×, coded_ℕ, coded_list};
    ghost use Rattle.std.specs.String.{string_eq};
    ghost use Rattle.indexmap.specs.IndexMap.{IsUnique};
    ghost use Rattle.ess_semantics.specs.Values as values;
    ghost use Rattle.ess_core_nodes.specs.declared.nodes.Node.{Node};
    ghost use Rattle.ess_core_nodes.specs.contracts.nodes.Node as node;
    ghost use Rattle.ess_types_names.specs.Maps.{entries_of};

    ghost Value = { List (values.Text × Node) };

    ghost coded = { coded_list (coded× (coded_list coded_ℕ) node.the_row.coded) };

    ghost view = { λ m. entries_of m.entries.entries };

    ghost invariant = { λ m. IsUnique string_eq m.entries };
}

impl NodeNames {
    /// No names. Nothing is allocated.
    pub fn new(alloc: Global) -> NodeNames
        ensures { result ≡ [] }
    {
        NodeNames {
            entries: IndexMap::new(alloc),
        }
    }

    /// What stands for a name, if there is something.
    pub fn look(&self, name: &Text) -> Option<&Node>
        ensures { option_map pure_node (option_copied result) ≡ look (pure_names self.now) name.now }
    {
        named_node(&self.entries, name)
    }

    /// Puts what stands for a name, in the place of what did so before. `NoMemory` where there is no room for it; what stood for
    /// names then stays.
    pub fn put(&mut self, alloc: Global, name: &Text, node: Boxed<Node>) -> Result<(), NoMemory>
        ensures ok { OnOk result (SameNames (pure_names self.new) ((name.now, pure_node node) ∷ pure_names self.old)) }
        ensures err { OnErr result (self.new ≡ self.old) }
    {
        put_node(alloc, &mut self.entries, name, node)
    }
}

/// Puts what stands for a name.
fn put_node(
    alloc: Global,
    entries: &mut IndexMap<String, Boxed<Node>>,
    name: &Text,
    node: Boxed<Node>,
) -> Result<(), NoMemory>
    requires unique { IsUnique string_eq entries.old }
    ensures ok { OnOk result (SameNames (newest_first pure_node (entries_of entries.new.entries))
        ((name.now, pure_node node) ∷ newest_first pure_node (entries_of entries.old.entries))) }
    ensures err { OnErr result (entries.new.entries ≡ entries.old.entries) }
    ensures still { IsUnique string_eq entries.new }
{
    let before = entries.insert(String::from_str(alloc, name.as_str())?, node)?;
    drop(before);
    Ok(())
}

/// What stands for a name.
#[tactic(auto, using(crate::proofs::Tables::node_none))]
fn named_node<'a>(entries: &'a IndexMap<String, Boxed<Node>>, name: &Text) -> Option<&'a Node>
    requires { IsUnique string_eq entries.now }
    ensures { option_map pure_node (option_copied result) ≡ look (newest_first pure_node (entries_of entries.now.entries)) name.now }
{
    match entries.get(name.as_str()) {
        Some(node) => Some(node.get()),
        None => None,
    }
}

/// Names with domains, found by hash.
#[derive(Drop)]
pub struct DomNames {
    entries: IndexMap<String, Boxed<NodeDom>>,
}

impl Model for DomNames {
    ghost use Rattle.std.specs.Prelude.{List};
    ghost use Rattle.std.specs.Coded.{coded×, coded_ℕ, coded_list};
    ghost use Rattle.std.specs.String.{string_eq};
    ghost use Rattle.indexmap.specs.IndexMap.{IsUnique};
    ghost use Rattle.ess_semantics.specs.Values as values;
    ghost use Rattle.ess_core_nodes.specs.declared.nodes.NodeDom.{NodeDom};
    ghost use Rattle.ess_core_nodes.specs.contracts.nodes.NodeDom as dom;
    ghost use Rattle.ess_types_names.specs.Maps.{entries_of};

    ghost Value = { List (values.Text × NodeDom) };

    ghost coded = { coded_list (coded× (coded_list coded_ℕ) dom.the_row.coded) };

    ghost view = { λ m. entries_of m.entries.entries };

    ghost invariant = { λ m. IsUnique string_eq m.entries };
}

impl DomNames {
    /// No names. Nothing is allocated.
    pub fn new(alloc: Global) -> DomNames
        ensures { result ≡ [] }
    {
        DomNames {
            entries: IndexMap::new(alloc),
        }
    }

    /// The domain of a name, if there is one.
    pub fn look(&self, name: &Text) -> Option<&NodeDom>
        ensures { option_map pure_dom (option_copied result) ≡ look (pure_domains self.now) name.now }
    {
        named_dom(&self.entries, name)
    }

    /// Puts the domain of a name, in the place of that before. `NoMemory` where there is no room for it; the domains then stay.
    pub fn put(&mut self, alloc: Global, name: &Text, dom: Boxed<NodeDom>) -> Result<(), NoMemory>
        ensures ok { OnOk result (SameNames (pure_domains self.new) ((name.now, pure_dom dom) ∷ pure_domains self.old)) }
        ensures err { OnErr result (self.new ≡ self.old) }
    {
        put_dom(alloc, &mut self.entries, name, dom)
    }
}

/// Puts the domain of a name.
fn put_dom(
    alloc: Global,
    entries: &mut IndexMap<String, Boxed<NodeDom>>,
    name: &Text,
    dom: Boxed<NodeDom>,
) -> Result<(), NoMemory>
    requires unique { IsUnique string_eq entries.old }
    ensures ok { OnOk result (SameNames (newest_first pure_dom (entries_of entries.new.entries))
        ((name.now, pure_dom dom) ∷ newest_first pure_dom (entries_of entries.old.entries))) }
    ensures err { OnErr result (entries.new.entries ≡ entries.old.entries) }
    ensures still { IsUnique string_eq entries.new }
{
    let before = entries.insert(String::from_str(alloc, name.as_str())?, dom)?;
    drop(before);
    Ok(())
}

/// The domain of a name.
#[tactic(auto, using(crate::proofs::Tables::dom_none))]
fn named_dom<'a>(entries: &'a IndexMap<String, Boxed<NodeDom>>, name: &Text) -> Option<&'a NodeDom>
    requires { IsUnique string_eq entries.now }
    ensures { option_map pure_dom (option_copied result) ≡ look (newest_first pure_dom (entries_of entries.now.entries)) name.now }
{
    match entries.get(name.as_str()) {
        Some(dom) => Some(dom.get()),
        None => None,
    }
}

/// The first and the last view of each given and find, each with the positions of values; the number of values of each type; the
/// domain of each given and find over tables; and the number of the next reserved name.
#[derive(Drop)]
pub struct Shows {
    pub first: NodeNames,
    pub last: NodeNames,
    pub sizes: NodeNames,
    pub doms: DomNames,
    pub next: u64,
}
