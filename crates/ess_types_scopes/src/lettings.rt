ghost use Rattle.std.specs.Prelude.{◌≡◌, ◌++◌, ◌∷◌, [], None, option_map, IfOk, OnOk, OnErr};
ghost use Rattle.std.specs.Option.{option_copied};
ghost use Rattle.std.specs.String.{string_eq};
ghost use Rattle.indexmap.specs.IndexMap.{IsUnique};
ghost use Rattle.ess_semantics.specs.Names.{look, keys, is_among};
ghost use Rattle.ess_core.specs.TreeViews.{pure_ex, pure_dom};
ghost use Rattle.ess_types_names.specs.Maps.{entries_of, newest_first};
ghost use Rattle.ess_types_scopes.specs.Kept.{Kept, pure_lettings, ex_added, dom_added, with_ex, with_dom};

use crate::added::Added;
use ess_core::{Boxed, Dom, Ex, NoMemory, Text};
use indexmap::IndexMap;
use std::alloc::Global;
use std::marker::Model;

/// Lettings of expressions and of domains, with the lettings before them put in: found by hash, and kept in the order in which
/// they came.
#[derive(Drop)]
pub struct Lettings {
    exs: IndexMap<String, Boxed<Ex>>,
    doms: IndexMap<String, Boxed<Dom>>,
}

impl Model for Lettings {
    ghost use Rattle.std.specs.String.{string_eq};
    ghost use Rattle.indexmap.specs.IndexMap.{IsUnique};
    ghost use Rattle.ess_core.specs.contracts.expressions.Ex as ex;
    ghost use Rattle.ess_core.specs.contracts.domains.Dom as dom;
    ghost use Rattle.ess_types_names.specs.Maps.{entries_of};
    ghost use Rattle.ess_types_scopes.specs.Kept.{Kept, kept_code};

    ghost Value = { Kept };

    ghost coded = { kept_code ex.the_row.coded dom.the_row.coded };

    ghost view = { λ l. record { exs = entries_of l.exs.entries; doms = entries_of l.doms.entries } };

    ghost invariant = { λ l. IsUnique string_eq l.exs × IsUnique string_eq l.doms };
}

impl Lettings {
    /// No lettings. Nothing is allocated.
    pub fn new(alloc: Global) -> Lettings
        ensures { result ≡ record { exs = []; doms = [] } }
    {
        Lettings {
            exs: IndexMap::new(alloc),
            doms: IndexMap::new(alloc),
        }
    }

    /// The expression that a name stands for, if there is one.
    pub fn ex(&self, name: &Text) -> Option<&Ex>
        ensures { option_map pure_ex (option_copied result) ≡ look (pure_lettings self.now).exs name.now }
    {
        named_ex(&self.exs, name)
    }

    /// The domain that a name stands for, if there is one.
    pub fn dom(&self, name: &Text) -> Option<&Dom>
        ensures { option_map pure_dom (option_copied result) ≡ look (pure_lettings self.now).doms name.now }
    {
        named_dom(&self.doms, name)
    }

    /// Whether a letting of a domain has the name.
    #[tactic(auto, using(crate::proofs::Sets::keys_look))]
    pub fn has_dom(&self, name: &Text) -> bool
        ensures { result ≡ is_among (keys (pure_lettings self.now).doms) name.now }
    {
        named_dom(&self.doms, name).is_some()
    }

    /// Keeps a letting of an expression, with the lettings before it put in. Where there is one of this name already nothing
    /// changes, as the answer says. `NoMemory` where there is no room for it, and then nothing changes.
    pub fn let_ex(&mut self, alloc: Global, name: &Text, ex: Boxed<Ex>) -> Result<Added, NoMemory>
        ensures answer { IfOk result (λ r. r ≡ ex_added self.old name.now) }
        ensures added { IfOk result (λ r. self.new ≡ with_ex r self.old name.now ex) }
        ensures err { OnErr result (self.new ≡ self.old) }
    {
        if named_ex(&self.exs, name).is_some() {
            return Ok(Added::Standing);
        }
        insert_ex(alloc, &mut self.exs, name, ex)?;
        Ok(Added::New)
    }

    /// Keeps a letting of a domain, with the lettings before it put in. Where there is one of this name already nothing
    /// changes, as the answer says. `NoMemory` where there is no room for it, and then nothing changes.
    pub fn let_dom(
        &mut self,
        alloc: Global,
        name: &Text,
        dom: Boxed<Dom>,
    ) -> Result<Added, NoMemory>
        ensures answer { IfOk result (λ r. r ≡ dom_added self.old name.now) }
        ensures added { IfOk result (λ r. self.new ≡ with_dom r self.old name.now dom) }
        ensures err { OnErr result (self.new ≡ self.old) }
    {
        if named_dom(&self.doms, name).is_some() {
            return Ok(Added::Standing);
        }
        insert_dom(alloc, &mut self.doms, name, dom)?;
        Ok(Added::New)
    }
}

/// The expression of a name.
#[tactic(auto, using(crate::proofs::Kept::ex_none))]
fn named_ex<'a>(exs: &'a IndexMap<String, Boxed<Ex>>, name: &Text) -> Option<&'a Ex>
    requires { IsUnique string_eq exs.now }
    ensures { option_map pure_ex (option_copied result) ≡ look (newest_first pure_ex (entries_of exs.now.entries)) name.now }
{
    match exs.get(name.as_str()) {
        Some(ex) => Some(ex.get()),
        None => None,
    }
}

/// The domain of a name.
#[tactic(auto, using(crate::proofs::Kept::dom_none))]
fn named_dom<'a>(doms: &'a IndexMap<String, Boxed<Dom>>, name: &Text) -> Option<&'a Dom>
    requires { IsUnique string_eq doms.now }
    ensures { option_map pure_dom (option_copied result) ≡ look (newest_first pure_dom (entries_of doms.now.entries)) name.now }
{
    match doms.get(name.as_str()) {
        Some(dom) => Some(dom.get()),
        None => None,
    }
}

/// Keeps a letting of an expression whose name isn't there.
fn insert_ex(
    alloc: Global,
    exs: &mut IndexMap<String, Boxed<Ex>>,
    name: &Text,
    ex: Boxed<Ex>,
) -> Result<(), NoMemory>
    requires unique { IsUnique string_eq exs.old }
    requires absent { look (newest_first pure_ex (entries_of exs.old.entries)) name.now ≡ None }
    ensures ok { OnOk result (entries_of exs.new.entries ≡ entries_of exs.old.entries ++ (name.now, ex) ∷ []) }
    ensures err { OnErr result (exs.new.entries ≡ exs.old.entries) }
    ensures still { IsUnique string_eq exs.new }
{
    exs.insert(String::from_str(alloc, name.as_str())?, ex)?;
    Ok(())
}

/// Keeps a letting of a domain whose name isn't there.
fn insert_dom(
    alloc: Global,
    doms: &mut IndexMap<String, Boxed<Dom>>,
    name: &Text,
    dom: Boxed<Dom>,
) -> Result<(), NoMemory>
    requires unique { IsUnique string_eq doms.old }
    requires absent { look (newest_first pure_dom (entries_of doms.old.entries)) name.now ≡ None }
    ensures ok { OnOk result (entries_of doms.new.entries ≡ entries_of doms.old.entries ++ (name.now, dom) ∷ []) }
    ensures err { OnErr result (doms.new.entries ≡ doms.old.entries) }
    ensures still { IsUnique string_eq doms.new }
{
    doms.insert(String::from_str(alloc, name.as_str())?, dom)?;
    Ok(())
}
