ghost use Rattle.std.specs.Prelude.{◌≡◌, ◌++◌, ◌∷◌, [], false, map, string_bytes, IfOk, OnOk, OnErr};
ghost use Rattle.std.specs.String.{string_eq};
ghost use Rattle.indexmap.specs.IndexSet.{IsUnique};
ghost use Rattle.ess_semantics.specs.Names.{is_among};
ghost use Rattle.ess_types_scopes.specs.Sets.{newest_names, name_added, with_name};

use crate::added::Added;
use ess_core::{NoMemory, Text};
use indexmap::IndexSet;
use std::alloc::Global;
use std::marker::Model;

/// Names, each once, found by hash and kept in the order in which they came. A contract sees them as a list, the newest first.
#[derive(Drop)]
pub struct NameSet {
    names: IndexSet<String>,
}

impl Model for NameSet {
    ghost use Rattle.std.specs.Prelude.{List};
    ghost use Rattle.std.specs.Coded.{coded_ℕ, coded_list};
    ghost use Rattle.std.specs.String.{string_eq};
    ghost use Rattle.indexmap.specs.IndexSet.{IsUnique};
    ghost use Rattle.ess_semantics.specs.Values.{Text};
    ghost use Rattle.ess_types_scopes.specs.Sets.{newest_names};

    ghost Value = { List Text };

    ghost coded = { coded_list (coded_list coded_ℕ) };

    ghost view = { λ s. newest_names s.names.keys };

    ghost invariant = { λ s. IsUnique string_eq s.names };
}

impl NameSet {
    /// No names. Nothing is allocated.
    pub fn new(alloc: Global) -> NameSet
        ensures { result ≡ [] }
    {
        NameSet {
            names: IndexSet::new(alloc),
        }
    }

    /// Whether a name is among them.
    pub fn has(&self, name: &Text) -> bool
        ensures { result ≡ is_among self.now name.now }
    {
        has_in(&self.names, name)
    }

    /// Adds a name. Where it is among them already nothing changes, as the answer says. `NoMemory` where there is no room for
    /// it, and then nothing changes.
    pub fn add(&mut self, alloc: Global, name: &Text) -> Result<Added, NoMemory>
        ensures answer { IfOk result (λ r. r ≡ name_added self.old name.now) }
        ensures added { IfOk result (λ r. self.new ≡ with_name r self.old name.now) }
        ensures err { OnErr result (self.new ≡ self.old) }
    {
        if has_in(&self.names, name) {
            return Ok(Added::Standing);
        }
        insert_new(alloc, &mut self.names, name)?;
        Ok(Added::New)
    }
}

/// Whether a name is among those of a set.
fn has_in(names: &IndexSet<String>, name: &Text) -> bool
    ensures { result ≡ is_among (newest_names names.now.keys) name.now }
{
    names.contains(name.as_str())
}

/// Adds a name that isn't there.
#[tactic(auto, using(crate::proofs::Sets::name_inserted))]
fn insert_new(alloc: Global, names: &mut IndexSet<String>, name: &Text) -> Result<(), NoMemory>
    requires unique { IsUnique string_eq names.old }
    requires absent { is_among (newest_names names.old.keys) name.now ≡ false }
    ensures ok { OnOk result (newest_names names.new.keys ≡ name.now ∷ newest_names names.old.keys) }
    ensures err { OnErr result (names.new.keys ≡ names.old.keys) }
    ensures still { IsUnique string_eq names.new }
{
    names.insert(String::from_str(alloc, name.as_str())?)?;
    Ok(())
}
