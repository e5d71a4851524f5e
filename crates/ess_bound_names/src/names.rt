ghost use Rattle.std.specs.Prelude.{◌≡◌, [], ◌∷◌, ◌++◌, List, IfOk};
ghost use Rattle.ess_semantics.specs.Values as values;
ghost use Rattle.ess_semantics.specs.Names.{is_among};
ghost use Rattle.ess_bound_names.specs.Indexes.{HasNames};

use ess_rows::{NoMemory, Row, Text};
use std::alloc::Global;
use std::collections::BTreeSet;
use std::marker::Model;

/// Names in the order in which they are bound. A name may stand more than once.
pub struct BoundNames {
    list: Row<Text>,
    index: BTreeSet<Text>,
}

// They are let go in one step: with a derived `Drop` each function that lets them go would go through the list and the set.
impl Drop for BoundNames {
    fn drop(self) {
        let BoundNames { list, index } = self;
        drop(list);
        drop(index);
    }
}

impl Model for BoundNames {
    ghost Value = { List values.Text };

    ghost view = { λ s. s.list };

    ghost invariant = { λ s. HasNames s.list s.index };
}

impl BoundNames {
    /// No names. Nothing is allocated.
    #[tactic(auto, using(crate::proofs::NameLaws::no_names))]
    pub fn new(alloc: Global) -> BoundNames
        ensures { result ≡ [] }
    {
        BoundNames {
            list: Row::new(alloc),
            index: BTreeSet::new(alloc),
        }
    }

    /// These names, and a copy of one more behind them. `NoMemory` where there is no room for it.
    #[tactic(auto, using(crate::proofs::NameLaws::one_name_more))]
    pub fn with(self, alloc: Global, name: &Text) -> Result<BoundNames, NoMemory>
        ensures { IfOk result (λ ns. ns ≡ self ++ name.now ∷ []) }
    {
        let BoundNames { list, index } = self;
        let mut list = list;
        let mut index = index;
        index.insert(name.copy(alloc)?)?;
        list.push(name.copy(alloc)?)?;
        Ok(BoundNames { list, index })
    }

    /// Whether a name is among them.
    #[tactic(auto, using(crate::proofs::NameLaws::found_name))]
    pub fn has(&self, name: &Text) -> bool
        ensures { result ≡ is_among self.now name.now }
    {
        self.index.contains(name)
    }
}
