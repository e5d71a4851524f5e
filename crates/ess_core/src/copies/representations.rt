ghost use Rattle.std.specs.Prelude.{◌≡◌, IfOk};

use crate::Repr;
use ess_rows::{NoMemory, Row};
use std::alloc::Global;

impl Repr {
    /// A copy, which equals this representation. `NoMemory` where there is no room for it.
    pub fn copy(&self, alloc: Global) -> Result<Repr, NoMemory>
        ensures { IfOk result (λ r. r ≡ self.now) }
    {
        let mut children = Row::with_capacity(alloc, self.children.len())?;
        for child in self.children.as_slice() {
            match child.copy(alloc) {
                Ok(copy) => children.push(copy)?,
                Err(no) => return Err(no),
            }
        }
        Ok(Repr {
            kind: self.kind,
            children,
        })
    }
}
