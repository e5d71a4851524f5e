//! Statements, resolved.
ghost use Rattle.std.specs.Prelude.{◌≡◌, IfOk, OnOk};
ghost use Rattle.ess_semantics.specs.Prepared.{resolve_stm};
ghost use Rattle.ess_core.specs.StatementViews.{pure_stm};
ghost use Rattle.ess_types_names.specs.Tables.{pure_table};

use crate::domains::resolve_dom;
use crate::expressions::resolve_ex;
use crate::views::copy_texts;
use ess_core::{Boxed, NoMemory, Stm};
use ess_types_names::TypeTable;
use std::alloc::Global;

/// The statement, with its expressions and domains resolved under the types of names. The table is as it was. `NoMemory` where
/// there is no room for it; the table may then hold further bound names.
pub fn resolve_stm(alloc: Global, stm: &Stm, table: &mut TypeTable) -> Result<Boxed<Stm>, NoMemory>
    ensures ok { IfOk result (λ s. pure_stm s ≡ resolve_stm (pure_stm stm.now) (pure_table table.old)) }
    ensures kept { OnOk result (table.new ≡ table.old) }
{
    match stm {
        Stm::Given(name, dom) => {
            let dom = resolve_dom(alloc, dom.get(), table)?;
            let name = name.copy(alloc)?;
            Boxed::new(alloc, Stm::Given(name, dom))
        }
        Stm::GivenEnum(name) => {
            let name = name.copy(alloc)?;
            Boxed::new(alloc, Stm::GivenEnum(name))
        }
        Stm::LetEx(name, ex) => {
            let ex = resolve_ex(alloc, ex.get(), table)?;
            let name = name.copy(alloc)?;
            Boxed::new(alloc, Stm::LetEx(name, ex))
        }
        Stm::LetDom(name, dom) => {
            let dom = resolve_dom(alloc, dom.get(), table)?;
            let name = name.copy(alloc)?;
            Boxed::new(alloc, Stm::LetDom(name, dom))
        }
        Stm::LetEnum(name, values) => {
            let values = copy_texts(alloc, values.as_slice())?;
            let name = name.copy(alloc)?;
            Boxed::new(alloc, Stm::LetEnum(name, values))
        }
        Stm::LetUnnamed(name, size) => {
            let size = resolve_ex(alloc, size.get(), table)?;
            let name = name.copy(alloc)?;
            Boxed::new(alloc, Stm::LetUnnamed(name, size))
        }
        Stm::Needs(ex) => {
            let ex = resolve_ex(alloc, ex.get(), table)?;
            Boxed::new(alloc, Stm::Needs(ex))
        }
        Stm::Find(name, dom) => {
            let dom = resolve_dom(alloc, dom.get(), table)?;
            let name = name.copy(alloc)?;
            Boxed::new(alloc, Stm::Find(name, dom))
        }
        Stm::SuchThat(ex) => {
            let ex = resolve_ex(alloc, ex.get(), table)?;
            Boxed::new(alloc, Stm::SuchThat(ex))
        }
        Stm::Minimise(ex) => {
            let ex = resolve_ex(alloc, ex.get(), table)?;
            Boxed::new(alloc, Stm::Minimise(ex))
        }
        Stm::Maximise(ex) => {
            let ex = resolve_ex(alloc, ex.get(), table)?;
            Boxed::new(alloc, Stm::Maximise(ex))
        }
    }
}
