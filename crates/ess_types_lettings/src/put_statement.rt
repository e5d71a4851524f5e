//! Lettings put into statements.
ghost use Rattle.std.specs.Prelude.{◌≡◌, IfOk, OnOk};
ghost use Rattle.ess_semantics.specs.Lettings.{put_stm};
ghost use Rattle.ess_core.specs.StatementViews.{pure_stm};
ghost use Rattle.ess_types_names.specs.Tables.{pure_table};
ghost use Rattle.ess_types_scopes.specs.Kept.{pure_lettings};

use crate::domains::put_dom;
use crate::expressions::put_ex;
use crate::rows::copied_texts;
use ess_core::{Boxed, NoMemory, Stm};
use ess_types_names::TypeTable;
use ess_types_scopes::Lettings;
use std::alloc::Global;

/// The statement with lettings put in, under the types of names. The table is as it was. `NoMemory` where there is no room for
/// it; the table may then hold further bound names.
pub fn put_stm(
    alloc: Global,
    stm: &Stm,
    lettings: &Lettings,
    table: &mut TypeTable,
) -> Result<Boxed<Stm>, NoMemory>
    ensures ok { IfOk result (λ s. pure_stm s ≡ put_stm (pure_stm stm.now) (pure_lettings lettings.now) (pure_table table.old)) }
    ensures kept { OnOk result (table.new ≡ table.old) }
{
    match stm {
        Stm::Given(name, dom) => {
            let dom = put_dom(alloc, dom.get(), lettings, table)?;
            let name = name.copy(alloc)?;
            Boxed::new(alloc, Stm::Given(name, dom))
        }
        Stm::GivenEnum(name) => Boxed::new(alloc, Stm::GivenEnum(name.copy(alloc)?)),
        Stm::LetEx(name, ex) => {
            let ex = put_ex(alloc, ex.get(), lettings, table)?;
            let name = name.copy(alloc)?;
            Boxed::new(alloc, Stm::LetEx(name, ex))
        }
        Stm::LetDom(name, dom) => {
            let dom = put_dom(alloc, dom.get(), lettings, table)?;
            let name = name.copy(alloc)?;
            Boxed::new(alloc, Stm::LetDom(name, dom))
        }
        Stm::LetEnum(name, values) => {
            let values = copied_texts(alloc, values.as_slice())?;
            let name = name.copy(alloc)?;
            Boxed::new(alloc, Stm::LetEnum(name, values))
        }
        Stm::LetUnnamed(name, size) => {
            let size = put_ex(alloc, size.get(), lettings, table)?;
            let name = name.copy(alloc)?;
            Boxed::new(alloc, Stm::LetUnnamed(name, size))
        }
        Stm::Needs(ex) => {
            let ex = put_ex(alloc, ex.get(), lettings, table)?;
            Boxed::new(alloc, Stm::Needs(ex))
        }
        Stm::Find(name, dom) => {
            let dom = put_dom(alloc, dom.get(), lettings, table)?;
            let name = name.copy(alloc)?;
            Boxed::new(alloc, Stm::Find(name, dom))
        }
        Stm::SuchThat(ex) => {
            let ex = put_ex(alloc, ex.get(), lettings, table)?;
            Boxed::new(alloc, Stm::SuchThat(ex))
        }
        Stm::Minimise(ex) => {
            let ex = put_ex(alloc, ex.get(), lettings, table)?;
            Boxed::new(alloc, Stm::Minimise(ex))
        }
        Stm::Maximise(ex) => {
            let ex = put_ex(alloc, ex.get(), lettings, table)?;
            Boxed::new(alloc, Stm::Maximise(ex))
        }
    }
}
