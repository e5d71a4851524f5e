//! The lettings behind a statement.
ghost use Rattle.std.specs.Prelude.{◌≡◌, ◌∷◌, IfOk, OnErr};
ghost use Rattle.ess_semantics.specs.Lettings.{lettings_after};
ghost use Rattle.ess_core.specs.TreeViews.{pure_ex, pure_dom};
ghost use Rattle.ess_core.specs.StatementViews.{pure_stm};
ghost use Rattle.ess_types_scopes.specs.Kept.{pure_lettings, ex_added, dom_added};
ghost use Rattle.ess_types_scopes.specs.declared.added.Added.TheVariants.{New, Standing};
ghost use Rattle.ess_types_lettings.specs.Behind.{letting_added};

use ess_core::{Boxed, Dom, Ex, NoMemory, Stm, Text};
use ess_types_scopes::{Added, Lettings};
use std::alloc::Global;

/// Keeps the letting of a statement that has lettings put in. A statement that is none changes nothing, and counts as new.
/// Where there is a letting of its name already nothing changes, as the answer says. `NoMemory` where there is no room for it,
/// and then nothing changes.
pub fn lettings_after(alloc: Global, stm: &Stm, lettings: &mut Lettings) -> Result<Added, NoMemory>
    ensures answer { IfOk result (λ r. r ≡ letting_added (pure_stm stm.now) (pure_lettings lettings.old)) }
    ensures ok { IfOk result (λ r. r ≡ New → pure_lettings lettings.new ≡ lettings_after (pure_stm stm.now) (pure_lettings lettings.old)) }
    ensures standing { IfOk result (λ r. r ≡ Standing → lettings.new ≡ lettings.old) }
    ensures err { OnErr result (lettings.new ≡ lettings.old) }
{
    match stm {
        Stm::LetEx(name, ex) => {
            let copy = Boxed::new(alloc, ex.get().copy(alloc)?)?;
            keep_ex(alloc, lettings, name, copy)
        }
        Stm::LetDom(name, dom) => {
            let copy = Boxed::new(alloc, dom.get().copy(alloc)?)?;
            keep_dom(alloc, lettings, name, copy)
        }
        _ => Ok(Added::New),
    }
}

/// Keeps a letting of an expression.
#[tactic(auto, using(ess_types_scopes::proofs::Kept::ex_kept))]
fn keep_ex(
    alloc: Global,
    lettings: &mut Lettings,
    name: &Text,
    ex: Boxed<Ex>,
) -> Result<Added, NoMemory>
    ensures answer { IfOk result (λ r. r ≡ ex_added lettings.old name.now) }
    ensures ok { IfOk result (λ r. r ≡ New
        → pure_lettings lettings.new
        ≡ record (pure_lettings lettings.old) { exs = (name.now, pure_ex ex) ∷ (pure_lettings lettings.old).exs }) }
    ensures standing { IfOk result (λ r. r ≡ Standing → lettings.new ≡ lettings.old) }
    ensures err { OnErr result (lettings.new ≡ lettings.old) }
{
    lettings.let_ex(alloc, name, ex)
}

/// Keeps a letting of a domain.
#[tactic(auto, using(ess_types_scopes::proofs::Kept::dom_kept))]
fn keep_dom(
    alloc: Global,
    lettings: &mut Lettings,
    name: &Text,
    dom: Boxed<Dom>,
) -> Result<Added, NoMemory>
    ensures answer { IfOk result (λ r. r ≡ dom_added lettings.old name.now) }
    ensures ok { IfOk result (λ r. r ≡ New
        → pure_lettings lettings.new
        ≡ record (pure_lettings lettings.old) { doms = (name.now, pure_dom dom) ∷ (pure_lettings lettings.old).doms }) }
    ensures standing { IfOk result (λ r. r ≡ Standing → lettings.new ≡ lettings.old) }
    ensures err { OnErr result (lettings.new ≡ lettings.old) }
{
    lettings.let_dom(alloc, name, dom)
}
