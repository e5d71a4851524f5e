//! Views, resolved.
ghost use Rattle.std.specs.Prelude.{◌≡◌, option_map, IfOk, OnOk};
ghost use Rattle.ess_semantics.specs.Trees.{seen_ex};
ghost use Rattle.ess_semantics.specs.Typing.{type_of};
ghost use Rattle.ess_semantics.specs.Resolving.{resolve};
ghost use Rattle.ess_core.specs.TypeViews.{pure_ty};
ghost use Rattle.ess_core.specs.TreeViews.{pure_ex, pure_exs, pure_dom, pure_repr, pure_view};
ghost use Rattle.ess_types_names.specs.Tables.{pure_table};

use crate::domains::resolve_dom;
use crate::rows::resolve_exs;
use ess_core::{Boxed, Dom, Ex, NoMemory, Repr, Row, Text, Ty, View};
use ess_types_names::TypeTable;
use ess_types_operators::type_of_dom;
use std::alloc::Global;

/// A view, resolved, with the type of what it stands for.
#[cycle(resolve)]
#[tactic(auto, using(ess_core::proofs::PartEquations::pure_view_is))]
pub(crate) fn resolve_view(
    alloc: Global,
    view: &View,
    table: &mut TypeTable,
) -> Result<(Boxed<Ex>, Option<Boxed<Ty>>), NoMemory>
    ensures tree { IfOk result (λ r. pure_ex r.0 ≡ resolve (pure_view view.now) (pure_table table.old)) }
    ensures types { IfOk result (λ r. option_map pure_ty r.1 ≡ type_of (pure_view view.now) (pure_table table.old)) }
    ensures kept { OnOk result (table.new ≡ table.old) }
{
    let dom = resolve_dom(alloc, &view.dom, table)?;
    let (at, tys) = resolve_exs(alloc, view.at.as_slice(), table)?;
    drop(tys);
    let seen = seen_node(alloc, &view.repr, dom, view.cells.as_slice(), at)?;
    let ty = type_of_dom(alloc, &view.dom)?;
    Ok((seen, Some(ty)))
}

/// A view of resolved parts.
#[tactic(auto, using(ess_core::proofs::PartEquations::pure_view_is))]
fn seen_node(
    alloc: Global,
    repr: &Repr,
    dom: Boxed<Dom>,
    cells: &[Text],
    at: Row<Ex>,
) -> Result<Boxed<Ex>, NoMemory>
    ensures { IfOk result (λ e. pure_ex e ≡ seen_ex (pure_repr repr.now) (pure_dom dom) cells.now (pure_exs at)) }
{
    let cells = copy_texts(alloc, cells)?;
    let repr = repr.copy(alloc)?;
    let dom = dom.into_inner();
    let view = Boxed::new(
        alloc,
        View {
            repr,
            dom,
            cells,
            at,
        },
    )?;
    Boxed::new(alloc, Ex::Seen(view))
}

/// Copies of texts.
pub(crate) fn copy_texts(alloc: Global, texts: &[Text]) -> Result<Row<Text>, NoMemory>
    ensures { IfOk result (λ ts. ts ≡ texts.now) }
{
    let mut copies = Row::with_capacity(alloc, texts.len())?;
    for text in texts {
        match text.copy(alloc) {
            Ok(copy) => copies.push(copy)?,
            Err(no) => return Err(no),
        }
    }
    Ok(copies)
}
