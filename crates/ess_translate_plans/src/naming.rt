//! The names of a representation's tables, free beside the names that they can't have.
ghost use Rattle.std.specs.Prelude.{◌≡◌, ◌++◌, true, IfOk, map};
ghost use Rattle.ess_semantics.specs.Kinds.{fits};
ghost use Rattle.ess_semantics.specs.TableNames.{table_names, named_tables};
ghost use Rattle.ess_core.specs.TreeViews.{pure_repr, pure_dom};
ghost use Rattle.ess_core.specs.TableViews.{pure_decl};
ghost use Rattle.ess_semantics.specs.DeclaredTables.{decl_name};
ghost use Rattle.ess_repr_declare_laws.specs.Laws.{Sound};
ghost use Rattle.ess_translate_plans_laws.specs.Requests.{declared_beside};
ghost use Rattle.ess_translate_plans.specs.Views.{pure_table_name};
ghost use Rattle.ess_translate_plans.specs.Trying.{IsTried};

use crate::plans::TableName;
use crate::taken::first_taken;
use ess_core::{CellDecl, Dom, NoMemory, Repr, Row, Text};
use ess_repr::declare;
use ess_types_scopes::NameSet;
use std::alloc::Global;

/// The names of tables, or one of them that is taken.
#[derive(Drop)]
pub(crate) enum Tried {
    /// All are free.
    Free(Row<TableName>),
    /// This one is taken.
    Taken(Text),
}

/// The names of a representation's tables for a name, free beside what is declared, for something else than `own` or where `all`
/// says so for anything, and beside the names of earlier tables. Each turn avoids one more name, so that few are looked at.
#[tactic(auto, using(crate::proofs::Trying::tried_none, crate::proofs::Trying::tried_more, crate::proofs::Trying::tried_fewer))]
pub(crate) fn free_tables(
    alloc: Global,
    all: bool,
    own: &Text,
    name: &Text,
    tree: &Repr,
    dom: &Dom,
    declared: &NameSet,
    tables: &NameSet,
) -> Result<Row<TableName>, NoMemory>
    ensures { IfOk result (λ ns. Sound (pure_dom dom.now) → fits (pure_repr tree.now) (pure_dom dom.now) ≡ true →
        map pure_table_name ns ≡ named_tables name.now (table_names (pure_repr tree.now) (pure_dom dom.now))
        (declared_beside all own.now declared.now ++ tables.now)) }
{
    let mut avoided = Row::new(alloc);
    loop {
        match with_free_names(
            alloc,
            all,
            own,
            name,
            tree,
            dom,
            avoided.as_slice(),
            declared,
            tables,
        )? {
            Tried::Free(names) => return Ok(names),
            Tried::Taken(taken) => avoided.push(taken)?,
        }
    }
}

/// The names of the tables beside those that are avoided, or one of them that is taken.
#[tactic(auto, using(crate::proofs::Trying::is_taken_anew, crate::proofs::Trying::all_are_free))]
fn with_free_names(
    alloc: Global,
    all: bool,
    own: &Text,
    name: &Text,
    tree: &Repr,
    dom: &Dom,
    avoided: &[Text],
    declared: &NameSet,
    tables: &NameSet,
) -> Result<Tried, NoMemory>
    ensures { IfOk result (IsTried (pure_repr tree.now) (pure_dom dom.now) name.now (declared_beside all own.now declared.now
        ++ tables.now) avoided.now) }
{
    let decls = declare(alloc, tree, dom, name, avoided)?;
    match first_taken(decls.as_slice(), all, own, declared, tables) {
        Some(taken) => Ok(Tried::Taken(taken.copy(alloc)?)),
        None => Ok(Tried::Free(table_list(alloc, decls.as_slice())?)),
    }
}

/// The names of declared tables, with their numbers of axes.
fn table_list(alloc: Global, decls: &[CellDecl]) -> Result<Row<TableName>, NoMemory>
    ensures { IfOk result (λ ns. map pure_table_name ns ≡ map decl_name (map pure_decl decls.now)) }
{
    let mut names = Row::with_capacity(alloc, decls.len())?;
    for decl in decls {
        let name = decl.name.copy(alloc)?;
        names.push(TableName {
            name,
            axes: decl.axes.len(),
        })?;
    }
    Ok(names)
}
