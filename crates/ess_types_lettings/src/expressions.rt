//! Lettings put into expressions.
ghost use Rattle.std.specs.Prelude.{◌≡◌, true, option_map, IfOk, OnOk};
ghost use Rattle.ess_semantics.specs.Names.{look};
ghost use Rattle.ess_semantics.specs.Trees.{seen_ex};
ghost use Rattle.ess_semantics.specs.Typing.{type_of};
ghost use Rattle.ess_semantics.specs.Lettings.{put_ex, put_name};
ghost use Rattle.ess_core.specs.TypeViews.{pure_ty};
ghost use Rattle.ess_core.specs.TreeViews.{pure_ex, pure_exs, pure_dom, pure_repr, pure_view};
ghost use Rattle.ess_types_names.specs.Tables.{pure_table};
ghost use Rattle.ess_types_scopes.specs.Kept.{pure_lettings};

use crate::domains::put_dom;
use crate::generators::put_gens;
use crate::indices::{put_steps, typed_index};
use crate::rows::{copied_texts, put_exs, put_fields, put_pairs};
use ess_core::{Boxed, Dom, Ex, NoMemory, Row, Text, Ty, View};
use ess_types_names::TypeTable;
use ess_types_nodes::{
    apply_node, call_node, comp_node, function_node, leaf_node, list_node, matrix_node, mset_node,
    one_node, partition_node, record_node, relation_node, set_node, tuple_node, two_node,
};
use ess_types_scopes::Lettings;
use std::alloc::Global;

/// The expression with lettings put in, under the types of names. A field of a record stays as it is, and an index of a tuple
/// too. The table is as it was. `NoMemory` where there is no room for it; the table may then hold further bound names.
#[cycle(put)]
pub fn put_ex(
    alloc: Global,
    ex: &Ex,
    lettings: &Lettings,
    table: &mut TypeTable,
) -> Result<Boxed<Ex>, NoMemory>
    ensures ok { IfOk result (λ e. pure_ex e ≡ put_ex (pure_ex ex.now) (pure_lettings lettings.now) (pure_table table.old)) }
    ensures kept { OnOk result (table.new ≡ table.old) }
{
    let (put, ty) = put_typed(alloc, ex, false, lettings, table)?;
    drop(ty);
    Ok(put)
}

/// The expression with lettings put in, and its type then, under the types of names. The type is found where it is asked, from
/// those of its parts: so the type of each part is found once. The table is as it was.
#[cycle(put)]
#[tactic(auto, using(crate::proofs::Steps::index_put, crate::proofs::Paths::index_typed, ess_types_names::proofs::Tables::unbound_back))]
pub(crate) fn put_typed(
    alloc: Global,
    ex: &Ex,
    asked: bool,
    lettings: &Lettings,
    table: &mut TypeTable,
) -> Result<(Boxed<Ex>, Option<Boxed<Ty>>), NoMemory>
    ensures ok { IfOk result (λ r. pure_ex r.0 ≡ put_ex (pure_ex ex.now) (pure_lettings lettings.now) (pure_table table.old)) }
    ensures typed { IfOk result (λ r. asked ≡ true → option_map pure_ty r.1 ≡ type_of (pure_ex r.0) (pure_table table.old)) }
    ensures kept { OnOk result (table.new ≡ table.old) }
{
    match ex {
        Ex::Num(number) => leaf_node(alloc, Boxed::new(alloc, Ex::Num(*number))?, asked, table),
        Ex::Truth(truth) => leaf_node(alloc, Boxed::new(alloc, Ex::Truth(*truth))?, asked, table),
        Ex::Name(name) => leaf_node(alloc, put_name(alloc, name, lettings)?, asked, table),
        Ex::One(op, operand) => {
            let operand = put_typed(alloc, operand.get(), asked, lettings, table)?;
            one_node(alloc, *op, operand)
        }
        Ex::Two(op, a, b) => {
            let first = put_typed(alloc, a.get(), asked, lettings, table)?;
            let second = put_typed(alloc, b.get(), asked, lettings, table)?;
            two_node(alloc, *op, first, second)
        }
        Ex::Call(is_bool, fun, operands) => {
            let operands = put_exs(alloc, operands.as_slice(), asked, lettings, table)?;
            call_node(alloc, *is_bool, *fun, operands)
        }
        Ex::At(is_bool, place, steps) => {
            let (place, reached) = put_typed(alloc, place.get(), true, lettings, table)?;
            let puts = put_steps(alloc, steps.as_slice(), reached, asked, lettings, table)?;
            typed_index(alloc, *is_bool, place, puts)
        }
        Ex::Apply(is_bool, applied, arguments) => {
            let applied = put_typed(alloc, applied.get(), asked, lettings, table)?;
            let arguments = put_exs(alloc, arguments.as_slice(), asked, lettings, table)?;
            apply_node(alloc, *is_bool, applied, arguments)
        }
        Ex::Tuple(items) => {
            let items = put_exs(alloc, items.as_slice(), asked, lettings, table)?;
            tuple_node(alloc, items)
        }
        Ex::Rec(fields) => {
            let fields = put_fields(alloc, fields.as_slice(), asked, lettings, table)?;
            record_node(alloc, fields)
        }
        Ex::Set(members) => {
            let members = put_exs(alloc, members.as_slice(), asked, lettings, table)?;
            set_node(alloc, members)
        }
        Ex::MSet(members) => {
            let members = put_exs(alloc, members.as_slice(), asked, lettings, table)?;
            mset_node(alloc, members)
        }
        Ex::Function(pairs) => {
            let pairs = put_pairs(alloc, pairs.as_slice(), asked, lettings, table)?;
            function_node(alloc, pairs)
        }
        Ex::Relation(tuples) => {
            let tuples = put_exs(alloc, tuples.as_slice(), asked, lettings, table)?;
            relation_node(alloc, tuples)
        }
        Ex::Partition(parts) => {
            let parts = put_exs(alloc, parts.as_slice(), asked, lettings, table)?;
            partition_node(alloc, parts)
        }
        Ex::Matrix(items, None) => {
            let items = put_exs(alloc, items.as_slice(), asked, lettings, table)?;
            list_node(alloc, items)
        }
        Ex::Matrix(items, Some(axis)) => {
            let items = put_exs(alloc, items.as_slice(), asked, lettings, table)?;
            let axis = put_dom(alloc, axis.get(), lettings, table)?;
            matrix_node(alloc, items, axis)
        }
        Ex::Comp(body, gens) => {
            let mark = table.bound_len();
            let gens = put_gens(alloc, gens.as_slice(), asked, lettings, table)?;
            let body = put_typed(alloc, body.get(), asked, lettings, table)?;
            table.unbind(mark);
            comp_node(alloc, body, gens)
        }
        Ex::Cell(is_bool, name, at) => {
            let (at, tys) = put_exs(alloc, at.as_slice(), false, lettings, table)?;
            drop(tys);
            let name = name.copy(alloc)?;
            leaf_node(
                alloc,
                Boxed::new(alloc, Ex::Cell(*is_bool, name, at))?,
                asked,
                table,
            )
        }
        Ex::Seen(view) => {
            let view = put_view(alloc, view.get(), lettings, table)?;
            leaf_node(alloc, Boxed::new(alloc, Ex::Seen(view))?, asked, table)
        }
    }
}

/// A name, or the expression that it stands for.
fn put_name(alloc: Global, name: &Text, lettings: &Lettings) -> Result<Boxed<Ex>, NoMemory>
    ensures { IfOk result (λ e. pure_ex e ≡ put_name (look (pure_lettings lettings.now).exs name.now) name.now) }
{
    match lettings.ex(name) {
        Some(ex) => Boxed::new(alloc, ex.copy(alloc)?),
        None => Boxed::new(alloc, Ex::Name(name.copy(alloc)?)),
    }
}

/// A view with lettings put in.
#[cycle(put)]
#[tactic(auto, using(ess_core::proofs::PartEquations::pure_view_is))]
fn put_view(
    alloc: Global,
    view: &View,
    lettings: &Lettings,
    table: &mut TypeTable,
) -> Result<Boxed<View>, NoMemory>
    ensures ok { IfOk result (λ v. pure_view v ≡ put_ex (pure_view view.now) (pure_lettings lettings.now) (pure_table table.old)) }
    ensures kept { OnOk result (table.new ≡ table.old) }
{
    let dom = put_dom(alloc, &view.dom, lettings, table)?;
    let (at, tys) = put_exs(alloc, view.at.as_slice(), false, lettings, table)?;
    drop(tys);
    view_of(alloc, view, dom, at)
}

/// The view of this domain at these indices.
#[tactic(auto, using(ess_core::proofs::PartEquations::pure_view_is))]
fn view_of(
    alloc: Global,
    view: &View,
    dom: Boxed<Dom>,
    at: Row<Ex>,
) -> Result<Boxed<View>, NoMemory>
    ensures { IfOk result (λ v. pure_view v ≡ seen_ex (pure_repr view.now.repr) (pure_dom dom) view.now.cells (pure_exs at)) }
{
    let cells = copied_texts(alloc, view.cells.as_slice())?;
    let repr = view.repr.copy(alloc)?;
    let dom = dom.into_inner();
    Boxed::new(
        alloc,
        View {
            repr,
            dom,
            cells,
            at,
        },
    )
}
