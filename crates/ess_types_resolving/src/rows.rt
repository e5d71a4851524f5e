//! Rows of expressions, resolved, with their types.
ghost use Rattle.std.specs.Prelude.{◌≡◌, [], ◌∷◌, map, option_map, IfOk, OnOk};
ghost use Rattle.ess_semantics.specs.Lists.{and_then, all_some};
ghost use Rattle.ess_semantics.specs.Names.{keys};
ghost use Rattle.ess_semantics.specs.Types.{is_bool};
ghost use Rattle.ess_semantics.specs.OperatorTypes.{type_of_op};
ghost use Rattle.ess_semantics.specs.Trees.{application, tuple_literal, node_ex, more_exs, no_exs};
ghost use Rattle.ess_semantics.specs.Typing.{type_of, types_of};
ghost use Rattle.ess_semantics.specs.Resolving.{resolve, resolve_exs, resolved_op};
ghost use Rattle.ess_core.specs.TypeViews.{pure_ty};
ghost use Rattle.ess_core.specs.TreeViews.{pure_ex, pure_exs, pure_pair_ex, pure_field_ex, exs_of, field_values};
ghost use Rattle.ess_types_names.specs.Tables.{pure_table};
ghost use Rattle.ess_types_resolving.specs.Parts.{resolved_field};

use crate::expressions::resolve_typed;
use crate::nodes::{apply_node, image_node};
use crate::types::{applies_function, type_of_apply, type_of_two_parts, with_type};
use ess_core::{Boxed, Ex, FieldEx, NoMemory, PairEx, Row, Text, Ty};
use ess_types_names::TypeTable;
use std::alloc::Global;

/// Expressions, resolved, with their types where each has one.
#[cycle(resolve)]
#[tactic(auto, using(crate::proofs::Items::exs_more, crate::proofs::Items::exs_all, crate::proofs::Operands::none_before, crate::proofs::Operands::exs_types_more, crate::proofs::Operands::exs_types_all))]
pub(crate) fn resolve_exs(
    alloc: Global,
    exs: &[Ex],
    table: &mut TypeTable,
) -> Result<(Row<Ex>, Option<Row<Ty>>), NoMemory>
    ensures trees { IfOk result (λ r. pure_exs r.0 ≡ resolve_exs (pure_exs exs.now) (pure_table table.old)) }
    ensures types { IfOk result (λ r. option_map (map pure_ty) r.1 ≡ all_some (types_of (pure_exs exs.now) (pure_table table.old))) }
    ensures kept { OnOk result (table.new ≡ table.old) }
{
    let mut resolved = Row::new(alloc);
    let mut tys = Some(Row::new(alloc));
    for ex in exs {
        let (item, ty) = resolve_typed(alloc, ex, table)?;
        resolved.push(item.into_inner())?;
        tys = with_type(tys, ty)?;
    }
    Ok((resolved, tys))
}

/// The pairs of a function literal, resolved, with their types where each has one.
#[cycle(resolve)]
#[tactic(auto, using(crate::proofs::Items::pairs_more, crate::proofs::Items::pairs_all, crate::proofs::Operands::none_before, crate::proofs::Operands::pairs_types_more, crate::proofs::Operands::pairs_types_all))]
pub(crate) fn resolve_pairs(
    alloc: Global,
    pairs: &[PairEx],
    table: &mut TypeTable,
) -> Result<(Row<PairEx>, Option<Row<Ty>>), NoMemory>
    ensures trees { IfOk result (λ r. exs_of (map pure_pair_ex r.0)
        ≡ resolve_exs (exs_of (map pure_pair_ex pairs.now)) (pure_table table.old)) }
    ensures types { IfOk result (λ r. option_map (map pure_ty) r.1
        ≡ all_some (types_of (exs_of (map pure_pair_ex pairs.now)) (pure_table table.old))) }
    ensures kept { OnOk result (table.new ≡ table.old) }
{
    let mut resolved = Row::new(alloc);
    let mut tys = Some(Row::new(alloc));
    for pair in pairs {
        let (item, ty) = resolve_pair(alloc, pair, table)?;
        resolved.push(item.into_inner())?;
        tys = with_type(tys, ty)?;
    }
    Ok((resolved, tys))
}

/// A pair of a function literal: a tuple.
#[cycle(resolve)]
#[tactic(auto, using(ess_core::proofs::PartEquations::pure_pair_ex_is))]
fn resolve_pair(
    alloc: Global,
    pair: &PairEx,
    table: &mut TypeTable,
) -> Result<(Boxed<PairEx>, Option<Boxed<Ty>>), NoMemory>
    ensures tree { IfOk result (λ r. pure_pair_ex r.0 ≡ resolve (pure_pair_ex pair.now) (pure_table table.old)) }
    ensures types { IfOk result (λ r. option_map pure_ty r.1 ≡ type_of (pure_pair_ex pair.now) (pure_table table.old)) }
    ensures kept { OnOk result (table.new ≡ table.old) }
{
    let from = resolve_typed(alloc, &pair.from, table)?;
    let to = resolve_typed(alloc, &pair.to, table)?;
    pair_node(alloc, from, to)
}

/// A pair of resolved parts, with its type.
#[tactic(auto, using(ess_core::proofs::PartEquations::pure_pair_ex_is, crate::proofs::LiteralMarks::pair_marked))]
fn pair_node(
    alloc: Global,
    from: (Boxed<Ex>, Option<Boxed<Ty>>),
    to: (Boxed<Ex>, Option<Boxed<Ty>>),
) -> Result<(Boxed<PairEx>, Option<Boxed<Ty>>), NoMemory>
    ensures tree { IfOk result (λ r. pure_pair_ex r.0
        ≡ node_ex (is_bool (option_map pure_ty r.1)) tuple_literal (more_exs (pure_ex from.0) (more_exs (pure_ex to.0) no_exs))) }
    ensures types { IfOk result (λ r. option_map pure_ty r.1
        ≡ and_then (all_some (option_map pure_ty from.1 ∷ option_map pure_ty to.1 ∷ [])) (type_of_op tuple_literal)) }
{
    let (from, first) = from;
    let (to, second) = to;
    let ty = type_of_two_parts(alloc, first, second)?;
    let (from, to) = (from.into_inner(), to.into_inner());
    let pair = Boxed::new(alloc, PairEx { from, to })?;
    Ok((pair, ty))
}

/// The fields of a record literal, resolved, with their types where each has one.
#[cycle(resolve)]
#[tactic(auto, using(crate::proofs::Items::fields_more, crate::proofs::Items::fields_all, crate::proofs::Items::field_names_more, crate::proofs::Items::field_names_all, crate::proofs::Operands::none_before, crate::proofs::Operands::fields_types_more, crate::proofs::Operands::fields_types_all))]
pub(crate) fn resolve_fields(
    alloc: Global,
    fields: &[FieldEx],
    table: &mut TypeTable,
) -> Result<(Row<FieldEx>, Option<Row<Ty>>), NoMemory>
    ensures names { IfOk result (λ r. keys (map pure_field_ex r.0) ≡ keys (map pure_field_ex fields.now)) }
    ensures trees { IfOk result (λ r. exs_of (field_values (map pure_field_ex r.0))
        ≡ resolve_exs (exs_of (field_values (map pure_field_ex fields.now))) (pure_table table.old)) }
    ensures types { IfOk result (λ r. option_map (map pure_ty) r.1
        ≡ all_some (types_of (exs_of (field_values (map pure_field_ex fields.now))) (pure_table table.old))) }
    ensures kept { OnOk result (table.new ≡ table.old) }
{
    let mut resolved = Row::new(alloc);
    let mut tys = Some(Row::new(alloc));
    for field in fields {
        let (item, ty) = resolve_field(alloc, field, table)?;
        resolved.push(item.into_inner())?;
        tys = with_type(tys, ty)?;
    }
    Ok((resolved, tys))
}

/// A field of a record literal, resolved, with the type of its value.
#[cycle(resolve)]
#[tactic(auto, using(ess_core::proofs::PartEquations::pure_field_ex_is))]
fn resolve_field(
    alloc: Global,
    field: &FieldEx,
    table: &mut TypeTable,
) -> Result<(Boxed<FieldEx>, Option<Boxed<Ty>>), NoMemory>
    ensures tree { IfOk result (λ r. pure_field_ex r.0 ≡ resolved_field (pure_field_ex field.now) (pure_table table.old)) }
    ensures types { IfOk result (λ r. option_map pure_ty r.1 ≡ type_of (pure_field_ex field.now).1 (pure_table table.old)) }
    ensures kept { OnOk result (table.new ≡ table.old) }
{
    let (ex, ty) = resolve_typed(alloc, &field.ex, table)?;
    let field = field_node(alloc, &field.name, ex)?;
    Ok((field, ty))
}

/// A field of a record literal.
#[tactic(auto, using(ess_core::proofs::PartEquations::pure_field_ex_is))]
fn field_node(alloc: Global, name: &Text, ex: Boxed<Ex>) -> Result<Boxed<FieldEx>, NoMemory>
    ensures { IfOk result (λ f. pure_field_ex f ≡ (name.now, pure_ex ex)) }
{
    let name = name.copy(alloc)?;
    let ex = ex.into_inner();
    Boxed::new(alloc, FieldEx { name, ex })
}

/// An application of what is resolved already, resolved, with its type where its parts' types fit.
#[cycle(resolve)]
#[tactic(auto, using(crate::proofs::Applications::image_at, crate::proofs::Applications::no_function, crate::proofs::Applications::other_count))]
pub(crate) fn resolve_applied(
    alloc: Global,
    arguments: &[Ex],
    applied: (Boxed<Ex>, Option<Boxed<Ty>>),
    table: &mut TypeTable,
) -> Result<(Boxed<Ex>, Option<Boxed<Ty>>), NoMemory>
    ensures tree { IfOk result (λ r. pure_ex r.0
        ≡ node_ex (is_bool (option_map pure_ty r.1))
        (resolved_op application (option_map pure_ty applied.1 ∷ types_of (pure_exs arguments.now) (pure_table table.old)))
        (more_exs (pure_ex applied.0) (resolve_exs (pure_exs arguments.now) (pure_table table.old)))) }
    ensures types { IfOk result (λ r. option_map pure_ty r.1
        ≡ and_then (all_some (option_map pure_ty applied.1 ∷ types_of (pure_exs arguments.now) (pure_table table.old)))
        (type_of_op application)) }
    ensures kept { OnOk result (table.new ≡ table.old) }
{
    let (applied, first) = applied;
    let (operands, tys) = resolve_exs(alloc, arguments, table)?;
    let function = applies_function(&first);
    let ty = type_of_apply(alloc, first, tys)?;
    if function {
        if arguments.len() == 1 {
            return image_node(alloc, applied, operands, ty);
        }
    }
    apply_node(alloc, applied, operands, ty)
}
