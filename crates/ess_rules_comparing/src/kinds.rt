//! Of what kind both terms of a comparison are.
ghost use Rattle.std.specs.Prelude.{◌≡◌, IfOk, option_map};
ghost use Rattle.std.specs.Option.{option_copied};
ghost use Rattle.ess_semantics.specs.Typing.{type_of};
ghost use Rattle.ess_core.specs.TypeViews.{pure_ty};
ghost use Rattle.ess_core_nodes.specs.NodeViews.{pure_node};
ghost use Rattle.ess_node_types.specs.TypedNames.{pure_names};
ghost use Rattle.ess_rules_laws.specs.InclusionRules.{both_sets, both_msets, both_functions};
ghost use Rattle.ess_rules_laws.specs.PartitionRules.{both_partitions};

use ess_core::Ty;
use ess_core_nodes::Node;
use ess_node_types::{NameTypes, type_of};
use ess_rows::NoMemory;
use ess_rules_forms::seen_type;
use std::alloc::Global;

/// Whether both are sets, or both relations.
fn both_sets(first: Option<&Ty>, second: Option<&Ty>) -> bool
    ensures { result ≡ both_sets (option_map pure_ty (option_copied first.entry)) (option_map pure_ty (option_copied second.entry)) }
{
    match first {
        Some(Ty::Set(_)) => match second {
            Some(Ty::Set(_)) => true,
            _ => false,
        },
        Some(Ty::Relation(_)) => match second {
            Some(Ty::Relation(_)) => true,
            _ => false,
        },
        _ => false,
    }
}

/// Whether both are multisets.
fn both_msets(first: Option<&Ty>, second: Option<&Ty>) -> bool
    ensures { result ≡ both_msets (option_map pure_ty (option_copied first.entry)) (option_map pure_ty (option_copied second.entry)) }
{
    match first {
        Some(Ty::MSet(_)) => match second {
            Some(Ty::MSet(_)) => true,
            _ => false,
        },
        _ => false,
    }
}

/// Whether both are functions.
fn both_functions(first: Option<&Ty>, second: Option<&Ty>) -> bool
    ensures { result ≡ both_functions (option_map pure_ty (option_copied first.entry)) (option_map pure_ty (option_copied second.entry)) }
{
    match first {
        Some(Ty::Function(_, _)) => match second {
            Some(Ty::Function(_, _)) => true,
            _ => false,
        },
        _ => false,
    }
}

/// Whether both are partitions.
fn both_partitions(first: Option<&Ty>, second: Option<&Ty>) -> bool
    ensures { result ≡
        both_partitions (option_map pure_ty (option_copied first.entry)) (option_map pure_ty (option_copied second.entry)) }
{
    match first {
        Some(Ty::Partition(_)) => match second {
            Some(Ty::Partition(_)) => true,
            _ => false,
        },
        _ => false,
    }
}

/// Whether both terms are sets, or both relations.
pub(crate) fn are_sets(
    alloc: Global,
    names: &NameTypes,
    first: &Node,
    second: &Node,
) -> Result<bool, NoMemory>
    ensures { IfOk result (λ t. t ≡
        both_sets (type_of (pure_node first.now) (pure_names names.now)) (type_of (pure_node second.now) (pure_names names.now))) }
{
    let first = type_of(alloc, first, names)?;
    let second = type_of(alloc, second, names)?;
    Ok(both_sets(seen_type(&first), seen_type(&second)))
}

/// Whether both terms are multisets.
pub(crate) fn are_msets(
    alloc: Global,
    names: &NameTypes,
    first: &Node,
    second: &Node,
) -> Result<bool, NoMemory>
    ensures { IfOk result (λ t. t ≡
        both_msets (type_of (pure_node first.now) (pure_names names.now)) (type_of (pure_node second.now) (pure_names names.now))) }
{
    let first = type_of(alloc, first, names)?;
    let second = type_of(alloc, second, names)?;
    Ok(both_msets(seen_type(&first), seen_type(&second)))
}

/// Whether both terms are functions.
pub(crate) fn are_functions(
    alloc: Global,
    names: &NameTypes,
    first: &Node,
    second: &Node,
) -> Result<bool, NoMemory>
    ensures { IfOk result (λ t. t ≡
        both_functions (type_of (pure_node first.now) (pure_names names.now)) (type_of (pure_node second.now) (pure_names names.now))) }
{
    let first = type_of(alloc, first, names)?;
    let second = type_of(alloc, second, names)?;
    Ok(both_functions(seen_type(&first), seen_type(&second)))
}

/// Whether both terms are partitions.
pub(crate) fn are_partitions(
    alloc: Global,
    names: &NameTypes,
    first: &Node,
    second: &Node,
) -> Result<bool, NoMemory>
    ensures { IfOk result (λ t. t ≡
        both_partitions (type_of (pure_node first.now) (pure_names names.now))
        (type_of (pure_node second.now) (pure_names names.now))) }
{
    let first = type_of(alloc, first, names)?;
    let second = type_of(alloc, second, names)?;
    Ok(both_partitions(seen_type(&first), seen_type(&second)))
}
