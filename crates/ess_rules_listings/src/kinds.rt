//! Of what kind a term is.
ghost use Rattle.std.specs.Prelude.{◌≡◌, IfOk, option_map};
ghost use Rattle.std.specs.Option.{option_copied};
ghost use Rattle.ess_semantics.specs.Typing.{type_of};
ghost use Rattle.ess_core.specs.TypeViews.{pure_ty};
ghost use Rattle.ess_core_nodes.specs.NodeViews.{pure_node};
ghost use Rattle.ess_node_types.specs.TypedNames.{pure_names};
ghost use Rattle.ess_rules_laws.specs.InclusionRules.{both_sets};
ghost use Rattle.ess_rules_laws.specs.ShortSizeRules.{is_partition};
ghost use Rattle.ess_rules_laws.specs.Listings.{is_strict};
ghost use Rattle.ess_rules_listings.specs.Marks.{marks_of};

use ess_core::Ty;
use ess_core_nodes::Node;
use ess_node_types::{NameTypes, type_of};
use ess_rows::NoMemory;
use ess_rules_forms::{is_truth, seen_type};
use std::alloc::Global;

/// Whether both terms are sets, or both relations.
pub(crate) fn are_sets(
    alloc: Global,
    names: &NameTypes,
    first: &Node,
    second: &Node,
) -> Result<bool, NoMemory>
    ensures { IfOk result (λ b. b
        ≡ both_sets (type_of (pure_node first.now) (pure_names names.now)) (type_of (pure_node second.now) (pure_names names.now))) }
{
    let first = type_of(alloc, first, names)?;
    let second = type_of(alloc, second, names)?;
    Ok(both_sets(seen_type(&first), seen_type(&second)))
}

/// Whether a term is a set, a relation or a partition.
pub(crate) fn is_strict(alloc: Global, names: &NameTypes, term: &Node) -> Result<bool, NoMemory>
    ensures { IfOk result (λ b. b ≡ is_strict (type_of (pure_node term.now) (pure_names names.now))) }
{
    let ty = type_of(alloc, term, names)?;
    Ok(is_strict_type(seen_type(&ty)))
}

/// Whether a term is a partition.
pub(crate) fn is_partition(alloc: Global, names: &NameTypes, term: &Node) -> Result<bool, NoMemory>
    ensures { IfOk result (λ b. b ≡ is_partition (type_of (pure_node term.now) (pure_names names.now))) }
{
    let ty = type_of(alloc, term, names)?;
    Ok(is_partition_type(seen_type(&ty)))
}

/// Of a function whether its arguments are truth values, and whether its results are; nothing of any other term.
pub(crate) fn function_marks(
    alloc: Global,
    names: &NameTypes,
    term: &Node,
) -> Result<Option<(bool, bool)>, NoMemory>
    ensures { IfOk result (λ o. o ≡ marks_of (type_of (pure_node term.now) (pure_names names.now))) }
{
    let ty = type_of(alloc, term, names)?;
    Ok(marks_of(seen_type(&ty)))
}

/// Whether both are sets, or both relations.
fn both_sets(first: Option<&Ty>, second: Option<&Ty>) -> bool
    ensures { result ≡ both_sets (option_map pure_ty (option_copied first.entry)) (option_map pure_ty (option_copied second.entry)) }
{
    match first {
        Some(Ty::Set(_)) => match second {
            Some(Ty::Set(_)) => true,
            _ => false,
        },
        Some(Ty::Relation(_)) => match second {
            Some(Ty::Relation(_)) => true,
            _ => false,
        },
        _ => false,
    }
}

/// Whether the lists of values of the type rise strictly.
fn is_strict_type(ty: Option<&Ty>) -> bool
    ensures { result ≡ is_strict (option_map pure_ty (option_copied ty.entry)) }
{
    match ty {
        Some(Ty::Set(_)) => true,
        Some(Ty::Relation(_)) => true,
        Some(Ty::Partition(_)) => true,
        _ => false,
    }
}

/// Whether the type is of partitions.
fn is_partition_type(ty: Option<&Ty>) -> bool
    ensures { result ≡ is_partition (option_map pure_ty (option_copied ty.entry)) }
{
    match ty {
        Some(Ty::Partition(_)) => true,
        _ => false,
    }
}

/// Whether the arguments of a type of functions are truth values, and whether the results are.
fn marks_of(ty: Option<&Ty>) -> Option<(bool, bool)>
    ensures { result ≡ marks_of (option_map pure_ty (option_copied ty.entry)) }
{
    match ty {
        Some(Ty::Function(from, to)) => Some((is_truth(from.get()), is_truth(to.get()))),
        _ => None,
    }
}
