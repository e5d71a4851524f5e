//! Which kinds of containers terms have.
ghost use Rattle.std.specs.Prelude.{◌≡◌, option_map, IfOk};
ghost use Rattle.ess_semantics.specs.Typing.{type_of as type_under};
ghost use Rattle.ess_core.specs.TypeViews.{pure_ty};
ghost use Rattle.ess_core_nodes.specs.NodeViews.{pure_node};
ghost use Rattle.ess_node_types.specs.TypedNames.{pure_names};
ghost use Rattle.ess_rules_laws.specs.SizeRules.{is_counted as counts};
ghost use Rattle.ess_rules_laws.specs.ShortSizeRules.{is_function as maps, is_partition as parts};
ghost use Rattle.ess_rules_laws.specs.InclusionRules.{both_sets};

use ess_core::Ty;
use ess_core_nodes::Node;
use ess_node_types::{NameTypes, type_of};
use ess_rows::{Boxed, NoMemory};
use std::alloc::Global;

/// Whether the term is a set, a multiset, a function or a relation. `NoMemory` where there is no room for its type.
pub(crate) fn is_counted(alloc: Global, types: &NameTypes, term: &Node) -> Result<bool, NoMemory>
    ensures { IfOk result (λ b. b ≡ counts (type_under (pure_node term.now) (pure_names types.now))) }
{
    let ty = type_of(alloc, term, types)?;
    Ok(counted(&ty))
}

/// Whether the term is a function.
pub(crate) fn is_function(alloc: Global, types: &NameTypes, term: &Node) -> Result<bool, NoMemory>
    ensures { IfOk result (λ b. b ≡ maps (type_under (pure_node term.now) (pure_names types.now))) }
{
    let ty = type_of(alloc, term, types)?;
    Ok(mapping(&ty))
}

/// Whether the term is a partition.
pub(crate) fn is_partition(alloc: Global, types: &NameTypes, term: &Node) -> Result<bool, NoMemory>
    ensures { IfOk result (λ b. b ≡ parts (type_under (pure_node term.now) (pure_names types.now))) }
{
    let ty = type_of(alloc, term, types)?;
    Ok(parted(&ty))
}

/// Whether the term is a set or a relation.
pub(crate) fn is_strict(alloc: Global, types: &NameTypes, term: &Node) -> Result<bool, NoMemory>
    ensures { IfOk result (λ b. b ≡ both_sets (type_under (pure_node term.now) (pure_names types.now))
        (type_under (pure_node term.now) (pure_names types.now))) }
{
    let ty = type_of(alloc, term, types)?;
    Ok(strict(&ty))
}

/// Whether the type is of containers with members, pairs or tuples.
fn counted(ty: &Option<Boxed<Ty>>) -> bool
    ensures { result ≡ counts (option_map pure_ty ty.now) }
{
    match ty {
        None => false,
        Some(ty) => match ty.get() {
            Ty::Set(_) | Ty::MSet(_) | Ty::Function(_, _) | Ty::Relation(_) => true,
            _ => false,
        },
    }
}

/// Whether the type is of functions.
fn mapping(ty: &Option<Boxed<Ty>>) -> bool
    ensures { result ≡ maps (option_map pure_ty ty.now) }
{
    match ty {
        None => false,
        Some(ty) => match ty.get() {
            Ty::Function(_, _) => true,
            _ => false,
        },
    }
}

/// Whether the type is of partitions.
fn parted(ty: &Option<Boxed<Ty>>) -> bool
    ensures { result ≡ parts (option_map pure_ty ty.now) }
{
    match ty {
        None => false,
        Some(ty) => match ty.get() {
            Ty::Partition(_) => true,
            _ => false,
        },
    }
}

/// Whether the type is of sets or relations.
fn strict(ty: &Option<Boxed<Ty>>) -> bool
    ensures { result ≡ both_sets (option_map pure_ty ty.now) (option_map pure_ty ty.now) }
{
    match ty {
        None => false,
        Some(ty) => match ty.get() {
            Ty::Set(_) | Ty::Relation(_) => true,
            _ => false,
        },
    }
}
