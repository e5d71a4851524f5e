//! The rule of `=` between tuples, by their components.
ghost use Rattle.std.specs.Prelude.{◌≡◌, IfOk, true, option_map};
ghost use Rattle.std.specs.Option.{option_copied};
ghost use Rattle.ess_semantics.specs.Trees.{ex2};
ghost use Rattle.ess_core.specs.TypeViews.{pure_ty, pure_tys};
ghost use Rattle.ess_core_nodes.specs.NodeViews.{pure_node};
ghost use Rattle.ess_node_types.specs.TypedNames.{pure_names};
ghost use Rattle.ess_rules_laws.specs.ComponentRules.{component_of, equal_from, components, equal_where, equal_components};

use ess_core::{Op2, Ty};
use ess_core_nodes::Node;
use ess_node_building::{binary, component, truth};
use ess_node_types::{NameTypes, type_of};
use ess_rows::{Boxed, NoMemory, Text};
use ess_rules_forms::{both, is_truth, seen_type, truth_pair};
use std::alloc::Global;

/// Of tuples `a = b` becomes `a[1] = b[1] /\ .. /\ true`. Nothing for another root or other types; `NoMemory` where there is no
/// room for it. The name is that which each rule is given; this one binds none.
#[tactic(auto, using(crate::proofs::PairRules::components_of_pair))]
pub fn equal_components(
    alloc: Global,
    names: &NameTypes,
    one: &Text,
    node: &Node,
) -> Result<Option<Boxed<Node>>, NoMemory>
    ensures { IfOk result (λ o. option_map pure_node o ≡ equal_components (pure_names names.now) one.now (pure_node node.now)) }
{
    match truth_pair(node) {
        Some((Op2::Eq, (a, b))) => {
            let first = type_of(alloc, a, names)?;
            let second = type_of(alloc, b, names)?;
            equal_where(
                alloc,
                components(seen_type(&first)),
                components(seen_type(&second)),
                a,
                b,
            )
        }
        _ => Ok(None),
    }
}

/// The types of a tuple's components.
fn components(ty: Option<&Ty>) -> Option<&[Ty]>
    ensures { option_map (λ ts. pure_tys ts.now) result ≡ components (option_map pure_ty (option_copied ty.entry)) }
{
    match ty {
        Some(Ty::Tuple(tys)) => Some(tys.as_slice()),
        _ => None,
    }
}

/// That the components are equal, where both have some.
fn equal_where(
    alloc: Global,
    first: Option<&[Ty]>,
    second: Option<&[Ty]>,
    a: &Node,
    b: &Node,
) -> Result<Option<Boxed<Node>>, NoMemory>
    ensures { IfOk result (λ o. option_map pure_node o ≡ equal_where (option_map (λ ts. pure_tys ts.now) first.entry)
        (option_map (λ us. pure_tys us.now) second.entry) (pure_node a.now) (pure_node b.now)) }
{
    match first {
        Some(first) => match second {
            Some(second) => Ok(Some(equal_from(alloc, 1, first, second, a, b)?)),
            None => Ok(None),
        },
        None => Ok(None),
    }
}

/// That the components from this number on are equal, where the tuples have these components there.
fn equal_from(
    alloc: Global,
    number: u64,
    first: &[Ty],
    second: &[Ty],
    a: &Node,
    b: &Node,
) -> Result<Boxed<Node>, NoMemory>
    ensures { IfOk result (λ n. pure_node n ≡
        equal_from number (pure_tys first.now) (pure_tys second.now) (pure_node a.now) (pure_node b.now)) }
{
    match first.split_first() {
        None => match second.split_first() {
            None => truth(alloc, true),
            Some(_) => truth(alloc, false),
        },
        Some((ty, first)) => match second.split_first() {
            None => truth(alloc, false),
            Some((other, second)) => match number.checked_add(1) {
                None => Err(NoMemory),
                Some(next) => {
                    let behind = equal_from(alloc, next, first, second, a, b)?;
                    both(
                        alloc,
                        equal_component(alloc, number, ty, other, a, b)?,
                        behind,
                    )
                }
            },
        },
    }
}

/// That the components of this number, of these types, are equal.
fn equal_component(
    alloc: Global,
    number: u64,
    first: &Ty,
    second: &Ty,
    a: &Node,
    b: &Node,
) -> Result<Boxed<Node>, NoMemory>
    ensures { IfOk result (λ n. pure_node n ≡ ex2 true Op2.Eq (component_of (pure_ty first.now) number (pure_node a.now))
        (component_of (pure_ty second.now) number (pure_node b.now))) }
{
    let a = component_of(alloc, first, number, a)?;
    let b = component_of(alloc, second, number, b)?;
    binary(alloc, true, Op2::Eq, a, b)
}

/// The component of this number, which is of this type, of a tuple.
fn component_of(alloc: Global, ty: &Ty, number: u64, tuple: &Node) -> Result<Boxed<Node>, NoMemory>
    ensures { IfOk result (λ n. pure_node n ≡ component_of (pure_ty ty.now) number (pure_node tuple.now)) }
{
    component(alloc, is_truth(ty), number, tuple.copy(alloc)?)
}
