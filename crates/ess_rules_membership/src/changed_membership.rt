//! The rule of `in` what is made of another container.
ghost use Rattle.std.specs.Prelude.{◌≡◌, IfOk, true, option_map};
ghost use Rattle.std.specs.Option.{option_copied};
ghost use Rattle.ess_semantics.specs.Trees.{ex2};
ghost use Rattle.ess_core.specs.TypeViews.{pure_ty};
ghost use Rattle.ess_core_nodes.specs.NodeViews.{pure_node};
ghost use Rattle.ess_node_types.specs.TypedNames.{pure_names};
ghost use Rattle.ess_rules_laws.specs.MembershipRules.{is_asked, member_of, member_changed};

use crate::membership::equals_some;
use ess_core::{Fun, Op2, Ty};
use ess_core_nodes::Node;
use ess_node_types::{NameTypes, type_of};
use ess_rows::{Boxed, NoMemory, Text};
use ess_rules_forms::{compared, plain_word, seen_type, truth_pair};
use std::alloc::Global;

/// `x in toSet(m)`, `x in toMSet(m)` and `x in parts(m)` become `x in m` where m is a set, multiset or relation, else
/// `or([y = x | y <- m])`, with the name for y. Nothing for another root; `NoMemory` where there is no room for it.
#[tactic(auto, using(crate::proofs::MemberLemmas::changed_of_pair))]
pub fn member_changed(
    alloc: Global,
    names: &NameTypes,
    one: &Text,
    node: &Node,
) -> Result<Option<Boxed<Node>>, NoMemory>
    ensures { IfOk result (λ o. option_map pure_node o ≡ member_changed (pure_names names.now) one.now (pure_node node.now)) }
{
    match truth_pair(node) {
        Some((Op2::Member, (x, s))) => in_changed(alloc, names, one, x, s),
        _ => Ok(None),
    }
}

/// That x is in what is made of another container.
#[tactic(auto, using(crate::proofs::MemberLemmas::changed_by_word))]
fn in_changed(
    alloc: Global,
    names: &NameTypes,
    one: &Text,
    x: &Node,
    s: &Node,
) -> Result<Option<Boxed<Node>>, NoMemory>
    ensures { IfOk result (λ o. option_map pure_node o ≡
        member_changed (pure_names names.now) one.now (ex2 true Op2.Member (pure_node x.now) (pure_node s.now))) }
{
    match plain_word(s) {
        Some((Fun::ToSet, m)) => member_of(alloc, names, one, x, m),
        Some((Fun::ToMSet, m)) => member_of(alloc, names, one, x, m),
        Some((Fun::Parts, m)) => member_of(alloc, names, one, x, m),
        _ => Ok(None),
    }
}

/// That x is a member of m.
fn member_of(
    alloc: Global,
    names: &NameTypes,
    one: &Text,
    x: &Node,
    m: &Node,
) -> Result<Option<Boxed<Node>>, NoMemory>
    ensures { IfOk result (λ o. option_map pure_node o ≡
        member_of (pure_names names.now) one.now (pure_node x.now) (pure_node m.now)) }
{
    let ty = type_of(alloc, m, names)?;
    if is_asked(seen_type(&ty)) {
        Ok(Some(compared(alloc, Op2::Member, x, m)?))
    } else {
        Ok(Some(equals_some(alloc, one, x, m)?))
    }
}

/// Whether it is a type of containers of which `in` asks: of sets, multisets or relations.
fn is_asked(ty: Option<&Ty>) -> bool
    ensures { result ≡ is_asked (option_map pure_ty (option_copied ty.entry)) }
{
    match ty {
        Some(Ty::Set(_)) => true,
        Some(Ty::MSet(_)) => true,
        Some(Ty::Relation(_)) => true,
        _ => false,
    }
}
