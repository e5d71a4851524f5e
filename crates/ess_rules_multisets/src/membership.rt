//! Whether a member is in a multiset.
ghost use Rattle.std.specs.Prelude.{◌≡◌, true, option_map, IfOk};
ghost use Rattle.ess_semantics.specs.Trees.{ex2};
ghost use Rattle.ess_core_nodes.specs.NodeViews.{pure_node};
ghost use Rattle.ess_views_laws.specs.MultisetViews.{multiset_member};
ghost use Rattle.ess_rules_kinds.specs.ViewParts.{leaf_view};
ghost use Rattle.ess_rules_kinds.specs.CodeParts.{pure_leaf};

use crate::frequencies::those_that_are;
use ess_core::{Fun, Op2, ReprKind};
use ess_core_nodes::{Node, NodeDom};
use ess_node_building::{comprehension, word};
use ess_rows::{Boxed, NoMemory, Text};
use ess_rules_forms::truth_pair;
use ess_rules_kinds::pieces::is_there;
use ess_rules_kinds::{Leaf, leaf_parts};
use std::alloc::Global;

/// `a in v` where the members are numbered: one that is a is there. The name is a new one. Nothing for another tree; `NoMemory` where
/// there is no room for it.
#[tactic(auto, using(crate::proofs::MultisetForms::member_by_pair))]
pub fn multiset_member(
    alloc: Global,
    one: &Text,
    node: &Node,
) -> Result<Option<Boxed<Node>>, NoMemory>
    ensures { IfOk result (λ o. option_map pure_node o ≡ multiset_member one.now (pure_node node.now)) }
{
    match truth_pair(node) {
        Some((Op2::Member, (member, view))) => member_in(alloc, one, member, view),
        _ => Ok(None),
    }
}

/// The same of the member and the multiset.
#[tactic(auto, using(crate::proofs::MultisetForms::member_by_parts))]
fn member_in(
    alloc: Global,
    one: &Text,
    member: &Node,
    view: &Node,
) -> Result<Option<Boxed<Node>>, NoMemory>
    ensures { IfOk result (λ o. option_map pure_node o
        ≡ multiset_member one.now (ex2 true Op2.Member (pure_node member.now) (pure_node view.now))) }
{
    match leaf_parts(view) {
        Some(parts) => member_over(alloc, one, member, &parts),
        None => Ok(None),
    }
}

/// The same of the parts of a view.
fn member_over(
    alloc: Global,
    one: &Text,
    member: &Node,
    parts: &Leaf<'_>,
) -> Result<Option<Boxed<Node>>, NoMemory>
    ensures { IfOk result (λ o. option_map pure_node o
        ≡ multiset_member one.now (ex2 true Op2.Member (pure_node member.now) (leaf_view (pure_leaf parts.now)))) }
{
    match parts.kind {
        ReprKind::MSetOccurrence => match parts.dom {
            NodeDom::MSet(_, _, dom) => {
                let item = is_there(alloc, parts.table, parts.at, one)?;
                let gens = those_that_are(alloc, one, dom.get(), member)?;
                let list = comprehension(alloc, item, gens)?;
                Ok(Some(word(alloc, true, Fun::Or, list)?))
            }
            _ => Ok(None),
        },
        _ => Ok(None),
    }
}
