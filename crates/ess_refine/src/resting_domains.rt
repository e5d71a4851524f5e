//! Whether none of the rules that are asked fires at any part of a domain.
ghost use Rattle.std.specs.Prelude.{◌≡◌, true, IfOk};
ghost use Rattle.ess_core_nodes.specs.NodeViews.{pure_dom, pure_doms};
ghost use Rattle.ess_node_types.specs.TypedNames.{pure_names};
ghost use Rattle.ess_refine.specs.Settled.{DomSettled, DomsSettled};

use crate::resting::all_rest;
use ess_core_nodes::NodeDom;
use ess_node_types::NameTypes;
use ess_rows::NoMemory;
use std::alloc::Global;

/// Whether no rule fires at any part of a domain: at its bounds, the numbers of its attributes, and those of the domains that it is made
/// of. `NoMemory` where there is no room to ask, or the reserved names can't be counted.
#[cycle(rests)]
pub(crate) fn dom_rests(
    alloc: Global,
    dom: &NodeDom,
    names: &NameTypes,
    next: u64,
) -> Result<bool, NoMemory>
    ensures { IfOk result (λ b. b ≡ true → DomSettled next (pure_names names.now) (pure_dom dom.now)) }
{
    match dom {
        NodeDom::Bool => Ok(true),
        NodeDom::Name(_) => Ok(true),
        NodeDom::Int(_, bounds) => all_rest(alloc, bounds.as_slice(), names, next),
        NodeDom::Tuple(doms) => doms_rest(alloc, doms.as_slice(), names, next),
        NodeDom::Record(_, doms) => doms_rest(alloc, doms.as_slice(), names, next),
        NodeDom::Matrix(axes, item) => {
            if !doms_rest(alloc, axes.as_slice(), names, next)? {
                return Ok(false);
            }
            dom_rests(alloc, item.get(), names, next)
        }
        NodeDom::Set(_, numbers, member) => {
            if !all_rest(alloc, numbers.as_slice(), names, next)? {
                return Ok(false);
            }
            dom_rests(alloc, member.get(), names, next)
        }
        NodeDom::MSet(_, numbers, member) => {
            if !all_rest(alloc, numbers.as_slice(), names, next)? {
                return Ok(false);
            }
            dom_rests(alloc, member.get(), names, next)
        }
        NodeDom::Function(_, numbers, from, to) => {
            if !all_rest(alloc, numbers.as_slice(), names, next)? {
                return Ok(false);
            }
            if !dom_rests(alloc, from.get(), names, next)? {
                return Ok(false);
            }
            dom_rests(alloc, to.get(), names, next)
        }
        NodeDom::Relation(_, numbers, parts) => {
            if !all_rest(alloc, numbers.as_slice(), names, next)? {
                return Ok(false);
            }
            doms_rest(alloc, parts.as_slice(), names, next)
        }
        NodeDom::Partition(_, numbers, member) => {
            if !all_rest(alloc, numbers.as_slice(), names, next)? {
                return Ok(false);
            }
            dom_rests(alloc, member.get(), names, next)
        }
    }
}

/// The same of several domains.
#[cycle(rests)]
fn doms_rest(
    alloc: Global,
    doms: &[NodeDom],
    names: &NameTypes,
    next: u64,
) -> Result<bool, NoMemory>
    ensures { IfOk result (λ b. b ≡ true → DomsSettled next (pure_names names.now) (pure_doms doms.now)) }
{
    for dom in doms {
        if !dom_rests(alloc, dom, names, next)? {
            return Ok(false);
        }
    }
    Ok(true)
}
