//! What is written for domains of axes and cells.
ghost use Rattle.std.specs.Prelude.{◌≡◌, true, IfOk, map, option_map};
ghost use Rattle.ess_semantics.specs.Trees.{int_dom};
ghost use Rattle.ess_core_nodes.specs.NodeViews.{pure_dom, pure_ends, pure_nodes};
ghost use Rattle.eprime_tree.specs.Views.{pure_dom as pure_model_dom};
ghost use Rattle.eprime_read_convert.specs.Lines.{scope_of};
ghost use Rattle.eprime_lowering.specs.Lowered.{lowered_dom};
ghost use Rattle.ess_model_written.specs.DeclarationsWritten.{DomComes, DomsCome};

use crate::bounds::bounds_printed;
use eprime_lowering::lower_dom;
use eprime_read_convert::Lines;
use eprime_tree::PDom;
use ess_core_nodes::{Ends, Node, NodeDom};
use ess_model_printed::Taken;
use ess_rows::{Boxed, NoMemory, Row};
use std::alloc::Global;

/// What is written for a domain, where these lines declare names: `bool` stays, and each bound of a domain of numbers is refined, with
/// its bound names told apart from the reserved name of this number on. `None` where nothing is. `NoMemory` where there is no room for
/// it, or the reserved names can't be counted.
pub(crate) fn dom_written(
    alloc: Global,
    number: u64,
    taken: &Taken,
    lines: &Lines,
    dom: &NodeDom,
) -> Result<Option<PDom>, NoMemory>
    ensures { IfOk result (λ o. DomComes (scope_of lines.now) taken.now number (pure_dom dom.now)
        (option_map (pure_model_dom (scope_of lines.now)) o)) }
{
    match dom {
        NodeDom::Bool => Ok(Some(PDom::Bool)),
        NodeDom::Int(ends, bounds) => {
            int_written(
                alloc,
                number,
                taken,
                lines,
                ends.as_slice(),
                bounds.as_slice(),
            )
        }
        _ => Ok(None),
    }
}

/// The same of the numbers in these ranges.
#[tactic(auto, using(crate::proofs::DomainLaws::int_stuck, crate::proofs::DomainLaws::int_lowered))]
fn int_written(
    alloc: Global,
    number: u64,
    taken: &Taken,
    lines: &Lines,
    ends: &[Ends],
    bounds: &[Node],
) -> Result<Option<PDom>, NoMemory>
    ensures { IfOk result (λ o. DomComes (scope_of lines.now) taken.now number (int_dom (map pure_ends ends.now) (pure_nodes bounds.now))
        (option_map (pure_model_dom (scope_of lines.now)) o)) }
{
    match bounds_printed(alloc, number, taken, bounds)? {
        Some(printed) => {
            let made = lowered(alloc, lines, ends, printed)?;
            Ok(made)
        }
        None => Ok(None),
    }
}

/// The domain of a model for the numbers in ranges of these forms with these bounds.
fn lowered(
    alloc: Global,
    lines: &Lines,
    ends: &[Ends],
    bounds: Row<Node>,
) -> Result<Option<PDom>, NoMemory>
    ensures { IfOk result (λ o. option_map (pure_model_dom (scope_of lines.now)) o
        ≡ lowered_dom (scope_of lines.now) true (int_dom (map pure_ends ends.now) (pure_nodes bounds))) }
{
    let ends = Row::from_slice(alloc, ends)?;
    let dom = Boxed::new(alloc, NodeDom::Int(ends, bounds))?;
    lower_dom(alloc, lines, true, dom.get())
}

/// What is written for several domains. `None` where nothing is for one of them; `NoMemory` as above.
#[tactic(auto, using(crate::proofs::DomainSteps::none_written, crate::proofs::DomainSteps::all_written))]
pub(crate) fn doms_written(
    alloc: Global,
    number: u64,
    taken: &Taken,
    lines: &Lines,
    doms: &[NodeDom],
) -> Result<Option<Row<PDom>>, NoMemory>
    ensures { IfOk result (λ o. DomsCome (scope_of lines.now) taken.now number (map pure_dom doms.now)
        (option_map (map (pure_model_dom (scope_of lines.now))) o)) }
{
    let mut written = Row::with_capacity(alloc, doms.len())?;
    for dom in doms {
        match dom_written(alloc, number, taken, lines, dom)? {
            Some(made) => written.push(made)?,
            None => return Ok(None),
        }
    }
    Ok(Some(written))
}
