//! The root with the term of its first source told apart, where that is the first generator which isn't plain.
ghost use Rattle.std.specs.Prelude.{◌≡◌, IfOk, OnOk, option_map};
ghost use Rattle.ess_semantics.specs.Lists.{or_default};
ghost use Rattle.ess_semantics.specs.Trees.{comp_ex, name_pat, from as from_source};
ghost use Rattle.ess_rules_laws.specs.SpliceRules.{append_gens};
ghost use Rattle.ess_core_nodes.specs.NodeViews.{pure_node, pure_gens};
ghost use Rattle.ess_rules.specs.Ruled.{with_new_source as sourced_anew, new_source as source_anew};

use ess_core_nodes::{Gen, Node, Op, copy_gens};
use ess_model_names::told_apart_from;
use ess_node_building::{comprehension, from, word};
use ess_rows::{Boxed, NoMemory, Row, Text};
use ess_rules_folds::forms::{are_none, first_comp, source_in};
use ess_rules_generators::before;
use ess_rules_opening::at_first_open;
use std::alloc::Global;

/// A word of a comprehension, or a comprehension, with its source told apart; nothing where that is the root itself. Reserved names are
/// taken from `next` on, and the number behind these is left there. `NoMemory` where there is no room for it, or the names can't be
/// counted; the number is then any.
pub(crate) fn with_new_source(
    alloc: Global,
    node: &Node,
    next: &mut u64,
) -> Result<Option<Boxed<Node>>, NoMemory>
    ensures made { IfOk result (λ o. or_default (option_map pure_node o) (pure_node node.now)
        ≡ (sourced_anew next.old (pure_node node.now)).0) }
    ensures next { OnOk result (next.new ≡ (sourced_anew next.old (pure_node node.now)).1) }
{
    match node {
        Node::Op(mark, Op::Word(fun), operands) => match first_comp(operands.as_slice()) {
            Some((body, gens, others)) => {
                if !are_none(others) {
                    return Ok(None);
                }
                let made = comp_anew(alloc, body, gens, next)?;
                match made {
                    Some(items) => Ok(Some(word(alloc, *mark, *fun, items)?)),
                    None => Ok(None),
                }
            }
            None => Ok(None),
        },
        Node::Comp(body, gens) => comp_anew(alloc, body.get(), gens.as_slice(), next),
        _ => Ok(None),
    }
}

/// A comprehension with its source told apart, where its first generator that isn't plain binds a name over a value.
fn comp_anew(
    alloc: Global,
    body: &Node,
    gens: &[Gen],
    next: &mut u64,
) -> Result<Option<Boxed<Node>>, NoMemory>
    ensures made { IfOk result (λ o. or_default (option_map pure_node o) (comp_ex (pure_node body.now) (pure_gens gens.now))
        ≡ comp_ex (pure_node body.now) (source_anew next.old (pure_gens gens.now)).0) }
    ensures next { OnOk result (next.new ≡ (source_anew next.old (pure_gens gens.now)).1) }
{
    let Some(opened) = at_first_open(gens) else {
        return Ok(None);
    };
    let Some((name, source, rest)) = source_in(opened.after) else {
        return Ok(None);
    };
    let told = told_apart_from(alloc, source, next)?;
    let gens = bound_behind(alloc, opened.before, name, told, rest)?;
    let body = body.copy(alloc)?;
    Ok(Some(comprehension(alloc, body, gens)?))
}

/// Generators with a name over a value behind the first ones.
fn bound_behind(
    alloc: Global,
    first: &[Gen],
    name: &Text,
    value: Boxed<Node>,
    rest: &[Gen],
) -> Result<Row<Gen>, NoMemory>
    ensures { IfOk result (λ gs. pure_gens gs
        ≡ append_gens (pure_gens first.now) (from_source (name_pat name.now) (pure_node value) (pure_gens rest.now))) }
{
    let bound = from(alloc, name, value)?;
    let mut gens = Row::new(alloc);
    gens.push(bound)?;
    let mut behind = copy_gens(alloc, rest)?;
    gens.append(&mut behind)?;
    before(alloc, first, gens)
}
