//! Words that see no repeats, over what a set is made of; words and signs that see no index domain.
ghost use Rattle.std.specs.Prelude.{◌≡◌, ◌&&◌, ◌||◌, IfOk, option_map};
ghost use Rattle.ess_core_nodes.specs.NodeViews.{pure_node, pure_gens};
ghost use Rattle.ess_open_rules_laws.specs.OpenSources.{seen_loosely as loosely_seen, loose_source as source_loose, forgets_repeats as repeats_forgotten, listed_plainly as plainly_listed, is_placed as placed, plain_list as list_plain};
ghost use Rattle.ess_rules_laws.specs.ListRules.{is_lex as compares_lists, is_of_list as of_list};
ghost use Rattle.ess_rules_laws.specs.FoldRules.{is_fold as folds};

use crate::forms::comp_word;
use crate::gens::at_first_open;
use ess_core::{Fun, Op2};
use ess_core_nodes::{Gen, Node, Op, copy_gens, copy_nodes};
use ess_node_building::{binary, comprehension, literal, word};
use ess_rows::{Boxed, NoMemory, Row};
use ess_rules_folds::forms::{from_in, made_set_of};
use ess_rules_forms::{only_in, pair_in};
use ess_rules_generators::before;
use std::alloc::Global;

/// A word that sees no repeats over a set made of another term, over that term. `NoMemory` where there is no room for it.
#[tactic(auto, using(crate::proofs::LooseForms::loosely_by_parts))]
pub fn seen_loosely(alloc: Global, node: &Node) -> Result<Option<Boxed<Node>>, NoMemory>
    ensures { IfOk result (λ o. option_map pure_node o ≡ loosely_seen (pure_node node.now)) }
{
    let Some(parts) = comp_word(node) else {
        return Ok(None);
    };
    if !forgets_repeats(parts.mark, parts.fun) {
        return Ok(None);
    }
    let Some(opened) = at_first_open(parts.gens) else {
        return Ok(None);
    };
    let after = loose_source(alloc, opened.after)?;
    let Some(after) = after else {
        return Ok(None);
    };
    let gens = before(alloc, opened.before, after)?;
    let body = parts.body.copy(alloc)?;
    let items = comprehension(alloc, body, gens)?;
    Ok(Some(word(alloc, parts.mark, parts.fun, items)?))
}

/// Whether repeats don't count in the operand of the word.
fn forgets_repeats(mark: bool, fun: Fun) -> bool
    ensures { result ≡ repeats_forgotten mark fun }
{
    if mark {
        match fun {
            Fun::And | Fun::Or => true,
            _ => false,
        }
    } else {
        match fun {
            Fun::Min | Fun::Max => true,
            _ => false,
        }
    }
}

/// A generator over what a set is made of, in the place of one over the set, before the others.
#[tactic(auto, using(ess_core_nodes::proofs::NodeEquations::pure_gen_from, crate::proofs::LooseForms::source_by_parts))]
fn loose_source(alloc: Global, gens: &[Gen]) -> Result<Option<Row<Gen>>, NoMemory>
    ensures { IfOk result (λ o. option_map pure_gens o ≡ source_loose (pure_gens gens.now)) }
{
    let Some((pat, source, rest)) = from_in(gens) else {
        return Ok(None);
    };
    let Some(made) = made_set_of(source) else {
        return Ok(None);
    };
    let made = made.copy(alloc)?;
    let pat = pat.copy(alloc)?;
    let mut behind = copy_gens(alloc, rest)?;
    let mut all = Row::new(alloc);
    all.push(Gen::From(pat, made))?;
    all.append(&mut behind)?;
    Ok(Some(all))
}

/// A word of lists, or a sign between them, with the lists in the place of matrices over index domains. `NoMemory` where there is no room
/// for it.
#[tactic(auto, using(ess_core_nodes::proofs::NodeEquations::pure_seen_is, crate::proofs::LooseForms::word_listed, crate::proofs::LooseForms::pair_listed))]
pub fn listed_plainly(alloc: Global, node: &Node) -> Result<Option<Boxed<Node>>, NoMemory>
    ensures { IfOk result (λ o. option_map pure_node o ≡ plainly_listed (pure_node node.now)) }
{
    match node {
        Node::Op(true, Op::Binary(op), operands) => match pair_in(operands.as_slice()) {
            Some((first, second)) => {
                if !is_lex(*op) || !(is_placed(first) || is_placed(second)) {
                    return Ok(None);
                }
                let first = plain_list(alloc, first)?;
                let second = plain_list(alloc, second)?;
                Ok(Some(binary(alloc, true, *op, first, second)?))
            }
            None => Ok(None),
        },
        Node::Op(mark, Op::Word(fun), operands) => match only_in(operands.as_slice()) {
            Some(list) => {
                if !(is_fold(*fun) || is_of_list(*fun)) || !is_placed(list) {
                    return Ok(None);
                }
                let list = plain_list(alloc, list)?;
                Ok(Some(word(alloc, *mark, *fun, list)?))
            }
            None => Ok(None),
        },
        _ => Ok(None),
    }
}

/// Whether the sign compares lists.
fn is_lex(op: Op2) -> bool
    ensures { result ≡ compares_lists op }
{
    match op {
        Op2::LexLt | Op2::LexLe | Op2::LexGt | Op2::LexGe => true,
        _ => false,
    }
}

/// Whether the word folds lists.
fn is_fold(fun: Fun) -> bool
    ensures { result ≡ folds fun }
{
    match fun {
        Fun::And | Fun::Or | Fun::Sum | Fun::Product => true,
        _ => false,
    }
}

/// Whether the word is of a list without being a fold.
fn is_of_list(fun: Fun) -> bool
    ensures { result ≡ of_list fun }
{
    match fun {
        Fun::Min | Fun::Max | Fun::AllDiff => true,
        _ => false,
    }
}

/// Whether the expression is a matrix by its items over an index domain.
#[tactic(auto, using(ess_core_nodes::proofs::NodeEquations::pure_seen_is))]
fn is_placed(node: &Node) -> bool
    ensures { result ≡ placed (pure_node node.now) }
{
    match node {
        Node::MatrixOn(_, _) => true,
        _ => false,
    }
}

/// The list of its items, else the expression itself.
#[tactic(auto, using(ess_core_nodes::proofs::NodeEquations::pure_seen_is))]
fn plain_list(alloc: Global, node: &Node) -> Result<Boxed<Node>, NoMemory>
    ensures { IfOk result (λ n. pure_node n ≡ list_plain (pure_node node.now)) }
{
    match node {
        Node::MatrixOn(items, _) => literal(
            alloc,
            Op::Matrix,
            copy_nodes(alloc, items.as_slice())?,
        ),
        _ => node.copy(alloc),
    }
}
