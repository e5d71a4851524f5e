//! The representations of an item.
ghost use Rattle.std.specs.Prelude.{◌≡◌, map, IfOk, OnOk};
ghost use Rattle.ess_parse.specs.declared.refusal.ReadNo.{ReadNo};
ghost use Rattle.ess_core.specs.TreeViews.{pure_repr, pure_dom};
ghost use Rattle.conjure_options.specs.Items.{IsReprRead};
ghost use Rattle.conjure_options.specs.Items.{IsTreeOrNone, AreTreesOrNone, IsAmongOrNot, AreDifferent};

use crate::filling::filled;
use ess_core::{Dom, NoMemory, Repr, Row};
use ess_core_equality::same_repr;
use ess_parse::{ReadNo, read_repr};
use ess_repr::fits;
use std::alloc::Global;

/// Reads a representation.
#[tactic(auto, using(crate::proofs::Reprs::repr_read))]
fn read_tree(alloc: Global, text: &[u8]) -> Result<Repr, ReadNo>
    ensures { IsReprRead text.now result }
{
    read_repr(alloc, text)
}

/// Whether a refusal is one of the text: `NoMemory` where it isn't.
fn of_text(why: ReadNo) -> Result<(), NoMemory>
    ensures { OnOk result (why ≡ ReadNo.NoMemory → ⊥) }
{
    match why {
        ReadNo::NoMemory => Err(NoMemory),
        _ => Ok(()),
    }
}

/// The representation of a domain that a text spells, with the children that are left out, if it spells one that fits.
pub(crate) fn tree_of(alloc: Global, text: &[u8], dom: &Dom) -> Result<Option<Repr>, NoMemory>
    ensures { IfOk result (IsTreeOrNone (pure_dom dom.now) text.now) }
{
    let repr = match read_tree(alloc, text) {
        Ok(repr) => repr,
        Err(why) => {
            of_text(why)?;
            return Ok(None);
        }
    };
    let tree = filled(alloc, &repr, dom)?;
    if fits(&tree, dom) {
        Ok(Some(tree))
    } else {
        Ok(None)
    }
}

/// The representations of a domain that pieces of a text spell, if each is one that fits.
#[tactic(auto, using(crate::proofs::Reprs::trees_none, crate::proofs::Reprs::trees_all))]
pub(crate) fn trees_of(
    alloc: Global,
    pieces: &[&[u8]],
    dom: &Dom,
) -> Result<Option<Row<Repr>>, NoMemory>
    ensures { IfOk result (AreTreesOrNone (pure_dom dom.now) (map (λ p. p.now) pieces.now)) }
{
    let mut trees = Row::with_capacity(alloc, pieces.len())?;
    for piece in pieces {
        match tree_of(alloc, piece, dom)? {
            Some(tree) => trees.push(tree)?,
            None => return Ok(None),
        }
    }
    Ok(Some(trees))
}

/// Whether a representation is among others.
#[tactic(auto, using(crate::proofs::DifferLaws::among_here, crate::proofs::DifferLaws::among_none, crate::proofs::DifferLaws::among_all))]
fn is_among(trees: &[Repr], tree: &Repr) -> bool
    ensures { IsAmongOrNot (map pure_repr trees.now) (pure_repr tree.now) result }
{
    for other in trees {
        if same_repr(other, tree) {
            return true;
        }
    }
    false
}

/// Whether no representation stands twice.
#[tactic(auto, using(crate::proofs::DifferLaws::twice, crate::proofs::DifferLaws::differ_none, crate::proofs::DifferLaws::differ_more, crate::proofs::DifferLaws::differ_all))]
pub(crate) fn are_different(trees: &[Repr]) -> bool
    ensures { AreDifferent (map pure_repr trees.now) result }
{
    for (i, tree) in trees.iter().enumerate() {
        if is_among(&trees[i + 1..], tree) {
            return false;
        }
    }
    true
}
