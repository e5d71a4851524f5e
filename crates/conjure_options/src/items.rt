//! One item of the list.
ghost use Rattle.std.specs.Prelude.{◌≡◌, ◌∷◌, [], map, option_map, IfOk};
ghost use Rattle.std.specs.List.{list_any};
ghost use Rattle.ess_semantics.specs.Order.{same_text};
ghost use Rattle.ess_semantics.specs.Names.{keys};
ghost use Rattle.ess_semantics.specs.Plans.{domain_of_stm};
ghost use Rattle.ess_core.specs.TreeViews.{pure_dom};
ghost use Rattle.ess_core.specs.StatementViews.{pure_stm};
ghost use Rattle.ess_parse.specs.NamedReprViews.{pure_named_reprs};
ghost use Rattle.conjure_options.specs.Pieces.{pieces};
ghost use Rattle.conjure_options.specs.Items.{domains_of, found, entry, IsNamedOrNone, IsItemOrNone};

use crate::pieces::{cut, pieces};
use crate::trees::{are_different, trees_of};
use ess_core::{Dom, NoMemory, Stm, Text};
use ess_parse::NamedReprs;
use std::alloc::Global;
use std::cmp::Ordering;

/// Whether a name is this text.
fn is_name(name: &Text, text: &[u8]) -> bool
    ensures { result ≡ same_text name.now text.now }
{
    name.as_bytes().cmp(text) == Ordering::Equal
}

/// Whether an item before gives the name.
fn is_done(done: &[NamedReprs], name: &[u8]) -> bool
    ensures { result ≡ list_any (λ n. same_text n.name name.now) done.now }
{
    done.iter().any(|named| is_name(&named.name, name))
}

/// The given or find of a statement with its domain, where it is of this name.
fn named_in<'a>(stm: &'a Stm, name: &[u8]) -> Option<(&'a Text, &'a Dom)>
    ensures { option_map entry result ≡ found (domain_of_stm (pure_stm stm.now)) name.now }
{
    match stm {
        Stm::Given(x, dom) => named_by(x, dom.get(), name),
        Stm::Find(x, dom) => named_by(x, dom.get(), name),
        _ => None,
    }
}

/// The name with its domain, where it is this one.
fn named_by<'a>(x: &'a Text, dom: &'a Dom, name: &[u8]) -> Option<(&'a Text, &'a Dom)>
    ensures { option_map entry result ≡ found ((x.now, pure_dom dom.now) ∷ []) name.now }
{
    if is_name(x, name) {
        Some((x, dom))
    } else {
        None
    }
}

/// The given or find of this name, with its domain.
#[tactic(auto, using(crate::proofs::ItemLaws::found_here, crate::proofs::ItemLaws::found_more, crate::proofs::ItemLaws::found_all))]
fn domain_of<'a>(stms: &'a [Stm], name: &[u8]) -> Option<(&'a Text, &'a Dom)>
    ensures { option_map entry result ≡ found (domains_of (map pure_stm stms.now)) name.now }
{
    for stm in stms {
        if let Some(found) = named_in(stm, name) {
            return Some(found);
        }
    }
    None
}

/// The item of a name with the representations of its domain that a text spells, with `+` between, if each fits and they differ.
#[tactic(auto, using(crate::proofs::ItemLaws::no_trees, crate::proofs::ItemLaws::alike, crate::proofs::ItemLaws::named))]
fn item_with(
    alloc: Global,
    name: &Text,
    text: &[u8],
    dom: &Dom,
) -> Result<Option<NamedReprs>, NoMemory>
    ensures { IfOk result (IsNamedOrNone name.now (pure_dom dom.now) (pieces 43 text.now)) }
{
    let pieces = pieces(alloc, text, b'+')?;
    let Some(trees) = trees_of(alloc, &pieces, dom)? else {
        return Ok(None);
    };
    if !are_different(trees.as_slice()) {
        return Ok(None);
    }
    let name = name.copy(alloc)?;
    Ok(Some(NamedReprs { name, trees }))
}

/// The name with its representations that an item gives behind others, if it is one.
#[tactic(auto, using(crate::proofs::ItemLaws::uncut))]
pub(crate) fn item_of(
    alloc: Global,
    stms: &[Stm],
    done: &[NamedReprs],
    item: &[u8],
) -> Result<Option<NamedReprs>, NoMemory>
    ensures { IfOk result (IsItemOrNone (domains_of (map pure_stm stms.now)) (keys (map pure_named_reprs done.now)) item.now) }
{
    let (name, behind) = cut(item, b':');
    let Some(text) = behind else {
        return Ok(None);
    };
    if is_done(done, name) {
        return Ok(None);
    }
    match domain_of(stms, name) {
        Some((x, dom)) => item_with(alloc, x, text, dom),
        None => Ok(None),
    }
}
