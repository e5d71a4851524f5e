//! The whole list.
ghost use Rattle.std.specs.Prelude.{◌≡◌, [], map, IfOk, IfErr};
ghost use Rattle.ess_semantics.specs.ChosenOptions.{ItemsFit};
ghost use Rattle.ess_core.specs.StatementViews.{pure_stm};
ghost use Rattle.ess_parse.specs.NamedReprViews.{pure_named_reprs};
ghost use Rattle.conjure_options.specs.Pieces.{pieces};
ghost use Rattle.conjure_options.specs.Items.{domains_of, AreItems};
ghost use Rattle.conjure_options.specs.Refused.{IsRefusedAt};
ghost use Rattle.conjure_options.specs.declared.options.OptionsNo.TheVariants.{NoMemory as no_memory};

use crate::items::item_of;
use crate::pieces::pieces;
use ess_core::{NoMemory, Row, Stm};
use ess_parse::NamedReprs;
use std::alloc::Global;

/// Why a list of representations isn't taken.
#[derive(Clone, Copy, Debug, PartialEq, Eq)]
pub enum OptionsNo {
    /// The item of this number, counted from 1, is the first that is refused.
    BadItem(u64),
    /// There was no room in memory.
    NoMemory,
}

impl From<NoMemory> for OptionsNo {
    ghost from_gives = { λ _ no. no ≡ no_memory };

    fn from(_: NoMemory) -> OptionsNo {
        OptionsNo::NoMemory
    }
}

/// The representations that a list names for givens and finds of prepared statements: items with `/` between, each a name, `:` and
/// representations with `+` between. `BadItem(k)` comes exactly where the k-th item is the first that isn't one, that names no given
/// or find with a domain or one that an item before it names, whose representations don't all fit, or stand twice. `NoMemory` for
/// want of memory.
#[tactic(auto, using(crate::proofs::ListLaws::items_none, crate::proofs::ListLaws::items_more, crate::proofs::ListLaws::items_all))]
pub fn options_of(alloc: Global, stms: &[Stm], list: &[u8]) -> Result<Row<NamedReprs>, OptionsNo>
    ensures ok { IfOk result (λ o. AreItems (domains_of (map pure_stm stms.now)) [] (pieces 47 list.now) (map pure_named_reprs o)) }
    ensures fitting { IfOk result (λ o. ItemsFit (domains_of (map pure_stm stms.now)) [] (map pure_named_reprs o)) }
    ensures refused { IfErr result (IsRefusedAt (domains_of (map pure_stm stms.now)) (pieces 47 list.now)) }
{
    let items = pieces(alloc, list, b'/')?;
    let mut done = Row::with_capacity(alloc, items.len())?;
    for (i, item) in items.iter().enumerate() {
        match item_of(alloc, stms, done.as_slice(), item)? {
            Some(named) => done.push(named)?,
            None => return Err(OptionsNo::BadItem(i as u64 + 1)),
        }
    }
    Ok(done)
}
