ghost use Rattle.std.specs.Prelude.{◌≡◌, true, false, Some, IfOk, MatchOption, map};
ghost use Rattle.std.specs.Option.{option_map};
ghost use Rattle.ess_grammar.specs.Readable.{is_plain_letting};
ghost use Rattle.ess_core.specs.StatementViews.{pure_stm};
ghost use Rattle.ess_parse.specs.LettingViews.{pure_letting, pure_lettings};
ghost use Rattle.ess_parse.specs.Machines.{only_lettings};

use ess_core::{Ex, NoMemory, Row, Stm, Text};
use std::alloc::Global;

/// A statement of a file of lettings.
#[derive(Drop, PartialEq)]
pub enum Letting {
    /// `letting NAME be EXPRESSION`
    Value(Text, Ex),
    /// `letting NAME be new type enum {VALUES}`
    Enum(Text, Row<Text>),
}

/// A file of lettings: its statements in order.
#[derive(Drop, PartialEq)]
pub struct Lettings {
    pub list: Row<Letting>,
}

/// The statement as a letting, if a file of lettings may have it.
fn letting_of(stm: Stm) -> Option<Letting>
    ensures { MatchOption result (is_plain_letting (pure_stm stm) ≡ false)
        (λ letting. (is_plain_letting (pure_stm stm) ≡ true) × (pure_letting letting ≡ pure_stm stm)) }
{
    match stm {
        Stm::LetEx(name, ex) => Some(Letting::Value(name, ex.into_inner())),
        Stm::LetEnum(name, values) => Some(Letting::Enum(name, values)),
        other => {
            drop(other);
            None
        }
    }
}

/// The statements as lettings, if a file of lettings may have them all.
pub(super) fn lettings_of(alloc: Global, stms: Row<Stm>) -> Result<Option<Lettings>, NoMemory>
    ensures { IfOk result (λ lettings. only_lettings (Some (map pure_stm stms)) ≡ option_map pure_lettings lettings) }
{
    let mut list = Row::new(alloc);
    for stm in stms.into_vec() {
        let Some(letting) = letting_of(stm) else {
            return Ok(None);
        };
        list.push(letting)?;
    }
    Ok(Some(Lettings { list }))
}
