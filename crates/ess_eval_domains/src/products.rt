ghost use Rattle.std.specs.Prelude.{◌≡◌, [], ◌∷◌, ◌++◌, map, IfOk, OnOk};
ghost use Rattle.ess_semantics.specs.Domains.{add_heads as heads_added, lists_of as all_lists};

use ess_core::{NoMemory, Row, Val};
use std::alloc::Global;

/// All lists with one item from each of these, in lexicographic order. `NoMemory` where there is no room for them.
#[tactic(auto, using(crate::proofs::ListProducts::lists_more))]
pub fn lists_of(alloc: Global, choices: &[Row<Val>]) -> Result<Row<Row<Val>>, NoMemory>
    ensures { IfOk result (λ r. r ≡ all_lists choices.now) }
{
    let mut lists = Row::with_capacity(alloc, 1)?;
    lists.push(Row::new(alloc))?;
    for k in 0..choices.len() {
        lists = add_heads(
            alloc,
            choices[choices.len() - 1 - k].as_slice(),
            lists.as_slice(),
        )?;
    }
    Ok(lists)
}

/// Each of the values in front of each of the lists. `NoMemory` where there is no room for them.
#[tactic(auto, using(crate::proofs::ListProducts::heads_more))]
fn add_heads(alloc: Global, heads: &[Val], lists: &[Row<Val>]) -> Result<Row<Row<Val>>, NoMemory>
    ensures { IfOk result (λ r. r ≡ heads_added heads.now lists.now) }
{
    let mut all = Row::new(alloc);
    for head in heads {
        add_head(alloc, &mut all, head, lists)?;
    }
    Ok(all)
}

/// Puts each of the lists, with a value in front, behind those that are there. `NoMemory` where there is no room for them.
#[tactic(auto, using(std::proofs::lemmas::List::map_more))]
fn add_head(
    alloc: Global,
    all: &mut Row<Row<Val>>,
    head: &Val,
    lists: &[Row<Val>],
) -> Result<(), NoMemory>
    ensures { OnOk result (all.new ≡ all.old ++ map (λ l. head.now ∷ l) lists.now) }
{
    for list in lists {
        all.push(with_head(alloc, head, list.as_slice())?)?;
    }
    Ok(())
}

/// A value with a list behind it. `NoMemory` where there is no room for it.
fn with_head(alloc: Global, head: &Val, list: &[Val]) -> Result<Row<Val>, NoMemory>
    ensures { IfOk result (λ r. r ≡ head.now ∷ list.now) }
{
    let mut row = Row::with_capacity(alloc, list.len().saturating_add(1))?;
    add_copy(alloc, &mut row, head)?;
    for val in list {
        add_copy(alloc, &mut row, val)?;
    }
    Ok(row)
}

/// Puts a copy of a value behind others. `NoMemory` where there is no room for it.
fn add_copy(alloc: Global, row: &mut Row<Val>, val: &Val) -> Result<(), NoMemory>
    ensures { OnOk result (row.new ≡ row.old ++ val.now ∷ []) }
{
    match val.copy(alloc) {
        Ok(copy) => row.push(copy),
        Err(no) => Err(no),
    }
}
