ghost use Rattle.std.specs.Prelude.{◌≡◌, ◌+◌, [], ◌∷◌, map, length, pos, IfOk};
ghost use Rattle.ess_semantics.specs.Values.{items_of as the_items};
ghost use Rattle.ess_semantics.specs.Domains.{member_list as list_of_members};
ghost use Rattle.ess_semantics.specs.Tables.{one_cell as cell_alone, row_of};
ghost use Rattle.ess_semantics.specs.Layers.{codes_of};
ghost use Rattle.ess_semantics.specs.PartitionLayers.{part_number};
ghost use Rattle.ess_core.specs.ValueViews.{pure_val};
ghost use Rattle.ess_core.specs.TableViews.{pure_table};
ghost use Rattle.ess_eval_domains.specs.ClosedViews.{pure_closed};
ghost use Rattle.ess_repr_relations.specs.PartNumbers.{list_number};

use ess_core::{NoMemory, Row, Table, Val};
use ess_eval_domains::Closed;
use ess_eval_operators::items_of;
use ess_repr_sets::{codes, holds, member_list};
use ess_repr_slots::{one_cell, one_row};
use std::alloc::Global;

/// The tables of a partition by the numbers of parts: how many there are, and the number of each member's part. `NoMemory` where there
/// is no room for them.
pub fn number_tables(alloc: Global, member: &Closed, val: &Val) -> Result<Row<Table>, NoMemory>
    ensures { IfOk result (λ ts. map pure_table ts ≡
        cell_alone (pos (length (the_items (pure_val val.now)))) ∷ row_of (codes_of (pure_closed member.now)) (map (part_number 1
        (the_items (pure_val val.now))) (list_of_members (pure_closed member.now))) ∷ []) }
{
    let members = member_list(alloc, member)?;
    let parts = items_of(alloc, val)?;
    let lists = part_lists(alloc, parts.as_slice())?;
    let numbers = part_numbers(alloc, members.as_slice(), lists.as_slice())?;
    let mut tables = Row::with_capacity(alloc, 2)?;
    tables.push(one_cell(alloc, count_of(parts.as_slice())?)?)?;
    tables.push(one_row(alloc, codes(alloc, members.as_slice())?, numbers)?)?;
    Ok(tables)
}

/// How many values there are. `NoMemory` where the number is outside 64 bits.
fn count_of(vals: &[Val]) -> Result<i64, NoMemory>
    ensures { IfOk result (λ n. n ≡ pos (length (map pure_val vals.now))) }
{
    match i64::try_from(vals.len()) {
        Ok(count) => Ok(count),
        Err(_) => Err(NoMemory),
    }
}

/// The members of each part. `NoMemory` where there is no room for them.
#[tactic(auto, using(crate::proofs::PartLists::lists_more))]
fn part_lists(alloc: Global, parts: &[Val]) -> Result<Row<Row<Val>>, NoMemory>
    ensures { IfOk result (λ r. map (map pure_val) r ≡ map the_items (map pure_val parts.now)) }
{
    let mut lists = Row::with_capacity(alloc, parts.len())?;
    for part in parts {
        lists.push(items_of(alloc, part)?)?;
    }
    Ok(lists)
}

/// The number of the list that holds each member, counted from 1; 0 for one that none holds. `NoMemory` where there is no room for them.
fn part_numbers(alloc: Global, members: &[Val], lists: &[Row<Val>]) -> Result<Row<i64>, NoMemory>
    ensures { IfOk result (λ r. r ≡ map (list_number 1 (map (map pure_val) lists.now)) (map pure_val members.now)) }
{
    let mut numbers = Row::with_capacity(alloc, members.len())?;
    for member in members {
        numbers.push(number_of(lists, member)?)?;
    }
    Ok(numbers)
}

/// The number of the first list that holds a value, counted from 1; 0 where none does.
#[tactic(auto, using(crate::proofs::PartLists::number_more, crate::proofs::PartLists::number_here))]
fn number_of(lists: &[Row<Val>], val: &Val) -> Result<i64, NoMemory>
    ensures { IfOk result (λ n. n ≡ list_number 1 (map (map pure_val) lists.now) (pure_val val.now)) }
{
    for k in 0..lists.len() {
        if holds(lists[k].as_slice(), val) {
            return next_number(k);
        }
    }
    Ok(0)
}

/// The number behind k. `NoMemory` where it is outside 64 bits.
fn next_number(k: usize) -> Result<i64, NoMemory>
    ensures { IfOk result (λ n. n ≡ pos (k + 1)) }
{
    match i64::try_from(k) {
        Ok(number) => match number.checked_add(1) {
            Some(next) => Ok(next),
            None => Err(NoMemory),
        },
        Err(_) => Err(NoMemory),
    }
}
