ghost use Rattle.std.specs.Prelude.{◌≡◌, ◌++◌, [], ◌∷◌, List, map, option_map, IfOk, OnOk};
ghost use Rattle.std.specs.List.{list_all};
ghost use Rattle.ess_semantics.specs.Values as values;
ghost use Rattle.ess_semantics.specs.Values.{a_matrix};
ghost use Rattle.ess_semantics.specs.Types.{join_all, int_ty, compound2};
ghost use Rattle.ess_semantics.specs.Trees.{comp_ex, matrix_literal};
ghost use Rattle.ess_semantics.specs.OperatorTypes.{type_of_list};
ghost use Rattle.ess_semantics.specs.ModelMeaning.{kinded_node, is_int_kind};
ghost use Rattle.eprime_tree.specs.Views.{gens_of};
ghost use Rattle.eprime_eval_kinds.specs.KindedViews.{pure_kex, pure_kgen, pure_kind, pure_kinded};
ghost use Rattle.eprime_eval_kinds.specs.KindedLists.{pure_listed, pure_row, index_of};

use crate::nodes::{KindedEx, some_nothing};
use crate::tree::{KEx, KGen, KList, Kind};
use ess_rows::{Boxed, NoMemory, Row};
use std::alloc::Global;

/// Several expressions as they are evaluated, with their kinds.
#[derive(Drop)]
pub struct KindedRow {
    pub items: Row<KEx>,
    pub kinds: Row<Kind>,
}

/// A list as it is evaluated, with the kinds of its indices and of its items.
#[derive(Drop)]
pub struct KindedList {
    pub list: Boxed<KList>,
    pub index: Kind,
    pub item: Kind,
}

impl KindedRow {
    /// None. Nothing is allocated.
    pub(crate) fn new(alloc: Global) -> KindedRow
        ensures items { result.items ≡ [] }
        ensures kinds { result.kinds ≡ [] }
    {
        KindedRow {
            items: Row::new(alloc),
            kinds: Row::new(alloc),
        }
    }

    /// Puts an expression behind the others. `NoMemory` where there is no room for it.
    pub(crate) fn push(&mut self, item: KindedEx) -> Result<(), NoMemory>
        ensures items { OnOk result (self.new.items ≡ self.old.items ++ item.ex ∷ []) }
        ensures kinds { OnOk result (self.new.kinds ≡ self.old.kinds ++ item.kind ∷ []) }
    {
        let kind = item.kind;
        self.items.push(item.ex.into_inner())?;
        self.kinds.push(kind)
    }

    /// Whether each fits where a number is asked.
    pub(crate) fn fits_int(&self) -> bool
        ensures { result ≡ list_all (λ k. is_int_kind (pure_kind k)) self.now.kinds }
    {
        self.kinds.as_slice().iter().all(|kind| kind.fits_int())
    }

    /// The kind with which all agree.
    #[tactic(auto, using(crate::proofs::Joins::joined_more, crate::proofs::Joins::joined_none))]
    fn joined(&self) -> Option<Kind>
        ensures { option_map pure_kind result ≡ join_all (map pure_kind self.now.kinds) }
    {
        let kinds = self.kinds.as_slice();
        let mut joined = Kind::Any;
        let mut left = kinds.len();
        while left > 0 {
            left -= 1;
            match kinds[left].joined(joined) {
                Some(both) => joined = both,
                None => return None,
            }
        }
        Some(joined)
    }
}

/// A list of these items, or what has nothing where the kinds of two differ or an item has nothing.
#[tactic(auto, using(crate::proofs::ItemLists::items_stand, crate::proofs::ItemLists::items_empty, crate::proofs::ItemLists::items_misfit))]
pub(crate) fn items(alloc: Global, row: KindedRow) -> Result<Option<KindedList>, NoMemory>
    ensures { IfOk result (λ o. (names : List values.Text) → pure_listed names o ≡ kinded_node matrix_literal (pure_row names row).0 [] (type_of_list (pure_row names row).1)) }
{
    if some_nothing(row.items.as_slice()) {
        return Ok(None);
    }
    match row.joined() {
        Some(item) => Ok(Some(KindedList {
            index: index_kind(row.kinds.as_slice()),
            item,
            list: Boxed::new(alloc, KList::Items(row.items))?,
        })),
        None => Ok(None),
    }
}

/// The kind of the indices of a list of items: `[]` agrees with every list.
fn index_kind(kinds: &[Kind]) -> Kind
    ensures { pure_kind result ≡ index_of (map pure_kind kinds.now) }
{
    match kinds.split_first() {
        None => Kind::Any,
        Some((_, _)) => Kind::Int,
    }
}

/// A comprehension.
pub(crate) fn comprehension(
    alloc: Global,
    body: KindedEx,
    gens: Row<KGen>,
) -> Result<KindedList, NoMemory>
    ensures { IfOk result (λ l. (names : List values.Text) → pure_listed names (Some l) ≡ (comp_ex (pure_kinded names body).0 (gens_of (map (pure_kgen names) gens)), compound2 a_matrix int_ty (pure_kinded names body).1)) }
{
    Ok(KindedList {
        list: Boxed::new(alloc, KList::Comp(body.ex, gens))?,
        index: Kind::Int,
        item: body.kind,
    })
}
