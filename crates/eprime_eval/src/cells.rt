ghost use Rattle.std.specs.Prelude.{◌≡◌, ◌∷◌, [], IfOk, IfErr, IfSome, None, map, option_map};
ghost use Rattle.ess_semantics.specs.Lists.{all_some, when};
ghost use Rattle.ess_semantics.specs.Names.{look};
ghost use Rattle.ess_semantics.specs.Tables.{code};
ghost use Rattle.ess_semantics.specs.Meaning.{cell_in, cell_value as value_of_item};
ghost use Rattle.ess_semantics.specs.Operators.{false_where_undefined};
ghost use Rattle.eprime_eval_kinds.specs.KindedViews.{name_at};
ghost use Rattle.eprime_eval_scalars.specs.ScalarViews.{pure_scalar};
ghost use Rattle.eprime_eval_scalars.specs.declared.Stop.TheVariants.{NoMemory};
ghost use Rattle.eprime_eval.specs.KnownTables.{cells_of, IsKnown};

use crate::known::{Known, table_of};
use crate::{Scalar, Stop};
use eprime_eval_kinds::KEx;
use eprime_eval_scalars::item_at;

/// The value of a cell of the table with this number, where each index is there. `NoMemory` where no declaration has the
/// number.
#[tactic(auto, using(crate::proofs::CellValues::cell_values))]
pub(crate) fn cell_value(
    known: &Known,
    mark: bool,
    number: usize,
    there: bool,
    index: &[Scalar],
) -> Result<Option<Scalar>, Stop>
    requires known { IsKnown known.now }
    ensures ok { IfOk result (λ o. option_map pure_scalar o
        ≡ false_where_undefined mark (cell_in mark (look (cells_of known.now) (name_at known.now.names number)) (when there (map code (map pure_scalar index.now))))) }
    ensures never { IfErr result (λ no. no ≡ NoMemory) }
{
    match table_of(known, number)? {
        Some(grid) => {
            if there {
                Ok(item_value(mark, item_at(grid, index)))
            } else {
                Ok(nothing(mark))
            }
        }
        None => Ok(nothing(mark)),
    }
}

/// The first of expressions, where it is the only one.
pub(crate) fn only(exs: &[KEx]) -> Option<&KEx>
    ensures { IfSome result (λ a. exs.now ≡ a.now ∷ []) }
{
    match exs.split_first() {
        Some((ex, rest)) => match rest.split_first() {
            Some(_) => None,
            None => Some(ex),
        },
        None => None,
    }
}

/// The first two of expressions, where they are the only ones.
pub(crate) fn pair(exs: &[KEx]) -> Option<(&KEx, &KEx)>
    ensures { IfSome result (λ p. exs.now ≡ p.0.now ∷ p.1.now ∷ []) }
{
    match exs.split_first() {
        Some((first, rest)) => match only(rest) {
            Some(second) => Some((first, second)),
            None => None,
        },
        None => None,
    }
}

/// The value of a cell with one index.
pub(crate) fn cell_of_one(
    known: &Known,
    mark: bool,
    number: usize,
    a: Option<Scalar>,
) -> Result<Option<Scalar>, Stop>
    requires known { IsKnown known.now }
    ensures ok { IfOk result (λ o. option_map pure_scalar o
        ≡ false_where_undefined mark (cell_in mark (look (cells_of known.now) (name_at known.now.names number))
        (option_map (map code) (all_some (option_map pure_scalar a ∷ []))))) }
    ensures never { IfErr result (λ no. no ≡ NoMemory) }
{
    match a {
        Some(a) => cell_value(known, mark, number, true, &[a]),
        None => cell_value(known, mark, number, false, &[]),
    }
}

/// The value of a cell with two indices.
pub(crate) fn cell_of_two(
    known: &Known,
    mark: bool,
    number: usize,
    a: Option<Scalar>,
    b: Option<Scalar>,
) -> Result<Option<Scalar>, Stop>
    requires known { IsKnown known.now }
    ensures ok { IfOk result (λ o. option_map pure_scalar o
        ≡ false_where_undefined mark (cell_in mark (look (cells_of known.now) (name_at known.now.names number))
        (option_map (map code) (all_some (option_map pure_scalar a ∷ option_map pure_scalar b ∷ []))))) }
    ensures never { IfErr result (λ no. no ≡ NoMemory) }
{
    match (a, b) {
        (Some(a), Some(b)) => cell_value(known, mark, number, true, &[a, b]),
        (_, _) => cell_value(known, mark, number, false, &[]),
    }
}

/// The value of an item, where it is there: a truth value is true where it is 1.
fn item_value(mark: bool, item: Option<i64>) -> Option<Scalar>
    ensures { option_map pure_scalar result ≡ false_where_undefined mark (option_map (value_of_item mark) item) }
{
    match item {
        Some(number) => {
            if mark {
                Some(Scalar::Truth(number == 1))
            } else {
                Some(Scalar::Num(number))
            }
        }
        None => nothing(mark),
    }
}

/// What stands for a cell that isn't there: false where it is a truth value.
fn nothing(mark: bool) -> Option<Scalar>
    ensures { option_map pure_scalar result ≡ false_where_undefined mark None }
{
    if mark {
        Some(Scalar::Truth(false))
    } else {
        None
    }
}
