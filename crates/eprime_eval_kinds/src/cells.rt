ghost use Rattle.std.specs.Prelude.{◌≡◌, ◌&&◌, List, map, length, nat_eq, IfOk};
ghost use Rattle.std.specs.List.{list_all};
ghost use Rattle.ess_semantics.specs.Values as values;
ghost use Rattle.ess_semantics.specs.DeclaredTables.{TableDecl};
ghost use Rattle.ess_semantics.specs.ModelMeaning.{kinded_cell, declaration_of, cell_kind as cell_kind_of, is_int_kind};
ghost use Rattle.eprime_eval_kinds.specs.KindedViews.{pure_kind, pure_kinded, name_at};
ghost use Rattle.eprime_eval_kinds.specs.KindedLists.{pure_row};
ghost use Rattle.eprime_eval_kinds.specs.Shapes.{shape_of, names_of, shaped_cell};

use crate::declared::{Declared, Shape};
use crate::lists::KindedRow;
use crate::nodes::{KindedEx, broken, nothing};
use crate::tree::{KEx, Kind};
use ess_rows::{Boxed, NoMemory, Text};
use std::alloc::Global;

/// A cell: the table's declaration is found, and the indices are numbers, as many as the table has axes.
#[tactic(auto, using(crate::proofs::ShapedCells::cell_declared, crate::proofs::ShapedCells::cell_undeclared, crate::proofs::ShapedCells::cell_beyond))]
pub(crate) fn cell(
    alloc: Global,
    declared: &Declared,
    name: &Text,
    at: KindedRow,
) -> Result<KindedEx, NoMemory>
    ensures { IfOk result (λ k. (ds : List TableDecl) → map shape_of ds ≡ declared.now → pure_kinded (names_of declared.now) k ≡ kinded_cell name.now (pure_row (names_of declared.now) at).0 (pure_row (names_of declared.now) at).1 (declaration_of ds name.now)) }
{
    match declared.place(name) {
        Some(place) => match declared.shape_at(place) {
            Some(shape) => cell_of(alloc, shape, place, at),
            None => {
                drop(at);
                nothing(alloc)
            }
        },
        None => {
            drop(at);
            nothing(alloc)
        }
    }
}

/// A cell of the table with this shape, whose declaration has this number.
#[tactic(auto, using(crate::proofs::ShapedCells::cell_stands, crate::proofs::ShapedCells::cell_breaks))]
fn cell_of(alloc: Global, shape: &Shape, place: usize, at: KindedRow) -> Result<KindedEx, NoMemory>
    ensures { IfOk result (λ k. (names : List values.Text) → pure_kinded names k ≡ shaped_cell shape.now (name_at names place) (pure_row names at).0 (pure_row names at).1) }
{
    let kind = cell_kind(shape.truth);
    if fits_shape(shape, &at) {
        Ok(KindedEx {
            ex: Boxed::new(alloc, KEx::Cell(shape.truth, place, at.items))?,
            kind,
        })
    } else {
        drop(at);
        broken(alloc, kind)
    }
}

/// Whether the indices are numbers, as many as the table has axes.
fn fits_shape(shape: &Shape, at: &KindedRow) -> bool
    ensures { result ≡ (nat_eq (length at.now.kinds) shape.now.axes && list_all (λ k. is_int_kind (pure_kind k)) at.now.kinds) }
{
    at.kinds.len() == shape.axes && at.fits_int()
}

/// The kind of a cell.
fn cell_kind(truth: bool) -> Kind
    ensures { pure_kind result ≡ cell_kind_of truth }
{
    if truth { Kind::Bool } else { Kind::Int }
}
