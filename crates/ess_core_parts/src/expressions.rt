//! The parts of generators, views and expressions.
ghost use Rattle.std.specs.Prelude.{◌≡◌, ◌+◌, length, IfOk, IfErr, slice_get};
ghost use Rattle.ess_core_parts.specs.Numbered.{found};
ghost use Rattle.ess_core_parts.specs.Parts.{parted_gen, parted_view, parts, with_part};

use crate::numbered::Parts;
use crate::rows::{part_of_two, put_in_two};
use ess_core::{Ex, Gen, View};

impl Parts for Gen {
    ghost parted = { parted_gen };

    fn part(&self, k: u32) -> Result<&Ex, u32> {
        match self {
            Gen::Over(_, dom) => dom.part(k),
            Gen::From(_, ex) | Gen::If(ex) => ex.part(k),
        }
    }

    fn put_part(&mut self, k: u32, new: Ex) -> Result<Ex, (u32, Ex)> {
        match self {
            Gen::Over(_, dom) => dom.put_part(k, new),
            Gen::From(_, ex) => ex.put_part(k, new),
            Gen::If(ex) => ex.put_part(k, new),
        }
    }
}

impl Parts for View {
    ghost parted = { parted_view };

    fn part(&self, k: u32) -> Result<&Ex, u32> {
        part_of_two(&self.dom, &self.at, k)
    }

    fn put_part(&mut self, k: u32, new: Ex) -> Result<Ex, (u32, Ex)> {
        put_in_two(&mut self.dom, &mut self.at, k, new)
    }
}

/// The direct part number `k` of an expression, or how far `k` is past its parts.
pub fn own_part(ex: &Ex, k: u32) -> Result<&Ex, u32>
    ensures is { IfOk result (λ e. slice_get (parts ex.now) k ≡ Some e.now) }
    ensures past { IfErr result (λ n. k ≡ n + length (parts ex.now)) }
{
    match ex {
        Ex::Num(_) | Ex::Truth(_) | Ex::Name(_) => Err(k),
        Ex::One(_, a) => a.part(k),
        Ex::Two(_, a, b) => part_of_two(a, b, k),
        Ex::Call(_, _, args) => args.part(k),
        Ex::At(_, a, steps) => part_of_two(a, steps, k),
        Ex::Apply(_, f, args) => part_of_two(f, args, k),
        Ex::Tuple(items) | Ex::Set(items) | Ex::MSet(items) => items.part(k),
        Ex::Relation(items) | Ex::Partition(items) => items.part(k),
        Ex::Rec(fields) => fields.part(k),
        Ex::Function(pairs) => pairs.part(k),
        Ex::Matrix(items, axis) => part_of_two(items, axis, k),
        Ex::Comp(body, gens) => part_of_two(body, gens, k),
        Ex::Cell(_, _, at) => at.part(k),
        Ex::Seen(view) => view.part(k),
    }
}

/// Puts `new` in place of the direct part number `k` of an expression, as `put_part` does.
pub fn put_own_part(ex: &mut Ex, k: u32, new: Ex) -> Result<Ex, (u32, Ex)>
    ensures was { result ≡ found (parts ex.old) k new }
    ensures after { ex.new ≡ with_part ex.old k new }
{
    match ex {
        Ex::Num(_) | Ex::Truth(_) | Ex::Name(_) => Err((k, new)),
        Ex::One(_, a) => a.put_part(k, new),
        Ex::Two(_, a, b) => put_in_two(a, b, k, new),
        Ex::Call(_, _, args) => args.put_part(k, new),
        Ex::At(_, a, steps) => put_in_two(a, steps, k, new),
        Ex::Apply(_, f, args) => put_in_two(f, args, k, new),
        Ex::Tuple(items) => items.put_part(k, new),
        Ex::Set(items) => items.put_part(k, new),
        Ex::MSet(items) => items.put_part(k, new),
        Ex::Relation(items) => items.put_part(k, new),
        Ex::Partition(items) => items.put_part(k, new),
        Ex::Rec(fields) => fields.put_part(k, new),
        Ex::Function(pairs) => pairs.put_part(k, new),
        Ex::Matrix(items, axis) => put_in_two(items, axis, k, new),
        Ex::Comp(body, gens) => put_in_two(body, gens, k, new),
        Ex::Cell(_, _, at) => at.put_part(k, new),
        Ex::Seen(view) => view.put_part(k, new),
    }
}
