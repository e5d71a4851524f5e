//! The parts of expressions by themselves, of rows of trees, of boxed ones and of those that may be missing.
ghost use Rattle.std.specs.Prelude.{◌≡◌, ◌+◌, ◌-◌, ◌++◌, length, IfOk, IfErr, slice_get, nat_lt, if◌then◌else◌};
ghost use Rattle.ess_core_parts.specs.Numbered.{itself, row, maybe, found};

use crate::numbered::Parts;
use ess_core::Ex;
use ess_rows::{Boxed, Row};
use std::mem;

/// An expression is the one part of itself.
impl Parts for Ex {
    ghost parted = { itself };

    fn part(&self, k: u32) -> Result<&Ex, u32> {
        match k {
            0 => Ok(self),
            _ => Err(k - 1),
        }
    }

    fn put_part(&mut self, k: u32, new: Ex) -> Result<Ex, (u32, Ex)> {
        match k {
            0 => Ok(mem::replace(self, new)),
            _ => Err((k - 1, new)),
        }
    }
}

impl<T: Parts> Parts for Boxed<T> {
    ghost parted = { T.parted };

    fn part(&self, k: u32) -> Result<&Ex, u32> {
        self.get().part(k)
    }

    fn put_part(&mut self, k: u32, new: Ex) -> Result<Ex, (u32, Ex)> {
        self.get_mut().put_part(k, new)
    }
}

impl<T: Parts> Parts for Option<T> {
    ghost parted = { maybe T.parted };

    fn part(&self, k: u32) -> Result<&Ex, u32> {
        match self {
            None => Err(k),
            Some(tree) => tree.part(k),
        }
    }

    fn put_part(&mut self, k: u32, new: Ex) -> Result<Ex, (u32, Ex)> {
        match self {
            None => Err((k, new)),
            Some(tree) => tree.put_part(k, new),
        }
    }
}

impl<T: Parts> Parts for Row<T> {
    ghost parted = { row T.parted };

    fn part(&self, k: u32) -> Result<&Ex, u32> {
        let mut past = k;
        for tree in self.as_slice() {
            match tree.part(past) {
                Ok(part) => return Ok(part),
                Err(left) => past = left,
            }
        }
        Err(past)
    }

    fn put_part(&mut self, k: u32, new: Ex) -> Result<Ex, (u32, Ex)> {
        let mut past = k;
        let mut new = new;
        for i in 0..self.len() {
            if let Some(tree) = self.get_mut(i) {
                match tree.put_part(past, new) {
                    Ok(was) => return Ok(was),
                    Err((left, back)) => {
                        past = left;
                        new = back;
                    }
                }
            }
        }
        Err((past, new))
    }
}

/// The part number `k` of two trees beside each other, or how far `k` is past their parts.
pub fn part_of_two<'a, A: Parts, B: Parts>(
    first: &'a A,
    second: &'a B,
    k: u32,
) -> Result<&'a Ex, u32>
    ensures is { IfOk result (λ e. slice_get ((A.parted first.now).parts ++ (B.parted second.now).parts) k ≡ Some e.now) }
    ensures past { IfErr result (λ n. k ≡ n + length ((A.parted first.now).parts ++ (B.parted second.now).parts)) }
{
    match first.part(k) {
        Ok(part) => Ok(part),
        Err(past) => second.part(past),
    }
}

/// Puts `new` in place of the part number `k` of two trees beside each other, as `put_part` does.
pub fn put_in_two<A: Parts, B: Parts>(
    first: &mut A,
    second: &mut B,
    k: u32,
    new: Ex,
) -> Result<Ex, (u32, Ex)>
    ensures was { result ≡ found ((A.parted first.old).parts ++ (B.parted second.old).parts) k new }
    ensures first { first.new ≡ (A.parted first.old).put k new }
    ensures second { second.new ≡ (if nat_lt k (length (A.parted first.old).parts) then second.old
        else (B.parted second.old).put (k - length (A.parted first.old).parts) new) }
{
    match first.put_part(k, new) {
        Ok(was) => Ok(was),
        Err((past, new)) => second.put_part(past, new),
    }
}
