//! The parts of what holds expressions alone: ranges, attributes, steps of an index, fields and pairs.
ghost use Rattle.ess_core_parts.specs.Parts.{parted_range, parted_attr, parted_step, parted_field_ex, parted_pair_ex};

use crate::numbered::Parts;
use crate::rows::{part_of_two, put_in_two};
use ess_core::{Attr, Ex, FieldEx, PairEx, Range, Step};

impl Parts for Range {
    ghost parted = { parted_range };

    fn part(&self, k: u32) -> Result<&Ex, u32> {
        match self {
            Range::One(ex) => ex.part(k),
            Range::Span(low, high) => part_of_two(low, high, k),
        }
    }

    fn put_part(&mut self, k: u32, new: Ex) -> Result<Ex, (u32, Ex)> {
        match self {
            Range::One(ex) => ex.put_part(k, new),
            Range::Span(low, high) => put_in_two(low, high, k, new),
        }
    }
}

impl Parts for Attr {
    ghost parted = { parted_attr };

    fn part(&self, k: u32) -> Result<&Ex, u32> {
        self.value.part(k)
    }

    fn put_part(&mut self, k: u32, new: Ex) -> Result<Ex, (u32, Ex)> {
        self.value.put_part(k, new)
    }
}

impl Parts for Step {
    ghost parted = { parted_step };

    fn part(&self, k: u32) -> Result<&Ex, u32> {
        match self {
            Step::Value(ex) => ex.part(k),
            Step::Component(_) | Step::Field(_) => Err(k),
        }
    }

    fn put_part(&mut self, k: u32, new: Ex) -> Result<Ex, (u32, Ex)> {
        match self {
            Step::Value(ex) => ex.put_part(k, new),
            Step::Component(_) | Step::Field(_) => Err((k, new)),
        }
    }
}

impl Parts for FieldEx {
    ghost parted = { parted_field_ex };

    fn part(&self, k: u32) -> Result<&Ex, u32> {
        self.ex.part(k)
    }

    fn put_part(&mut self, k: u32, new: Ex) -> Result<Ex, (u32, Ex)> {
        self.ex.put_part(k, new)
    }
}

impl Parts for PairEx {
    ghost parted = { parted_pair_ex };

    fn part(&self, k: u32) -> Result<&Ex, u32> {
        part_of_two(&self.from, &self.to, k)
    }

    fn put_part(&mut self, k: u32, new: Ex) -> Result<Ex, (u32, Ex)> {
        put_in_two(&mut self.from, &mut self.to, k, new)
    }
}
