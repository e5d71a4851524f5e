//! The parts of domains: the expressions in their ranges, their attributes and their inner domains.
ghost use Rattle.std.specs.Prelude.{◌≡◌, ◌+◌, ◌-◌, ◌++◌, length, IfOk, IfErr, slice_get, nat_lt, if◌then◌else◌};
ghost use Rattle.ess_core_parts.specs.Numbered.{row, found};
ghost use Rattle.ess_core_parts.specs.Parts.{parted_attr, parted_dom, parted_field_dom};

use crate::numbered::Parts;
use ess_core::{Attr, Dom, Ex, FieldDom};
use ess_rows::Row;

impl Parts for Dom {
    ghost parted = { parted_dom };

    fn part(&self, k: u32) -> Result<&Ex, u32> {
        part_of_dom(self, k)
    }

    fn put_part(&mut self, k: u32, new: Ex) -> Result<Ex, (u32, Ex)> {
        put_in_dom(self, k, new)
    }
}

#[cycle(part)]
#[tactic(auto, using(crate::proofs::DomainParts::parts_of_bool, crate::proofs::DomainParts::parts_of_int, crate::proofs::DomainParts::parts_of_name, crate::proofs::DomainParts::parts_of_tuple, crate::proofs::DomainParts::parts_of_record, crate::proofs::DomainParts::parts_of_matrix, crate::proofs::DomainParts::parts_of_set, crate::proofs::DomainParts::parts_of_mset, crate::proofs::DomainParts::parts_of_partition, crate::proofs::DomainParts::parts_of_function, crate::proofs::DomainParts::parts_of_relation))]
fn part_of_dom(dom: &Dom, k: u32) -> Result<&Ex, u32>
    ensures is { IfOk result (λ e. slice_get (parted_dom dom.now).parts k ≡ Some e.now) }
    ensures past { IfErr result (λ n. k ≡ n + length (parted_dom dom.now).parts) }
{
    match dom {
        Dom::Bool => Err(k),
        Dom::Name(_) => Err(k),
        Dom::Int(ranges) => ranges.part(k),
        Dom::Tuple(doms) => part_of_doms(doms, k),
        Dom::Rec(fields) => part_of_fields(fields, k),
        Dom::Matrix(axes, item) => match part_of_doms(axes, k) {
            Ok(part) => Ok(part),
            Err(past) => part_of_dom(item.get(), past),
        },
        Dom::Set(attrs, member) => part_behind(member.get(), attrs, k),
        Dom::MSet(attrs, member) => part_behind(member.get(), attrs, k),
        Dom::Function(attrs, from, to) => match part_behind(from.get(), attrs, k) {
            Ok(part) => Ok(part),
            Err(past) => part_of_dom(to.get(), past),
        },
        Dom::Relation(attrs, doms) => match attrs.part(k) {
            Ok(part) => Ok(part),
            Err(past) => part_of_doms(doms, past),
        },
        Dom::Partition(attrs, member) => part_behind(member.get(), attrs, k),
    }
}

/// The part number `k` of attributes and of a domain behind them.
#[cycle(part)]
fn part_behind<'a>(dom: &'a Dom, attrs: &'a Row<Attr>, k: u32) -> Result<&'a Ex, u32>
    ensures is { IfOk result (λ e. slice_get ((row parted_attr attrs.now).parts ++ (parted_dom dom.now).parts) k ≡ Some e.now) }
    ensures past { IfErr result (λ n. k ≡ n + length ((row parted_attr attrs.now).parts ++ (parted_dom dom.now).parts)) }
{
    match attrs.part(k) {
        Ok(part) => Ok(part),
        Err(past) => part_of_dom(dom, past),
    }
}

#[cycle(part)]
#[tactic(auto, using(crate::proofs::DomainParts::parts_of_field))]
fn part_of_field(field: &FieldDom, k: u32) -> Result<&Ex, u32>
    ensures is { IfOk result (λ e. slice_get (parted_field_dom field.now).parts k ≡ Some e.now) }
    ensures past { IfErr result (λ n. k ≡ n + length (parted_field_dom field.now).parts) }
{
    part_of_dom(&field.dom, k)
}

#[cycle(part)]
fn part_of_doms(doms: &Row<Dom>, k: u32) -> Result<&Ex, u32>
    ensures is { IfOk result (λ e. slice_get (row parted_dom doms.now).parts k ≡ Some e.now) }
    ensures past { IfErr result (λ n. k ≡ n + length (row parted_dom doms.now).parts) }
{
    let mut past = k;
    for dom in doms.as_slice() {
        match part_of_dom(dom, past) {
            Ok(part) => return Ok(part),
            Err(left) => past = left,
        }
    }
    Err(past)
}

#[cycle(part)]
fn part_of_fields(fields: &Row<FieldDom>, k: u32) -> Result<&Ex, u32>
    ensures is { IfOk result (λ e. slice_get (row parted_field_dom fields.now).parts k ≡ Some e.now) }
    ensures past { IfErr result (λ n. k ≡ n + length (row parted_field_dom fields.now).parts) }
{
    let mut past = k;
    for field in fields.as_slice() {
        match part_of_field(field, past) {
            Ok(part) => return Ok(part),
            Err(left) => past = left,
        }
    }
    Err(past)
}

#[cycle(put)]
#[tactic(auto, using(crate::proofs::DomainParts::parts_of_bool, crate::proofs::DomainParts::parts_of_int, crate::proofs::DomainParts::parts_of_name, crate::proofs::DomainParts::parts_of_tuple, crate::proofs::DomainParts::parts_of_record, crate::proofs::DomainParts::parts_of_matrix, crate::proofs::DomainParts::parts_of_set, crate::proofs::DomainParts::parts_of_mset, crate::proofs::DomainParts::parts_of_partition, crate::proofs::DomainParts::parts_of_function, crate::proofs::DomainParts::parts_of_relation, crate::proofs::DomainParts::put_in_bool, crate::proofs::DomainParts::put_in_int, crate::proofs::DomainParts::put_in_name, crate::proofs::DomainParts::put_in_tuple, crate::proofs::DomainParts::put_in_record, crate::proofs::DomainParts::put_in_matrix, crate::proofs::DomainParts::put_in_set, crate::proofs::DomainParts::put_in_mset, crate::proofs::DomainParts::put_in_partition, crate::proofs::DomainParts::put_in_function, crate::proofs::DomainParts::put_in_relation))]
fn put_in_dom(dom: &mut Dom, k: u32, new: Ex) -> Result<Ex, (u32, Ex)>
    ensures was { result ≡ found (parted_dom dom.old).parts k new }
    ensures after { dom.new ≡ (parted_dom dom.old).put k new }
{
    match dom {
        Dom::Bool => Err((k, new)),
        Dom::Name(_) => Err((k, new)),
        Dom::Int(ranges) => ranges.put_part(k, new),
        Dom::Tuple(doms) => put_in_doms(doms, k, new),
        Dom::Rec(fields) => put_in_fields(fields, k, new),
        Dom::Matrix(axes, item) => match put_in_doms(axes, k, new) {
            Ok(was) => Ok(was),
            Err((past, new)) => put_in_dom(item.get_mut(), past, new),
        },
        Dom::Set(attrs, member) => put_behind(member.get_mut(), attrs, k, new),
        Dom::MSet(attrs, member) => put_behind(member.get_mut(), attrs, k, new),
        Dom::Function(attrs, from, to) => match put_behind(from.get_mut(), attrs, k, new) {
            Ok(was) => Ok(was),
            Err((past, new)) => put_in_dom(to.get_mut(), past, new),
        },
        Dom::Relation(attrs, doms) => match attrs.put_part(k, new) {
            Ok(was) => Ok(was),
            Err((past, new)) => put_in_doms(doms, past, new),
        },
        Dom::Partition(attrs, member) => put_behind(member.get_mut(), attrs, k, new),
    }
}

/// Puts `new` in place of the part number `k` of attributes and of a domain behind them.
#[cycle(put)]
fn put_behind(dom: &mut Dom, attrs: &mut Row<Attr>, k: u32, new: Ex) -> Result<Ex, (u32, Ex)>
    ensures was { result ≡ found ((row parted_attr attrs.old).parts ++ (parted_dom dom.old).parts) k new }
    ensures attrs { attrs.new ≡ (row parted_attr attrs.old).put k new }
    ensures dom { dom.new ≡ (if nat_lt k (length (row parted_attr attrs.old).parts) then dom.old
        else (parted_dom dom.old).put (k - length (row parted_attr attrs.old).parts) new) }
{
    match attrs.put_part(k, new) {
        Ok(was) => Ok(was),
        Err((past, new)) => put_in_dom(dom, past, new),
    }
}

#[cycle(put)]
#[tactic(auto, using(crate::proofs::DomainParts::parts_of_field, crate::proofs::DomainParts::put_in_field))]
fn put_in_field(field: &mut FieldDom, k: u32, new: Ex) -> Result<Ex, (u32, Ex)>
    ensures was { result ≡ found (parted_field_dom field.old).parts k new }
    ensures after { field.new ≡ (parted_field_dom field.old).put k new }
{
    put_in_dom(&mut field.dom, k, new)
}

#[cycle(put)]
fn put_in_doms(doms: &mut Row<Dom>, k: u32, new: Ex) -> Result<Ex, (u32, Ex)>
    ensures was { result ≡ found (row parted_dom doms.old).parts k new }
    ensures after { doms.new ≡ (row parted_dom doms.old).put k new }
{
    let mut past = k;
    let mut new = new;
    for i in 0..doms.len() {
        if let Some(dom) = doms.get_mut(i) {
            match put_in_dom(dom, past, new) {
                Ok(was) => return Ok(was),
                Err((left, back)) => {
                    past = left;
                    new = back;
                }
            }
        }
    }
    Err((past, new))
}

#[cycle(put)]
fn put_in_fields(fields: &mut Row<FieldDom>, k: u32, new: Ex) -> Result<Ex, (u32, Ex)>
    ensures was { result ≡ found (row parted_field_dom fields.old).parts k new }
    ensures after { fields.new ≡ (row parted_field_dom fields.old).put k new }
{
    let mut past = k;
    let mut new = new;
    for i in 0..fields.len() {
        if let Some(field) = fields.get_mut(i) {
            match put_in_field(field, past, new) {
                Ok(was) => return Ok(was),
                Err((left, back)) => {
                    past = left;
                    new = back;
                }
            }
        }
    }
    Err((past, new))
}
