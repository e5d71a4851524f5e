ghost use Rattle.std.specs.Prelude.{◌≡◌, map, length, nat_eq};
ghost use Rattle.std.specs.List.{list_all};
ghost use Rattle.ess_semantics.specs.Values.{items_of};
ghost use Rattle.ess_semantics.specs.Attributes.{attribute_holds, size_holds as sizes_hold, part_sizes, all_equal, partition_holds as partitions_hold, parts_hold, partition_attributes_hold as attributes_hold};
ghost use Rattle.ess_core.specs.ValueViews.{pure_val};
ghost use Rattle.ess_eval_domains.specs.ClosedViews.{pure_attribute, pure_attributes};

use crate::numbers::size_holds;
use ess_core::{Key, Val};
use ess_eval_domains::Attribute;

/// Whether the attributes of a partition domain allow these parts.
pub fn partition_attributes_hold(attributes: &[Attribute], parts: &[Val]) -> bool
    ensures { result ≡ attributes_hold (pure_attributes attributes.now) (map pure_val parts.now) }
{
    for attribute in attributes {
        if !holds_of(*attribute, parts) {
            return false;
        }
    }
    true
}

/// The same of one attribute.
fn holds_of(attribute: Attribute, parts: &[Val]) -> bool
    ensures { result ≡ attribute_holds (λ k n. partitions_hold k n (map pure_val parts.now)) (λ k. parts_hold k (map pure_val parts.now)) (pure_attribute attribute) }
{
    match attribute {
        Attribute::Numbered(key, number) => partition_holds(key, number, parts),
        Attribute::Flagged(key) => match key {
            Key::Regular => is_regular(parts),
            _ => true,
        },
    }
}

/// The same of one attribute with a number.
fn partition_holds(key: Key, number: i64, parts: &[Val]) -> bool
    ensures { result ≡ partitions_hold key number (map pure_val parts.now) }
{
    match key {
        Key::NumParts => size_holds(Key::Size, number, parts.len()),
        Key::MinNumParts => size_holds(Key::MinSize, number, parts.len()),
        Key::MaxNumParts => size_holds(Key::MaxSize, number, parts.len()),
        Key::PartSize => each_size_holds(Key::Size, number, parts),
        Key::MinPartSize => each_size_holds(Key::MinSize, number, parts),
        Key::MaxPartSize => each_size_holds(Key::MaxSize, number, parts),
        _ => true,
    }
}

/// Whether a size attribute allows the size of each part.
fn each_size_holds(key: Key, number: i64, parts: &[Val]) -> bool
    ensures { result ≡ list_all (sizes_hold key number) (part_sizes (map pure_val parts.now)) }
{
    for part in parts {
        if !size_holds(key, number, item_count(part)) {
            return false;
        }
    }
    true
}

/// Whether all parts have equally many members.
#[tactic(auto, using(crate::proofs::PartSizes::regular_none, crate::proofs::PartSizes::regular_some))]
fn is_regular(parts: &[Val]) -> bool
    ensures { result ≡ all_equal (part_sizes (map pure_val parts.now)) }
{
    if parts.len() == 0 {
        return true;
    }
    each_is(item_count(&parts[0]), parts)
}

/// Whether each part has so many members.
fn each_is(size: usize, parts: &[Val]) -> bool
    ensures { result ≡ list_all (nat_eq size) (part_sizes (map pure_val parts.now)) }
{
    for part in parts {
        if size != item_count(part) {
            return false;
        }
    }
    true
}

/// How many items a value has: a matrix its items, any other compound value its parts, and an atom none.
#[tactic(auto, using(crate::proofs::PartSizes::counts))]
pub fn item_count(val: &Val) -> usize
    ensures { result ≡ length (items_of (pure_val val.now)) }
{
    match val {
        Val::Num(_) => 0,
        Val::Truth(_) => 0,
        Val::Item(_, _) => 0,
        Val::Tuple(parts) => parts.len(),
        Val::Rec(fields) => fields.len(),
        Val::Matrix(_, items) => items.len(),
        Val::Set(members) => members.len(),
        Val::MSet(members) => members.len(),
        Val::Function(pairs) => pairs.len(),
        Val::Relation(tuples) => tuples.len(),
        Val::Partition(parts) => parts.len(),
    }
}
