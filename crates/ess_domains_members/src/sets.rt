ghost use Rattle.std.specs.Prelude.{◌≡◌, map};
ghost use Rattle.ess_semantics.specs.Attributes.{set_attributes_hold as set_holds, mset_attributes_hold as mset_holds};
ghost use Rattle.ess_core.specs.ValueViews.{pure_val};
ghost use Rattle.ess_eval_domains.specs.ClosedViews.{pure_attributes};

use crate::counting::occurs_holds;
use crate::numbers::size_holds;
use ess_core::Val;
use ess_eval_domains::Attribute;

/// Whether the attributes of a set domain allow so many members.
pub fn set_attributes_hold(attributes: &[Attribute], size: usize) -> bool
    ensures { result ≡ set_holds (pure_attributes attributes.now) size }
{
    for attribute in attributes {
        if let Attribute::Numbered(key, number) = attribute {
            if !size_holds(*key, *number, size) {
                return false;
            }
        }
    }
    true
}

/// Whether the attributes of a multiset domain allow these members.
pub fn mset_attributes_hold(attributes: &[Attribute], items: &[Val]) -> bool
    ensures { result ≡ mset_holds (pure_attributes attributes.now) (map pure_val items.now) }
{
    for attribute in attributes {
        if let Attribute::Numbered(key, number) = attribute {
            if !size_holds(*key, *number, items.len()) {
                return false;
            }
            if !occurs_holds(*key, *number, items) {
                return false;
            }
        }
    }
    true
}
