ghost use Rattle.std.specs.Prelude.{◌≡◌, ◌↔◌, IsTrue};

use ess_core::{Attr, Dom, FieldDom, Range};

/// Whether two domains are equal.
pub fn same_dom(dom: &Dom, other: &Dom) -> bool
    ensures { IsTrue result ↔ (dom.now ≡ other.now) }
{
    *dom == *other
}

/// Whether two fields of record domains are equal.
pub fn same_field_dom(field: &FieldDom, other: &FieldDom) -> bool
    ensures { IsTrue result ↔ (field.now ≡ other.now) }
{
    *field == *other
}

/// Whether two ranges of int domains are equal.
pub fn same_range(range: &Range, other: &Range) -> bool
    ensures { IsTrue result ↔ (range.now ≡ other.now) }
{
    *range == *other
}

/// Whether two attributes are equal.
pub fn same_attr(attr: &Attr, other: &Attr) -> bool
    ensures { IsTrue result ↔ (attr.now ≡ other.now) }
{
    *attr == *other
}

/// Whether two lists of domains are equal.
pub fn same_doms(doms: &[Dom], others: &[Dom]) -> bool
    ensures { IsTrue result ↔ (doms.now ≡ others.now) }
{
    *doms == *others
}
