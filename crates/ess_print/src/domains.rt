ghost use Rattle.std.specs.Prelude.{OnOk};
ghost use Rattle.ess_core.specs.TreeViews.{pure_dom, pure_doms, pure_range, pure_attr};
ghost use Rattle.ess_print_laws.specs.Parts.{commas, times, tuple_pieces};
ghost use Rattle.ess_print_laws.specs.Pieces.{listed};
ghost use Rattle.ess_print_laws.specs.Expressions.{dom_pieces, domains};
ghost use Rattle.ess_print.specs.Written.{Puts, int_pieces, range_pieces, record_dom_pieces, attrs_pieces, attr_pieces};

use crate::brackets::before_argument;
use crate::expressions::put_ex;
use crate::parts::{opening_of_tuple, put_comma, put_times};
use crate::words::attribute_name;
use ess_core::{Attr, Dom, FieldDom, NoMemory, Range, Text};

/// Writes a domain.
#[cycle(put)]
pub(crate) fn put_dom(out: &mut Text, dom: &Dom) -> Result<(), NoMemory>
    ensures { OnOk result (Puts out.old out.new (dom_pieces (pure_dom dom.now))) }
{
    match dom {
        Dom::Bool => out.push_str("bool"),
        Dom::Int(ranges) => put_int(out, ranges.as_slice()),
        Dom::Name(name) => out.push_str(name.as_str()),
        Dom::Tuple(doms) => put_tuple(out, doms.as_slice()),
        Dom::Rec(fields) => put_record(out, fields.as_slice()),
        Dom::Matrix(axes, item) => {
            out.push_str("matrix indexed by [")?;
            put_doms(out, axes.as_slice())?;
            out.push_str("] of ")?;
            put_dom(out, item.get())
        }
        Dom::Set(attrs, member) => {
            out.push_str("set")?;
            put_attrs(out, attrs.as_slice())?;
            out.push_str(" of ")?;
            put_dom(out, member.get())
        }
        Dom::MSet(attrs, member) => {
            out.push_str("mset")?;
            put_attrs(out, attrs.as_slice())?;
            out.push_str(" of ")?;
            put_dom(out, member.get())
        }
        Dom::Function(attrs, from, to) => {
            out.push_str("function")?;
            put_attrs(out, attrs.as_slice())?;
            out.push_str(before_argument(attrs.as_slice(), from.get()))?;
            put_dom(out, from.get())?;
            out.push_str(" --> ")?;
            put_dom(out, to.get())
        }
        Dom::Relation(attrs, doms) => {
            out.push_str("relation")?;
            put_attrs(out, attrs.as_slice())?;
            out.push_str(" of (")?;
            put_factors(out, doms.as_slice())?;
            out.push_str(")")
        }
        Dom::Partition(attrs, member) => {
            out.push_str("partition")?;
            put_attrs(out, attrs.as_slice())?;
            out.push_str(" from ")?;
            put_dom(out, member.get())
        }
    }
}

/// Writes the domain of whole numbers in these ranges.
#[cycle(put)]
fn put_int(out: &mut Text, ranges: &[Range]) -> Result<(), NoMemory>
    ensures { OnOk result (Puts out.old out.new (int_pieces ranges.now)) }
{
    out.push_str("int")?;
    if ranges.is_empty() {
        return Ok(());
    }
    out.push_str("(")?;
    for (index, range) in ranges.iter().enumerate() {
        put_comma(out, index)?;
        put_range(out, range)?;
    }
    out.push_str(")")
}

/// Writes a range.
#[cycle(put)]
fn put_range(out: &mut Text, range: &Range) -> Result<(), NoMemory>
    ensures { OnOk result (Puts out.old out.new (range_pieces (pure_range range.now))) }
{
    match range {
        Range::One(ex) => put_ex(out, ex),
        Range::Span(low, high) => {
            if let Some(ex) = low {
                put_ex(out, ex)?;
            }
            out.push_str("..")?;
            match high {
                None => Ok(()),
                Some(ex) => put_ex(out, ex),
            }
        }
    }
}

/// Writes the domain of tuples of these components.
#[cycle(put)]
fn put_tuple(out: &mut Text, doms: &[Dom]) -> Result<(), NoMemory>
    ensures { OnOk result (Puts out.old out.new (tuple_pieces (domains (pure_doms doms.now)))) }
{
    out.push_str(opening_of_tuple(doms.len()))?;
    put_doms(out, doms)?;
    out.push_str(")")
}

/// Writes domains with commas between.
#[cycle(put)]
fn put_doms(out: &mut Text, doms: &[Dom]) -> Result<(), NoMemory>
    ensures { OnOk result (Puts out.old out.new (commas (domains (pure_doms doms.now)))) }
{
    for (index, dom) in doms.iter().enumerate() {
        put_comma(out, index)?;
        put_dom(out, dom)?;
    }
    Ok(())
}

/// Writes the domains of a relation's components with stars between.
#[cycle(put)]
fn put_factors(out: &mut Text, doms: &[Dom]) -> Result<(), NoMemory>
    ensures { OnOk result (Puts out.old out.new (listed times (domains (pure_doms doms.now)))) }
{
    for (index, dom) in doms.iter().enumerate() {
        put_times(out, index)?;
        put_dom(out, dom)?;
    }
    Ok(())
}

/// Writes the domain of records with these fields.
#[cycle(put)]
fn put_record(out: &mut Text, fields: &[FieldDom]) -> Result<(), NoMemory>
    ensures { OnOk result (Puts out.old out.new (record_dom_pieces fields.now)) }
{
    out.push_str("record {")?;
    for (index, field) in fields.iter().enumerate() {
        put_comma(out, index)?;
        out.push_str(field.name.as_str())?;
        out.push_str(" : ")?;
        put_dom(out, &field.dom)?;
    }
    out.push_str("}")
}

/// Writes attributes in brackets behind a space, if there are any.
#[cycle(put)]
fn put_attrs(out: &mut Text, attrs: &[Attr]) -> Result<(), NoMemory>
    ensures { OnOk result (Puts out.old out.new (attrs_pieces attrs.now)) }
{
    if attrs.is_empty() {
        return Ok(());
    }
    out.push_str(" (")?;
    for (index, attr) in attrs.iter().enumerate() {
        put_comma(out, index)?;
        put_attr(out, attr)?;
    }
    out.push_str(")")
}

/// Writes an attribute, with its number where it has one.
#[cycle(put)]
fn put_attr(out: &mut Text, attr: &Attr) -> Result<(), NoMemory>
    ensures { OnOk result (Puts out.old out.new (attr_pieces (pure_attr attr.now))) }
{
    out.push_str(attribute_name(attr.key))?;
    if let Some(ex) = &attr.value {
        out.push_str(" ")?;
        put_ex(out, ex)?;
    }
    Ok(())
}
