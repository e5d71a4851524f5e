ghost use Rattle.std.specs.Prelude.{◌≡◌, [], ◌∷◌, ◌++◌, IfOk};
ghost use Rattle.ess_semantics.specs.Trees.{no_exs, more_exs, one_value, both_ends, low_end, high_end, flag, valued, more_doms, plain_node, record_literal, function_literal, int_dom};
ghost use Rattle.ess_grammar.specs.Grammar.{pair_ex};
ghost use Rattle.ess_parse_laws.specs.Reversed.{reverse_exs, reverse_list};
ghost use Rattle.ess_core.specs.TreeViews.{pure_ex, pure_dom};
ghost use Rattle.ess_core.specs.StatementViews.{pure_stm};
ghost use Rattle.ess_parse_frames.specs.Rows.{back_pairs, back_field_names, back_field_values, back_ends, back_bounds, back_dom_names, back_doms, back_field_doms, back_marks, back_names, back_numbers, back_stms};

use ess_core::{Attr, Dom, Ex, FieldDom, FieldEx, Gen, Key, PairEx, Range, Stm};
use ess_rows::{Boxed, NoMemory, Row, Text};

/// Puts a pair behind the others. `NoMemory` where there is no room for it.
#[tactic(auto, using(crate::proofs::RowLaws::pairs_push, ess_core::proofs::PartEquations::pure_pair_ex_is))]
pub fn with_pair(
    pairs: Row<PairEx>,
    from: Boxed<Ex>,
    to: Boxed<Ex>,
) -> Result<Row<PairEx>, NoMemory>
    ensures { IfOk result (λ r. back_pairs r ≡ more_exs (pair_ex (pure_ex from) (pure_ex to)) (back_pairs pairs)) }
{
    let mut pairs = pairs;
    pairs.push(PairEx {
        from: from.into_inner(),
        to: to.into_inner(),
    })?;
    Ok(pairs)
}

/// The function literal of these pairs.
#[tactic(auto, using(crate::proofs::RowLaws::pairs_closed))]
pub fn function_of_pairs(pairs: Row<PairEx>) -> Ex
    ensures { pure_ex result ≡ plain_node function_literal (reverse_exs (back_pairs pairs) no_exs) }
{
    Ex::Function(pairs)
}

/// Puts a field of a record literal behind the others. `NoMemory` where there is no room for it.
#[tactic(auto, using(crate::proofs::FieldLaws::field_name_push, crate::proofs::FieldLaws::field_value_push))]
pub fn with_field(fields: Row<FieldEx>, name: Text, ex: Boxed<Ex>) -> Result<Row<FieldEx>, NoMemory>
    ensures names { IfOk result (λ r. back_field_names r ≡ name ∷ back_field_names fields) }
    ensures values { IfOk result (λ r. back_field_values r ≡ more_exs (pure_ex ex) (back_field_values fields)) }
{
    let mut fields = fields;
    fields.push(FieldEx {
        name,
        ex: ex.into_inner(),
    })?;
    Ok(fields)
}

/// The record literal of these fields.
#[tactic(auto, using(crate::proofs::RowLaws::field_names_closed, crate::proofs::RowLaws::field_values_closed, ess_core::proofs::ExpressionEquations::pure_rec))]
pub fn record_of_fields(fields: Row<FieldEx>) -> Ex
    ensures { pure_ex result ≡ plain_node (record_literal (reverse_list (back_field_names fields) [])) (reverse_exs (back_field_values fields) no_exs) }
{
    Ex::Rec(fields)
}

/// Puts a field of a record domain behind the others. `NoMemory` where there is no room for it.
#[tactic(auto, using(crate::proofs::FieldLaws::dom_name_push, crate::proofs::FieldLaws::field_dom_push))]
pub fn with_field_domain(
    fields: Row<FieldDom>,
    name: Text,
    dom: Boxed<Dom>,
) -> Result<Row<FieldDom>, NoMemory>
    ensures names { IfOk result (λ r. back_dom_names r ≡ name ∷ back_dom_names fields) }
    ensures domains { IfOk result (λ r. back_field_doms r ≡ more_doms (pure_dom dom) (back_field_doms fields)) }
{
    let mut fields = fields;
    fields.push(FieldDom {
        name,
        dom: dom.into_inner(),
    })?;
    Ok(fields)
}

/// Puts a range of one value behind the others. `NoMemory` where there is no room for it.
#[tactic(auto, using(crate::proofs::RowLaws::ends_push_value, crate::proofs::RowLaws::bounds_push_value))]
pub fn with_value(ranges: Row<Range>, value: Boxed<Ex>) -> Result<Row<Range>, NoMemory>
    ensures ends { IfOk result (λ r. back_ends r ≡ one_value ∷ back_ends ranges) }
    ensures bounds { IfOk result (λ r. back_bounds r ≡ more_exs (pure_ex value) (back_bounds ranges)) }
{
    let mut ranges = ranges;
    ranges.push(Range::One(value.into_inner()))?;
    Ok(ranges)
}

/// Puts a range with both bounds behind the others. `NoMemory` where there is no room for it.
#[tactic(auto, using(crate::proofs::RowLaws::ends_push_both, crate::proofs::RowLaws::bounds_push_both))]
pub fn with_bounds(
    ranges: Row<Range>,
    low: Boxed<Ex>,
    high: Boxed<Ex>,
) -> Result<Row<Range>, NoMemory>
    ensures ends { IfOk result (λ r. back_ends r ≡ both_ends ∷ back_ends ranges) }
    ensures bounds { IfOk result (λ r. back_bounds r ≡ more_exs (pure_ex high) (more_exs (pure_ex low) (back_bounds ranges))) }
{
    let mut ranges = ranges;
    ranges.push(Range::Span(Some(low.into_inner()), Some(high.into_inner())))?;
    Ok(ranges)
}

/// Puts a range with a lower bound alone behind the others. `NoMemory` where there is no room for it.
#[tactic(auto, using(crate::proofs::RowLaws::ends_push_low, crate::proofs::RowLaws::bounds_push_low))]
pub fn with_low(ranges: Row<Range>, low: Boxed<Ex>) -> Result<Row<Range>, NoMemory>
    ensures ends { IfOk result (λ r. back_ends r ≡ low_end ∷ back_ends ranges) }
    ensures bounds { IfOk result (λ r. back_bounds r ≡ more_exs (pure_ex low) (back_bounds ranges)) }
{
    let mut ranges = ranges;
    ranges.push(Range::Span(Some(low.into_inner()), None))?;
    Ok(ranges)
}

/// Puts a range with an upper bound alone behind the others. `NoMemory` where there is no room for it.
#[tactic(auto, using(crate::proofs::RowLaws::ends_push_high, crate::proofs::RowLaws::bounds_push_high))]
pub fn with_high(ranges: Row<Range>, high: Boxed<Ex>) -> Result<Row<Range>, NoMemory>
    ensures ends { IfOk result (λ r. back_ends r ≡ high_end ∷ back_ends ranges) }
    ensures bounds { IfOk result (λ r. back_bounds r ≡ more_exs (pure_ex high) (back_bounds ranges)) }
{
    let mut ranges = ranges;
    ranges.push(Range::Span(None, Some(high.into_inner())))?;
    Ok(ranges)
}

/// The int domain of these ranges.
#[tactic(auto, using(crate::proofs::RowLaws::ends_closed, crate::proofs::RowLaws::bounds_closed, ess_core::proofs::DomainEquations::pure_int))]
pub fn int_of_ranges(ranges: Row<Range>) -> Dom
    ensures { pure_dom result ≡ int_dom (reverse_list (back_ends ranges) []) (reverse_exs (back_bounds ranges) no_exs) }
{
    Dom::Int(ranges)
}

/// Puts an attribute without a number behind the others. `NoMemory` where there is no room for it.
#[tactic(auto, using(crate::proofs::FieldLaws::flag_mark, crate::proofs::FieldLaws::flag_number))]
pub fn with_flag(attributes: Row<Attr>, key: Key) -> Result<Row<Attr>, NoMemory>
    ensures marks { IfOk result (λ r. back_marks r ≡ flag key ∷ back_marks attributes) }
    ensures numbers { IfOk result (λ r. back_numbers r ≡ back_numbers attributes) }
{
    let mut attributes = attributes;
    attributes.push(Attr { key, value: None })?;
    Ok(attributes)
}

/// Puts an attribute with a number behind the others. `NoMemory` where there is no room for it.
#[tactic(auto, using(crate::proofs::FieldLaws::number_mark, crate::proofs::FieldLaws::number_number))]
pub fn with_number(attributes: Row<Attr>, key: Key, value: Boxed<Ex>) -> Result<Row<Attr>, NoMemory>
    ensures marks { IfOk result (λ r. back_marks r ≡ valued key ∷ back_marks attributes) }
    ensures numbers { IfOk result (λ r. back_numbers r ≡ more_exs (pure_ex value) (back_numbers attributes)) }
{
    let mut attributes = attributes;
    attributes.push(Attr {
        key,
        value: Some(value.into_inner()),
    })?;
    Ok(attributes)
}

/// Puts a statement behind the others. `NoMemory` where there is no room for it.
#[tactic(auto, using(crate::proofs::RowLaws::stms_push))]
pub fn with_statement(statements: Row<Stm>, statement: Stm) -> Result<Row<Stm>, NoMemory>
    ensures { IfOk result (λ r. back_stms r ≡ pure_stm statement ∷ back_stms statements) }
{
    let mut statements = statements;
    statements.push(statement)?;
    Ok(statements)
}

/// Puts a name behind the others. `NoMemory` where there is no room for it.
#[tactic(auto, using(crate::proofs::RowLaws::names_push))]
pub fn with_name(names: Row<Text>, name: Text) -> Result<Row<Text>, NoMemory>
    ensures { IfOk result (λ r. back_names r ≡ name ∷ back_names names) }
{
    let mut names = names;
    names.push(name)?;
    Ok(names)
}

/// Puts a domain behind the others. `NoMemory` where there is no room for it.
#[tactic(auto, using(crate::proofs::RowLaws::doms_push))]
pub fn with_domain(domains: Row<Dom>, domain: Boxed<Dom>) -> Result<Row<Dom>, NoMemory>
    ensures { IfOk result (λ r. back_doms r ≡ more_doms (pure_dom domain) (back_doms domains)) }
{
    let mut domains = domains;
    domains.push(domain.into_inner())?;
    Ok(domains)
}

/// Puts a generator or a condition behind the others. `NoMemory` where there is no room for it.
pub fn with_item(items: Row<Gen>, item: Gen) -> Result<Row<Gen>, NoMemory>
    ensures { IfOk result (λ r. r ≡ items ++ item ∷ []) }
{
    let mut items = items;
    items.push(item)?;
    Ok(items)
}
