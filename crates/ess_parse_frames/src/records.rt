//! Domains of records.
ghost use Rattle.std.specs.Prelude.{◌≡◌, [], IfOk};
ghost use Rattle.ess_semantics.specs.Trees.{no_doms};
ghost use Rattle.ess_grammar.specs.Grammar.{sorted_record};
ghost use Rattle.ess_parse_laws.specs.Reversed.{reverse_doms, reverse_list};
ghost use Rattle.ess_core.specs.TreeViews.{pure_dom};
ghost use Rattle.ess_parse_frames.specs.Rows.{back_dom_names, back_field_doms};

use ess_core::{Dom, FieldDom};
use ess_rows::{NoMemory, Row};

/// The domain of records with these fields, which it has in the order of the bytes of their names; those of one name stay in
/// written order. `NoMemory` where there is no room to sort them.
pub fn sorted_record(fields: Row<FieldDom>) -> Result<Dom, NoMemory>
    ensures { IfOk result (λ d. pure_dom d ≡ sorted_record (reverse_list (back_dom_names fields) []) (reverse_doms (back_field_doms fields) no_doms)) }
{
    let mut fields = fields.into_vec();
    fields.sort_by(|a, b| a.name.cmp(&b.name))?;
    Ok(Dom::Rec(Row::from_vec(fields)))
}
