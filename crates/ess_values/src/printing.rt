ghost use Rattle.std.specs.Prelude.{◌≡◌, ◌++◌, map, codes, IsTrue, IfOk, OnOk};
ghost use Rattle.ess_semantics.specs.Values.{of_list};
ghost use Rattle.ess_semantics.specs.Names.{keys};
ghost use Rattle.ess_core.specs.ValueViews.{pure_val, pure_vals, pure_field_val, pure_pair};
ghost use Rattle.ess_core.specs.TableViews.{pure_type_entries, pure_env};
ghost use Rattle.ess_grammar.specs.ValueTexts.{literal_of, value_text, value_texts, pair_texts, field_texts, with_commas, tuple_text, index_text, number_text, runs_text, runs_of};
ghost use Rattle.ess_print_laws.specs.Spelled.{is_spelled};
ghost use Rattle.ess_print_laws.specs.Laws.{ReadsInSubset, IsClosedExpression, IsLettingOf};
ghost use Rattle.ess_values_laws.specs.ItemNames.{item_name};
ghost use Rattle.ess_values_laws.specs.Laws.{ReadsBack};
ghost use Rattle.ess_print_laws.specs.Parts.{comma_before};
ghost use Rattle.ess_values.specs.Printing.{matrix_end, pair_text};
ghost use Rattle.ess_values.specs.Runs.{pure_run, pure_runs};

use crate::naming::push_item;
use crate::runs::{Run, runs};
use ess_core::{Env, FieldVal, NoMemory, Pair, Text, Val};
use std::alloc::Global;

/// The text of a value: the literal of its kind. Values of named types stand by the names that the env has for them. Where
/// each number, name and part of it may be spelled, the text is read as that literal, and as nothing else; in a letting, behind
/// `letting NAME be `, it is a file of lettings with that literal alone. Where a literal that some text has has the value, in an
/// env whose types have names of their own, and all numbers fit into 64 bits, the text is read as a literal of the same type that
/// has the value, alone and in a letting. `NoMemory` where there is no room for the text.
pub fn print_val(alloc: Global, val: &Val, env: &Env) -> Result<Text, NoMemory>
    ensures text { IfOk result (λ t. t ≡ value_text (item_name (pure_type_entries env.now.types)) (pure_val val.now)) }
    ensures read { IfOk result (λ t. IsTrue (is_spelled (item_name (pure_type_entries env.now.types)) (pure_val val.now)) →
        ReadsInSubset t (IsClosedExpression (literal_of (item_name (pure_type_entries env.now.types)) (pure_val val.now)))) }
    ensures letting { IfOk result (λ t. IsTrue (is_spelled (item_name (pure_type_entries env.now.types)) (pure_val val.now)) →
        IsLettingOf (literal_of (item_name (pure_type_entries env.now.types)) (pure_val val.now)) t) }
    ensures value { IfOk result (ReadsBack (pure_env env.now) (pure_val val.now)) }
{
    let mut out = Text::new(alloc);
    push_val(alloc, &mut out, val, env)?;
    Ok(out)
}

/// Writes a value.
#[cycle(print)]
#[tactic(auto, using(crate::proofs::Written::matrix_written))]
fn push_val(alloc: Global, out: &mut Text, val: &Val, env: &Env) -> Result<(), NoMemory>
    ensures { OnOk result (out.new ≡ out.old ++ value_text (item_name (pure_type_entries env.now.types)) (pure_val val.now)) }
{
    match val {
        Val::Num(number) => out.push_i64(*number),
        Val::Truth(truth) => out.push_str(if *truth { "true" } else { "false" }),
        Val::Item(name, position) => push_item(out, name, *position, env),
        Val::Tuple(parts) => push_tuple(alloc, out, parts.as_slice(), env),
        Val::Rec(fields) => push_record(alloc, out, fields.as_slice(), env),
        Val::Matrix(index, items) => {
            push_between(alloc, out, "[", items.as_slice(), "", env)?;
            push_index(alloc, out, index.as_slice(), items.as_slice())
        }
        Val::Set(members) => push_between(alloc, out, "{", members.as_slice(), "}", env),
        Val::MSet(members) => push_between(alloc, out, "mset(", members.as_slice(), ")", env),
        Val::Function(pairs) => push_function(alloc, out, pairs.as_slice(), env),
        Val::Relation(tuples) => push_between(alloc, out, "relation(", tuples.as_slice(), ")", env),
        Val::Partition(parts) => push_between(alloc, out, "partition(", parts.as_slice(), ")", env),
    }
}

/// Writes values with commas between, and a text before and behind them.
#[cycle(print)]
fn push_between(
    alloc: Global,
    out: &mut Text,
    before: &str,
    vals: &[Val],
    behind: &str,
    env: &Env,
) -> Result<(), NoMemory>
    ensures { OnOk result (out.new ≡ out.old ++ (before.now ++ with_commas (value_texts (item_name (pure_type_entries env.now.types)) (pure_vals vals.now)) ++ behind.now)) }
{
    out.push_str(before)?;
    push_vals(alloc, out, vals, env)?;
    out.push_str(behind)
}

/// Writes values with commas between.
#[cycle(print)]
fn push_vals(alloc: Global, out: &mut Text, vals: &[Val], env: &Env) -> Result<(), NoMemory>
    ensures { OnOk result (out.new ≡ out.old ++ with_commas (value_texts (item_name (pure_type_entries env.now.types)) (pure_vals vals.now))) }
{
    for (i, val) in vals.iter().enumerate() {
        push_comma(out, i)?;
        push_val(alloc, out, val, env)?;
    }
    Ok(())
}

/// Writes a comma and a space before each item but the first.
fn push_comma(out: &mut Text, at: usize) -> Result<(), NoMemory>
    ensures { OnOk result (out.new ≡ out.old ++ comma_before at) }
{
    if at == 0 {
        return Ok(());
    }
    out.push_str(", ")
}

/// Writes a tuple: one of a single component has its word.
#[cycle(print)]
#[tactic(auto, using(crate::proofs::Written::tuple_of_one, crate::proofs::Written::tuple_of_more))]
fn push_tuple(alloc: Global, out: &mut Text, parts: &[Val], env: &Env) -> Result<(), NoMemory>
    ensures { OnOk result (out.new ≡ out.old ++ tuple_text (value_texts (item_name (pure_type_entries env.now.types)) (pure_vals parts.now))) }
{
    if parts.len() == 1 {
        push_between(alloc, out, "tuple (", parts, ")", env)
    } else {
        push_between(alloc, out, "(", parts, ")", env)
    }
}

/// Writes a record.
#[cycle(print)]
fn push_record(
    alloc: Global,
    out: &mut Text,
    fields: &[FieldVal],
    env: &Env,
) -> Result<(), NoMemory>
    ensures { OnOk result (out.new ≡ out.old ++ (codes "record {" ++ with_commas (field_texts (keys (map pure_field_val fields.now))
        (value_texts (item_name (pure_type_entries env.now.types)) (of_list (map (λ f. f.1) (map pure_field_val fields.now))))) ++ codes "}")) }
{
    out.push_str("record {")?;
    for (i, field) in fields.iter().enumerate() {
        push_comma(out, i)?;
        push_field(alloc, out, field, env)?;
    }
    out.push_str("}")
}

/// Writes a field with its value.
#[cycle(print)]
fn push_field(alloc: Global, out: &mut Text, field: &FieldVal, env: &Env) -> Result<(), NoMemory>
    ensures { OnOk result (out.new ≡ out.old ++ ((pure_field_val field.now).0 ++ codes " = " ++ value_text (item_name (pure_type_entries env.now.types)) (pure_field_val field.now).1)) }
{
    out.push_str(field.name.as_str())?;
    out.push_str(" = ")?;
    push_val(alloc, out, &field.val, env)
}

/// Writes a function.
#[cycle(print)]
#[tactic(auto, using(crate::proofs::Written::pairs_written))]
fn push_function(alloc: Global, out: &mut Text, pairs: &[Pair], env: &Env) -> Result<(), NoMemory>
    ensures { OnOk result (out.new ≡ out.old ++ (codes "function(" ++ with_commas (pair_texts (item_name (pure_type_entries env.now.types)) (of_list (map pure_pair pairs.now))) ++ codes ")")) }
{
    out.push_str("function(")?;
    push_pairs(alloc, out, pairs, env)?;
    out.push_str(")")
}

/// Writes the pairs of a function with commas between.
#[cycle(print)]
fn push_pairs(alloc: Global, out: &mut Text, pairs: &[Pair], env: &Env) -> Result<(), NoMemory>
    ensures { OnOk result (out.new ≡ out.old ++ with_commas (map (pair_text (item_name (pure_type_entries env.now.types))) (map pure_pair pairs.now))) }
{
    for (i, pair) in pairs.iter().enumerate() {
        push_comma(out, i)?;
        push_pair(alloc, out, pair, env)?;
    }
    Ok(())
}

/// Writes a pair of a function.
#[cycle(print)]
#[tactic(auto, unfolding(crate::specs::Printing::pair_text))]
fn push_pair(alloc: Global, out: &mut Text, pair: &Pair, env: &Env) -> Result<(), NoMemory>
    ensures { OnOk result (out.new ≡ out.old ++ pair_text (item_name (pure_type_entries env.now.types)) (pure_pair pair.now)) }
{
    push_val(alloc, out, &pair.from, env)?;
    out.push_str(" --> ")?;
    push_val(alloc, out, &pair.to, env)
}

/// Writes the end of a matrix: its index domain where it has items, and the bracket.
fn push_index(alloc: Global, out: &mut Text, index: &[Val], items: &[Val]) -> Result<(), NoMemory>
    ensures { OnOk result (out.new ≡ out.old ++ matrix_end (index_text (pure_vals index.now)) items.now) }
{
    if items.is_empty() {
        return out.push_str("]");
    }
    out.push_str("; ")?;
    push_index_domain(alloc, out, index)?;
    out.push_str("]")
}

/// Writes the index domain of a matrix with these indices.
fn push_index_domain(alloc: Global, out: &mut Text, index: &[Val]) -> Result<(), NoMemory>
    ensures { OnOk result (out.new ≡ out.old ++ index_text (pure_vals index.now)) }
{
    match index.first() {
        Some(Val::Truth(_)) => out.push_str("bool"),
        Some(Val::Item(name, _)) => out.push_str(name.as_str()),
        _ => push_runs(alloc, out, index),
    }
}

/// Writes numbers as an int domain of their runs.
fn push_runs(alloc: Global, out: &mut Text, index: &[Val]) -> Result<(), NoMemory>
    ensures { OnOk result (out.new ≡ out.old ++ (codes "int(" ++ runs_text (runs_of (pure_vals index.now)) ++ codes ")")) }
{
    let found = runs(alloc, index)?;
    out.push_str("int(")?;
    push_list_of_runs(out, found.as_slice())?;
    out.push_str(")")
}

/// Writes runs with commas between.
#[tactic(auto, using(crate::proofs::Commas::runs_with_commas))]
fn push_list_of_runs(out: &mut Text, runs: &[Run]) -> Result<(), NoMemory>
    ensures { OnOk result (out.new ≡ out.old ++ runs_text (pure_runs runs.now)) }
{
    for (i, run) in runs.iter().enumerate() {
        push_comma(out, i)?;
        push_run(out, *run)?;
    }
    Ok(())
}

/// Writes a run.
fn push_run(out: &mut Text, run: Run) -> Result<(), NoMemory>
    ensures { OnOk result (out.new ≡ out.old ++ (number_text run.first ++ codes ".." ++ number_text run.last)) }
{
    out.push_i64(run.first)?;
    out.push_str("..")?;
    out.push_i64(run.last)
}
