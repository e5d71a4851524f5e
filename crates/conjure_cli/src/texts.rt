//! The texts of the self-test with a number.
ghost use Rattle.std.specs.Prelude.{◌≡◌, ◌≤◌, ◌++◌, IfOk, OnOk};
ghost use Rattle.conjure_cli.specs.Texts.{pairs, value, is_member, upto, numbered, set_line, function_line};
ghost use Rattle.conjure_cli.specs.Texts.{constraint_line, pair_lines, specification_text};
ghost use Rattle.conjure_cli.specs.CellTexts.{truth_text, truth_at, value_at, separator, item_of, row_of};
ghost use Rattle.conjure_cli.specs.CellTexts.{occurrence_line, flags_line, values_line, table_lines, cells_text};

use ess_core::{NoMemory, Text};
use std::alloc::Global;

/// How many sets there are, and functions.
pub(crate) fn pairs(number: u64) -> u64
    ensures { result ≡ pairs number }
{
    1 + number % 100
}

/// The value of the function of this place at each of its arguments.
fn value(number: u64, place: u64) -> u64
    requires { place ≤ 100 }
    ensures { result ≡ value number place }
{
    ((u128::from(number) + u128::from(place)) % 10) as u64
}

/// Whether a number is a member of the set of this place.
fn is_member(number: u64, place: u64, item: u64) -> bool
    requires place { place ≤ 100 }
    requires item { item ≤ 20 }
    ensures { result ≡ is_member number place item }
{
    (u128::from(number) + u128::from(place) * u128::from(item)) % 3 == 0
}

/// The text of the specification.
pub(crate) fn specification_text(alloc: Global, number: u64) -> Result<Text, NoMemory>
    ensures { IfOk result (λ t. t ≡ specification_text number) }
{
    let mut text = Text::new(alloc);
    text.push_str("language Essence 1.3\ngiven n : int(1..)\n")?;
    push_pairs(&mut text, number, pairs(number))?;
    Ok(text)
}

/// Writes so many sets, each with its function and the constraint on both.
#[tactic(auto, using(crate::proofs::Upto::upto_none, crate::proofs::Upto::upto_more))]
fn push_pairs(text: &mut Text, number: u64, count: u64) -> Result<(), NoMemory>
    requires { count ≤ 100 }
    ensures { OnOk result (text.new ≡ text.old ++ upto (pair_lines number) count) }
{
    for before in 0..count {
        push_pair(text, number, before + 1)?;
    }
    Ok(())
}

/// Writes the set of this place, its function and the constraint on both.
fn push_pair(text: &mut Text, number: u64, place: u64) -> Result<(), NoMemory>
    requires { place ≤ 100 }
    ensures { OnOk result (text.new ≡ text.old ++ pair_lines number place) }
{
    push_set(text, place)?;
    push_function(text, place)?;
    push_constraint(text, place, value(number, place))
}

/// Writes a number between two texts.
fn push_numbered(text: &mut Text, first: &str, number: u64, last: &str) -> Result<(), NoMemory>
    ensures { OnOk result (text.new ≡ text.old ++ numbered first.now number last.now) }
{
    text.push_str(first)?;
    text.push_u64(number)?;
    text.push_str(last)
}

/// Writes the line of a set.
fn push_set(text: &mut Text, place: u64) -> Result<(), NoMemory>
    ensures { OnOk result (text.new ≡ text.old ++ set_line place) }
{
    push_numbered(text, "find s", place, " : set of int(1..n)\n")
}

/// Writes the line of a function.
fn push_function(text: &mut Text, place: u64) -> Result<(), NoMemory>
    ensures { OnOk result (text.new ≡ text.old ++ function_line place) }
{
    push_numbered(
        text,
        "find f",
        place,
        " : function int(1..n) --> int(0..9)\n",
    )
}

/// Writes the line of a constraint.
fn push_constraint(text: &mut Text, place: u64, value: u64) -> Result<(), NoMemory>
    ensures { OnOk result (text.new ≡ text.old ++ constraint_line place value) }
{
    push_numbered(text, "such that forAll i in s", place, " . f")?;
    push_numbered(text, "", place, "(i) = ")?;
    push_numbered(text, "", value, "\n")
}

/// The text of the cells of the solution.
pub(crate) fn cells_text(alloc: Global, number: u64) -> Result<Text, NoMemory>
    ensures { IfOk result (λ t. t ≡ cells_text number) }
{
    let mut text = Text::new(alloc);
    text.push_str("language ESSENCE' 1.0\n")?;
    push_tables(&mut text, number, pairs(number))?;
    Ok(text)
}

/// Writes the tables of so many sets and functions.
#[tactic(auto, using(crate::proofs::Upto::upto_none, crate::proofs::Upto::upto_more))]
fn push_tables(text: &mut Text, number: u64, count: u64) -> Result<(), NoMemory>
    requires { count ≤ 100 }
    ensures { OnOk result (text.new ≡ text.old ++ upto (table_lines number) count) }
{
    for before in 0..count {
        push_three(text, number, before + 1)?;
    }
    Ok(())
}

/// Writes the tables of the set of this place and of its function.
fn push_three(text: &mut Text, number: u64, place: u64) -> Result<(), NoMemory>
    requires { place ≤ 100 }
    ensures { OnOk result (text.new ≡ text.old ++ table_lines number place) }
{
    push_occurrence(text, number, place)?;
    push_flags(text, number, place)?;
    push_values(text, number, place)
}

/// Writes the table of a set.
fn push_occurrence(text: &mut Text, number: u64, place: u64) -> Result<(), NoMemory>
    requires { place ≤ 100 }
    ensures { OnOk result (text.new ≡ text.old ++ occurrence_line number place) }
{
    push_numbered(text, "letting s", place, "_Occurrence be [")?;
    push_truths(text, number, place)?;
    text.push_str("; int(1..20)]\n")
}

/// Writes the table that says where a function has a value.
fn push_flags(text: &mut Text, number: u64, place: u64) -> Result<(), NoMemory>
    requires { place ≤ 100 }
    ensures { OnOk result (text.new ≡ text.old ++ flags_line number place) }
{
    push_numbered(text, "letting f", place, "_Function1DPartial_Flags be [")?;
    push_truths(text, number, place)?;
    text.push_str("; int(1..20)]\n")
}

/// Writes the table of the values of a function.
fn push_values(text: &mut Text, number: u64, place: u64) -> Result<(), NoMemory>
    requires { place ≤ 100 }
    ensures { OnOk result (text.new ≡ text.old ++ values_line number place) }
{
    push_numbered(text, "letting f", place, "_Function1DPartial_Values be [")?;
    push_numbers(text, number, place)?;
    text.push_str("; int(1..20)]\n")
}

/// Writes which numbers are members of a set, with commas between.
#[tactic(auto, using(crate::proofs::Upto::upto_none, crate::proofs::Upto::upto_more))]
fn push_truths(text: &mut Text, number: u64, place: u64) -> Result<(), NoMemory>
    requires { place ≤ 100 }
    ensures { OnOk result (text.new ≡ text.old ++ row_of (truth_at number place)) }
{
    for before in 0..20 {
        push_truth_item(text, number, place, before + 1)?;
    }
    Ok(())
}

/// Writes whether a number is a member of a set, behind a comma if it isn't the first.
fn push_truth_item(text: &mut Text, number: u64, place: u64, item: u64) -> Result<(), NoMemory>
    requires place { place ≤ 100 }
    requires item { item ≤ 20 }
    ensures { OnOk result (text.new ≡ text.old ++ item_of (truth_at number place) item) }
{
    push_separator(text, item)?;
    push_truth(text, is_member(number, place, item))
}

/// Writes a truth value.
fn push_truth(text: &mut Text, truth: bool) -> Result<(), NoMemory>
    ensures { OnOk result (text.new ≡ text.old ++ truth_text truth) }
{
    if truth {
        text.push_str("true")
    } else {
        text.push_str("false")
    }
}

/// Writes the values of a function, with commas between.
#[tactic(auto, using(crate::proofs::Upto::upto_none, crate::proofs::Upto::upto_more))]
fn push_numbers(text: &mut Text, number: u64, place: u64) -> Result<(), NoMemory>
    requires { place ≤ 100 }
    ensures { OnOk result (text.new ≡ text.old ++ row_of (value_at number place)) }
{
    for before in 0..20 {
        push_value_item(text, number, place, before + 1)?;
    }
    Ok(())
}

/// Writes the value of a function at a number, behind a comma if it isn't the first.
fn push_value_item(text: &mut Text, number: u64, place: u64, item: u64) -> Result<(), NoMemory>
    requires place { place ≤ 100 }
    requires item { item ≤ 20 }
    ensures { OnOk result (text.new ≡ text.old ++ item_of (value_at number place) item) }
{
    push_separator(text, item)?;
    push_value(text, number, place, item)
}

/// Writes the value of a function at a number, or 0 where it has none.
fn push_value(text: &mut Text, number: u64, place: u64, item: u64) -> Result<(), NoMemory>
    requires place { place ≤ 100 }
    requires item { item ≤ 20 }
    ensures { OnOk result (text.new ≡ text.old ++ value_at number place item) }
{
    if is_member(number, place, item) {
        text.push_u64(value(number, place))
    } else {
        text.push_str("0")
    }
}

/// Writes a comma before each item but the first.
fn push_separator(text: &mut Text, item: u64) -> Result<(), NoMemory>
    ensures { OnOk result (text.new ≡ text.old ++ separator item) }
{
    if item == 1 {
        Ok(())
    } else {
        text.push_str(", ")
    }
}
