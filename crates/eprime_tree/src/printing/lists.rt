// Items with commas between, generators and domains of models as they are printed.
ghost use Rattle.std.specs.Prelude.{◌≡◌, ◌&&◌, OnOk, map, drop};
ghost use Rattle.ess_grammar.specs.Models.{Scope};
ghost use Rattle.ess_print_laws.specs.Brackets.{starts_generator, is_written_as_pattern};
ghost use Rattle.eprime_tree.specs.Views.{gens_of, pure_gen};
ghost use Rattle.eprime_tree.specs.Written.{gens_written};
ghost use Rattle.eprime_tree.specs.Printed.{read_ex, PrintsExs, PrintsGens, PrintsItem, PrintsDom, PrintsRanges, PrintsRange, PrintsBound};

use super::expressions::{is_name, print_bracketed, print_ex};
use super::words::print_comma;
use crate::{PDom, PEx, PGen, PRange};
use ess_rows::{NoMemory, Row, Text};

/// Appends expressions with commas between.
#[cycle(printing)]
pub fn print_exs(out: &mut Text, exs: &Row<PEx>) -> Result<(), NoMemory>
    ensures { OnOk result (PrintsExs out.old out.new exs.now) }
{
    for (index, ex) in exs.as_slice().iter().enumerate() {
        print_comma(out, index)?;
        print_ex(out, ex)?;
    }
    Ok(())
}

/// Whether a generator stands at an index.
fn is_generator_at(gens: &Row<PGen>, index: usize) -> bool
    ensures { (s : Scope) → result ≡ starts_generator (gens_written (gens_of (map (pure_gen s) (drop index gens.now)))) }
{
    match gens.get(index) {
        Some(PGen::Over(_, _)) => true,
        Some(PGen::If(_)) => false,
        None => false,
    }
}

/// Appends generators and conditions with commas between.
#[cycle(printing)]
pub fn print_gens(out: &mut Text, gens: &Row<PGen>) -> Result<(), NoMemory>
    ensures { OnOk result (PrintsGens out.old out.new gens.now) }
{
    for (index, item) in gens.as_slice().iter().enumerate() {
        print_comma(out, index)?;
        print_item(out, item, is_generator_at(gens, index + 1))?;
    }
    Ok(())
}

/// Whether a condition stands in brackets: a name alone before a generator would be one of its names.
fn needs_brackets(ex: &PEx, before_generator: bool) -> bool
    ensures { (s : Scope) → result ≡ before_generator && is_written_as_pattern (read_ex s ex.now) }
{
    if before_generator {
        return is_name(ex);
    }
    false
}

/// Appends a generator or a condition, which stands in brackets where it is a name alone before a generator.
#[cycle(printing)]
fn print_item(out: &mut Text, item: &PGen, before_generator: bool) -> Result<(), NoMemory>
    ensures { OnOk result (PrintsItem out.old out.new before_generator item.now) }
{
    match item {
        PGen::Over(name, dom) => {
            out.push_str(name.as_str())?;
            out.push_str(" : ")?;
            print_dom(out, dom)?;
            Ok(())
        }
        PGen::If(ex) => {
            print_bracketed(out, ex, needs_brackets(ex, before_generator))?;
            Ok(())
        }
    }
}

/// Appends a domain.
#[cycle(printing)]
pub fn print_dom(out: &mut Text, dom: &PDom) -> Result<(), NoMemory>
    ensures { OnOk result (PrintsDom out.old out.new dom.now) }
{
    match dom {
        PDom::Bool => {
            out.push_str("bool")?;
            Ok(())
        }
        PDom::Int(ranges) => {
            out.push_str("int")?;
            if ranges.is_empty() {
                return Ok(());
            }
            out.push_str("(")?;
            print_ranges(out, ranges)?;
            out.push_str(")")?;
            Ok(())
        }
    }
}

/// Appends ranges with commas between.
#[cycle(printing)]
fn print_ranges(out: &mut Text, ranges: &Row<PRange>) -> Result<(), NoMemory>
    ensures { OnOk result (PrintsRanges out.old out.new ranges.now) }
{
    for (index, range) in ranges.as_slice().iter().enumerate() {
        print_comma(out, index)?;
        print_range(out, range)?;
    }
    Ok(())
}

/// Appends a range.
#[cycle(printing)]
fn print_range(out: &mut Text, range: &PRange) -> Result<(), NoMemory>
    ensures { OnOk result (PrintsRange out.old out.new range.now) }
{
    match range {
        PRange::One(ex) => {
            print_ex(out, ex)?;
            Ok(())
        }
        PRange::Span(low, high) => {
            print_bound(out, low)?;
            out.push_str("..")?;
            print_bound(out, high)?;
            Ok(())
        }
    }
}

/// Appends a bound, if there is one.
#[cycle(printing)]
fn print_bound(out: &mut Text, bound: &Option<PEx>) -> Result<(), NoMemory>
    ensures { OnOk result (PrintsBound out.old out.new bound.now) }
{
    match bound {
        None => Ok(()),
        Some(ex) => {
            print_ex(out, ex)?;
            Ok(())
        }
    }
}
