// The writer of models.
ghost use Rattle.std.specs.Prelude.{◌≡◌, [], ◌∷◌, ◌++◌, ◌||◌, OnOk, IfOk, flat_map, decimal};
ghost use Rattle.conjure_cli_laws.specs.SmallGrammar.{each_constraint};
ghost use Rattle.conjure_cli_laws.specs.ModelText.{domain, header_find, header_representation, constraint_lines, ended};
ghost use Rattle.conjure_cli.specs.Writing.{plain_cell, plain_declaration, plain_constraint, find_lines, plain_text, before_constraint, behind_constraints, constraints_after, is_some_list};
ghost use Rattle.conjure_cli.specs.Lines.{statement, statements};

use crate::line::Line;
use ess_rows::NoMemory;
use std::alloc::Global;

/// Appends the digits of a number.
fn put_number(alloc: Global, text: &mut Vec<u8>, number: u64) -> Result<(), NoMemory>
    ensures { OnOk result (text.new.items ≡ text.old.items ++ decimal number) }
{
    let digits = number.to_string(alloc)?;
    text.extend_from_slice(digits.as_bytes())?;
    Ok(())
}

/// Appends `int(low..high)`.
fn put_domain(alloc: Global, text: &mut Vec<u8>, low: u64, high: u64) -> Result<(), NoMemory>
    ensures { OnOk result (text.new.items ≡ text.old.items ++ domain low high) }
{
    text.extend_from_slice(b"int(")?;
    put_number(alloc, text, low)?;
    text.extend_from_slice(b"..")?;
    put_number(alloc, text, high)?;
    text.extend_from_slice(b")")?;
    Ok(())
}

/// Appends the name of a set's cell.
fn put_cell(text: &mut Vec<u8>, name: &[u8]) -> Result<(), NoMemory>
    ensures { OnOk result (text.new.items ≡ text.old.items ++ plain_cell name.now) }
{
    text.extend_from_slice(name)?;
    text.extend_from_slice(b"_Occurrence")?;
    Ok(())
}

/// Appends the header's line for a set that is to be found.
fn put_header_find(
    alloc: Global,
    text: &mut Vec<u8>,
    name: &[u8],
    low: u64,
    high: u64,
) -> Result<(), NoMemory>
    ensures { OnOk result (text.new.items ≡ text.old.items ++ ended (header_find name.now low high)) }
{
    text.extend_from_slice(b"$ find ")?;
    text.extend_from_slice(name)?;
    text.extend_from_slice(b" : set of ")?;
    put_domain(alloc, text, low, high)?;
    text.extend_from_slice(b"\n")?;
    Ok(())
}

/// Appends the header's line for the representation of a set.
fn put_representation(text: &mut Vec<u8>, name: &[u8]) -> Result<(), NoMemory>
    ensures { OnOk result (text.new.items ≡ text.old.items ++ ended (header_representation name.now 0 0)) }
{
    text.extend_from_slice(b"$ repr ")?;
    text.extend_from_slice(name)?;
    text.extend_from_slice(b" Occurrence\n")?;
    Ok(())
}

/// Appends the declaration of a set's cell.
fn put_declaration(
    alloc: Global,
    text: &mut Vec<u8>,
    name: &[u8],
    low: u64,
    high: u64,
) -> Result<(), NoMemory>
    ensures { OnOk result (text.new.items ≡ text.old.items ++ ended (plain_declaration name.now low high)) }
{
    text.extend_from_slice(b"find ")?;
    put_cell(text, name)?;
    text.extend_from_slice(b" : matrix indexed by [")?;
    put_domain(alloc, text, low, high)?;
    text.extend_from_slice(b"] of bool\n")?;
    Ok(())
}

/// Appends a constraint, without a line feed.
fn put_constraint(
    alloc: Global,
    text: &mut Vec<u8>,
    number: u64,
    name: &[u8],
) -> Result<(), NoMemory>
    ensures { OnOk result (text.new.items ≡ text.old.items ++ plain_constraint number name.now) }
{
    text.extend_from_slice(b"    ")?;
    put_cell(text, name)?;
    text.extend_from_slice(b"[")?;
    put_number(alloc, text, number)?;
    text.extend_from_slice(b"]")?;
    Ok(())
}

/// Appends the header's lines for the sets that are to be found.
fn put_header_finds(alloc: Global, text: &mut Vec<u8>, lines: &[Line]) -> Result<(), NoMemory>
    ensures { OnOk result (text.new.items ≡ text.old.items ++ find_lines header_find (statements lines.now)) }
{
    for line in lines {
        match line {
            Line::Find { name, low, high } => put_header_find(alloc, text, name, *low, *high)?,
            Line::SuchThat { .. } => {}
        }
    }
    Ok(())
}

/// Appends the header's lines for their representations.
fn put_representations(text: &mut Vec<u8>, lines: &[Line]) -> Result<(), NoMemory>
    ensures { OnOk result (text.new.items ≡ text.old.items ++ find_lines header_representation (statements lines.now)) }
{
    for line in lines {
        match line {
            Line::Find { name, .. } => put_representation(text, name)?,
            Line::SuchThat { .. } => {}
        }
    }
    Ok(())
}

/// Appends the declarations of their cells.
fn put_declarations(alloc: Global, text: &mut Vec<u8>, lines: &[Line]) -> Result<(), NoMemory>
    ensures { OnOk result (text.new.items ≡ text.old.items ++ find_lines plain_declaration (statements lines.now)) }
{
    for line in lines {
        match line {
            Line::Find { name, low, high } => put_declaration(alloc, text, name, *low, *high)?,
            Line::SuchThat { .. } => {}
        }
    }
    Ok(())
}

/// Appends what stands before a constraint, where constraints went before or none did.
fn put_before_constraint(text: &mut Vec<u8>, some: bool) -> Result<(), NoMemory>
    ensures { OnOk result (text.new.items ≡ text.old.items ++ before_constraint some) }
{
    if some {
        text.extend_from_slice(b",\n")?;
    } else {
        text.extend_from_slice(b"such that\n")?;
    }
    Ok(())
}

/// Appends what stands behind the last constraint.
fn put_behind_constraints(text: &mut Vec<u8>, some: bool) -> Result<(), NoMemory>
    ensures { OnOk result (text.new.items ≡ text.old.items ++ behind_constraints some) }
{
    if some {
        text.extend_from_slice(b"\n")?;
    }
    Ok(())
}

/// Appends the constraints. A comma ends each but the last.
fn put_constraints(alloc: Global, text: &mut Vec<u8>, lines: &[Line]) -> Result<(), NoMemory>
    ensures { OnOk result (text.new.items ≡ text.old.items
        ++ flat_map ended (constraint_lines (each_constraint plain_constraint (statements lines.now)))) }
{
    let mut some = false;
    for line in lines {
        match line {
            Line::Find { .. } => {}
            Line::SuchThat { number, name } => {
                put_before_constraint(text, some)?;
                put_constraint(alloc, text, *number, name)?;
                some = true;
            }
        }
    }
    put_behind_constraints(text, some)?;
    Ok(())
}

/// The model's text.
#[tactic(auto, unfolding(crate::specs::Writing::plain_text))]
pub(crate) fn print_model(alloc: Global, lines: &[Line]) -> Result<Vec<u8>, NoMemory>
    ensures { IfOk result (λ text. text.items ≡ plain_text (statements lines.now)) }
{
    let mut text = Vec::new(alloc);
    text.extend_from_slice(b"language ESSENCE' 1.0\n$ conjure-header 1\n")?;
    put_header_finds(alloc, &mut text, lines)?;
    put_representations(&mut text, lines)?;
    text.extend_from_slice(b"$ end-header\n")?;
    put_declarations(alloc, &mut text, lines)?;
    put_constraints(alloc, &mut text, lines)?;
    Ok(text)
}
