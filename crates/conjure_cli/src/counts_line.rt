//! The counts of the self-test, and their line.
ghost use Rattle.std.specs.Prelude.{◌≡◌, ◌++◌, IfOk, OnOk};
ghost use Rattle.conjure_cli.specs.Line.{counted, text_of_counts};

use ess_core::{NoMemory, Text};
use std::alloc::Global;

/// What the self-test counts.
#[derive(Clone, Copy, Debug, PartialEq, Eq)]
pub struct Counts {
    /// The statements of the specification.
    pub statements: u64,
    /// The cells of its sets and functions.
    pub cells: u64,
    /// The constraints of its model.
    pub constraints: u64,
    /// The members of the sets in the text of the solution.
    pub members: u64,
}

/// The line `statements A, cells B, constraints C, members D`, without an end of line. `NoMemory` where there is no room for it.
pub fn text_of_counts(alloc: Global, counts: Counts) -> Result<Text, NoMemory>
    ensures { IfOk result (λ t. t ≡ text_of_counts counts) }
{
    let mut text = Text::new(alloc);
    push_count(&mut text, "statements ", counts.statements)?;
    push_count(&mut text, ", cells ", counts.cells)?;
    push_count(&mut text, ", constraints ", counts.constraints)?;
    push_count(&mut text, ", members ", counts.members)?;
    Ok(text)
}

/// Writes a number behind what it counts.
fn push_count(text: &mut Text, what: &str, count: u64) -> Result<(), NoMemory>
    ensures { OnOk result (text.new ≡ text.old ++ counted what.now count) }
{
    text.push_str(what)?;
    text.push_u64(count)
}
