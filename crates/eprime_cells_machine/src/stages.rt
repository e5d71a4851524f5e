use crate::values::{CellLetting, CellRange, CellValue, Number};
use ess_rows::{Row, Text};

/// What is wanted next, or what was just read, in the ranges of a list.
#[derive(Clone, Copy)]
pub(crate) enum RangeStage {
    /// The first number of a range.
    LowWanted,
    /// Its digits, behind `-`.
    LowDigitsWanted,
    /// The first number was read.
    LowRead(Number),
    /// The second number, behind the first and `..`.
    HighWanted(Number),
    /// Its digits, behind `-`.
    HighDigitsWanted(Number),
    /// A range with two numbers was read.
    RangeRead,
}

/// What is wanted next, or what was just read, in a value.
#[derive(Drop)]
pub(crate) enum Stage {
    /// A value.
    ValueWanted,
    /// A value or `]`, behind `[`.
    FirstWanted,
    /// The digits of a number, behind `-`.
    DigitsWanted,
    /// An item was read into the innermost list.
    ItemRead,
    /// `int`, behind `;`.
    IntWanted,
    /// `(`, behind that.
    OpenWanted,
    /// Ranges, of which some are read.
    InRanges(Row<CellRange>, RangeStage),
    /// `]`, behind the `)` that closes the ranges.
    CloseWanted(Row<CellRange>),
}

/// A letting whose value is under way.
#[derive(Drop)]
pub(crate) struct Begun {
    /// The lettings before it.
    pub(crate) done: Row<CellLetting>,
    /// Its name.
    pub(crate) name: Text,
    /// The items of the lists that are open, the innermost list last.
    pub(crate) lists: Row<Row<CellValue>>,
}

/// What is wanted next outside of values.
#[derive(Clone, Copy)]
pub(crate) enum Wanted {
    /// A language line, a letting or the end.
    Anything,
    /// `ESSENCE'`, behind `language`.
    Prime,
    /// The first number of the language line.
    Major,
    /// Its dot.
    Dot,
    /// Its second number.
    Minor,
    /// A letting or the end.
    Letting,
}

/// Where in a text a machine is.
#[derive(Drop)]
pub(crate) enum State {
    /// Outside of values, behind some lettings.
    Outside(Row<CellLetting>, Wanted),
    /// Behind some lettings and the word `letting`: a name is wanted.
    Unnamed(Row<CellLetting>),
    /// Behind the name too: `be` is wanted.
    Named(Row<CellLetting>, Text),
    /// In a value.
    InValue(Begun, Stage),
}
