ghost use Rattle.std.specs.Prelude.{◌≡◌, min};

/// A place in a text: its line and its column, both counted from 1. Columns count bytes.
///
/// A count above 2^32 - 1 is given as 2^32 - 1.
#[derive(Clone, Copy, PartialEq, Eq, Debug)]
pub struct Place {
    /// The line, from 1.
    pub line: u32,
    /// The byte within the line, from 1.
    pub col: u32,
}

impl Place {
    /// The place at a line and a column, both counted from 1. Each is given as 2^32 - 1 where it is more.
    pub fn new(line: u64, col: u64) -> Place
        ensures line { result.line ≡ min line 4294967295 }
        ensures col { result.col ≡ min col 4294967295 }
    {
        Place {
            line: cut_to_u32(line),
            col: cut_to_u32(col),
        }
    }
}

/// The count, or 2^32 - 1 where it is more.
fn cut_to_u32(count: u64) -> u32
    ensures { result ≡ min count 4294967295 }
{
    count.min(4294967295) as u32
}
