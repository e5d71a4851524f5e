// Files for which there is no memory.
ghost use Rattle.std.specs.Prelude.{None};
ghost use Rattle.ess_io.specs.Counts.{last_count};

use crate::runs::{put_ended, sink};
use ess_io::{FileNo, Files};
use ess_rows::NoMemory;
use std::alloc::Global;

#[derive(Drop)]
struct NoRoom;

impl Files for NoRoom {
    ghost tree = { λ _. None };

    ghost faults = { λ _. 0 };

    ghost misses = { λ _. 0 };

    ghost reads = { λ _. last_count };

    fn read(&mut self, _alloc: Global, _name: &str, _max: u64) -> Result<Vec<u8>, FileNo> {
        Err(FileNo::NoMemory)
    }

    fn write(&mut self, _alloc: Global, _name: &str, _bytes: &[u8]) -> Result<(), FileNo> {
        Err(FileNo::NoMemory)
    }
}

/// A run on these words.
pub(crate) fn put_run(alloc: Global, out: &mut String, words: &str) -> Result<(), NoMemory> {
    let mut told = sink(alloc, "", 99)?;
    let mut refused = sink(alloc, "", 99)?;
    put_ended(alloc, out, words, &mut NoRoom, &mut told, &mut refused)
}
