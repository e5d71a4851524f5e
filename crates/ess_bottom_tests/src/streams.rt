// Streams that end or fail half way.
ghost use Rattle.std.specs.Prelude.{◌≤◌, IfOk};

use crate::shown::put;
use ess_io::{DiskFiles, FileNo, Files, StdSink, put_all};
use ess_rows::NoMemory;
use std::alloc::{Allocator, Global};
use std::fs::{Metadata, OpenFile, OpenOptions};
use std::io::{ErrorKind, Read, Seek, SeekFrom, Write};
use std::{io, rt};

/// A stream of one byte a call, whose third call ends it or fails.
#[derive(Drop)]
pub(crate) struct Halting {
    call: u32,
    how: Option<ErrorKind>,
}

impl Halting {
    fn next(&mut self) -> io::Result<usize>
        ensures { IfOk result (λ count. count ≤ 1) }
    {
        self.call = self.call.saturating_add(1);
        if self.call != 3 {
            return Ok(1);
        }
        match self.how {
            Some(kind) => Err(kind.into()),
            None => Ok(0),
        }
    }
}

impl Read for Halting {
    fn read(&mut self, buf: &mut [u8]) -> io::Result<usize> {
        if buf.is_empty() {
            return Ok(0);
        }
        buf[0] = b'x';
        self.next()
    }
}

impl Write for Halting {
    fn write(&mut self, buf: &[u8]) -> io::Result<usize> {
        if buf.is_empty() {
            return Ok(0);
        }
        self.next()
    }

    fn flush(&mut self) -> io::Result<()> {
        Ok(())
    }
}

/// The answer of all that these files don't do.
fn unsupported<T>() -> io::Result<T> {
    Err(ErrorKind::Unsupported.into())
}

impl Seek for Halting {
    fn seek(&mut self, _pos: SeekFrom) -> io::Result<u64> {
        unsupported()
    }
}

impl OpenFile for Halting {
    fn metadata(&self) -> io::Result<Metadata> {
        unsupported()
    }

    fn set_len(&self, _size: u64) -> io::Result<()> {
        unsupported()
    }

    fn sync_all(&self) -> io::Result<()> {
        unsupported()
    }

    fn sync_data(&self) -> io::Result<()> {
        unsupported()
    }
}

/// A system whose files all are such streams.
#[derive(Drop)]
pub(crate) struct HaltingSystem {
    how: Option<ErrorKind>,
}

impl rt::Files for HaltingSystem {
    type File = Halting;

    type Dir = Halting;

    fn open_file(&self, _how: &OpenOptions, _path: &str) -> io::Result<Halting> {
        Ok(Halting {
            call: 0,
            how: self.how,
        })
    }

    fn open_dir(&self, _path: &str) -> io::Result<Halting> {
        unsupported()
    }

    fn metadata(&self, _path: &str) -> io::Result<Metadata> {
        unsupported()
    }

    fn symlink_metadata(&self, _path: &str) -> io::Result<Metadata> {
        unsupported()
    }

    fn copy(&self, _from: &str, _to: &str) -> io::Result<u64> {
        unsupported()
    }

    fn rename(&self, _from: &str, _to: &str) -> io::Result<()> {
        unsupported()
    }

    fn remove_file(&self, _path: &str) -> io::Result<()> {
        unsupported()
    }

    fn create_dir(&self, _path: &str) -> io::Result<()> {
        unsupported()
    }

    fn remove_dir(&self, _path: &str) -> io::Result<()> {
        unsupported()
    }

    fn remove_dir_all<B: Allocator>(&self, _alloc: B, _path: &str) -> io::Result<()> {
        unsupported()
    }
}

/// How a stream halts.
fn how_of(word: &str) -> Option<ErrorKind> {
    match word {
        "interrupted" => Some(ErrorKind::Interrupted),
        "denied" => Some(ErrorKind::PermissionDenied),
        "missing" => Some(ErrorKind::NotFound),
        "memory" => Some(ErrorKind::OutOfMemory),
        "broken" => Some(ErrorKind::BrokenPipe),
        _ => None,
    }
}

/// How many bytes a read answers of a file that halts, where at most so many are asked for, and one more.
pub(crate) fn read(alloc: Global, out: &mut String, fields: &str) -> Result<(), NoMemory> {
    let (word, max) = fields.split_once('#').unwrap_or((fields, ""));
    let mut files = DiskFiles::new(HaltingSystem { how: how_of(word) });
    match files.read(alloc, "a", max.parse().unwrap_or(0)) {
        Ok(bytes) => put(out, &bytes.len()),
        Err(FileNo::NoMemory) if word != "memory" => Err(NoMemory),
        Err(no) => put(out, &no),
    }
}

/// What `put_all` answers of a stream that halts.
pub(crate) fn write(out: &mut String, word: &str) -> Result<(), NoMemory> {
    let mut sink = StdSink::new(Halting {
        call: 0,
        how: how_of(word),
    });
    put(out, &put_all(&mut sink, b"line\n"))
}
