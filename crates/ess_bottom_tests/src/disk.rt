// The files and streams of the system, in a folder of their own.
use crate::files::{Told, called};
use crate::shown::put;
use ess_io::{DiskFiles, PutNo, StdSink, put_all};
use ess_rows::NoMemory;
use std::alloc::Global;
use std::fmt::Debug;
use std::fs::File;
use std::io::ErrorKind;
use std::{fs, io, rt};

/// The system's files tell nothing without a call.
impl<R> Told for DiskFiles<R> {
    fn put_file(&mut self, _name: &str, _bytes: &[u8]) -> Result<(), NoMemory> {
        Ok(())
    }

    fn told(&self, _name: &str) -> Option<&[u8]> {
        None
    }
}

/// What a stream to a new file answers.
fn written<R: rt::Files>(system: &R, name: &str) -> io::Result<Result<(), PutNo>> {
    fs::create_dir_all(system, "scratch")?;
    let mut sink = StdSink::new(File::create(system, name)?);
    Ok(put_all(&mut sink, b"a line\n"))
}

/// What one answers to a file that is open for reading alone.
fn refused<R: rt::Files>(system: &R, name: &str) -> io::Result<Result<(), PutNo>> {
    let mut sink = StdSink::new(File::open(system, name)?);
    Ok(put_all(&mut sink, b"more"))
}

/// Puts a value, or the kind of the error that came in its place.
fn put_io<T: Debug + Drop>(out: &mut String, answer: io::Result<T>) -> Result<(), NoMemory> {
    match answer {
        Ok(value) => put(out, &value),
        Err(e) if e.kind() == ErrorKind::OutOfMemory => Err(NoMemory),
        Err(e) => put(out, &e.kind()),
    }
}

/// Puts what comes out of a case of these fields.
pub(crate) fn put_answer<R: rt::Files>(
    system: &R,
    alloc: Global,
    out: &mut String,
    call: &str,
    fields: &str,
) -> Result<(), NoMemory> {
    if call == "disk" {
        return called(alloc, out, &mut DiskFiles::new(system), fields);
    }
    put_io(out, written(system, fields))?;
    put_io(out, refused(system, fields))?;
    put_io(out, fs::read_to_string(&(system, alloc), fields))
}
