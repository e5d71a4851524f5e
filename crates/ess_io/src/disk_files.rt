// The files of the system.
ghost use Rattle.std.specs.Prelude.{◌≡◌, ◌≢◌, ◌+◌, ◌≤◌, None, IfOk, OnOk, length, vec_len};
ghost use Rattle.std.specs.Result.{IsErrOf};
ghost use Rattle.ess_io.specs.Counts.{raised};

use crate::{FileNo, Files};
use std::alloc::Global;
use std::fs::File;
use std::io::{ErrorKind, Read, Write};
use std::path::Path;
use std::{fs, io, rt};

const CHUNK: usize = 8192;

/// The files that a runtime reaches: those of the system, where it is made with the `HostRuntime`. It doesn't tell what
/// they hold, since another program may change them at any time.
#[derive(Drop)]
pub struct DiskFiles<R> {
    system: R,
    faults: u64,
    misses: u64,
    reads: u64,
}

impl<R> DiskFiles<R> {
    /// The files of this runtime. No memory.
    pub fn new(system: R) -> DiskFiles<R>
        ensures { result ≡ record { system = system; faults = 0; misses = 0; reads = 0 } }
    {
        DiskFiles {
            system,
            faults: 0,
            misses: 0,
            reads: 0,
        }
    }

    // Counts a failure or a missing file.
    fn note(&mut self, no: FileNo) -> FileNo
        ensures same { result ≡ no }
        ensures missing { no ≡ FileNo.Missing → self.new ≡ record self.old { misses = raised self.old.misses } }
        ensures failed { no ≡ FileNo.Failed → self.new ≡ record self.old { faults = raised self.old.faults } }
        ensures no_memory { no ≡ FileNo.NoMemory → self.new ≡ self.old }
        ensures read_count { self.new.reads ≡ self.old.reads }
        ensures fault_count { self.old.faults ≤ self.new.faults }
        ensures miss_count { self.old.misses ≤ self.new.misses }
    {
        match no {
            FileNo::Missing => self.misses = self.misses.saturating_add(1),
            FileNo::Failed => self.faults = self.faults.saturating_add(1),
            FileNo::NoMemory => {}
        }
        no
    }
}

impl<R: rt::Files> Files for DiskFiles<R> {
    ghost tree = { λ _. None };

    ghost faults = { λ files. files.faults };

    ghost misses = { λ files. files.misses };

    ghost reads = { λ files. files.reads };

    fn read(&mut self, alloc: Global, name: &str, max: u64) -> Result<Vec<u8>, FileNo>
        ensures bound { IfOk result (λ bytes. vec_len bytes ≤ max + 1) }
        ensures ok { OnOk result (self.new ≡ record self.old { reads = raised self.old.reads }) }
        ensures missing { IsErrOf result FileNo.Missing
            → self.new ≡ record self.old { misses = raised self.old.misses; reads = raised self.old.reads } }
        ensures failed { IsErrOf result FileNo.Failed
            → self.new ≡ record self.old { faults = raised self.old.faults; reads = raised self.old.reads } }
        ensures no_memory { IsErrOf result FileNo.NoMemory → self.new ≡ record self.old { reads = raised self.old.reads } }
        ensures counted { self.new.reads ≡ raised self.old.reads }
        ensures fault_count { self.old.faults ≤ self.new.faults }
        ensures miss_count { self.old.misses ≤ self.new.misses }
    {
        self.reads = self.reads.saturating_add(1);
        match read_file(&self.system, alloc, name, max) {
            Ok(bytes) => Ok(bytes),
            Err(no) => Err(self.note(no)),
        }
    }

    /// Makes the folder of the name first, where it is missing.
    fn write(&mut self, _alloc: Global, name: &str, bytes: &[u8]) -> Result<(), FileNo>
        ensures ok { OnOk result (self.new ≡ self.old) }
        ensures failed { IsErrOf result FileNo.Failed → self.new ≡ record self.old { faults = raised self.old.faults } }
        ensures no_memory { IsErrOf result FileNo.NoMemory → self.new ≡ self.old }
        ensures never_missing { ¬ IsErrOf result FileNo.Missing }
        ensures no_read { self.new.reads ≡ self.old.reads }
        ensures fault_count { self.old.faults ≤ self.new.faults }
    {
        match write_file(&self.system, name, bytes) {
            Ok(()) => Ok(()),
            Err(e) => Err(self.note(why_failed(e.kind()))),
        }
    }
}

// What a call that failed is answered with.
fn why_failed(kind: ErrorKind) -> FileNo
    ensures { result ≢ FileNo.Missing }
{
    match kind {
        ErrorKind::OutOfMemory => FileNo::NoMemory,
        _ => FileNo::Failed,
    }
}

// What is answered where a file can't be opened for reading.
fn why_closed(kind: ErrorKind) -> FileNo {
    match kind {
        ErrorKind::NotFound => FileNo::Missing,
        _ => why_failed(kind),
    }
}

// Reads some bytes into the chunk, and answers how many; 0 at the end of the file.
fn read_some<F: Read>(file: &mut F, chunk: &mut [u8]) -> Result<usize, FileNo>
    ensures { IfOk result (λ count. count ≤ length chunk.old) }
{
    for _ in 0..u64::MAX {
        match file.read(chunk) {
            Ok(count) => return Ok(count),
            Err(e) if e.kind() == ErrorKind::Interrupted => {}
            Err(e) => return Err(why_failed(e.kind())),
        }
    }
    Err(FileNo::Failed)
}

// The first `max + 1` bytes that are left of the file, or all of them.
pub(crate) fn read_start<F: Read>(alloc: Global, file: &mut F, max: u64) -> Result<Vec<u8>, FileNo>
    ensures { IfOk result (λ bytes. vec_len bytes ≤ max + 1) }
{
    let mut bytes = Vec::new(alloc);
    let mut chunk = [0; CHUNK];
    for _ in 0..u64::MAX {
        let held = bytes.len() as u64;
        if held > max {
            return Ok(bytes);
        }
        let most = (max - held).min(CHUNK as u64 - 1) as usize + 1;
        let count = read_some(file, &mut chunk[..most])?;
        if count == 0 {
            return Ok(bytes);
        }
        bytes.extend_from_slice(&chunk[..count])?;
    }
    Err(FileNo::Failed)
}

// Opens the file and reads its start.
fn read_file<R: rt::Files>(
    system: &R,
    alloc: Global,
    name: &str,
    max: u64,
) -> Result<Vec<u8>, FileNo>
    ensures { IfOk result (λ bytes. vec_len bytes ≤ max + 1) }
{
    match File::open(system, name) {
        Ok(mut file) => read_start(alloc, &mut file, max),
        Err(e) => Err(why_closed(e.kind())),
    }
}

// Makes the folder of the name where it is missing, and then the file.
fn write_file<R: rt::Files>(system: &R, name: &str, bytes: &[u8]) -> io::Result<()> {
    if let Some(folder) = Path::new(name).parent() {
        fs::create_dir_all(system, folder)?;
    }
    let mut file = File::create(system, name)?;
    file.write_all(bytes)
}
