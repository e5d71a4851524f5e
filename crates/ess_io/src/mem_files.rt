// Files in memory.
ghost use Rattle.std.specs.Prelude.{◌≡◌, ℕ, ◌+◌, ◌<◌, ◌≤◌, ◌↔◌, [], None, Some, IsTrue, IsFalse, IfOk, OnOk, OnErr, IsOkUnless, take};
ghost use Rattle.std.specs.Option.{option_copied};
ghost use Rattle.std.specs.Result.{IsErrOf};
ghost use Rattle.std.specs.FinMap.{empty, insert};
ghost use Rattle.ess_io.specs.Counts.{last_count, raised};
ghost use Rattle.ess_io.specs.Trees.{file_at, start_of_file};
ghost use Rattle.ess_io.specs.MemoryFiles.{is_failing, called, read_called, tree_of};

use crate::calls::Calls;
use crate::{FileNo, Files};
use ess_rows::NoMemory;
use std::alloc::Global;
use std::collections::BTreeMap;
use std::marker::Model;

/// Files in memory. Calls of `read` and `write` are counted together, from 1, and fail at the numbers that it was made
/// with; a call past number 2^64 - 1 has no number and doesn't fail.
#[derive(Drop)]
pub struct MemFiles {
    alloc: Global,
    files: BTreeMap<String, Vec<u8>>,
    calls: Calls,
    cut: u64,
    faults: u64,
    misses: u64,
    reads: u64,
}

impl Model for MemFiles {
    ghost use Rattle.ess_io.specs.MemoryFiles.{Memory, memory_code, tree_of, FaultsAreListed};

    ghost Value = { Memory };

    ghost coded = { memory_code };

    ghost view = { λ a. record { tree = tree_of a.files; fails = a.calls.fails.items; cut = a.cut; made = a.calls.made; faults = a.faults; misses = a.misses; reads = a.reads } };

    ghost invariant = { λ a. FaultsAreListed a.faults a.calls.made a.calls.fails.items };
}

// Puts the name at these bytes.
fn put_file(
    alloc: Global,
    files: &mut BTreeMap<String, Vec<u8>>,
    name: &str,
    bytes: &[u8],
) -> Result<(), NoMemory>
    ensures ok { OnOk result (tree_of files.new ≡ insert (tree_of files.old) name.now bytes.now) }
    ensures err { OnErr result (tree_of files.new ≡ tree_of files.old) }
{
    let key = String::from_str(alloc, name)?;
    let value = Vec::from_slice(alloc, bytes)?;
    files.insert(key, value)?;
    Ok(())
}

// What the name holds.
#[tactic(auto, using(crate::proofs::Entries::file_in_tree))]
fn get_file<'a>(files: &'a BTreeMap<String, Vec<u8>>, name: &str) -> Option<&'a [u8]>
    ensures { option_copied result ≡ file_at (tree_of files.now) name.now }
{
    match files.get(name) {
        Some(bytes) => Some(bytes.as_slice()),
        None => None,
    }
}

// The first bytes, at most so many.
fn first_bytes(bytes: &[u8], count: u64) -> &[u8]
    ensures { result.now ≡ take count bytes.now }
{
    if count < bytes.len() as u64 {
        &bytes[..count as usize]
    } else {
        bytes
    }
}

// A copy of the first `max + 1` bytes.
fn read_bytes(alloc: Global, bytes: &[u8], max: u64) -> Result<Vec<u8>, NoMemory>
    ensures { IfOk result (λ read. read.items ≡ take (max + 1) bytes.now) }
{
    let start = first_bytes(bytes, max.saturating_add(1));
    Ok(Vec::from_slice(alloc, start)?)
}

impl MemFiles {
    /// No files. The calls whose numbers are in `fails` fail, and a write that fails leaves the first `cut` bytes, or
    /// all of them where there are fewer. No memory.
    pub fn new(alloc: Global, fails: Vec<u64>, cut: u64) -> MemFiles
        ensures { result ≡ record { tree = empty; fails = fails.items; cut = cut; made = 0; faults = 0; misses = 0; reads = 0 } }
    {
        MemFiles {
            alloc,
            files: BTreeMap::new(alloc),
            calls: Calls::new(fails),
            cut,
            faults: 0,
            misses: 0,
            reads: 0,
        }
    }

    /// Puts the name at these bytes. It isn't counted as a call. `NoMemory` for want of memory, and then nothing changes.
    pub fn put(&mut self, name: &str, bytes: &[u8]) -> Result<(), NoMemory>
        ensures ok { OnOk result (self.new ≡ record self.old { tree = insert self.old.tree name.now bytes.now }) }
        ensures err { OnErr result (self.new ≡ self.old) }
    {
        put_file(self.alloc, &mut self.files, name, bytes)
    }

    /// What the name holds, and `None` exactly where it isn't in the tree.
    pub fn get(&self, name: &str) -> Option<&[u8]>
        ensures { option_copied result ≡ file_at self.now.tree name.now }
    {
        get_file(&self.files, name)
    }

    // Counts a call, and answers whether it fails.
    fn next_fails(&mut self) -> bool
        ensures fails { result ≡ is_failing self.old }
        ensures counted { self.new ≡ called self.old }
        ensures few_faults { self.new.faults < last_count }
    {
        let fails = self.calls.next();
        if fails {
            self.faults += 1;
        }
        fails
    }
}

impl Files for MemFiles {
    ghost tree = { λ files. Some files.tree };

    ghost faults = { λ files. files.faults };

    ghost misses = { λ files. files.misses };

    ghost reads = { λ files. files.reads };

    /// Fails exactly where the number of the call is listed, and else is `Missing` exactly where the name isn't in the
    /// tree; the counts rise there alone.
    fn read(&mut self, alloc: Global, name: &str, max: u64) -> Result<Vec<u8>, FileNo>
        ensures ok { IfOk result (λ bytes. start_of_file self.old.tree name.now (max + 1) ≡ Some bytes.items) }
        ensures failed { IsErrOf result FileNo.Failed ↔ IsTrue (is_failing self.old) }
        ensures missing { IsErrOf result FileNo.Missing ↔ (IsFalse (is_failing self.old) × (file_at self.old.tree name.now ≡ None)) }
        ensures found { ¬ IsErrOf result FileNo.Missing → self.new ≡ read_called self.old }
        ensures missed { IsErrOf result FileNo.Missing → self.new ≡ record (read_called self.old) { misses = raised self.old.misses } }
        ensures miss_count { self.old.misses ≤ self.new.misses }
        ensures few_faults { self.new.faults < last_count }
    {
        self.reads = self.reads.saturating_add(1);
        if self.next_fails() {
            return Err(FileNo::Failed);
        }
        match get_file(&self.files, name) {
            Some(bytes) => Ok(read_bytes(alloc, bytes, max)?),
            None => {
                self.misses = self.misses.saturating_add(1);
                Err(FileNo::Missing)
            }
        }
    }

    /// Fails exactly where the number of the call is listed, and then leaves the first `cut` bytes at the name. The
    /// memory for those may be wanting too: then it answers `NoMemory`, the tree is as it was, and the failure is counted.
    fn write(&mut self, alloc: Global, name: &str, bytes: &[u8]) -> Result<(), FileNo>
        ensures ok { OnOk result (IsFalse (is_failing self.old)
            × (self.new ≡ record (called self.old) { tree = insert self.old.tree name.now bytes.now })) }
        ensures failed { IsErrOf result FileNo.Failed → IsTrue (is_failing self.old)
            × (self.new ≡ record (called self.old) { tree = insert self.old.tree name.now (take self.old.cut bytes.now) }) }
        ensures no_memory { IsErrOf result FileNo.NoMemory → self.new ≡ called self.old }
        ensures never_missing { ¬ IsErrOf result FileNo.Missing }
    {
        let fails = self.next_fails();
        let left = if fails {
            first_bytes(bytes, self.cut)
        } else {
            bytes
        };
        put_file(alloc, &mut self.files, name, left)?;
        if fails { Err(FileNo::Failed) } else { Ok(()) }
    }
}

/// Files in memory that never fail. Reads are counted, and those of names that aren't in the tree.
#[derive(Drop)]
pub struct SureFiles {
    files: MemFiles,
}

impl Model for SureFiles {
    ghost use Rattle.ess_io.specs.MemoryFiles.{SureMemory, sure_code};
    ghost use Rattle.std.specs.Prelude.{◌≡◌, []};

    ghost Value = { SureMemory };

    ghost coded = { sure_code };

    ghost view = { λ a. record { tree = a.files.tree; misses = a.files.misses; reads = a.files.reads } };

    ghost invariant = { λ a. a.files.fails ≡ [] };
}

impl SureFiles {
    /// No files. No memory.
    pub fn new(alloc: Global) -> SureFiles
        ensures { result ≡ record { tree = empty; misses = 0; reads = 0 } }
    {
        SureFiles {
            files: MemFiles::new(alloc, Vec::new(alloc), 0),
        }
    }

    /// Puts the name at these bytes. `NoMemory` for want of memory, and then nothing changes.
    pub fn put(&mut self, name: &str, bytes: &[u8]) -> Result<(), NoMemory>
        ensures ok { OnOk result (self.new ≡ record self.old { tree = insert self.old.tree name.now bytes.now }) }
        ensures err { OnErr result (self.new ≡ self.old) }
    {
        self.files.put(name, bytes)
    }

    /// What the name holds, and `None` exactly where it isn't in the tree.
    pub fn get(&self, name: &str) -> Option<&[u8]>
        ensures { option_copied result ≡ file_at self.now.tree name.now }
    {
        self.files.get(name)
    }
}

impl Files for SureFiles {
    ghost tree = { λ files. Some files.tree };

    ghost faults = { λ _. 0 };

    ghost misses = { λ files. files.misses };

    ghost reads = { λ files. files.reads };

    fn read(&mut self, alloc: Global, name: &str, max: u64) -> Result<Vec<u8>, FileNo>
        ensures ok { IfOk result (λ bytes. start_of_file self.old.tree name.now (max + 1) ≡ Some bytes.items) }
        ensures missing { IsErrOf result FileNo.Missing ↔ (file_at self.old.tree name.now ≡ None) }
        ensures never_failed { ¬ IsErrOf result FileNo.Failed }
        ensures found { ¬ IsErrOf result FileNo.Missing → self.new ≡ record self.old { reads = raised self.old.reads } }
        ensures missed { IsErrOf result FileNo.Missing
            → self.new ≡ record self.old { misses = raised self.old.misses; reads = raised self.old.reads } }
        ensures miss_count { self.old.misses ≤ self.new.misses }
    {
        self.files.read(alloc, name, max)
    }

    fn write(&mut self, alloc: Global, name: &str, bytes: &[u8]) -> Result<(), FileNo>
        ensures ok { OnOk result (self.new ≡ record self.old { tree = insert self.old.tree name.now bytes.now }) }
        ensures err { OnErr result (self.new ≡ self.old) }
        ensures only { IsOkUnless result FileNo.NoMemory }
    {
        self.files.write(alloc, name, bytes)
    }
}
