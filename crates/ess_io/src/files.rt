// Files by name, as the tool sees them.
ghost use Rattle.std.specs.Prelude.{◌≡◌, ℕ, ◌+◌, ◌≤◌, ◌↔◌, Option, None, Some, IfOk, IfSome, OnOk, OnErr, vec_len};
ghost use Rattle.std.specs.Result.{IsErrOf};
ghost use Rattle.ess_io.specs.Counts.{Rose, raised};
ghost use Rattle.ess_io.specs.Trees.{Tree, file_at, start_of_file, with_file, LeavesPrefix};
ghost use Rattle.ess_io.specs.declared.files.FileNo.TheVariants.{NoMemory as no_memory};

use ess_rows::NoMemory;
use std::alloc::{AllocError, AllocFailed, Global};

/// Why a read or a write gave up.
#[derive(Clone, Copy, Debug, PartialEq, Eq)]
pub enum FileNo {
    /// No file has the name. Only a read answers this.
    Missing,
    /// The outside failed.
    Failed,
    /// Memory ran out.
    NoMemory,
}

/// Files by name. Its ghost members are the tree of what the names hold, which an implementation may leave untold,
/// and three counts that never fall and stand still at 2^64 - 1.
pub trait Files {
    // What each name holds, or `None` where the implementation doesn't tell it.
    ghost tree: { Self → Option Tree };

    // How often the outside has failed.
    ghost faults: { Self → ℕ };

    // How often a read found no file.
    ghost misses: { Self → ℕ };

    // How many reads were made, so that none is made unseen.
    ghost reads: { Self → ℕ };

    /// Reads the first `max + 1` bytes of the file, or all of them where there are fewer, so that an answer of at most
    /// `max` bytes is the whole file. Names are told apart byte by byte.
    ///
    /// `Missing` where no file has the name: only where `misses` rose, and for a told tree exactly where the name isn't in
    /// it and no fault rose. `Failed` only where `faults` rose. `NoMemory` for want of memory. The tree stays as it was.
    fn read(&mut self, alloc: Global, name: &str, max: u64) -> Result<Vec<u8>, FileNo>
        ensures start { IfOk result (λ bytes. IfSome (tree self.old) (λ files.
            start_of_file files name.now (max + 1) ≡ Some bytes.items)) }
        ensures bound { IfOk result (λ bytes. vec_len bytes ≤ max + 1) }
        ensures missed { IsErrOf result FileNo.Missing → Rose (misses self.old) (misses self.new) }
        ensures absent { IfSome (tree self.old) (λ files. IsErrOf result FileNo.Missing
            ↔ ((file_at files name.now ≡ None) × (¬ Rose (faults self.old) (faults self.new)))) }
        ensures failed { IsErrOf result FileNo.Failed → Rose (faults self.old) (faults self.new) }
        ensures same { tree self.new ≡ tree self.old }
        ensures counted { reads self.new ≡ raised (reads self.old) }
        ensures fault_count { faults self.old ≤ faults self.new }
        ensures miss_count { misses self.old ≤ misses self.new };

    /// Puts the name at these bytes, and changes no other name.
    ///
    /// `Failed` only where `faults` rose, `NoMemory` for want of memory. After either the name is as it was or holds a
    /// prefix of the bytes. Never `Missing`: a name that no file has is made.
    fn write(&mut self, alloc: Global, name: &str, bytes: &[u8]) -> Result<(), FileNo>
        ensures ok { OnOk result (tree self.new ≡ with_file (tree self.old) name.now bytes.now) }
        ensures quiet { OnOk result ((faults self.new ≡ faults self.old) × (misses self.new ≡ misses self.old)) }
        ensures err { OnErr result (LeavesPrefix (tree self.old) (tree self.new) name.now bytes.now) }
        ensures failed { IsErrOf result FileNo.Failed → Rose (faults self.old) (faults self.new) }
        ensures never_missing { ¬ IsErrOf result FileNo.Missing }
        ensures no_read { reads self.new ≡ reads self.old }
        ensures fault_count { faults self.old ≤ faults self.new }
        ensures miss_count { misses self.old ≤ misses self.new };
}

impl From<NoMemory> for FileNo {
    ghost from_gives = { λ _ e. e ≡ no_memory };

    fn from(_e: NoMemory) -> FileNo {
        FileNo::NoMemory
    }
}

impl From<AllocError> for FileNo {
    ghost from_gives = { λ _ e. e ≡ no_memory };

    fn from(_e: AllocError) -> FileNo {
        FileNo::NoMemory
    }
}

impl<T: Drop> From<AllocFailed<T>> for FileNo {
    ghost from_gives = { λ _ e. e ≡ no_memory };

    fn from(_e: AllocFailed<T>) -> FileNo {
        FileNo::NoMemory
    }
}
