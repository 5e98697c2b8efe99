//! Files that are read at any place, and where they are found by name.
ghost use Rattle.std.specs.Prelude.{◌<◌, ℕ, List, Option, length, take, IfOk, OnErr};
ghost use Rattle.std.specs.Io.{ReadsAtMost};

use std::alloc::Global;

/// A file can't be opened, or can't be read to its end.
#[derive(Clone, Copy)]
pub struct Unreadable;

/// An open file, which can be read from any place on.
pub trait StoredFile: Sync + Drop {
    /// A read from this place on may give these bytes. It gives none only if the file ends there or before.
    ghost gives: { Self → ℕ → List ℕ → Type 0 };

    /// The file may say that it has this many bytes, or not say how many.
    ghost says: { Self → Option ℕ → Type 0 };

    /// A read may fail.
    ghost fails: { Self → Type 0 };

    /// How many bytes the file says it has. `None` if it doesn't say, as a pipe.
    fn length(&self) -> Option<u64>
        ensures { says self.now result };

    /// Reads bytes from this place on, at most as many as there is room for, and returns how many. None only if the file ends
    /// there or before. A file that doesn't say its length is read in order, each time where the last read ended.
    fn read_at(&self, place: u64, into: &mut [u8]) -> Result<usize, Unreadable>
        requires room { 0 < length into.old }
        ensures bound { ReadsAtMost result into.new }
        ensures bytes { IfOk result (λ count. gives self.now place (take count into.new)) }
        ensures fault { OnErr result (fails self.now) };
}

/// Where files are found by name.
pub trait FileStore<F: StoredFile> {
    /// This file may be the one with this name.
    ghost opens: { Self → List ℕ → F → Type 0 };

    /// It may be that no file with this name can be opened.
    ghost lacks: { Self → List ℕ → Type 0 };

    /// Opens the file with this name.
    fn open(&self, name: &str) -> Result<F, Unreadable>
        ensures file { IfOk result (opens self.now name.now) }
        ensures fault { OnErr result (lacks self.now name.now) };

    /// The memory that texts are kept in.
    fn alloc(&self) -> Global;
}
