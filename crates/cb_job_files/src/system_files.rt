//! The files of the system. Nothing is known of what their reads give: this file is all that stands between the system and
//! what is proved of the text of any file.
ghost use Rattle.std.specs.Io.{ReadsAtMost};

use crate::files::{FileSource, load_named};
use crate::loading::FileFault;
use crate::stored::{FileStore, StoredFile, Unreadable};
use cb_job_ends::texts::Text;
use std::alloc::Global;
use std::fs::{File, OpenFile};
use std::io::{self, ErrorKind, Read};
use std::os::unix::fs::FileExt;
use std::rt::Files;
use std::thread::Threads;

/// How often a read is tried that signals interrupt.
const TRIES: u32 = 1_000_000;

/// The files that a handle reaches.
#[derive(Drop)]
pub struct SystemFiles<'a, H: Files<File = File> + AllocGlobal> {
    files: &'a H,
}

impl<'a, H: Files<File = File> + AllocGlobal> SystemFiles<'a, H> {
    /// The files that this handle reaches.
    pub fn new(files: &'a H) -> SystemFiles<'a, H> {
        SystemFiles { files }
    }
}

impl<H: Files<File = File> + AllocGlobal> FileStore<SystemFile> for SystemFiles<'_, H> {
    ghost opens = { λ _ _ _. Unit {0} };

    ghost lacks = { λ _ _. Unit {0} };

    fn open(&self, name: &str) -> Result<SystemFile, Unreadable> {
        let Ok(file) = File::open(self.files, name) else {
            return Err(Unreadable);
        };
        let length = match file.metadata() {
            Ok(about) if about.is_file() && about.len() > 0 => Some(about.len()),
            _ => None,
        };
        Ok(SystemFile { file, length })
    }

    fn alloc(&self) -> Global {
        self.files.alloc()
    }
}

impl<R: Threads + Sync, H: Files<File = File> + AllocGlobal> FileSource<R> for SystemFiles<'_, H> {
    ghost holds = { λ _ _ _. Unit {0} };

    ghost refuses = { λ _ _. Unit {0} };

    fn load(&self, rt: &R, name: &str, threads: u32) -> Result<Text, FileFault> {
        load_named(rt, self, name, threads)
    }
}

/// An open file of the system, and how long it was when it was opened, if it is a file on a disk.
#[derive(Drop)]
pub struct SystemFile {
    file: File,
    length: Option<u64>,
}

impl SystemFile {
    /// Reads once: a file on a disk at a place, and any other where its last read ended.
    fn read_once(&self, place: u64, into: &mut [u8]) -> io::Result<usize>
        ensures { ReadsAtMost result into.new }
    {
        let mut file = &self.file;
        match self.length {
            Some(_) => file.read_at(into, place),
            None => file.read(into),
        }
    }
}

impl StoredFile for SystemFile {
    ghost gives = { λ _ _ _. Unit {0} };

    ghost says = { λ _ _. Unit {0} };

    ghost fails = { λ _. Unit {0} };

    fn length(&self) -> Option<u64> {
        self.length
    }

    fn read_at(&self, place: u64, into: &mut [u8]) -> Result<usize, Unreadable> {
        for _ in 0..TRIES {
            match self.read_once(place, into) {
                Ok(count) => return Ok(count),
                Err(error) if error.kind() == ErrorKind::Interrupted => {}
                Err(_) => return Err(Unreadable),
            }
        }
        Err(Unreadable)
    }
}
