//! The files of a job, and the texts that are loaded from them.
ghost use Rattle.std.specs.Prelude.{◌≡◌, ◌≤◌, ℕ, List, length, vec_len, vec_capacity, IfOk, IfErr, IsErrOf, OnOk};
ghost use Rattle.std.specs.Thread.{IsSync};
ghost use Rattle.cb_job_files.specs.Files.{AreTexts, IsUnloaded, name_at};
ghost use Rattle.cb_job_files.specs.StoredFiles.{HoldsWhole, IsRefused};

use crate::loading::{FileFault, load};
use crate::stored::{FileStore, StoredFile};
use cb_job_ends::texts::Text;
use std::alloc::{AllocError, Global};
use std::thread::Threads;

/// A set of files, found by name.
pub trait FileSource<R: Threads + Sync> {
    /// The file with this name may contain these bytes.
    ghost holds: { Self → List ℕ → List ℕ → Type 0 };

    /// The file with this name may be unreadable.
    ghost refuses: { Self → List ℕ → Type 0 };

    /// Reads all bytes of the file with this name, by at most this many threads.
    fn load(&self, rt: &R, name: &str, threads: u32) -> Result<Text, FileFault>
        requires sync { IsSync R.row }
        ensures bytes { IfOk result (λ t. holds self.now name.now t) }
        ensures refused { IsErrOf result FileFault.Unreadable → refuses self.now name.now };
}

/// Loads the file with this name by at most this many threads.
pub fn load_named<R: Threads + Sync, F: StoredFile, S: FileStore<F>>(
    rt: &R,
    store: &S,
    name: &str,
    threads: u32,
) -> Result<Text, FileFault>
    ensures bytes { IfOk result (HoldsWhole (S.opens store.now name.now) F.gives F.says) }
    ensures refused { IsErrOf result FileFault.Unreadable → IsRefused (S.lacks store.now name.now) (S.opens store.now name.now) F.fails F.gives F.says }
{
    let file = store.open(name)?;
    load(rt, store.alloc(), &file, threads)
}

/// Why the texts of a job can't all be loaded.
#[derive(Clone, Copy)]
pub enum LoadFault {
    /// The file at this position in the list of names can't be read.
    Unreadable(usize),
    /// Memory for the texts, or for their list, was refused.
    Memory,
}

impl From<AllocError> for LoadFault {
    ghost use Rattle.cb_job_files.specs.declared.files.LoadFault.TheVariants.{Memory};

    ghost from_gives = { λ _ e. e ≡ Memory };

    fn from(_error: AllocError) -> LoadFault {
        LoadFault::Memory
    }
}

/// The name at this position, or an empty one.
pub fn name_at(names: &[String], which: usize) -> &str
    ensures { result.now ≡ name_at names.now which }
{
    match names.get(which) {
        Some(name) => name.as_str(),
        None => "",
    }
}

/// Loads the files in the order of their names into a list that is empty and has room for their texts. The first file that
/// can't be read ends it.
fn load_all<F: FileSource<R>, R: Threads + Sync>(
    rt: &R,
    files: &F,
    names: &[String],
    threads: u32,
    texts: &mut Vec<Text>,
) -> Result<(), LoadFault>
    requires empty { vec_len texts.old ≡ 0 }
    requires room { length names.now ≤ vec_capacity texts.old }
    ensures texts { OnOk result (AreTexts (F.holds files.now) names.now texts.new.items) }
    ensures fault { IfErr result (IsUnloaded (F.holds files.now) (F.refuses files.now) names.now) }
{
    for which in 0..names.len() {
        match files.load(rt, name_at(names, which), threads) {
            Ok(text) => texts.push_reserved(text),
            Err(FileFault::Unreadable) => return Err(LoadFault::Unreadable(which)),
            Err(FileFault::Memory) => return Err(LoadFault::Memory),
        }
    }
    Ok(())
}

/// Loads the files in the order of their names. The first file that can't be read ends it.
pub fn texts_of<F: FileSource<R>, R: Threads + Sync>(
    rt: &R,
    alloc: Global,
    files: &F,
    names: &[String],
    threads: u32,
) -> Result<Vec<Text>, LoadFault>
    ensures texts { IfOk result (λ v. AreTexts (F.holds files.now) names.now v.items) }
    ensures fault { IfErr result (IsUnloaded (F.holds files.now) (F.refuses files.now) names.now) }
{
    let mut texts = Vec::with_capacity(alloc, names.len())?;
    load_all(rt, files, names, threads, &mut texts)?;
    Ok(texts)
}
