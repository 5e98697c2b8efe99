//! Loads a file, a long one by several threads.
//!
//! A long file is cut where lines end. Each part is loaded by a thread of its own, into memory that this thread is the first to
//! touch. If anything is unexpected (a line is very long, a read fails, memory is refused, or the file changes its length),
//! nothing is kept of the parts, and the caller's thread loads the file from its first byte.
ghost use Rattle.std.specs.Prelude.{◌≡◌, ◌<◌, ◌≤◌, ◌+◌, ◌++◌, ◌^◌, ℕ, List, [], All, length, flat_map, true, false, vec_len, Some, None, IfOk, IfSome, IsErrOf, OnOk, OnErr};
ghost use Rattle.cb_job_files.specs.StoredFiles.{AreRead, IsWhole, IsUnreadable};
ghost use Rattle.cb_job_files.specs.Loading.{IsReadOn, IsReadTo, HasEnded, IsPart, AreInOrder, bytes_of};

use crate::stored::{StoredFile, Unreadable};
use cb_job_ends::texts::Text;
use cb_job_threads::apart::each_apart;
use std::alloc::{AllocError, Global};
use std::thread::Threads;

/// The fewest bytes of a part: each is at least one piece of the text, and more pieces take more time.
const LEAST_BYTES: u64 = 1_048_576;

/// How far the end of a line is looked for.
const REACH: usize = 4_096;

/// The most bytes of one read.
const CHUNK: usize = 131_072;

/// Why a file can't be loaded.
#[derive(Clone, Copy, Debug, PartialEq, Eq)]
pub enum FileFault {
    /// It can't be opened or read to its end, or changed its length while it was read.
    Unreadable,
    /// Memory for its bytes was refused.
    Memory,
}

impl From<Unreadable> for FileFault {
    ghost use Rattle.cb_job_files.specs.declared.loading.FileFault.TheVariants.{Unreadable};

    ghost from_gives = { λ _ e. e ≡ Unreadable };

    fn from(_error: Unreadable) -> FileFault {
        FileFault::Unreadable
    }
}

impl From<AllocError> for FileFault {
    ghost use Rattle.cb_job_files.specs.declared.loading.FileFault.TheVariants.{Memory};

    ghost from_gives = { λ _ e. e ≡ Memory };

    fn from(_error: AllocError) -> FileFault {
        FileFault::Memory
    }
}

/// Appends the bytes that one read of a file gives from this place on, at most so many that the list has `end`. Returns
/// how many.
fn read_on<F: StoredFile>(
    file: &F,
    place: u64,
    end: usize,
    bytes: &mut Vec<u8>,
) -> Result<usize, FileFault>
    requires { vec_len bytes.old < end }
    ensures bytes { IfOk result (IsReadOn (F.gives file.now) place end bytes.old.items bytes.new.items) }
    ensures fault { IsErrOf result FileFault.Unreadable → F.fails file.now }
{
    let done = bytes.len();
    bytes.resize(end, 0)?;
    let count = file.read_at(place, &mut bytes[done..])?;
    bytes.truncate(done + count);
    Ok(count)
}

/// Appends the bytes of a file from this place on to an empty list, until this many are there or the file ends. Returns whether it
/// ended.
fn read_up_to<F: StoredFile>(
    file: &F,
    start: u64,
    most: usize,
    bytes: &mut Vec<u8>,
) -> Result<bool, FileFault>
    requires empty { bytes.old.items ≡ [] }
    requires fits { start + most < 2 ^ 64 }
    ensures read { OnOk result (AreRead (F.gives file.now) start bytes.new.items) }
    ensures end { IfOk result (IsReadTo (F.gives file.now) start most (length bytes.new.items)) }
    ensures fault { IsErrOf result FileFault.Unreadable → F.fails file.now }
{
    while bytes.len() < most {
        let done = bytes.len();
        let end = done + (most - done).min(CHUNK);
        let count = read_on(file, start + done as u64, end, bytes)?;
        if count == 0 {
            return Ok(true);
        }
    }
    Ok(false)
}

/// Whether a file ends at this place or before.
fn has_ended<F: StoredFile>(file: &F, place: u64) -> Result<bool, Unreadable>
    ensures end { IfOk result (HasEnded (F.gives file.now) place) }
    ensures fault { OnErr result (F.fails file.now) }
{
    let mut byte = [0u8; 1];
    let count = file.read_at(place, &mut byte)?;
    Ok(count == 0)
}

/// Loads a file that says it has this many bytes.
fn load_counted<F: StoredFile>(alloc: Global, file: &F, length: u64) -> Result<Vec<u8>, FileFault>
    requires { F.says file.now (Some length) }
    ensures text { IfOk result (λ v. IsWhole (F.gives file.now) (F.says file.now) v.items) }
    ensures fault { IsErrOf result FileFault.Unreadable → IsUnreadable (F.fails file.now) (F.gives file.now) (F.says file.now) }
{
    let mut bytes = Vec::with_capacity(alloc, length as usize)?;
    if read_up_to(file, 0, length as usize, &mut bytes)? {
        return Err(FileFault::Unreadable);
    }
    if !has_ended(file, length)? {
        return Err(FileFault::Unreadable);
    }
    Ok(bytes)
}

/// Loads a file that doesn't say how many bytes it has.
fn load_uncounted<F: StoredFile>(alloc: Global, file: &F) -> Result<Vec<u8>, FileFault>
    requires { F.says file.now None }
    ensures text { IfOk result (λ v. IsWhole (F.gives file.now) (F.says file.now) v.items) }
    ensures fault { IsErrOf result FileFault.Unreadable → F.fails file.now }
{
    let mut bytes = Vec::new(alloc);
    if read_up_to(file, 0, usize::MAX, &mut bytes)? {
        Ok(bytes)
    } else {
        Err(FileFault::Memory)
    }
}

/// A part of a file, from one place up to another, and its bytes if they are loaded.
#[derive(Drop)]
struct Part {
    start: u64,
    end: u64,
    bytes: Vec<u8>,
    is_loaded: bool,
}

impl Part {
    /// Loads the part, unless a read fails or memory is refused. If the file ends before it, it has fewer bytes.
    fn load<F: StoredFile>(&mut self, file: &F)
        ensures { IsPart (F.gives file.now) self.new }
    {
        self.bytes.clear();
        self.is_loaded = false;
        let Some(length) = self.end.checked_sub(self.start) else {
            return;
        };
        match read_up_to(file, self.start, length as usize, &mut self.bytes) {
            Ok(_) => self.is_loaded = true,
            Err(_) => {}
        }
    }
}

/// Finds where the next line of a file begins after a place. None if no line ends within this reach.
fn next_line<F: StoredFile>(alloc: Global, file: &F, place: u64, reach: usize) -> Option<u64> {
    let mut near = Vec::new(alloc);
    near.resize(reach.max(1), 0).ok()?;
    let count = file.read_at(place, &mut near).ok()?;
    let end = near[..count].iter().position(|byte| *byte == b'\n')?;
    place.checked_add(end as u64 + 1)
}

/// Cuts a file of this length into this many parts where lines end. The first has room for all bytes. None if that is
/// fewer than two, if no line ends within this reach of a cut, or if memory is refused.
fn parts_of<F: StoredFile>(
    alloc: Global,
    file: &F,
    length: u64,
    count: u64,
    reach: usize,
) -> Option<Vec<Part>> {
    if count < 2 {
        return None;
    }
    let mut parts = Vec::new(alloc);
    let mut start = 0;
    for n in 1..=count {
        let end = if n < count {
            next_line(alloc, file, (length / count).saturating_mul(n), reach)?
        } else {
            length
        };
        let room = if n == 1 {
            length
        } else {
            end.checked_sub(start)?
        };
        let part = Part {
            start,
            end,
            bytes: Vec::with_capacity(alloc, room as usize).ok()?,
            is_loaded: false,
        };
        parts.push(part).ok()?;
        start = end;
    }
    Some(parts)
}

/// Loads parts, each in a thread of its own.
fn load_each<R: Threads + Sync, F: StoredFile>(rt: &R, file: &F, parts: &mut [Part])
    ensures { All (IsPart (F.gives file.now)) parts.new }
{
    each_apart(rt, &|_, part: &mut Part| part.load(file), parts);
}

/// Where the last part ends, if all are loaded, the first begins at 0, and each other where the one before it ends.
fn end_of(parts: &[Part]) -> Option<u64>
    ensures { IfSome result (AreInOrder 0 parts.now) }
{
    let mut left = parts;
    let mut place = 0u64;
    while let [part, rest @ ..] = left {
        if !part.is_loaded || part.start != place {
            return None;
        }
        place = place.checked_add(part.bytes.len() as u64)?;
        left = rest;
    }
    Some(place)
}

/// The text of parts. None if the first has no room for the bytes of all, or if memory is refused.
fn text_of(alloc: Global, parts: Vec<Part>) -> Option<Text>
    ensures { IfSome result (λ t. t ≡ bytes_of parts.items) }
{
    let mut lists = Vec::with_capacity(alloc, parts.len()).ok()?;
    for part in parts {
        lists.push(part.bytes).ok()?;
    }
    if lists.is_empty() {
        return None;
    }
    let first = lists.remove(0);
    Text::of_parts(first, lists)
}

/// Loads a file that says it has this many bytes by its parts, each in a thread of its own. None if anything is unexpected.
fn load_parts<R: Threads + Sync, F: StoredFile>(
    rt: &R,
    alloc: Global,
    file: &F,
    length: u64,
    parts: Vec<Part>,
) -> Option<Text>
    requires { F.says file.now (Some length) }
    ensures { IfSome result (IsWhole (F.gives file.now) (F.says file.now)) }
{
    let mut parts = parts;
    load_each(rt, file, &mut parts);
    if end_of(&parts)? != length {
        return None;
    }
    match has_ended(file, length) {
        Ok(true) => text_of(alloc, parts),
        _ => None,
    }
}

/// Loads a file that has said how many bytes it has, if it says so, in this many parts, each by a thread. They are cut where a
/// line ends within this reach. If anything is unexpected, this thread loads it from its first byte.
pub fn load_by<R: Threads + Sync, F: StoredFile>(
    rt: &R,
    alloc: Global,
    file: &F,
    said: Option<u64>,
    count: u64,
    reach: usize,
) -> Result<Text, FileFault>
    requires { F.says file.now said }
    ensures text { IfOk result (IsWhole (F.gives file.now) (F.says file.now)) }
    ensures fault { IsErrOf result FileFault.Unreadable → IsUnreadable (F.fails file.now) (F.gives file.now) (F.says file.now) }
{
    let Some(length) = said else {
        let bytes = load_uncounted(alloc, file)?;
        return Ok(Text::whole(alloc, bytes));
    };
    if let Some(parts) = parts_of(alloc, file, length, count, reach) {
        if let Some(text) = load_parts(rt, alloc, file, length, parts) {
            return Ok(text);
        }
    }
    let bytes = load_counted(alloc, file, length)?;
    Ok(Text::whole(alloc, bytes))
}

/// Loads a file by at most this many threads.
pub fn load<R: Threads + Sync, F: StoredFile>(
    rt: &R,
    alloc: Global,
    file: &F,
    threads: u32,
) -> Result<Text, FileFault>
    ensures text { IfOk result (IsWhole (F.gives file.now) (F.says file.now)) }
    ensures fault { IsErrOf result FileFault.Unreadable → IsUnreadable (F.fails file.now) (F.gives file.now) (F.says file.now) }
{
    let said = file.length();
    let most = said.unwrap_or(0) / LEAST_BYTES;
    load_by(rt, alloc, file, said, most.min(u64::from(threads)), REACH)
}
