//! Files in memory of which each read gives a few bytes, of which a read fails, or that have changed their length.
use cb_job_files::loading::{FileFault, load, load_by};
use cb_job_files::stored::{StoredFile, Unreadable};
use std::alloc::{AllocError, Global};
use std::test::Fail;
use std::thread::Threads;

/// How far the end of a line is looked for.
const REACH: usize = 16;

/// A file that says it has `said` bytes. Each read gives at most `step` of them. One fails that begins at `bad` or after it.
#[derive(Drop)]
struct Stored {
    bytes: Vec<u8>,
    said: Option<u64>,
    step: usize,
    bad: usize,
}

impl StoredFile for Stored {
    ghost gives = { λ _ _ _. Unit {0} };

    ghost says = { λ _ _. Unit {0} };

    ghost fails = { λ _. Unit {0} };

    fn length(&self) -> Option<u64> {
        self.said
    }

    fn read_at(&self, place: u64, into: &mut [u8]) -> Result<usize, Unreadable> {
        let place = place as usize;
        if place >= self.bad {
            return Err(Unreadable);
        }
        let left = &self.bytes[place.min(self.bytes.len())..];
        let count = left.len().min(self.step).min(into.len());
        into[..count].copy_from_slice(&left[..count]);
        Ok(count)
    }
}

/// Lines of eleven bytes, this many.
fn lines(alloc: Global, count: u8) -> Result<Vec<u8>, AllocError> {
    let mut bytes = Vec::new(alloc);
    for n in 0..count {
        bytes.resize(bytes.len().saturating_add(10), b'0' + n % 64)?;
        bytes.push(b'\n')?;
    }
    Ok(bytes)
}

/// What is loaded of a file in at most this many parts: how many there are, and their bytes.
fn loaded<R: Threads + Sync>(
    rt: &R,
    alloc: Global,
    file: &Stored,
    count: u64,
) -> Result<(usize, Vec<u8>), FileFault> {
    let text = load_by(rt, alloc, file, file.length(), count, REACH)?;
    let parts = text.parts().1.len().saturating_add(1);
    Ok((parts, text.into_bytes()))
}

/// A file of lines of eleven bytes, this many, with these reads.
fn file_of(alloc: Global, count: u8, step: usize, bad: usize) -> Result<Stored, AllocError> {
    let bytes = lines(alloc, count)?;
    Ok(Stored {
        said: Some(bytes.len() as u64),
        bytes,
        step,
        bad,
    })
}

#[test]
fn are_loaded_in_parts(rt: HostRuntime) -> Result<(), Fail> {
    // One read gives at least a line, so the end of one is found.
    for step in [11, 13, usize::MAX] {
        for count in 1..=5 {
            let file = file_of(rt.alloc(), 20, step, usize::MAX)?;
            let (parts, text) = loaded(&rt, rt.alloc(), &file, count).expect(&rt, "a text");
            assert!(rt; parts as u64 == count, "{step} {count}");
            assert!(rt; text.as_slice() == file.bytes.as_slice(), "{step} {count}");
        }
    }
    Ok(())
}

#[test]
fn are_loaded_whole(rt: HostRuntime) -> Result<(), Fail> {
    for step in [1, 7, usize::MAX] {
        // A line that is longer than the reach, where the file would be cut.
        let mut file = file_of(rt.alloc(), 20, step, usize::MAX)?;
        for byte in file.bytes.iter_mut().skip(100).take(40) {
            *byte = b'x';
        }
        let (parts, text) = loaded(&rt, rt.alloc(), &file, 2).expect(&rt, "a text");
        assert!(rt; parts == 1, "{step}");
        assert!(rt; text.as_slice() == file.bytes.as_slice(), "{step}");
        // A file that doesn't say how long it is.
        file.said = None;
        let (parts, text) = loaded(&rt, rt.alloc(), &file, 2).expect(&rt, "a text");
        assert!(rt; parts == 1, "{step}");
        assert!(rt; text.as_slice() == file.bytes.as_slice(), "{step}");
        let text = load(&rt, rt.alloc(), &file, 4).expect(&rt, "a text");
        assert!(rt;
            text.into_bytes().as_slice() == file.bytes.as_slice(),
            "{step}"
        );
    }
    Ok(())
}

/// Whether a file is refused in one part and in three.
fn is_refused<R: Threads + Sync>(rt: &R, alloc: Global, file: &Stored) -> bool {
    let whole = loaded(rt, alloc, file, 1);
    let parts = loaded(rt, alloc, file, 3);
    whole.err() == Some(FileFault::Unreadable) && parts.err() == Some(FileFault::Unreadable)
}

#[test]
fn are_refused(rt: HostRuntime) -> Result<(), Fail> {
    for step in [1, 7, usize::MAX] {
        // A read fails: the first, one in each third, one where the file ends.
        for bad in [0, 5, 100, 219, 220] {
            let file = file_of(rt.alloc(), 20, step, bad)?;
            assert!(rt; is_refused(&rt, rt.alloc(), &file), "{step} {bad}");
        }
        // It has more bytes than it said, or fewer.
        for said in [0, 1, 110, 219, 221, 230, 1000] {
            let mut file = file_of(rt.alloc(), 20, step, usize::MAX)?;
            file.said = Some(said);
            assert!(rt; is_refused(&rt, rt.alloc(), &file), "{step} {said}");
        }
    }
    Ok(())
}
