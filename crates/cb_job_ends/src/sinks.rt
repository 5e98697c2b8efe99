//! Sinks, to which the answer and the text of a fault are written.
ghost use Rattle.std.specs.Prelude.{◌≡◌, ◌≤◌, ◌<◌, ◌+◌, ◌||◌, ℕ, List, Bool, length, true, false, IfOk, IsErr, Option, Some, None};
ghost use Rattle.std.specs.Io.KnownBytes.{WriteAppends};
ghost use Rattle.std.specs.Io.{WritesAtMost};
ghost use Rattle.cb_job_ends.specs.Sinks.{put_failed, IsPut};

use std::io::Write;

/// A put that failed, or that accepted none of its bytes.
#[derive(Clone, Copy)]
pub struct PutFault;

/// Accepts bytes, some at a time. If a put fails, or accepts none of the bytes, the sink has failed for good: `failed` is
/// true from then on, and never becomes true otherwise.
pub trait Sink {
    /// The bytes written so far, if they are known.
    ghost written: { Self → Option (List ℕ) };

    /// Whether a put failed, or accepted none of its bytes.
    ghost has_failed: { Self → Bool };

    /// Writes a beginning of the bytes, and returns its length. If it fails, no byte is written.
    fn put(&mut self, bytes: &[u8]) -> Result<usize, PutFault>
        ensures bound { WritesAtMost result bytes.now }
        ensures bytes { WriteAppends (written self.old) (written self.new) result bytes.now }
        ensures failed { has_failed self.new ≡ (has_failed self.old || put_failed result bytes.now) };

    /// Whether a put failed, or accepted none of its bytes.
    fn failed(&self) -> bool
        ensures { result ≡ has_failed self.now };
}

/// A sink over a writer. Its bytes are those that the writer reports. An interrupted write counts as failed.
#[derive(Drop)]
pub struct WriterSink<W: Write + Drop> {
    inner: W,
    has_failed: bool,
}

impl<W: Write + Drop> WriterSink<W> {
    ghost use Rattle.cb_job_ends.specs.Writers.{writer_of, has_failed_of};

    /// A sink over a writer, which hasn't failed.
    pub fn new(inner: W) -> WriterSink<W>
        ensures writer { writer_of result ≡ inner }
        ensures works { has_failed_of result ≡ false }
    {
        WriterSink {
            inner,
            has_failed: false,
        }
    }

    /// Returns the writer.
    pub fn into_inner(self) -> W
        ensures { result ≡ writer_of self }
    {
        self.inner
    }
}

impl<W: Write + Drop> Sink for WriterSink<W> {
    ghost written = { λ s. W.contents s.inner };

    ghost has_failed = { λ s. s.has_failed };

    fn put(&mut self, bytes: &[u8]) -> Result<usize, PutFault> {
        match self.inner.write(bytes) {
            Ok(n) => {
                if n == 0 && !bytes.is_empty() {
                    self.has_failed = true;
                }
                Ok(n)
            }
            Err(_) => {
                self.has_failed = true;
                Err(PutFault)
            }
        }
    }

    fn failed(&self) -> bool {
        self.has_failed
    }
}

/// Writes the whole text, by as many puts as it takes. At `PutFault` a beginning of it has been written.
pub fn put_all<K: Sink>(out: &mut K, text: &[u8]) -> Result<(), PutFault>
    requires { K.has_failed out.old ≡ false }
    ensures { IsPut text.now (K.written out.old) (K.written out.new) (K.has_failed out.new) result }
{
    let mut at = 0;
    while at < text.len() {
        let n = out.put(&text[at..])?;
        if n == 0 {
            return Err(PutFault);
        }
        at += n;
    }
    Ok(())
}
